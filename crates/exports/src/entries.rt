// Entries of a matrix in numbers, with a mark for each. Assumes that the memory has room, as each requires.
ghost use Rattle.std.specs.Prelude.{◌≡◌, ℕ, ◌+◌, ◌*◌, ◌<◌, ◌≤◌, length, drop, None, slice_index_or};
ghost use Rattle.exports.specs.Meaning.{entry_at};

use crate::spelled::Spelled;

// Entry p; where it is missing, its numbers stay as they were.
fn write_entry<S: Spelled>(entry: Option<S>, p: usize, matrix: &mut [i64], present: &mut [u8])
    requires { (p * S.Spelled.spelling.width + S.Spelled.spelling.width ≤ length matrix.old) × (p < length present.old) }
    ensures here { entry_at S.Spelled.spelling matrix.new present.new p ≡ entry }
    ensures before { (q : ℕ) → q < p → entry_at S.Spelled.spelling matrix.new present.new q ≡ entry_at S.Spelled.spelling matrix.old present.old q }
    ensures rest { (m : ℕ) → p * S.Spelled.spelling.width + S.Spelled.spelling.width ≤ m → drop m matrix.new ≡ drop m matrix.old }
    ensures marks { (m : ℕ) → p < m → drop m present.new ≡ drop m present.old }
{
    // Kept as a match: both arms write, and a method of Option would take a closure that changes what it captures.
    match entry {
        Some(x) => {
            x.write(matrix, p * S::width());
            present[p] = 1;
        }
        None => present[p] = 0,
    }
}

// The first entries of `memory`.
pub(crate) fn write_entries<S: Spelled>(
    memory: &[Option<S>],
    entries: usize,
    matrix: &mut [i64],
    present: &mut [u8],
)
    requires { (entries ≤ length memory.now) × ((entries * S.Spelled.spelling.width ≤ length matrix.old) × (entries ≤ length present.old)) }
    ensures entries { (p : ℕ) → p < entries → entry_at S.Spelled.spelling matrix.new present.new p ≡ slice_index_or memory.now p None }
    ensures rest { drop (entries * S.Spelled.spelling.width) matrix.new ≡ drop (entries * S.Spelled.spelling.width) matrix.old }
    ensures marks { drop entries present.new ≡ drop entries present.old }
{
    for (p, entry) in memory[..entries].iter().enumerate() {
        write_entry(*entry, p, matrix, present);
    }
}
