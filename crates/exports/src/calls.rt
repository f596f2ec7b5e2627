// Calls of the engine on numbers, for any kind that is spelled in them.
ghost use Rattle.std.specs.Prelude.{◌≡◌, length};
ghost use Rattle.exports.specs.Meaning.{numbers_network, most_entries, AllOrNone, Answered};

use crate::entries::write_entries;
use crate::numbers::{Numbers, of_condition};
use crate::spelled::Spelled;
use distances::tighten;
use networks::Source;
use spans::Span;

// The answer to numbers that are not a call: not those of whole conditions, or no room for the detail.
// Kept as a number, like those of the refusals: the C interface answers in numbers.
const NOT_A_CALL: usize = 100;

// Tightens the network that the numbers mean, in memory for 48 by 48 entries.
pub(crate) fn tighten_numbers<S: Spelled>(
    points: usize,
    conditions: &[i64],
    memory: &mut [Option<S>],
    matrix: &mut [i64],
    present: &mut [u8],
    cycle: &mut [u16],
    detail: &mut [usize],
) -> usize
    requires { length memory.old ≡ most_entries }
    ensures { Answered S.Span.kind S.Spelled.spelling points conditions.now matrix.old present.old cycle.old detail.old
        result matrix.new present.new cycle.new detail.new }
{
    if conditions.len() % of_condition::<S>() != 0 || detail.len() == 0 {
        return NOT_A_CALL;
    }
    let source = Numbers::<S>::new(points, conditions);
    let room = (matrix.len() / S::width())
        .min(present.len())
        .min(memory.len());
    let part = &mut memory[0..room];
    // Kept as a match: both arms write, and the C interface answers in numbers.
    match tighten(&source, part, cycle) {
        Ok(()) => {
            write_entries(part, points * points, matrix, present);
            0
        }
        Err(fault) => {
            detail[0] = fault.detail();
            fault.number()
        }
    }
}

// How many of so many calls for a source are granted.
fn count_granted<T: Source>(
    source: &T,
    memory: &mut [Option<T::Span>],
    cycle: &mut [u16],
    times: usize,
) -> usize
    ensures { AllOrNone T.Span.Span.kind (T.Source.means source.now) (length memory.old) (length cycle.old) times result }
{
    // Kept as a count in a loop: each call writes the lent memory, so a closure for `filter` would need clauses of its own for what it leaves there.
    let mut granted = 0;
    for _i in 0..times {
        if tighten(source, memory, cycle).is_ok() {
            granted += 1;
        }
    }
    granted
}

// The same for the network that the numbers mean; numbers left over mean no condition.
pub(crate) fn close_numbers<S: Spelled>(
    points: usize,
    conditions: &[i64],
    memory: &mut [Option<S>],
    cycle: &mut [u16],
    times: usize,
) -> usize
    ensures { AllOrNone S.Span.kind (numbers_network S.Spelled.spelling points conditions.now) (length memory.old) (length cycle.old) times result }
{
    let source = Numbers::<S>::new(points, conditions);
    count_granted(&source, memory, cycle, times)
}
