// Reading and improving a matrix of n rows in lent memory: the entry of (i, j) stands at place i×n + j. Assumes that the memory has room, as each requires.
ghost use Rattle.std.specs.Prelude.{◌≡◌, ◌+◌, ◌*◌, ◌^◌, ◌<◌, ◌≤◌, length, if◌then◌else◌, None, slice_index_or, slice_set};
ghost use Rattle.distances.specs.Matrix.{square};
ghost use Rattle.distances.specs.Table.{beats};

use crate::link::Link;
use spans::Span;

// The place of (i, j).
pub(crate) fn place(n: usize, i: usize, j: usize) -> usize
    requires { (n * n < 2 ^ 64) × ((i < n) × (j < n)) }
    ensures place { result ≡ i * n + j }
    ensures within { result < n * n }
{
    i * n + j
}

// What stands at (i, j).
pub(crate) fn entry<A: Copy>(cells: &[A], n: usize, i: usize, j: usize) -> A
    requires { (n * n ≤ length cells.now) × ((i < n) × (j < n)) }
    ensures { (z : A) → result ≡ square z n cells.now i j }
{
    cells[place(n, i, j)]
}

// Whether y is there, and x is missing or greater.
fn is_better<S: Span>(y: Option<S>, x: Option<S>) -> bool
    ensures { result ≡ beats S.Span.kind y x }
{
    y.is_some_and(|b| x.is_none_or(|a| b.is_less(a)))
}

// Writes `way` with its link where the entry is missing or greater.
// Kept as two slices with n, here and where both are filled and relaxed: the matrix is the caller's memory, and a struct that lends both as
// `&mut` would have each contract say that n and both references stay, three facts for the two that it saves.
pub(crate) fn improve<S: Span>(
    matrix: &mut [Option<S>],
    links: &mut [Link],
    at: usize,
    way: Option<S>,
    link: Link,
)
    requires { (at < length matrix.old) × (at < length links.old) }
    ensures matrix { matrix.new ≡ (if beats S.Span.kind way (slice_index_or matrix.old at None) then slice_set matrix.old at way else matrix.old) }
    ensures links { links.new ≡ (if beats S.Span.kind way (slice_index_or matrix.old at None) then slice_set links.old at link else links.old) }
{
    if is_better(way, matrix[at]) {
        matrix[at] = way;
        links[at] = link;
    }
}
