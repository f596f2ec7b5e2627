// The looking for a cycle below zero: an edge to a middle point that closes the way from it. Assumes that the memory has room, as each requires.
ghost use Rattle.std.specs.Prelude.{◌≡◌, ℕ, suc, ◌*◌, ◌<◌, ◌≤◌, false, List, length, MatchOption};
ghost use Rattle.distances.specs.Matrix.{table, linked};
ghost use Rattle.distances.specs.Closing.{FoundEdge};
ghost use Rattle.distances.specs.Memory.{blanked};
ghost use Rattle.distances.specs.Table.{joined, below_zero, closes};
ghost use Rattle.distances.specs.Unfolding.{Unfolds, Falls, CycleWritten};

use crate::link::Link;
use crate::matrix::entry;
use crate::route::{Way, Ways};
use spans::Span;

// An edge of a code from `last` back to `first` that closes the way from `first` to `last` below zero.
#[derive(Clone, Copy)]
pub struct ClosingEdge {
    pub first: usize,
    pub last: usize,
    pub code: u16,
}

// Whether both are there and add up below zero.
fn adds_up_below_zero<S: Span>(x: Option<S>, y: Option<S>) -> bool
    ensures { result ≡ below_zero S.Span.kind (joined S.Span.kind x y) }
{
    x.zip(y)
        .and_then(|(a, b)| a.sum(b))
        .is_some_and(|sum| sum.is_less(S::zero()))
}

// Kept as a clause, here and below: the room of the matrix stands beside the ways, since it is lent apart from their links.
// The edge from i to k, where it closes the way from k to i below zero.
fn closing_edge<S: Span>(
    matrix: &[Option<S>],
    ways: &Ways,
    k: usize,
    i: usize,
) -> Option<ClosingEdge>
    requires points { (k < ways.now.n) × (i < k) }
    requires room { ways.now.n * ways.now.n ≤ length matrix.now }
    ensures { MatchOption result (closes S.Span.kind (table ways.now.n matrix.now) (linked ways.now.n ways.now.links.now) k i ≡ false)
        (FoundEdge S.Span.kind (table ways.now.n matrix.now) (linked ways.now.n ways.now.links.now) k) }
{
    match ways.link(i, k) {
        Link::Direct(code)
            if adds_up_below_zero(entry(matrix, ways.n, i, k), entry(matrix, ways.n, k, i)) => {
            Some(ClosingEdge {
                first: k,
                last: i,
                code,
            })
        }
        _ => None,
    }
}

// The edge to k from the first point below it that closes the way from k below zero.
pub(crate) fn find_closing<S: Span>(
    matrix: &[Option<S>],
    ways: &Ways,
    k: usize,
) -> Option<ClosingEdge>
    requires points { k < ways.now.n }
    requires room { ways.now.n * ways.now.n ≤ length matrix.now }
    ensures { MatchOption result
        ((i : ℕ) → i < k → closes S.Span.kind (table ways.now.n matrix.now) (linked ways.now.n ways.now.links.now) k i ≡ false)
        (FoundEdge S.Span.kind (table ways.now.n matrix.now) (linked ways.now.n ways.now.links.now) k) }
{
    (0..k).find_map(|i| closing_edge(matrix, ways, k, i))
}

// Writes the codes of a cycle to the front of `cycle`: the way from the edge's first point to its last, and then the edge back.
// Answers how many.
fn write_cycle(ways: &Ways, edge: ClosingEdge, cycle: &mut [u16]) -> usize
    requires points { (edge.first < ways.now.n) × (edge.last < ways.now.n) }
    requires falls { Falls ways.now.n (linked ways.now.n ways.now.links.now) }
    requires fits { (cs ps : List ℕ) → Unfolds (linked ways.now.n ways.now.links.now) edge.first edge.last cs ps → suc (length cs) ≤ length cycle.old }
    ensures { CycleWritten (linked ways.now.n ways.now.links.now) edge.first edge.last edge.code cycle.old cycle.new result }
{
    let way = Way {
        from: edge.first,
        to: edge.last,
    };
    let edges = ways.unfold(way, cycle);
    cycle[edges] = edge.code;
    edges + 1
}

// What a cycle below zero leaves: its codes in the cycle memory, and the first n×n entries of the matrix blank.
pub(crate) fn give_up<S: Span>(
    ways: &Ways,
    edge: ClosingEdge,
    matrix: &mut [Option<S>],
    cycle: &mut [u16],
) -> usize
    requires points { (edge.first < ways.now.n) × (edge.last < ways.now.n) }
    requires room { ways.now.n * ways.now.n ≤ length matrix.old }
    requires falls { Falls ways.now.n (linked ways.now.n ways.now.links.now) }
    requires fits { (cs ps : List ℕ) → Unfolds (linked ways.now.n ways.now.links.now) edge.first edge.last cs ps → suc (length cs) ≤ length cycle.old }
    ensures cycle { CycleWritten (linked ways.now.n ways.now.links.now) edge.first edge.last edge.code cycle.old cycle.new result }
    ensures blank { matrix.new ≡ blanked ways.now.n matrix.old }
{
    let edges = write_cycle(ways, edge, cycle);
    matrix[..ways.n * ways.n].fill(None);
    edges
}
