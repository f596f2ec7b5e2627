// One stage of closing a matrix: ways over a middle point are taken where they are shorter. Assumes what each requires: room in the lent memory, and zero at the middle point itself.
ghost use Rattle.std.specs.Prelude.{◌≡◌, ℕ, ◌+◌, ◌*◌, ◌<◌, ◌≤◌, cond, length, Some, None, ◌≢◌, slice_index_or, slice_set};
ghost use Rattle.spans.specs.Kind.{reach};
ghost use Rattle.networks.specs.Limits.{most_points};
ghost use Rattle.distances.specs.Matrix.{table, linked, Rest, RowUpto, RowTaken};
ghost use Rattle.distances.specs.Table.{joined, beats, stage, stage_links, Small};

use crate::link::Link;
use crate::matrix::{entry, improve, place};
use spans::Span;
use std::ops::Range;

// The way on from the span `front` by an entry.
fn way_on<S: Span>(front: S, back: Option<S>) -> Option<S>
    ensures { result ≡ joined S.Span.kind (Some front) back }
{
    front.sum(back?)
}

// The entry at `at`, by the way that begins with `front` and goes on by the entry at `back`.
fn relax_entry<S: Span>(
    matrix: &mut [Option<S>],
    links: &mut [Link],
    at: usize,
    front: S,
    back: usize,
    link: Link,
)
    requires { (at < length matrix.old) × ((at < length links.old) × (back < length matrix.old)) }
    ensures matrix { matrix.new ≡ cond (beats S.Span.kind (joined S.Span.kind (Some front) (slice_index_or matrix.old back None)) (slice_index_or matrix.old at None))
        (slice_set matrix.old at (joined S.Span.kind (Some front) (slice_index_or matrix.old back None))) matrix.old }
    ensures links { links.new ≡ cond (beats S.Span.kind (joined S.Span.kind (Some front) (slice_index_or matrix.old back None)) (slice_index_or matrix.old at None))
        (slice_set links.old at link) links.old }
{
    let way = way_on(front, matrix[back]);
    improve(matrix, links, at, way, link);
}

// Kept as a clause, here and below: at most 48 points, so that the number of the middle point fits a link.
// The entries of row i in the columns of `part`, where its entry to k is `front`; that of i itself is not among them.
fn relax_part<S: Span>(
    matrix: &mut [Option<S>],
    links: &mut [Link],
    n: usize,
    k: usize,
    i: usize,
    front: S,
    part: Range<usize>,
)
    requires points { (n ≤ most_points) × ((i < n) × ((k < n) × ((part.start ≤ part.end) × (part.end ≤ n)))) }
    requires apart { (j : ℕ) → part.start ≤ j → j < part.end → i ≢ j }
    requires room { (n * n ≤ length matrix.old) × (n * n ≤ length links.old) }
    ensures taken { RowTaken S.Span.kind n k i front matrix.old matrix.new links.old links.new part.start part.end }
    ensures rest { Rest n matrix.old matrix.new }
{
    let row = place(n, i, 0);
    let via = place(n, k, 0);
    let link = Link::Over(k as u8);
    // Kept by its ends: `for j in part` was tried, and its invariant did not close.
    for j in part.start..part.end {
        relax_entry(matrix, links, row + j, front, via + j, link);
    }
}

// Row i, whose entry to k is `front`.
fn relax_row<S: Span>(
    matrix: &mut [Option<S>],
    links: &mut [Link],
    n: usize,
    k: usize,
    i: usize,
    front: S,
)
    requires points { (n ≤ most_points) × ((i < n) × (k < n)) }
    requires room { (n * n ≤ length matrix.old) × (n * n ≤ length links.old) }
    requires front { table n matrix.old i k ≡ Some front }
    ensures matrix { RowUpto (table n matrix.old) (table n matrix.new) (stage S.Span.kind (table n matrix.old) k) i n }
    ensures links { RowUpto (linked n links.old) (linked n links.new)
        (stage_links S.Span.kind (table n matrix.old) (linked n links.old) k) i n }
    ensures rest { Rest n matrix.old matrix.new }
{
    relax_part(matrix, links, n, k, i, front, 0..i);
    relax_part(matrix, links, n, k, i, front, i + 1..n);
}

// The stage over k: each row by its entry to k; a row without one stays, and so does that of k itself.
pub(crate) fn relax_stage<S: Span>(matrix: &mut [Option<S>], links: &mut [Link], n: usize, k: usize)
    requires points { (n ≤ most_points) × (k < n) }
    requires room { (n * n ≤ length matrix.old) × (n * n ≤ length links.old) }
    requires diagonal { table n matrix.old k k ≡ Some S.Span.kind.zero }
    requires small { Small S.Span.kind (table n matrix.old) reach }
    ensures matrix { (p q : ℕ) → table n matrix.new p q ≡ stage S.Span.kind (table n matrix.old) k p q }
    ensures links { (p q : ℕ) → linked n links.new p q ≡ stage_links S.Span.kind (table n matrix.old) (linked n links.old) k p q }
    ensures rest { Rest n matrix.old matrix.new }
{
    for i in 0..n {
        if i != k {
            if let Some(front) = entry(matrix, n, i, k) {
                relax_row(matrix, links, n, k, i, front);
            }
        }
    }
}
