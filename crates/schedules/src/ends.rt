// Both ends of the distance between two points over all plans, by nested loops over the windows of the choice conditions. Assumes memory that
// suffices, points that are there and a matrix that is closed for the hulls, as it requires.
ghost use Rattle.std.specs.Prelude.{◌≡◌, ◌*◌, ◌<◌, ◌≤◌, length, Some};
ghost use Rattle.networks.specs.Limits.{most_points};
ghost use Rattle.networks.specs.Hull.{hulls};
ghost use Rattle.networks.specs.Plan.{Plan};
ghost use Rattle.distances.specs.Closing.{Closes};
ghost use Rattle.distances.specs.Edges.{opposite_end};
ghost use Rattle.distances.specs.Matrix.{Rest};
ghost use Rattle.schedules.specs.Choosing.{ChoicePlaces};
ghost use Rattle.schedules.specs.Sweeping.{entry_ends, lower_end, higher_end, joined_ends, Swept};

use crate::choices::turns;
use crate::descent::descend;
use crate::selections::first_windows;
use distances::inner::{LegalSource, Link};
use networks::Source;
use spans::Span;

// The opposite of an end, where both are there.
fn opposite<S: Span>(end: Option<S>) -> Option<S>
    ensures { result ≡ opposite_end S.Span.kind end }
{
    end?.opposite()
}

// The ends that a closed matrix of n rows shows: the opposite of the entry back, and the entry ahead.
fn matrix_ends<S: Span>(
    matrix: &[Option<S>],
    n: usize,
    i: usize,
    j: usize,
) -> (Option<S>, Option<S>)
    requires { (n ≤ most_points) × (n * n ≤ length matrix.now) × (i < n) × (j < n) }
    ensures { result ≡ entry_ends S.Span.kind n i j matrix.now }
{
    (opposite(matrix[j * n + i]), matrix[i * n + j])
}

// The lesser of two low ends; missing where one of them is.
fn lower<S: Span>(x: Option<S>, y: Option<S>) -> Option<S>
    ensures { result ≡ lower_end S.Span.kind x y }
{
    let a = x?;
    let b = y?;
    Some(if b.is_less(a) { b } else { a })
}

// The greater of two high ends; missing where one of them is.
fn higher<S: Span>(x: Option<S>, y: Option<S>) -> Option<S>
    ensures { result ≡ higher_end S.Span.kind x y }
{
    let a = x?;
    let b = y?;
    Some(if a.is_less(b) { b } else { a })
}

// The ends so far, where there are some, widened to hold more.
fn joined<S: Span>(
    ends: Option<(Option<S>, Option<S>)>,
    more: (Option<S>, Option<S>),
) -> Option<(Option<S>, Option<S>)>
    ensures { result ≡ joined_ends S.Span.kind ends (Some more) }
{
    match ends {
        None => Some(more),
        Some(x) => Some((lower(x.0, more.0), higher(x.1, more.1))),
    }
}

// Goes through all selections that have a plan, and joins the ends of each; none where no selection has one.
// Kept as six loops: a level for each of at most six choice conditions, as in `first_selection`, which stops at the first that has a plan.
pub(crate) fn both_ends<T: Source>(
    source: &LegalSource<T>,
    i: usize,
    j: usize,
    places: [Option<usize>; 6],
    matrix: &mut [Option<T::Span>],
    links: &mut [Link],
) -> Option<(Option<T::Span>, Option<T::Span>)>
    requires there { (i < source.now.points) × (j < source.now.points) }
    requires room { (source.now.points * source.now.points ≤ length matrix.old) × (source.now.points * source.now.points ≤ length links.old) }
    requires places { ChoicePlaces source.now places }
    requires closed { Closes T.Span.Span.kind (hulls source.now) matrix.old }
    ensures ends { Swept T.Span.Span.kind (Plan T.Span.Span.kind source.now) i j result }
    ensures rest { Rest source.now.points matrix.old matrix.new }
{
    let asked = source.get();
    let n = source.points();
    let mut ends = None;
    let start = first_windows();
    for a in 0..turns(asked, places[0]) {
        if let Some(one) = descend(source, places, 0, a, start, matrix, links) {
            for b in 0..turns(asked, places[1]) {
                if let Some(two) = descend(source, places, 1, b, one, matrix, links) {
                    for c in 0..turns(asked, places[2]) {
                        if let Some(three) = descend(source, places, 2, c, two, matrix, links) {
                            for d in 0..turns(asked, places[3]) {
                                if let Some(four) = descend(
                                    source, places, 3, d, three, matrix, links,
                                ) {
                                    for e in 0..turns(asked, places[4]) {
                                        if let Some(five) = descend(
                                            source, places, 4, e, four, matrix, links,
                                        ) {
                                            for f in 0..turns(asked, places[5]) {
                                                if let Some(_) = descend(
                                                    source, places, 5, f, five, matrix, links,
                                                ) {
                                                    ends = joined(
                                                        ends,
                                                        matrix_ends(matrix, n, i, j),
                                                    );
                                                }
                                            }
                                        }
                                    }
                                }
                            }
                        }
                    }
                }
            }
        }
    }
    ends
}
