// The first selection that has a plan, by nested loops over the windows of the choice conditions. Assumes memory that suffices and a
// matrix that is closed for the hulls, as it requires.
ghost use Rattle.std.specs.Prelude.{◌≡◌, ℕ, ◌*◌, ◌≤◌, length, MatchOption, slice_index};
ghost use Rattle.networks.specs.Hull.{hulls};
ghost use Rattle.networks.specs.Plan.{HasPlan};
ghost use Rattle.distances.specs.Closing.{Closes};
ghost use Rattle.distances.specs.Matrix.{Rest};
ghost use Rattle.schedules.specs.Choosing.{ChoicePlaces, FoundFirst};

use crate::choices::turns;
use crate::descent::descend;
use distances::inner::{LegalSource, Link};
use networks::{MOST_CONDITIONS, Source};
use spans::Span;

// The first window of each condition.
pub(crate) fn first_windows() -> [u8; MOST_CONDITIONS]
    ensures long { length result ≡ 64 }
    ensures zeros { (k : ℕ) → slice_index result k ≡ 0 }
{
    [0u8; MOST_CONDITIONS]
}

// Each level chooses a window at the place of one choice condition, closes the matrix for what is chosen so far with the hulls of the
// rest, and passes over all that goes on from it where that admits no plan. Levels past the last choice condition have one turn.
// Kept as six loops left by a label: a level for each of at most six choice conditions; a recursion would carry the level, what is chosen and
// both tables through a contract of its own, and is no plainer. The windows are an array: fixed memory, no heap.
pub(crate) fn first_selection<T: Source>(
    source: &LegalSource<T>,
    places: [Option<usize>; 6],
    matrix: &mut [Option<T::Span>],
    links: &mut [Link],
) -> Option<[u8; MOST_CONDITIONS]>
    requires room { (source.now.points * source.now.points ≤ length matrix.old) × (source.now.points * source.now.points ≤ length links.old) }
    requires places { ChoicePlaces source.now places }
    requires closed { Closes T.Span.Span.kind (hulls source.now) matrix.old }
    ensures found { MatchOption result (HasPlan T.Span.Span.kind source.now → ⊥)
        (λ us. FoundFirst T.Span.Span.kind source.now us matrix.new) }
    ensures rest { Rest source.now.points matrix.old matrix.new }
{
    let asked = source.get();
    let mut found = None;
    let start = first_windows();
    'selections: for a in 0..turns(asked, places[0]) {
        if let Some(one) = descend(source, places, 0, a, start, matrix, links) {
            for b in 0..turns(asked, places[1]) {
                if let Some(two) = descend(source, places, 1, b, one, matrix, links) {
                    for c in 0..turns(asked, places[2]) {
                        if let Some(three) = descend(source, places, 2, c, two, matrix, links) {
                            for d in 0..turns(asked, places[3]) {
                                if let Some(four) = descend(
                                    source, places, 3, d, three, matrix, links,
                                ) {
                                    for e in 0..turns(asked, places[4]) {
                                        if let Some(five) = descend(
                                            source, places, 4, e, four, matrix, links,
                                        ) {
                                            for f in 0..turns(asked, places[5]) {
                                                if let Some(six) = descend(
                                                    source, places, 5, f, five, matrix, links,
                                                ) {
                                                    found = Some(six);
                                                    break 'selections;
                                                }
                                            }
                                        }
                                    }
                                }
                            }
                        }
                    }
                }
            }
        }
    }
    found
}
