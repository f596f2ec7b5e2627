// One step down: a window is chosen at a place, and the matrix of what is chosen so far is closed. Assumes memory that suffices, as it requires.
ghost use Rattle.std.specs.Prelude.{◌≡◌, ℕ, suc, ◌*◌, ◌<◌, ◌≤◌, length, MatchOption};
ghost use Rattle.networks.specs.Selection.{chosen};
ghost use Rattle.distances.specs.Closing.{Closes};
ghost use Rattle.distances.specs.Matrix.{Rest};
ghost use Rattle.schedules.specs.Choosing.{place_of, ChoicePlaces, Turns, ChosenUpto, RuledOut, GoesOn};

use distances::inner::{LegalSource, Link, close};
use layers::Chosen;
use networks::{MOST_CONDITIONS, Source};
use spans::Span;

// Window w at place l of the choice conditions: the numbers chosen with it, and the matrix closed for them; or none, where that admits no
// plan. Past the last choice condition there is one window, and what is chosen stays as it was.
pub(crate) fn descend<T: Source>(
    source: &LegalSource<T>,
    places: [Option<usize>; 6],
    l: usize,
    w: usize,
    windows: [u8; MOST_CONDITIONS],
    matrix: &mut [Option<T::Span>],
    links: &mut [Link],
) -> Option<[u8; MOST_CONDITIONS]>
    requires room { (source.now.points * source.now.points ≤ length matrix.old) × (source.now.points * source.now.points ≤ length links.old) }
    requires places { (ChoicePlaces source.now places) × (l < 6) }
    requires upto { ChosenUpto source.now windows (place_of source.now places l) }
    requires turn { (r : ℕ) → Turns source.now (place_of source.now places l) r → w < r }
    requires closed { w ≡ 0 → Closes T.Span.Span.kind (chosen source.now windows (place_of source.now places l)) matrix.old }
    ensures goes { MatchOption result (RuledOut T.Span.Span.kind source.now windows (place_of source.now places l) w)
        (λ us. GoesOn T.Span.Span.kind source.now windows (place_of source.now places l) w us (place_of source.now places (suc l)) matrix.new) }
    ensures rest { Rest source.now.points matrix.old matrix.new }
{
    let Some(place) = places[l] else {
        return Some(windows);
    };
    let asked = source.get();
    let mut chosen = windows;
    chosen[place] = w as u8;
    let part = Chosen::over(asked, chosen, place + 1);
    // Kept as a match: `ok()?` was tried, and what its None says of `close` stayed open.
    match close(&LegalSource::new(&part), matrix, links) {
        Ok(()) => Some(chosen),
        Err(_) => None,
    }
}
