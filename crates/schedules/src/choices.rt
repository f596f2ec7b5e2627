// The choice conditions of a source: where they are, and how many windows each has.
ghost use Rattle.std.specs.Prelude.{◌≡◌, ◌+◌, ◌<◌, length, unwrap_or, IfSome, MatchOption};
ghost use Rattle.networks.specs.Network.{condition_at};
ghost use Rattle.schedules.specs.Choosing.{NextChoice, ChoicePlaces};

use distances::inner::LegalSource;
use networks::Source;
use spans::Span;

// The next choice condition from number `from` on.
fn next_choice<T: Source>(source: &T, from: usize) -> Option<usize>
    ensures there { IfSome result (λ k. k < length (T.Source.means source.now).conditions) }
    ensures next { NextChoice (T.Source.means source.now) from (unwrap_or result (length (T.Source.means source.now).conditions)) }
{
    (from..source.conditions()).find(|k| source.windows(*k) > 1)
}

// The next choice condition after the one at `place`, if that is there.
fn choice_after<T: Source>(source: &LegalSource<T>, place: Option<usize>) -> Option<usize>
    requires there { IfSome place (λ k. k < length source.now.conditions) }
    ensures there { IfSome result (λ k. k < length source.now.conditions) }
    ensures next { NextChoice source.now (unwrap_or place (length source.now.conditions) + 1)
        (unwrap_or result (length source.now.conditions)) }
{
    next_choice(source.get(), place? + 1)
}

// The places of the choice conditions, of which there are at most six.
// Kept as six lines: each step starts behind the place before it, which `from_fn` would hold in a closure that changes.
pub(crate) fn choice_places<T: Source>(source: &LegalSource<T>) -> [Option<usize>; 6]
    ensures { ChoicePlaces source.now result }
{
    let a = next_choice(source.get(), 0);
    let b = choice_after(source, a);
    let c = choice_after(source, b);
    let d = choice_after(source, c);
    let e = choice_after(source, d);
    let f = choice_after(source, e);
    [a, b, c, d, e, f]
}

// How many windows there are to choose from at a place; one where there is none.
pub(crate) fn turns<T: Source>(source: &T, place: Option<usize>) -> usize
    ensures { MatchOption place (result ≡ 1) (λ k. result ≡ length (condition_at (T.Source.means source.now) k).windows) }
{
    place.map_or(1, |k| source.windows(k))
}
