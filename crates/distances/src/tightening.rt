// Tightening: the checks, closing, and the cycle in the caller's memory where the hulls admit no plan.
ghost use Rattle.std.specs.Prelude.{◌≡◌, ◌*◌, ◌≤◌, length, None};
ghost use Rattle.distances.specs.Tightening.{Ends, Tightens};
ghost use Rattle.distances.specs.Decided.{NetworksDecided};

use crate::closing::close;
use crate::cycle::give_up;
use crate::legal::LegalSource;
use crate::link::Link;
use crate::route::Ways;
use checks::check;
use networks::{Fault, Lent, MOST_ENTRIES, Source};
use spans::Span;

// For a legal source and memory that suffices, as the checks show.
pub fn tighten_legal<T: Source>(
    source: &LegalSource<T>,
    matrix: &mut [Option<T::Span>],
    cycle: &mut [u16],
) -> Result<(), Fault>
    requires room { (source.now.points * source.now.points ≤ length matrix.old) × (source.now.points ≤ length cycle.old) }
    ensures { Ends T.Span.Span.kind source.now matrix.old cycle.old result matrix.new cycle.new }
{
    let n = source.points();
    let mut links = [Link::Direct(0); MOST_ENTRIES];
    let Err(edge) = close(source, matrix, &mut links) else {
        return Ok(());
    };
    let ways = Ways { n, links: &links };
    let edges = give_up(&ways, edge, matrix, cycle);
    Err(Fault::Cycle(edges))
}

// With the checks, for memory of the lengths that are lent.
pub(crate) fn tighten_lent<T: Source>(
    source: &T,
    lent: Lent,
    matrix: &mut [Option<T::Span>],
    cycle: &mut [u16],
) -> Result<(), Fault>
    requires { lent ≡ record { matrix = length matrix.now; cycle = length cycle.old; dates = None } }
    ensures tightened { Tightens T.Span.Span.kind (T.Source.means source.now) matrix.old cycle.old result matrix.new cycle.new }
    ensures networks { NetworksDecided T.Span.Span.kind }
{
    check(source, lent)?;
    tighten_legal(&LegalSource::new(source), matrix, cycle)
}
