// Distances: the matrix of least totals of any source's hulls, or a cycle of edges that adds up below zero.
#![tactic(auto)]

ghost use Rattle.distances.specs.Tightening.{Tightens};
ghost use Rattle.distances.specs.Decided.{NetworksDecided};

use networks::{Fault, Lent, Source};
use spans::Span;

mod closing;
mod cycle;
mod dates;
mod edges;
pub mod inner;
mod legal;
mod link;
mod matrix;
mod relax;
mod route;
mod tightening;

pub use edges::Edge;
use tightening::tighten_lent;

// Tightens the hulls of any source. Granted, the first n×n entries of the matrix are the least totals of routes, that of (i, j) at
// place i×n + j. Refused with 1 to 8, nothing is written. Refused with 10, the codes of a cycle below zero stand at the front of the cycle memory and those entries are blank.
pub fn tighten<T: Source>(
    source: &T,
    matrix: &mut [Option<T::Span>],
    cycle: &mut [u16],
) -> Result<(), Fault>
    ensures tightened { Tightens T.Span.Span.kind (T.Source.means source.now) matrix.old cycle.old result matrix.new cycle.new }
    ensures networks { NetworksDecided T.Span.Span.kind }
{
    let lent = Lent {
        matrix: matrix.len(),
        cycle: cycle.len(),
        dates: None,
    };
    tighten_lent(source, lent, matrix, cycle)
}
