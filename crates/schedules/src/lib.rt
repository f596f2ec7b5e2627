// Schedules: dates that meet all conditions of a source, and how far apart two points can be.
#![tactic(auto)]

ghost use Rattle.schedules.specs.Ranging.{Ranges, RangesOnce};
ghost use Rattle.schedules.specs.Solving.{Solves, SolvesOnce};

use networks::{Fault, Lent, Source, Window};
use spans::Span;

mod blanking;
mod choices;
mod descent;
mod ends;
mod ranging;
mod selections;
mod solving;

use ranging::range_lent;
use solving::solve_lent;

// Solves the conditions of any source, of n points. It takes n×n matrix entries, n codes and n dates.
// Granted, the first n dates meet all conditions: those of the date rule on the first selection that has a plan. At any refusal no date is written.
// Refused with 1 to 8, nothing is; with 10, no plan meets the hulls, and the codes of a cycle below zero stand at the front of the
// cycle memory; with 11, the hulls admit a plan and the conditions none. Past the checks, the first n×n entries of the matrix are left blank.
pub fn solve<T: Source>(
    source: &T,
    matrix: &mut [Option<T::Span>],
    cycle: &mut [u16],
    dates: &mut [T::Span],
) -> Result<(), Fault>
    ensures solved { Solves T.Span.Span.kind (T.Source.means source.now) matrix.old cycle.old dates.old result matrix.new cycle.new dates.new }
    ensures once { SolvesOnce T.Span.Span.kind }
{
    let lent = Lent {
        matrix: matrix.len(),
        cycle: cycle.len(),
        dates: Some(dates.len()),
    };
    solve_lent(source, lent, matrix, cycle, dates)
}

// How far apart two points can be: the least and the greatest distance of point j from point i over all plans, each missing where for every
// span of size up to 2^30 some plan goes at least so far. For n points it takes n×n matrix entries and n codes.
// Refused with 1 to 9, nothing is written; with 10, no plan meets the hulls, and the codes of a cycle below zero stand at the front of the
// cycle memory; with 11, the hulls admit a plan and the conditions none. Past the checks, the first n×n entries of the matrix are left blank.
pub fn range<T: Source>(
    source: &T,
    i: usize,
    j: usize,
    matrix: &mut [Option<T::Span>],
    cycle: &mut [u16],
) -> Result<Window<T::Span>, Fault>
    ensures ranged { Ranges T.Span.Span.kind (T.Source.means source.now) i j matrix.old cycle.old result matrix.new cycle.new }
    ensures once { RangesOnce T.Span.Span.kind }
{
    let lent = Lent {
        matrix: matrix.len(),
        cycle: cycle.len(),
        dates: None,
    };
    range_lent(source, lent, i, j, matrix, cycle)
}
