// Ranges: the checks, the hulls closed, and both ends over all selections.
ghost use Rattle.std.specs.Prelude.{◌≡◌, ◌*◌, ◌<◌, ◌≤◌, length, None, MatchResult};
ghost use Rattle.networks.specs.Limits.{most_points};
ghost use Rattle.networks.specs.Hull.{hulls};
ghost use Rattle.networks.specs.Plan.{HasPlan};
ghost use Rattle.networks.specs.declared.fault.Fault.TheVariants.{NoPlan};
ghost use Rattle.distances.specs.Closing.{Closes};
ghost use Rattle.distances.specs.Matrix.{Rest};
ghost use Rattle.schedules.specs.Range.{LowEnd, HighEnd};
ghost use Rattle.schedules.specs.Ranging.{Answers, AfterChecks, absent_refusal, Ranges};

use crate::blanking::blank;
use crate::choices::choice_places;
use crate::ends::both_ends;
use checks::check;
use distances::inner::{LegalSource, Link, tighten_legal};
use networks::{Fault, Lent, MOST_ENTRIES, Source, Window};
use spans::Span;

// Both ends over all plans, where there is one. The matrix is closed for the hulls, and then of no use.
fn range_closed<T: Source>(
    source: &LegalSource<T>,
    i: usize,
    j: usize,
    matrix: &mut [Option<T::Span>],
) -> Result<Window<T::Span>, Fault>
    requires there { (i < source.now.points) × (j < source.now.points) }
    requires few { source.now.points ≤ most_points }
    requires room { source.now.points * source.now.points ≤ length matrix.old }
    requires closed { Closes T.Span.Span.kind (hulls source.now) matrix.old }
    ensures ranged { MatchResult result
        (λ x. LowEnd T.Span.Span.kind source.now i j x.low × HighEnd T.Span.Span.kind source.now i j x.high)
        (λ f. (f ≡ NoPlan) × (HasPlan T.Span.Span.kind source.now → ⊥)) }
    ensures rest { Rest source.now.points matrix.old matrix.new }
{
    let places = choice_places(source);
    let mut links = [Link::Direct(0); MOST_ENTRIES];
    let Some((low, high)) = both_ends(source, i, j, places, matrix, &mut links) else {
        return Err(Fault::NoPlan);
    };
    Ok(Window { low, high })
}

// For points that are there and memory that suffices, as the checks show.
fn range_legal<T: Source>(
    source: &LegalSource<T>,
    i: usize,
    j: usize,
    matrix: &mut [Option<T::Span>],
    cycle: &mut [u16],
) -> Result<Window<T::Span>, Fault>
    requires there { (i < source.now.points) × (j < source.now.points) }
    requires room { (source.now.points * source.now.points ≤ length matrix.old) × (source.now.points ≤ length cycle.old) }
    ensures { Answers T.Span.Span.kind source.now i j matrix.old cycle.old result matrix.new cycle.new }
{
    tighten_legal(source, matrix, cycle)?;
    let ranged = range_closed(source, i, j, matrix);
    blank(matrix, source.points());
    ranged
}

// With the check that both points are there, for memory that suffices.
fn range_there<T: Source>(
    source: &LegalSource<T>,
    i: usize,
    j: usize,
    matrix: &mut [Option<T::Span>],
    cycle: &mut [u16],
) -> Result<Window<T::Span>, Fault>
    requires room { (source.now.points * source.now.points ≤ length matrix.old) × (source.now.points ≤ length cycle.old) }
    ensures { AfterChecks T.Span.Span.kind source.now i j matrix.old cycle.old
        (absent_refusal source.now i j) result matrix.new cycle.new }
{
    let n = source.points();
    if i >= n || j >= n {
        return Err(Fault::Absent);
    }
    range_legal(source, i, j, matrix, cycle)
}

// With all checks, for memory of the lengths that are lent.
pub(crate) fn range_lent<T: Source>(
    source: &T,
    lent: Lent,
    i: usize,
    j: usize,
    matrix: &mut [Option<T::Span>],
    cycle: &mut [u16],
) -> Result<Window<T::Span>, Fault>
    requires { lent ≡ record { matrix = length matrix.now; cycle = length cycle.old; dates = None } }
    ensures { Ranges T.Span.Span.kind (T.Source.means source.now) i j matrix.old cycle.old result matrix.new cycle.new }
{
    check(source, lent)?;
    range_there(&LegalSource::new(source), i, j, matrix, cycle)
}
