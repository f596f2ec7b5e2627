// Solving: the checks, the hulls closed, the first selection that has a plan, and its dates by the date rule.
ghost use Rattle.std.specs.Prelude.{◌≡◌, ◌*◌, ◌≤◌, length, take, drop, Some, MatchResult};
ghost use Rattle.networks.specs.Hull.{hulls};
ghost use Rattle.networks.specs.Plan.{HasPlan};
ghost use Rattle.networks.specs.declared.fault.Fault.TheVariants.{NoPlan};
ghost use Rattle.distances.specs.Closing.{Closes};
ghost use Rattle.distances.specs.Matrix.{Rest};
ghost use Rattle.schedules.specs.Solution.{Solution};
ghost use Rattle.schedules.specs.Solving.{Answers, Solves};

use crate::blanking::blank;
use crate::choices::choice_places;
use crate::selections::first_selection;
use checks::check;
use distances::inner::{LegalSource, Link, date_points, tighten_legal};
use layers::Selected;
use networks::{Fault, Lent, MOST_ENTRIES, Source};
use spans::Span;

// Writes the dates of the first selection that has a plan, where there is one. The matrix is closed for the hulls, and then of no use.
fn solve_closed<T: Source>(
    source: &LegalSource<T>,
    matrix: &mut [Option<T::Span>],
    dates: &mut [T::Span],
) -> Result<(), Fault>
    requires room { (source.now.points * source.now.points ≤ length matrix.old) × (source.now.points ≤ length dates.old) }
    requires closed { Closes T.Span.Span.kind (hulls source.now) matrix.old }
    ensures solved { MatchResult result
        (λ u. Solution T.Span.Span.kind source.now (take source.now.points dates.new) × (drop source.now.points dates.new ≡ drop source.now.points dates.old))
        (λ f. (f ≡ NoPlan) × (HasPlan T.Span.Span.kind source.now → ⊥) × (dates.new ≡ dates.old)) }
    ensures rest { Rest source.now.points matrix.old matrix.new }
{
    let asked = source.get();
    let places = choice_places(source);
    let mut links = [Link::Direct(0); MOST_ENTRIES];
    let Some(windows) = first_selection(source, places, matrix, &mut links) else {
        return Err(Fault::NoPlan);
    };
    let selected = Selected::over(asked, windows);
    date_points(&LegalSource::new(&selected), matrix, dates);
    Ok(())
}

// For memory that suffices, as the checks show.
fn solve_legal<T: Source>(
    source: &LegalSource<T>,
    matrix: &mut [Option<T::Span>],
    cycle: &mut [u16],
    dates: &mut [T::Span],
) -> Result<(), Fault>
    requires room { (source.now.points * source.now.points ≤ length matrix.old) × (source.now.points ≤ length cycle.old) × (source.now.points ≤ length dates.old) }
    ensures { Answers T.Span.Span.kind source.now matrix.old cycle.old dates.old result matrix.new cycle.new dates.new }
{
    tighten_legal(source, matrix, cycle)?;
    let solved = solve_closed(source, matrix, dates);
    blank(matrix, source.points());
    solved
}

// With the checks, for memory of the lengths that are lent.
pub(crate) fn solve_lent<T: Source>(
    source: &T,
    lent: Lent,
    matrix: &mut [Option<T::Span>],
    cycle: &mut [u16],
    dates: &mut [T::Span],
) -> Result<(), Fault>
    requires { lent ≡ record { matrix = length matrix.now; cycle = length cycle.old; dates = Some (length dates.old) } }
    ensures { Solves T.Span.Span.kind (T.Source.means source.now) matrix.old cycle.old dates.old result matrix.new cycle.new dates.new }
{
    check(source, lent)?;
    solve_legal(&LegalSource::new(source), matrix, cycle, dates)
}
