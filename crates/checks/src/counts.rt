// The checks of how much there is, and the checks 1 to 7 put together.
ghost use Rattle.std.specs.Prelude.{◌≡◌, nat_le};
ghost use Rattle.networks.specs.Limits.{most_choices};
ghost use Rattle.networks.specs.Refusal.{points_refusal, room_refusal, refuse_unless, network_refusal};
ghost use Rattle.networks.specs.Faults.{refusal_in};
ghost use Rattle.networks.specs.Legal.{Checked};

use crate::conditions::{check_conditions, count_choices};
use networks::{Fault, MOST_CHOICES, MOST_CONDITIONS, MOST_POINTS, Source};
use spans::Span;

// Check 1 alone.
pub fn check_points(points: usize) -> Result<(), Fault>
    ensures { refusal_in result ≡ points_refusal points }
{
    if points == 0 || points > MOST_POINTS {
        Err(Fault::Points)
    } else {
        Ok(())
    }
}

fn check_room(count: usize, room: usize) -> Result<(), Fault>
    ensures { refusal_in result ≡ room_refusal count room }
{
    if count > MOST_CONDITIONS || count > room {
        return Err(Fault::Full);
    }
    Ok(())
}

fn check_choices(count: usize) -> Result<(), Fault>
    ensures { refusal_in result ≡ refuse_unless (nat_le count most_choices) 7 0 }
{
    if count > MOST_CHOICES {
        Err(Fault::Choices)
    } else {
        Ok(())
    }
}

// The first refusal among 1 to 7.
fn first_refusal<T: Source>(source: &T, room: usize) -> Result<(), Fault>
    ensures { refusal_in result ≡ network_refusal T.Span.Span.kind (T.Source.means source.now) room }
{
    check_points(source.points())?;
    check_conditions(source)?;
    check_room(source.conditions(), room)?;
    check_choices(count_choices(source))
}

// The same, and that what passes is legal.
pub(crate) fn check_counted<T: Source>(source: &T, room: usize) -> Result<(), Fault>
    ensures { Checked T.Span.Span.kind (T.Source.means source.now) room result }
{
    first_refusal(source, room)
}
