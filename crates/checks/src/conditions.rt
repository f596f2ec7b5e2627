// The checks of the conditions one by one, and the count of those that are choices.
ghost use Rattle.std.specs.Prelude.{◌≡◌};
ghost use Rattle.networks.specs.Network.{condition_at};
ghost use Rattle.networks.specs.Refusal.{condition_refusal, conditions_refusal, choices};
ghost use Rattle.networks.specs.Faults.{refusal_in};

use crate::condition::ConditionOf;
use networks::{Fault, MOST_WINDOWS, Source};

fn check_condition<T: Source>(source: &T, points: usize, k: usize) -> Result<(), Fault>
    ensures { refusal_in result ≡ condition_refusal T.Span.Span.kind points k (condition_at (T.Source.means source.now) k) }
{
    let condition = ConditionOf::new(source, k);
    let from = condition.from();
    let to = condition.to();
    if from >= points || to >= points || from == to {
        return Err(Fault::Named(k));
    }
    let count = condition.windows();
    if count == 0 || count > MOST_WINDOWS {
        return Err(Fault::WindowCount(k));
    }
    if !condition.windows_small() {
        return Err(Fault::EndSize(k));
    }
    if !condition.windows_rise() {
        return Err(Fault::WindowOrder(k));
    }
    Ok(())
}

pub(crate) fn check_conditions<T: Source>(source: &T) -> Result<(), Fault>
    ensures { refusal_in result ≡ conditions_refusal T.Span.Span.kind (T.Source.means source.now).points 0 (T.Source.means source.now).conditions }
{
    let points = source.points();
    for k in 0..source.conditions() {
        check_condition(source, points, k)?;
    }
    Ok(())
}

pub(crate) fn count_choices<T: Source>(source: &T) -> usize
    ensures { result ≡ choices (T.Source.means source.now).conditions }
{
    (0..source.conditions())
        .filter(|&k| source.windows(k) > 1)
        .count()
}
