// The check of lent memory.
ghost use Rattle.std.specs.Prelude.{◌≡◌, ◌*◌, nat_le};
ghost use Rattle.networks.specs.Refusal.{dates_fit_lem, memory_refusal};
ghost use Rattle.networks.specs.Faults.{refusal_in};

use networks::{Fault, Lent};

fn dates_fit(points: usize, dates: Option<usize>) -> bool
    ensures { result ≡ dates_fit_lem points dates }
{
    dates.is_none_or(|length| points <= length)
}

fn matrix_fits(points: usize, matrix: usize) -> bool
    ensures { result ≡ nat_le (points * points) matrix }
{
    points
        .checked_mul(points)
        .is_some_and(|entries| entries <= matrix)
}

pub(crate) fn check_memory(points: usize, lent: Lent) -> Result<(), Fault>
    ensures { refusal_in result ≡ memory_refusal points lent }
{
    if matrix_fits(points, lent.matrix) && points <= lent.cycle && dates_fit(points, lent.dates) {
        Ok(())
    } else {
        Err(Fault::Memory)
    }
}
