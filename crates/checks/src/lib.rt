// The checks 1 to 8, which tighten, solve, range and post make first: the first refusal that `Refusal` gives, or none.
#![tactic(auto)]

ghost use Rattle.std.specs.Prelude.{◌≡◌, true, is_ok};
ghost use Rattle.networks.specs.Limits.{most_conditions};
ghost use Rattle.networks.specs.Refusal.{checks_refusal};
ghost use Rattle.networks.specs.Faults.{refusal_in};
ghost use Rattle.networks.specs.Legal.{Legal, Checked};

use networks::{Fault, Lent, MOST_CONDITIONS, Source};
use spans::Span;

mod condition;
mod conditions;
mod counts;
mod memory;
mod windows;

use counts::check_counted;
pub use counts::check_points;
use memory::check_memory;

// The checks 1 to 7 of a source by itself.
pub fn check_network<T: Source>(source: &T) -> Result<(), Fault>
    ensures { Checked T.Span.Span.kind (T.Source.means source.now) most_conditions result }
{
    check_counted(source, MOST_CONDITIONS)
}

// The checks 1 to 8, where there is room for so many conditions and a call was lent so much memory.
pub fn check_within<T: Source>(source: &T, room: usize, lent: Lent) -> Result<(), Fault>
    ensures legal { is_ok result ≡ true → Legal T.Span.Span.kind (T.Source.means source.now) }
    ensures refusal { refusal_in result ≡ checks_refusal T.Span.Span.kind (T.Source.means source.now) room lent }
{
    check_counted(source, room)?;
    check_memory(source.points(), lent)
}

// The checks 1 to 8 of a source by itself.
pub fn check<T: Source>(source: &T, lent: Lent) -> Result<(), Fault>
    ensures legal { is_ok result ≡ true → Legal T.Span.Span.kind (T.Source.means source.now) }
    ensures refusal { refusal_in result ≡ checks_refusal T.Span.Span.kind (T.Source.means source.now) most_conditions lent }
{
    check_within(source, MOST_CONDITIONS, lent)
}
