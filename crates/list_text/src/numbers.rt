// Reads marks and numbers. Each function answers what it read and the reader behind it, or the place of the fault.
ghost use Rattle.std.specs.Prelude.{◌≡◌, ℕ, ◌+◌, ◌^◌, ◌<◌, Bool, ◌⊎◌, ℤ, true, false, length, MatchResult};
ghost use Rattle.list_text.specs.Grammar.{digit, with_sign, AllOf, Numeral};
ghost use Rattle.list_text.specs.Machine.{State, expects, number};
ghost use Rattle.list_text.specs.Reading.{Passes, Reads};
ghost use Rattle.list_text.specs.declared.token.Mark.TheVariants.{Close, Comma};

use crate::reader::{Misread, Reader};
use crate::token::{Mark, Token};

// The number that 1 to 12 digits write; else the place from which on they write none.
fn value(digits: &[u8], place: usize) -> Result<u64, Misread>
    requires { (AllOf digit digits.now) × (place + length digits.now < 2 ^ 64) }
    ensures { MatchResult result (λ n. Numeral n digits.now × (n < 10 ^ 12))
        (λ e. ((length digits.now ≡ 0) × (e.place ≡ place)) ⊎ ((12 < length digits.now) × (e.place ≡ place + 12))) }
{
    if digits.is_empty() {
        return Err(Misread { place });
    }
    if digits.len() > 12 {
        return Err(Misread { place: place + 12 });
    }
    // Kept as a loop: `fold` was tried, and that each step's sum fits stayed open.
    let mut n = 0;
    for d in digits {
        n = n * 10 + (*d - b'0') as u64;
    }
    Ok(n)
}

impl<'a> Reader<'a> {
    // The reader behind the mark, which has to come next.
    #[inline(always)]
    pub(crate) fn expect(self, mark: Mark) -> Result<Reader<'a>, Misread>
        ensures { (k : State) → Passes self.entry (expects mark k) k result }
    {
        let x = self.next();
        if x.is(mark) {
            Ok(x.after)
        } else {
            Err(Misread { place: x.place })
        }
    }

    // A number without a sign.
    #[inline(always)]
    pub(crate) fn natural(self) -> Result<(usize, Reader<'a>), Misread>
        ensures { (k : Bool → ℕ → State) → Reads self.entry (number false k) (λ n. expects Comma (k false n)) result }
    {
        let x = self.next();
        let Token::Number(w) = x.token else {
            return Err(Misread { place: x.place });
        };
        if w[0] == b'-' {
            return Err(Misread { place: x.place });
        }
        let n = value(w, x.place)?;
        Ok((n as usize, x.after))
    }

    // A number with a minus or without.
    #[inline(always)]
    pub(crate) fn integer(self) -> Result<(i64, Reader<'a>), Misread>
        ensures { (k : ℤ → State) → Reads self.entry (number true (λ negative n. k (with_sign negative n))) (λ z. expects Close (k z)) result }
    {
        let x = self.next();
        let Token::Number(w) = x.token else {
            return Err(Misread { place: x.place });
        };
        if w[0] == b'-' {
            let n = value(&w[1..], x.place + 1)?;
            return Ok((-(n as i64), x.after));
        }
        let n = value(w, x.place)?;
        Ok((n as i64, x.after))
    }
}
