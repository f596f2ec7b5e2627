// Reads ends and windows. Each function answers what it read and the reader behind it, or the place of the fault.
ghost use Rattle.std.specs.Prelude.{◌≡◌, ◌<◌, List, [], ◌∷◌, ◌++◌, length, Option as OptionOf};
ghost use Rattle.spans.specs.declared.minutes.Minutes.{Minutes as MinutesOf};
ghost use Rattle.networks.specs.declared.window.Window.{Window as WindowOf};
ghost use Rattle.list_text.specs.Lexing.{fault_in};
ghost use Rattle.list_text.specs.Machine.{State, expects, at_end, in_window, windows_more};
ghost use Rattle.list_text.specs.Reading.{Reads};
ghost use Rattle.list_text.specs.declared.token.Mark.{Mark as MarkOf};

use crate::reader::{Misread, Reader};
use crate::token::{Mark, Token};
use networks::Window;
use spans::Minutes;

// How a given end begins, and what stands for a missing one.
const GIVEN: &[u8] = b"E";

const MISSING: &[u8] = b"Inf";

// How far into a word that is neither `E` nor `Inf` one can read.
fn fault_in_word(w: &[u8]) -> usize
    ensures { result ≡ fault_in w.now }
{
    match w {
        [b'I', b'n', b'f', ..] => 3,
        [b'I', b'n', ..] => 2,
        [b'I' | b'E', ..] => 1,
        _ => 0,
    }
}

impl<'a> Reader<'a> {
    // An end: `E(`number`)`, or `Inf` for a missing one.
    #[inline(always)]
    fn end(self) -> Result<(Option<Minutes>, Reader<'a>), Misread>
        ensures { (m : MarkOf) (k : OptionOf MinutesOf → State) → Reads self.entry (at_end (λ o. expects m (k o))) (λ o. expects m (k o)) result }
    {
        let x = self.next();
        let Token::Word(w) = x.token else {
            return Err(Misread { place: x.place });
        };
        if w == MISSING {
            return Ok((None, x.after));
        }
        if w != GIVEN {
            return Err(Misread {
                place: x.place + fault_in_word(w),
            });
        }
        let p = x.after.expect(Mark::Open)?;
        let (count, q) = p.integer()?;
        let after = q.expect(Mark::Close)?;
        Ok((Some(Minutes { count }), after))
    }

    // A window behind its first bracket.
    #[inline(always)]
    pub(crate) fn window(self) -> Result<(Window<Minutes>, Reader<'a>), Misread>
        ensures { (ws : List (WindowOf MinutesOf)) (k : List (WindowOf MinutesOf) → State) → Reads self.entry (in_window ws k) (λ w. windows_more (ws ++ (w ∷ [])) k) result }
    {
        let (low, p) = self.end()?;
        let q = p.expect(Mark::Comma)?;
        let (high, s) = q.end()?;
        let after = s.expect(Mark::Close)?;
        Ok((Window { low, high }, after))
    }
}
