// Cuts a text into tokens, from a place on. It never fails: what is wrong with a token is for the reader to say.
// For this crate alone: what a function here requires, each of its callers proves.
ghost use Rattle.std.specs.Prelude.{◌≡◌, ◌<◌, ◌≤◌, false, length, slice_index};
ghost use Rattle.list_text.specs.Grammar.{blank};
ghost use Rattle.list_text.specs.Lexing.{Cut, Lexed};

use crate::bytes::front;
use crate::reader::Reader;
use crate::token::{Lexeme, Mark, Token};

impl<'a> Reader<'a> {
    // The token that begins here, where no blank stands, and the place behind it.
    #[inline(always)]
    fn token(self) -> (Token<'a>, usize)
        requires { (self.at < length self.text.now) × (blank (slice_index self.text.now self.at) ≡ false) }
        ensures cut { Cut self.entry.text.now self.entry.at result.0 result.1 }
        ensures after { self.entry.at < result.1 }
        ensures within { result.1 ≤ length self.entry.text.now }
    {
        let text = self.text;
        let start = self.at;
        let next = start + 1;
        let one = &text[start..next];
        match text[start] {
            b'(' => (Token::Bracket(Mark::Open, one), next),
            b')' => (Token::Bracket(Mark::Close, one), next),
            b'[' => (Token::Bracket(Mark::ListOpen, one), next),
            b']' => (Token::Bracket(Mark::ListClose, one), next),
            b',' => (Token::Bracket(Mark::Comma, one), next),
            b';' => (Token::Bracket(Mark::Semicolon, one), next),
            b'-' | b'0'..=b'9' => {
                let end = next + front(&text[next..], |b| b.is_ascii_digit());
                (Token::Number(&text[start..end]), end)
            }
            b'A'..=b'Z' | b'a'..=b'z' => {
                let end = next + front(&text[next..], |b| b.is_ascii_alphabetic());
                (Token::Word(&text[start..end]), end)
            }
            _ => (Token::Stray(one), next),
        }
    }

    // The next token from here on.
    #[inline(always)]
    pub(crate) fn next(self) -> Lexeme<'a>
        ensures { Lexed self.entry result }
    {
        let text = self.text;
        let place = self.at
            + front(
                &text[self.at..],
                |b| matches!(b, b' ' | b'\t' | b'\n' | b'\r'),
            );
        let here = Reader { text, at: place };
        if place == text.len() {
            return Lexeme {
                place,
                token: Token::Finish,
                after: here,
            };
        }
        let (token, at) = here.token();
        Lexeme {
            place,
            token,
            after: Reader { text, at },
        }
    }
}
