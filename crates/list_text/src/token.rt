// The tokens of list text: each borrows its bytes of the text, and stands with its place.
ghost use Rattle.std.specs.Prelude.{◌≡◌, Some, Decides};

use crate::reader::Reader;

// The brackets and the signs between them, each one byte.
#[derive(Clone, Copy, PartialEq, Eq)]
pub enum Mark {
    Open,
    Close,
    ListOpen,
    ListClose,
    Comma,
    Semicolon,
}

#[derive(Clone, Copy)]
pub enum Token<'a> {
    // one of the marks
    Bracket(Mark, &'a [u8]),
    // a minus or a digit, and the digits after it
    Number(&'a [u8]),
    // a letter, and the letters after it
    Word(&'a [u8]),
    // a byte with which no token begins
    Stray(&'a [u8]),
    // the end of the text
    Finish,
}

// A token, the place where it begins, and the reader behind it.
#[derive(Clone, Copy)]
pub struct Lexeme<'a> {
    pub place: usize,
    pub token: Token<'a>,
    pub after: Reader<'a>,
}

impl Lexeme<'_> {
    ghost use Rattle.list_text.specs.Lexing.{mark_of};
    ghost use Rattle.list_text.specs.declared.token.Token.TheVariants.{Finish};

    // Whether it is the mark.
    #[inline(always)]
    pub fn is(self, mark: Mark) -> bool
        ensures { Decides result (mark_of self.entry.token ≡ Some mark) }
    {
        matches!(self.token, Token::Bracket(m, _) if m == mark)
    }

    #[inline(always)]
    pub fn is_finish(self) -> bool
        ensures { Decides result (self.entry.token ≡ Finish) }
    {
        matches!(self.token, Token::Finish)
    }
}
