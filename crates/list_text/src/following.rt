// The rows of a list text, read one after another.
ghost use Rattle.std.specs.Prelude.{length};
ghost use Rattle.std.specs.Iterator.{at_most};
ghost use Rattle.list_text.specs.Reading.{ahead};
ghost use Rattle.list_text.specs.Scanning.{GivesRow};

use crate::reader::Reader;
use networks::Row;
use spans::Minutes;

// The rows from a reader on, one after another, each with its windows from `pick` on.
#[derive(Drop)]
pub struct Following<'a> {
    pub reader: Reader<'a>,
    pub pick: usize,
}

impl Iterator for Following<'_> {
    type Item = Row<Minutes>;

    ghost next_gives = { GivesRow };

    ghost remaining = { λ s. at_most (length (ahead s.reader)) };

    #[inline(always)]
    fn next(&mut self) -> Option<Row<Minutes>> {
        let (row, after) = self.reader.next_row(self.pick)?;
        self.reader = after;
        Some(row)
    }
}
