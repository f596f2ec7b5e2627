// Reads rows and the header. Each function answers what it read and the reader behind it, or the place of the fault.
// What `one_more` requires, its caller proves.
ghost use Rattle.std.specs.Prelude.{◌≡◌, ◌<◌, [], slice_set};
ghost use Rattle.networks.specs.Rows.{room};
ghost use Rattle.list_text.specs.Machine.{start, rows_more};
ghost use Rattle.list_text.specs.Reading.{Reads, OneMore, ReadsWindows, ReadsRow, ReadsRows, ReadsAll, NextRow};

use crate::reader::{Misread, Reader};
use crate::token::Mark;
use networks::{Row, Window};
use spans::Minutes;

// The row with the window in one of its four places; the row itself where it has no such place.
// Kept as a match over the places: `Row` has four fields and no array, for the reason that stands beside it.
#[inline(always)]
fn with_window(row: Row<Minutes>, slot: usize, w: Window<Minutes>) -> Row<Minutes>
    ensures from { result.from ≡ row.from }
    ensures to { result.to ≡ row.to }
    ensures room { room result ≡ slice_set (room row) slot w }
{
    match slot {
        0 => Row { first: w, ..row },
        1 => Row { second: w, ..row },
        2 => Row { third: w, ..row },
        3 => Row { fourth: w, ..row },
        _ => row,
    }
}

// The row with one window more, kept where it is one of the four from `pick` on.
#[inline(always)]
fn one_more(row: Row<Minutes>, pick: usize, w: Window<Minutes>) -> Row<Minutes>
    requires { row.count < 65536 }
    ensures { OneMore row pick w result }
{
    let mut more = row;
    if row.count >= pick {
        more = with_window(row, row.count - pick, w);
    }
    more.count = row.count + 1;
    more
}

impl<'a> Reader<'a> {
    // The windows behind `[`, up to and with `]`: their number, and the four from `pick` on, in a row from `i` to `j`.
    #[inline(always)]
    fn windows(self, i: usize, j: usize, pick: usize) -> Result<(Row<Minutes>, Reader<'a>), Misread>
        ensures { ReadsWindows self.entry i j pick result }
    {
        let mut row = Row::new(i, j, &[]);
        let x = self.next();
        if x.is(Mark::ListClose) {
            return Ok((row, x.after));
        }
        if !x.is(Mark::Open) {
            return Err(Misread { place: x.place });
        }
        // Kept as a loop: it tells the place of a fault, which an iterator of windows would end at.
        let mut p = x.after;
        loop {
            let (w, q) = p.window()?;
            row = one_more(row, pick, w);
            let y = q.next();
            if y.is(Mark::ListClose) {
                return Ok((row, y.after));
            }
            if !y.is(Mark::Semicolon) {
                return Err(Misread { place: y.place });
            }
            p = y.after.expect(Mark::Open)?;
        }
    }

    // A row behind its first bracket, with its windows from `pick` on.
    #[inline(always)]
    fn row(self, pick: usize) -> Result<(Row<Minutes>, Reader<'a>), Misread>
        ensures { ReadsRow self.entry pick result }
    {
        let (i, p) = self.natural()?;
        let q = p.expect(Mark::Comma)?;
        let (j, s) = q.natural()?;
        let t = s.expect(Mark::Comma)?;
        let u = t.expect(Mark::ListOpen)?;
        let (row, v) = u.windows(i, j, pick)?;
        let after = v.expect(Mark::Close)?;
        Ok((row, after))
    }

    // The reader behind the rows and the last bracket.
    fn rows(self) -> Result<Reader<'a>, Misread>
        ensures { ReadsRows self.entry result }
    {
        // Kept as a loop: it tells the place of a fault, which the iterator of rows ends at.
        let mut p = self;
        loop {
            let x = p.next();
            if x.is(Mark::ListClose) {
                return Ok(x.after);
            }
            if !x.is(Mark::Semicolon) {
                return Err(Misread { place: x.place });
            }
            let q = x.after.expect(Mark::Open)?;
            let (_, after) = q.row(0)?;
            p = after;
        }
    }

    // That there are rows up to the end of the text.
    pub(crate) fn all_rows(self) -> Result<(), Misread>
        ensures { ReadsAll self.entry result }
    {
        let end = self.rows()?;
        let x = end.next();
        if x.is_finish() {
            Ok(())
        } else {
            Err(Misread { place: x.place })
        }
    }

    // The first bracket and the header: its two numbers.
    pub(crate) fn header(self) -> Result<((usize, usize), Reader<'a>), Misread>
        ensures { Reads self.entry start (λ v. rows_more v.0 v.1 []) result }
    {
        let a = self.expect(Mark::ListOpen)?;
        let b = a.expect(Mark::Open)?;
        let (first, c) = b.natural()?;
        let d = c.expect(Mark::Comma)?;
        let (second, e) = d.natural()?;
        let f = e.expect(Mark::Comma)?;
        let g = f.expect(Mark::ListOpen)?;
        let h = g.expect(Mark::ListClose)?;
        let after = h.expect(Mark::Close)?;
        Ok(((first, second), after))
    }

    // The row behind the next semicolon, with its windows from `pick` on, and the reader behind it; none where no row follows.
    #[inline(always)]
    pub(crate) fn next_row(self, pick: usize) -> Option<(Row<Minutes>, Reader<'a>)>
        ensures { NextRow self.entry pick result }
    {
        let x = self.next();
        if !x.is(Mark::Semicolon) {
            return None;
        }
        let p = x.after.expect(Mark::Open).ok()?;
        p.row(pick).ok()
    }
}
