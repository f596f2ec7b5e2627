// A list text as a source of conditions: it answers each question by reading on from the place behind its header.
ghost use Rattle.std.specs.Prelude.{◌≡◌, ◌≤◌, length, if◌then◌else◌, MatchResult, nat_eq};
ghost use Rattle.list_text.specs.Answer.{ReadAs, RefusedText};
ghost use Rattle.list_text.specs.Filling.{Filled};
ghost use Rattle.list_text.specs.Place.{longest_text};
ghost use Rattle.list_text.specs.Reading.{conditions_from, Looked};
ghost use Rattle.list_text.specs.Scanning.{Scanned};

use crate::following::Following;
use crate::reader::{Misread, Reader};
use crate::text::ListText;
use networks::{Fault, Row, Source};
use spans::Minutes;

// The longest text that is read.
const LONGEST_TEXT: usize = 65536;

fn agreed(first: usize, second: usize) -> usize
    ensures { result ≡ (if nat_eq first second then first else 0) }
{
    if first == second { first } else { 0 }
}

// Reads a whole text.
fn scan<'a>(text: &'a [u8]) -> Result<ListText<'a>, Misread>
    requires { length text.now ≤ longest_text }
    ensures { Scanned text.now result }
{
    let ((first, second), rows) = Reader { text, at: 0 }.header()?;
    rows.all_rows()?;
    Ok(ListText {
        points: agreed(first, second),
        rows,
    })
}

impl ListText<'_> {
    // Row k with its window w in first place; the row of no condition where there is none.
    fn row(&self, k: usize, w: usize) -> Row<Minutes>
        ensures { Looked (conditions_from self.now.rows.text.now self.now.rows.at) k w result }
    {
        let mut rows = Following {
            reader: self.rows,
            pick: w,
        };
        rows.nth(k).unwrap_or(Row::new(0, 0, &[]))
    }

    // How many rows there are.
    fn count(&self) -> usize
        ensures { result ≡ length (conditions_from self.now.rows.text.now self.now.rows.at) }
    {
        let rows = Following {
            reader: self.rows,
            pick: 0,
        };
        rows.count()
    }

    // The conditions from number `first` on, copied into the rows; how many.
    fn copied(&self, first: usize, rows: &mut [Row<Minutes>]) -> usize
        ensures { Filled (conditions_from self.now.rows.text.now self.now.rows.at) first rows.old rows.new result }
    {
        let mut following = Following {
            reader: self.rows,
            pick: 0,
        }
        .skip(first);
        for (filled, slot) in rows.iter_mut().enumerate() {
            let Some(row) = following.next() else {
                return filled;
            };
            *slot = row;
        }
        rows.len()
    }
}

impl<'a> ListText<'a> {
    // The text as a source of the network that it denotes; else refusal 12 with the place of its fault.
    pub fn read(text: &'a [u8]) -> Result<ListText<'a>, Fault>
        ensures { MatchResult result (λ s. ReadAs text.now (⟦<ListText<'a> as Source>⟧.means s)) (λ f. RefusedText text.now f) }
    {
        if text.len() > LONGEST_TEXT {
            return Err(Fault::Text(LONGEST_TEXT));
        }
        Ok(scan(text)?)
    }

    // Copies the conditions from number `first` on to the front of the rows, as many as there are and as have room; how many.
    pub fn fill(&self, first: usize, rows: &mut [Row<Minutes>]) -> usize
        ensures { Filled (⟦<ListText<'a> as Source>⟧.means self.now).conditions first rows.old rows.new result }
    {
        self.copied(first, rows)
    }
}

impl Source for ListText<'_> {
    type Span = Minutes;

    // Worked out by the reading machine; `read` promises that it is the network that the text denotes.
    ghost means = { λ s. record { points = s.points; conditions = conditions_from s.rows.text.now s.rows.at } };

    fn points(&self) -> usize {
        self.points
    }

    fn conditions(&self) -> usize {
        self.count()
    }

    fn from(&self, k: usize) -> usize {
        let row = self.row(k, 0);
        row.from
    }

    fn to(&self, k: usize) -> usize {
        let row = self.row(k, 0);
        row.to
    }

    fn windows(&self, k: usize) -> usize {
        let row = self.row(k, 0);
        row.count
    }

    fn low(&self, k: usize, w: usize) -> Option<Minutes> {
        let row = self.row(k, w);
        row.first.low
    }

    fn high(&self, k: usize, w: usize) -> Option<Minutes> {
        let row = self.row(k, w);
        row.first.high
    }
}
