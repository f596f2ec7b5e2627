// Writes dates as list text, with no blanks and the shortest numerals.
ghost use Rattle.std.specs.Prelude.{◌≡◌, ◌^◌, ◌<◌, IfOk, IfErr, string_bytes, unsigned_abs, drop, nat_le};
ghost use Rattle.std.specs.List.{list_all};
ghost use Rattle.list_text.specs.Dates.{dated, DatesText, TellsWritable, TextOfDates, Writable, Writes};
ghost use Rattle.list_text.specs.Grammar.{compact, One, OneRow, Header, ◌⨾◌};
ghost use Rattle.list_text.specs.declared.token.Mark.TheVariants.{ListOpen, Semicolon};

use spans::Minutes;
use std::alloc::{AllocError, Global};

// The greatest number that 12 digits write.
const GREATEST: u64 = 999999999999;

// How a text of so many points begins: its first bracket and its header.
fn header(heap: Global, points: usize) -> Result<String, AllocError>
    ensures { IfOk result (λ s. points < 10 ^ 12 → Writes (One compact ListOpen ⨾ Header compact points points) (string_bytes s)) }
{
    format!(in heap; "[({points},{points},[])")
}

// A semicolon, and the row that gives a point its date.
fn row(heap: Global, point: usize, date: Minutes) -> Result<String, AllocError>
    ensures { IfOk result (λ s. point < 10 ^ 12 → unsigned_abs date.count < 10 ^ 12 → Writes (One compact Semicolon ⨾ OneRow compact (dated point date)) (string_bytes s)) }
{
    let d = date.count;
    format!(in heap; ";(0,{point},[(E({d}),E({d}))])")
}

// Whether 12 digits write each date but the first.
fn small(dates: &[Minutes]) -> bool
    ensures { result ≡ list_all (λ d. nat_le (unsigned_abs d.count) GREATEST) (drop 1 dates.now) }
{
    dates
        .iter()
        .skip(1)
        .all(|date| date.count.unsigned_abs() <= GREATEST)
}

// Whether 12 digits write the number of the dates, and each of them but the first.
fn writable(dates: &[Minutes]) -> bool
    ensures { TellsWritable dates.now result }
{
    dates.len() as u64 <= GREATEST && small(dates)
}

// The text that gives each point but the first its date, seen from the first.
fn written(heap: Global, dates: &[Minutes]) -> Result<String, AllocError>
    ensures { IfOk result (λ s. Writable dates.now → DatesText dates.now (string_bytes s)) }
{
    let mut text = header(heap, dates.len())?;
    for (point, date) in dates.iter().enumerate().skip(1) {
        let one = row(heap, point, *date)?;
        text.push_str(one.as_str())?;
    }
    text.push_str("]")?;
    Ok(text)
}

// The dates from point 1 on as compact list text; None where 12 digits do not write them or their number.
// Where memory is wanting, Err; dates that have no text never get that.
pub fn write_dates(heap: Global, dates: &[Minutes]) -> Result<Option<String>, AllocError>
    ensures text { IfOk result (λ o. TextOfDates string_bytes dates.now o) }
    ensures writable { IfErr result (λ e. Writable dates.now) }
{
    if !writable(dates) {
        return Ok(None);
    }
    let text = written(heap, dates)?;
    Ok(Some(text))
}
