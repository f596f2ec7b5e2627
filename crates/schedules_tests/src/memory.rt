// Lent memory that shows what a call writes.
use networks::{Fault, Row, Source, Window};
use schedules::solve;
use spans::Minutes;
use std::process::Abort;

// What memory holds before a call.
pub const OLD: i64 = 777777;

pub const OLD_ENTRY: Option<Minutes> = Some(Minutes { count: OLD });

pub const OLD_CODE: u16 = 7777;

pub const OLD_DATE: Minutes = Minutes { count: OLD };

// A condition with one window.
pub fn row(from: usize, to: usize, low: i64, high: i64) -> Row<Minutes> {
    Row::new(from, to, &[Window::minutes(low, high)])
}

// Whether the first n×n entries are blank and the others old.
pub fn check_blank(rt: &impl Abort, matrix: &[Option<Minutes>], entries: usize) {
    for (place, entry) in matrix.iter().enumerate() {
        let expected = if place < entries { None } else { OLD_ENTRY };
        assert_eq!(rt; (place, *entry), (place, expected));
    }
}

// Whether the codes behind the first so many are old.
pub fn check_codes_behind(rt: &impl Abort, cycle: &[u16], edges: usize) {
    for code in cycle.iter().skip(edges) {
        assert_eq!(rt; *code, OLD_CODE);
    }
}

// Whether the dates are these, and those behind them old.
pub fn check_dates(rt: &impl Abort, dates: &[Minutes], expected: &[i64]) {
    for (point, date) in dates.iter().enumerate() {
        let wanted = expected.get(point).copied().unwrap_or(OLD);
        assert_eq!(rt; (point, date.count), (point, wanted));
    }
}

// Granted with just these dates; the matrix is left blank, and nothing else is written.
pub fn check_solved<T: Source<Span = Minutes>>(rt: &impl Abort, source: &T, expected: &[i64]) {
    let mut matrix = [OLD_ENTRY; 20];
    let mut cycle = [OLD_CODE; 6];
    let mut dates = [OLD_DATE; 6];
    let res = solve(source, &mut matrix, &mut cycle, &mut dates);
    assert_eq!(rt; res, Ok(()));
    check_dates(rt, &dates, expected);
    check_codes_behind(rt, &cycle, 0);
    let entries = match source.points() {
        1 => 1,
        2 => 4,
        3 => 9,
        _ => 16,
    };
    check_blank(rt, &matrix, entries);
}

// Refused with this fault. So many entries of the matrix are blank and so many codes written; no date is.
pub fn check_refused<T: Source<Span = Minutes>>(
    rt: &impl Abort,
    source: &T,
    fault: Fault,
    entries: usize,
    edges: usize,
) {
    let mut matrix = [OLD_ENTRY; 20];
    let mut cycle = [OLD_CODE; 6];
    let mut dates = [OLD_DATE; 6];
    let res = solve(source, &mut matrix, &mut cycle, &mut dates);
    assert_eq!(rt; res, Err(fault));
    check_dates(rt, &dates, &[]);
    check_codes_behind(rt, &cycle, edges);
    check_blank(rt, &matrix, entries);
}
