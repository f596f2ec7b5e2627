// What tighten answers and leaves in memory, held against expected numbers.
use distances::tighten;
use networks::{Fault, Row, Source, Window};
use spans::{Minutes, Span};
use std::process::Abort;
use std::test::Fail;

// What memory holds before a call.
pub const OLD: i64 = 777777;

pub const OLD_ENTRY: Option<Minutes> = Some(Minutes { count: OLD });

pub const OLD_CODE: u16 = 7777;

// An entry that is blank.
pub const NO: i64 = -999999;

// A condition with one window.
pub fn row(from: usize, to: usize, low: i64, high: i64) -> Row<Minutes> {
    Row::new(from, to, &[Window::minutes(low, high)])
}

// The number and the detail of the refusal; none where there is no refusal.
// Kept in both test crates that ask it: one line, for which a crate of its own would be no plainer.
pub fn refusal(res: Result<(), Fault>) -> Option<(usize, usize)> {
    res.err().map(|fault| (fault.number(), fault.detail()))
}

// Whether the entries are these, row by row, and those behind them are old.
pub fn check_matrix(rt: &impl Abort, matrix: &[Option<Minutes>], expected: &[i64]) {
    for (place, entry) in matrix.iter().enumerate() {
        let count = entry.map_or(NO, |total| total.count);
        let wanted = expected.get(place).copied().unwrap_or(OLD);
        assert_eq!(rt; (place, count), (place, wanted));
    }
}

// Whether the codes behind the first so many are old.
pub fn check_codes_behind(rt: &impl Abort, cycle: &[u16], edges: usize) {
    for code in cycle.iter().skip(edges) {
        assert_eq!(rt; *code, OLD_CODE);
    }
}

// Granted with just these entries, for up to four points; nothing else is written.
pub fn check_granted<T: Source<Span = Minutes>>(
    rt: &impl Abort,
    source: &T,
    expected: &[i64],
) -> Result<(), Fail> {
    let mut matrix = [OLD_ENTRY; 20];
    let mut cycle = [OLD_CODE; 6];
    assert_eq!(rt; refusal(tighten(source, &mut matrix, &mut cycle)), None);
    check_matrix(rt, &matrix, expected);
    check_codes_behind(rt, &cycle, 0);
    Ok(())
}

// The two points and the weight of the edge with this code, where there is one.
// Kept beside `Edge`: a test that leaned on it would not see that a code is read wrongly.
fn edge<T: Source>(source: &T, code: u16) -> Option<(usize, usize, T::Span)> {
    let k = (code / 2) as usize;
    if code % 2 == 1 {
        let weight = source.low(k, 0)?.opposite()?;
        return Some((source.to(k), source.from(k), weight));
    }
    let last = source.windows(k).checked_sub(1)?;
    Some((source.from(k), source.to(k), source.high(k, last)?))
}

// The sum of the edges with these codes. None unless each leads to where the next one begins, the last one to where the
// first one begins, and no two begin at one point.
pub fn total_around<T: Source>(source: &T, codes: &[u16]) -> Option<T::Span> {
    let (start, _, _) = edge(source, *codes.first()?)?;
    let mut left = [false; 48];
    let mut place = start;
    let mut total = T::Span::zero();
    for code in codes {
        let (from, to, weight) = edge(source, *code)?;
        if from != place || from >= 48 || left[from] {
            return None;
        }
        left[from] = true;
        place = to;
        total = total.sum(weight)?;
    }
    (place == start).then_some(total)
}

// Of three points: refused with a cycle of three edges, whose codes are given back. The codes add up to this total, the
// matrix is blank, and nothing behind them is written.
pub fn check_contradicted<T: Source<Span = Minutes>>(
    rt: &impl Abort,
    source: &T,
    total: i64,
) -> [u16; 3] {
    let mut matrix = [OLD_ENTRY; 20];
    let mut cycle = [OLD_CODE; 6];
    assert_eq!(rt;
        refusal(tighten(source, &mut matrix, &mut cycle)),
        Some((10, 3))
    );
    check_matrix(rt, &matrix, &[NO; 9]);
    check_codes_behind(rt, &cycle, 3);
    let [a, b, c, _, _, _] = cycle;
    let sum = total_around(source, &[a, b, c]);
    assert_eq!(rt; sum.map(|sum| sum.count), Some(total));
    [a, b, c]
}

// Refused with this number and detail, and nothing is written.
pub fn check_refused<T: Source<Span = Minutes>>(
    rt: &impl Abort,
    source: &T,
    matrix: &mut [Option<Minutes>],
    cycle: &mut [u16],
    refused: (usize, usize),
) {
    assert_eq!(rt; refusal(tighten(source, matrix, cycle)), Some(refused));
    check_matrix(rt, matrix, &[]);
    check_codes_behind(rt, cycle, 0);
}
