// How far apart range says that two points can be, and what it refuses.
use crate::memory::{OLD_CODE, OLD_ENTRY, check_blank, check_codes_behind, row};
use networks::{Fault, Row, Rows, Source, Window};
use schedules::range;
use spans::{MinuteRank, Minutes};
use std::process::Abort;

type Answer = Result<(Option<i64>, Option<i64>), Fault>;

// The answer in minutes. So many entries of the matrix are blank and so many codes written, and nothing else is.
fn check_range<T: Source<Span = Minutes>>(
    rt: &impl Abort,
    source: &T,
    (i, j): (usize, usize),
    expected: Answer,
    entries: usize,
    edges: usize,
) {
    let mut matrix = [OLD_ENTRY; 20];
    let mut cycle = [OLD_CODE; 6];
    let res = range(source, i, j, &mut matrix, &mut cycle);
    let told = res.map(|ends| (ends.low.map(|a| a.count), ends.high.map(|a| a.count)));
    assert_eq!(rt; ((i, j), told), ((i, j), expected));
    check_blank(rt, &matrix, entries);
    check_codes_behind(rt, &cycle, edges);
}

// A point is no time from itself.
#[test]
fn one_point(rt: HostRuntime) {
    check_range(
        &rt,
        &Rows::from_rows(1, &[]),
        (0, 0),
        Ok((Some(0), Some(0))),
        1,
        0,
    );
}

// Either way round.
#[test]
fn both_ways(rt: HostRuntime) {
    let rows = [row(0, 1, 5, 9)];
    let source = Rows::from_rows(2, &rows);
    check_range(&rt, &source, (0, 1), Ok((Some(5), Some(9))), 4, 0);
    check_range(&rt, &source, (1, 0), Ok((Some(-9), Some(-5))), 4, 0);
    check_range(&rt, &source, (1, 1), Ok((Some(0), Some(0))), 4, 0);
}

// Two steps of 10 to 20 minutes within 20 leave 10 for each.
#[test]
fn two_steps(rt: HostRuntime) {
    let rows = [row(0, 1, 10, 20), row(1, 2, 10, 20), row(0, 2, 0, 20)];
    check_range(
        &rt,
        &Rows::from_rows(3, &rows),
        (0, 1),
        Ok((Some(10), Some(10))),
        9,
        0,
    );
}

// Over all windows, but for those that no plan takes.
#[test]
fn over_windows(rt: HostRuntime) {
    let choice = Row::new(0, 1, &[Window::minutes(0, 2), Window::minutes(8, 10)]);
    let source = [choice];
    check_range(
        &rt,
        &Rows::from_rows(2, &source),
        (0, 1),
        Ok((Some(0), Some(10))),
        4,
        0,
    );
    let narrowed = [choice, row(0, 1, 3, 20)];
    check_range(
        &rt,
        &Rows::from_rows(2, &narrowed),
        (0, 1),
        Ok((Some(8), Some(10))),
        4,
        0,
    );
}

// An end is missing where nothing bounds it.
#[test]
fn missing_ends(rt: HostRuntime) {
    let rows = [Row::new(0, 1, &[Window::at_least(Minutes::from(7))])];
    let source = Rows::from_rows(3, &rows);
    check_range(&rt, &source, (0, 1), Ok((Some(7), None)), 9, 0);
    check_range(&rt, &source, (1, 0), Ok((None, Some(-7))), 9, 0);
    check_range(&rt, &source, (0, 2), Ok((None, None)), 9, 0);
}

// By a point that is not there, behind the checks; by a cycle; and where no window goes.
#[test]
fn refused(rt: HostRuntime) {
    let good = [row(0, 1, 0, 10)];
    for (i, j) in [(2, 0), (0, 2), (usize::MAX, 0)] {
        check_range(
            &rt,
            &Rows::from_rows(2, &good),
            (i, j),
            Err(Fault::Absent),
            0,
            0,
        );
    }
    let bad = [row(0, 1, 7, 6)];
    check_range(
        &rt,
        &Rows::from_rows(2, &bad),
        (5, 5),
        Err(Fault::WindowOrder(0)),
        0,
        0,
    );
    check_range(
        &rt,
        &Rows::from_rows(5, &good),
        (0, 1),
        Err(Fault::Memory),
        0,
        0,
    );
    let cycle = [row(0, 1, 10, 20), row(1, 2, 10, 20), row(0, 2, 0, 15)];
    check_range(
        &rt,
        &Rows::from_rows(3, &cycle),
        (0, 1),
        Err(Fault::Cycle(3)),
        9,
        3,
    );
    let choice = Row::new(0, 1, &[Window::minutes(0, 2), Window::minutes(8, 10)]);
    let apart = [choice, row(0, 1, 4, 6)];
    check_range(
        &rt,
        &Rows::from_rows(2, &apart),
        (0, 1),
        Err(Fault::NoPlan),
        4,
        0,
    );
}

// At least one rank later, and within the minute.
#[test]
fn minute_ranks(rt: HostRuntime) {
    let rows = [Row::new(
        0,
        1,
        &[Window::between(MinuteRank::from((0, 1)), MinuteRank::from((0, 9)))],
    )];
    let res = range(
        &Rows::from_rows(2, &rows),
        1,
        0,
        &mut [None; 4],
        &mut [0; 2],
    );
    let expected = Window::between(MinuteRank::from((0, -9)), MinuteRank::from((0, -1)));
    assert_eq!(rt; res, Ok(expected));
}
