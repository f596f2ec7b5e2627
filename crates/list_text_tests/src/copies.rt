// Rows filled from a text, and dates written as one.
use list_text::{ListText, write_dates};
use networks::Row;
use spans::Minutes;
use std::alloc::Global;
use std::process::Abort;
use std::test::*;

const THREE: &str =
    "[(3,3,[]);(0,1,[(E(0),E(10));(E(15),E(20))]);(1,2,[(E(5),Inf)]);(0,2,[(E(12),E(18))])]";

fn count(span: Option<Minutes>) -> i64 {
    span.map_or(-99, |a| a.count)
}

// The two points of a row, the number of its windows and the ends of its first two; -99 for a missing end.
fn told(row: Row<Minutes>) -> ((usize, usize, usize), (i64, i64), (i64, i64)) {
    (
        (row.from, row.to, row.count),
        (count(row.first.low), count(row.first.high)),
        (count(row.second.low), count(row.second.high)),
    )
}

const OLD: ((usize, usize, usize), (i64, i64), (i64, i64)) = ((7, 8, 0), (-99, -99), (-99, -99));

const FIRST: ((usize, usize, usize), (i64, i64), (i64, i64)) = ((0, 1, 2), (0, 10), (15, 20));

const SECOND: ((usize, usize, usize), (i64, i64), (i64, i64)) = ((1, 2, 1), (5, -99), (-99, -99));

const THIRD: ((usize, usize, usize), (i64, i64), (i64, i64)) = ((0, 2, 1), (12, 18), (-99, -99));

// How many rows of four are filled from condition `first` on, and what they tell then.
fn filled(
    text: &str,
    first: usize,
) -> Option<(usize, [((usize, usize, usize), (i64, i64), (i64, i64)); 4])> {
    let mut rows = [Row::new(7, 8, &[]); 4];
    let source = ListText::read(text.as_bytes()).ok()?;
    let n = source.fill(first, &mut rows);
    Some((
        n,
        [told(rows[0]), told(rows[1]), told(rows[2]), told(rows[3])],
    ))
}

// Rows behind the last condition keep what they had.
#[test]
fn fills(rt: HostRuntime) -> Result<(), Fail> {
    assert_eq!(rt; filled(THREE, 0), Some((3, [FIRST, SECOND, THIRD, OLD])));
    assert_eq!(rt; filled(THREE, 1), Some((2, [SECOND, THIRD, OLD, OLD])));
    assert_eq!(rt; filled(THREE, 2), Some((1, [THIRD, OLD, OLD, OLD])));
    assert_eq!(rt; filled(THREE, 3), Some((0, [OLD, OLD, OLD, OLD])));
    assert_eq!(rt; filled(THREE, usize::MAX), Some((0, [OLD, OLD, OLD, OLD])));
    assert_eq!(rt; filled("[(3,3,[])]", 0), Some((0, [OLD, OLD, OLD, OLD])));
    Ok(())
}

// Where there is less room than conditions, the first of them are copied.
#[test]
fn fills_the_room(rt: HostRuntime) -> Result<(), Fail> {
    let mut rows = [Row::new(7, 8, &[]); 2];
    let Ok(source) = ListText::read(THREE.as_bytes()) else {
        assert!(rt; false);
        return Ok(());
    };
    assert_eq!(rt; source.fill(0, &mut rows), 2);
    assert_eq!(rt; (told(rows[0]), told(rows[1])), (FIRST, SECOND));
    assert_eq!(rt; source.fill(2, &mut rows[1..]), 1);
    assert_eq!(rt; (told(rows[0]), told(rows[1])), (FIRST, THIRD));
    assert_eq!(rt; source.fill(0, &mut []), 0);
    Ok(())
}

fn check_written(
    rt: &impl Abort,
    alloc: Global,
    dates: &[Minutes],
    expected: &str,
) -> Result<(), Fail> {
    let Some(text) = write_dates(alloc, dates)? else {
        assert!(rt; false);
        return Ok(());
    };
    assert_eq!(rt; text.as_str(), expected);
    Ok(())
}

// No blank, no needless zero, and a minus only below zero.
#[test]
fn writes(rt: HostRuntime) -> Result<(), Fail> {
    check_written(&rt, rt.alloc(), &[], "[(0,0,[])]")?;
    check_written(&rt, rt.alloc(), &[Minutes::from(0)], "[(1,1,[])]")?;
    check_written(
        &rt,
        rt.alloc(),
        &[
            Minutes::from(0),
            Minutes::from(5),
            Minutes::from(0),
            Minutes::from(-70),
            Minutes::from(549755813888),
        ],
        "[(5,5,[]);(0,1,[(E(5),E(5))]);(0,2,[(E(0),E(0))]);(0,3,[(E(-70),E(-70))]);(0,4,[(E(549755813888),E(549755813888))])]",
    )
}

// A date of more than 12 digits is not written; that of point 0 never is, so it may be any.
#[test]
fn writes_no_long_date(rt: HostRuntime) -> Result<(), Fail> {
    for date in [1000000000000, -1000000000000, i64::MIN] {
        let text = write_dates(rt.alloc(), &[Minutes::from(0), Minutes::from(date)])?;
        assert!(rt; text.is_none());
    }
    check_written(
        &rt,
        rt.alloc(),
        &[Minutes::from(i64::MIN), Minutes::from(5)],
        "[(2,2,[]);(0,1,[(E(5),E(5))])]",
    )?;
    check_written(
        &rt,
        rt.alloc(),
        &[Minutes::from(0), Minutes::from(-999999999999)],
        "[(2,2,[]);(0,1,[(E(-999999999999),E(-999999999999))])]",
    )
}
