// What the checks of a network refuse, each refusal with its number and detail, and which refusal comes first.
use checks::{check, check_network};
use networks::{Fault, Lent, Row, Rows, Window};
use spans::{MinuteRank, Minutes};

// Memory that just suffices for 48 points.
const AMPLE: Lent = Lent {
    matrix: 2304,
    cycle: 48,
    dates: Some(48),
};

// The number and the detail of the refusal; none where there is no refusal.
// Kept in both test crates that ask it: one line, for which a crate of its own would be no plainer.
fn refusal(res: Result<(), Fault>) -> Option<(usize, usize)> {
    res.err().map(|fault| (fault.number(), fault.detail()))
}

fn of_rows(points: usize, rows: &[Row<Minutes>]) -> Option<(usize, usize)> {
    refusal(check(&Rows::from_rows(points, rows), AMPLE))
}

fn between(from: usize, to: usize) -> Row<Minutes> {
    Row::new(from, to, &[Window::minutes(0, 10)])
}

// A condition with two windows.
fn choice() -> Row<Minutes> {
    Row::new(0, 1, &[Window::minutes(0, 10), Window::minutes(11, 20)])
}

// Of 48 points and one condition, with memory of these lengths.
fn of_lent(matrix: usize, cycle: usize, dates: Option<usize>) -> Option<(usize, usize)> {
    refusal(check(
        &Rows::from_rows(48, &[between(0, 47)]),
        Lent {
            matrix,
            cycle,
            dates,
        },
    ))
}

// Of a condition from one minute and rank to another.
fn of_ranks(low: (i64, i64), high: (i64, i64)) -> Option<(usize, usize)> {
    let rows: [Row<MinuteRank>; 1] = [Row::new(
        0,
        1,
        &[Window::between(MinuteRank::from(low), MinuteRank::from(high))],
    )];
    refusal(check(&Rows::from_rows(2, &rows), AMPLE))
}

// Of a condition with these windows, number 1, behind a good one.
fn of_windows(windows: &[Window<Minutes>]) -> Option<(usize, usize)> {
    of_rows(2, &[between(0, 1), Row::new(1, 0, windows)])
}

// There are 1 to 48 points, and a condition joins two different ones that are there.
#[test]
fn points(rt: HostRuntime) {
    for points in [1, 48] {
        assert_eq!(rt; (points, of_rows(points, &[])), (points, None));
    }
    for points in [0, 49, 4294967296, usize::MAX] {
        assert_eq!(rt; (points, of_rows(points, &[])), (points, Some((1, 0))));
        assert_eq!(rt;
            (points, of_rows(points, &[between(2, 2)])),
            (points, Some((1, 0)))
        );
    }
    for (from, to, refused) in [
        (0, 3, None),
        (3, 0, None),
        (0, 4, Some((2, 0))),
        (4, 0, Some((2, 0))),
        (usize::MAX, 0, Some((2, 0))),
        (3, 3, Some((2, 0))),
    ] {
        assert_eq!(rt;
            (from, to, of_rows(4, &[between(from, to)])),
            (from, to, refused)
        );
    }
}

// A condition has one to four windows; their ends are looked at only then.
#[test]
fn window_counts(rt: HostRuntime) {
    let [a, b, c, d, e] = [
        Window::minutes(0, 1),
        Window::minutes(3, 4),
        Window::minutes(6, 7),
        Window::minutes(9, 10),
        Window::minutes(12, 13),
    ];
    assert_eq!(rt; of_windows(&[]), Some((3, 1)));
    assert_eq!(rt; of_windows(&[a, b, c, d]), None);
    assert_eq!(rt; of_windows(&[a, b, c, d, e]), Some((3, 1)));
    assert_eq!(rt;
        of_windows(&[b, a, Window::minutes(16777217, 0), d, e]),
        Some((3, 1))
    );
}

// An end has at most 16777216 minutes, either way.
#[test]
fn large_ends(rt: HostRuntime) {
    for (low, high, refused) in [
        (-16777216, 16777216, None),
        (16777216, 16777216, None),
        (0, 16777217, Some((4, 1))),
        (16777217, 16777217, Some((4, 1))),
        (16777217, 0, Some((4, 1))),
        (-16777217, 0, Some((4, 1))),
        (0, -16777217, Some((4, 1))),
        (i64::MIN, 0, Some((4, 1))),
        (0, i64::MIN, Some((4, 1))),
        (0, i64::MAX, Some((4, 1))),
    ] {
        assert_eq!(rt;
            (low, high, of_windows(&[Window::minutes(low, high)])),
            (low, high, refused)
        );
    }
    assert_eq!(rt;
        of_windows(&[Window::at_most(Minutes::from(16777216))]),
        None
    );
    assert_eq!(rt;
        of_windows(&[Window::at_most(Minutes::from(16777217))]),
        Some((4, 1))
    );
    assert_eq!(rt;
        of_windows(&[Window::at_least(Minutes::from(-16777217))]),
        Some((4, 1))
    );
}

// No low end lies above its high end, and each high end lies below the next low end.
#[test]
fn falling_windows(rt: HostRuntime) {
    assert_eq!(rt; of_windows(&[Window::minutes(7, 7)]), None);
    assert_eq!(rt; of_windows(&[Window::minutes(7, 6)]), Some((5, 1)));
    assert_eq!(rt;
        of_windows(&[Window::minutes(1, 2), Window::minutes(4, 3)]),
        Some((5, 1))
    );
    assert_eq!(rt;
        of_windows(&[Window::minutes(0, 10), Window::minutes(11, 20)]),
        None
    );
    assert_eq!(rt;
        of_windows(&[Window::minutes(0, 10), Window::minutes(10, 20)]),
        Some((5, 1))
    );
    assert_eq!(rt;
        of_windows(&[Window::minutes(10, 20), Window::minutes(0, 5)]),
        Some((5, 1))
    );
    assert_eq!(rt;
        of_windows(&[
            Window::minutes(0, 1),
            Window::minutes(2, 3),
            Window::minutes(4, 5),
            Window::minutes(5, 6)
        ]),
        Some((5, 1))
    );
}

// Only the first window may lack its low end, and only the last one its high end.
#[test]
fn missing_ends(rt: HostRuntime) {
    assert_eq!(rt;
        of_windows(&[Window {
            low: None,
            high: None
        }]),
        None
    );
    assert_eq!(rt;
        of_windows(&[
            Window::at_most(Minutes::from(0)),
            Window::minutes(1, 2),
            Window::at_least(Minutes::from(3))
        ]),
        None
    );
    assert_eq!(rt;
        of_windows(&[Window::at_least(Minutes::from(0)), Window::minutes(20, 30)]),
        Some((5, 1))
    );
    assert_eq!(rt;
        of_windows(&[Window::minutes(0, 10), Window::at_most(Minutes::from(30))]),
        Some((5, 1))
    );
    assert_eq!(rt;
        of_windows(&[
            Window::at_most(Minutes::from(0)),
            Window::at_least(Minutes::from(1)),
            Window::at_least(Minutes::from(3))
        ]),
        Some((5, 1))
    );
    assert_eq!(rt;
        of_windows(&[
            Window::at_most(Minutes::from(0)),
            Window::at_most(Minutes::from(2)),
            Window::at_least(Minutes::from(3))
        ]),
        Some((5, 1))
    );
}

// All ends of a condition are held to their size before their order, and all of a condition before the next one.
#[test]
fn first_refusal(rt: HostRuntime) {
    assert_eq!(rt;
        of_windows(&[
            Window::minutes(10, 20),
            Window::minutes(0, 5),
            Window::minutes(30, 16777217)
        ]),
        Some((4, 1))
    );
    assert_eq!(rt; of_rows(2, &[Row::new(1, 1, &[])]), Some((2, 0)));
    let falling = Row::new(0, 1, &[Window::minutes(7, 6)]);
    assert_eq!(rt; of_rows(2, &[falling, between(0, 2)]), Some((5, 0)));
    let mut rows = [between(0, 1); 70];
    rows[66] = falling;
    assert_eq!(rt; of_rows(2, &rows), Some((5, 66)));
}

// There are at most 64 conditions, and at most six of them have two or more windows.
#[test]
fn condition_counts(rt: HostRuntime) {
    assert_eq!(rt; of_rows(2, &[between(0, 1); 64]), None);
    assert_eq!(rt; of_rows(2, &[between(0, 1); 65]), Some((6, 0)));
    assert_eq!(rt; of_rows(2, &[choice(); 65]), Some((6, 0)));
    assert_eq!(rt; of_rows(2, &[choice(); 6]), None);
    assert_eq!(rt; of_rows(2, &[choice(); 7]), Some((7, 0)));
}

// For 48 points the matrix takes 2304 entries, and the cycle and the dates 48 each; no dates need no memory.
#[test]
fn memory(rt: HostRuntime) {
    for (matrix, cycle, dates, refused) in [
        (2304, 48, Some(48), None),
        (2304, 48, None, None),
        (2303, 48, Some(48), Some((8, 0))),
        (2304, 47, Some(48), Some((8, 0))),
        (2304, 48, Some(47), Some((8, 0))),
        (2303, 48, None, Some((8, 0))),
    ] {
        assert_eq!(rt;
            (matrix, cycle, dates, of_lent(matrix, cycle, dates)),
            (matrix, cycle, dates, refused)
        );
    }
    let none = Lent {
        matrix: 0,
        cycle: 0,
        dates: Some(0),
    };
    assert_eq!(rt;
        refusal(check(&Rows::from_rows(2, &[choice(); 7]), none)),
        Some((7, 0))
    );
    assert_eq!(rt;
        refusal(check_network(&Rows::from_rows(48, &[between(0, 47)]))),
        None
    );
}

// The same checks over minutes with ranks.
#[test]
fn minute_ranks(rt: HostRuntime) {
    for (low, high, refused) in [
        ((5, 0), (5, 0), None),
        ((5, 1), (5, 0), Some((5, 0))),
        ((5, 100), (6, -100), None),
        ((0, 0), (16777216, -16777216), None),
        ((0, -16777217), (1, 0), Some((4, 0))),
    ] {
        assert_eq!(rt; (low, high, of_ranks(low, high)), (low, high, refused));
    }
}

// Each fault has a number of its own; those that name a condition, a cycle or a place have it as detail, the others 0.
#[test]
fn faults(rt: HostRuntime) {
    for (fault, number, detail) in [
        (Fault::Points, 1, 0),
        (Fault::Named(66), 2, 66),
        (Fault::Memory, 8, 0),
        (Fault::Absent, 9, 0),
        (Fault::Cycle(3), 10, 3),
        (Fault::NoPlan, 11, 0),
        (Fault::Text(usize::MAX), 12, usize::MAX),
    ] {
        assert_eq!(rt; (fault.number(), fault.detail()), (number, detail));
    }
}
