// Networks that tighten refuses: cycles below zero by their codes, and the refusals of the checks.
use crate::answers::{
    OLD_CODE, OLD_ENTRY, check_codes_behind, check_contradicted, check_granted, check_refused,
    refusal, row, total_around,
};
use distances::tighten;
use networks::{Row, Rows, Window};
use spans::{MinuteRank, Minutes};
use std::test::Fail;

// Two steps of 10 to 20 minutes do not go into 15: at most 15 forward, and twice at least 10 back, 5 below zero.
#[test]
fn two_steps(rt: HostRuntime) {
    let rows = [row(0, 1, 10, 20), row(1, 2, 10, 20), row(0, 2, 0, 15)];
    let codes = check_contradicted(&rt, &Rows::from_rows(3, &rows), -5);
    assert!(rt; matches!(codes, [4, 3, 1] | [3, 1, 4] | [1, 4, 3]));
}

// Two events of one minute and rank, and the second one a rank later at least: below zero by a rank alone.
#[test]
fn by_a_rank(rt: HostRuntime) -> Result<(), Fail> {
    let at = MinuteRank::from((5, 0));
    let five = Window::between(at, at);
    let later = Window::at_least(MinuteRank::from((0, 1)));
    let rows = [
        Row::new(0, 1, &[five]),
        Row::new(0, 2, &[five]),
        Row::new(1, 2, &[later]),
    ];
    let source = Rows::from_rows(3, &rows);
    let mut matrix = [Some(MinuteRank::from((7, 7))); 9];
    let mut cycle = [OLD_CODE; 5];
    assert_eq!(rt;
        refusal(tighten(&source, &mut matrix, &mut cycle)),
        Some((10, 3))
    );
    check_codes_behind(&rt, &cycle, 3);
    for entry in matrix {
        assert!(rt; entry.is_none());
    }
    let [a, b, c, _, _] = cycle;
    let sum = total_around(&source, &[a, b, c]);
    assert_eq!(rt;
        sum.map(|sum| (sum.first.count, sum.second.count)),
        Some((0, -1))
    );
    Ok(())
}

// The tight windows are [0, 5] from 0 to 1 and [5, 10] from 0 to 2. A value of each can be kept by itself, but 1 and 9 not
// together, since 2 comes 5 after 1.
#[test]
fn picked_apart(rt: HostRuntime) -> Result<(), Fail> {
    let [a, b, c] = [row(0, 1, 0, 10), row(0, 2, 0, 10), row(1, 2, 5, 5)];
    let [one, nine] = [row(0, 1, 1, 1), row(0, 2, 9, 9)];
    let table: [(&[Row<Minutes>], [i64; 9]); 3] = [
        (&[a, b, c], [0, 5, 10, 0, 0, 5, -5, -5, 0]),
        (&[a, b, c, one], [0, 1, 6, -1, 0, 5, -6, -5, 0]),
        (&[a, b, c, nine], [0, 4, 9, -4, 0, 5, -9, -5, 0]),
    ];
    for (rows, expected) in table {
        check_granted(&rt, &Rows::from_rows(3, rows), &expected)?;
    }
    let codes = check_contradicted(&rt, &Rows::from_rows(3, &[a, b, c, one, nine]), -3);
    assert!(rt; matches!(codes, [6, 4, 9] | [4, 9, 6] | [9, 6, 4]));
    Ok(())
}

// What the checks refuse, tighten refuses with the same number and detail, and writes nothing.
#[test]
fn by_the_checks(rt: HostRuntime) {
    let good = row(0, 1, 0, 10);
    let choice = Row::new(0, 1, &[Window::minutes(0, 10), Window::minutes(11, 20)]);
    let table: [(usize, &[Row<Minutes>], (usize, usize)); 9] = [
        (0, &[], (1, 0)),
        (49, &[good], (1, 0)),
        (4, &[good, row(0, 4, 0, 10)], (2, 1)),
        (4, &[good, row(2, 2, 0, 10)], (2, 1)),
        (4, &[good, good, Row::new(2, 1, &[])], (3, 2)),
        (4, &[row(0, 1, 0, 16777217)], (4, 0)),
        (4, &[good, row(0, 1, 7, 6)], (5, 1)),
        (4, &[good; 65], (6, 0)),
        (4, &[choice; 7], (7, 0)),
    ];
    for (points, rows, refused) in table {
        let source = Rows::from_rows(points, rows);
        check_refused(
            &rt,
            &source,
            &mut [OLD_ENTRY; 20],
            &mut [OLD_CODE; 6],
            refused,
        );
    }
}

// Of four points the matrix takes 16 entries and the cycle 4, even where the hulls admit no plan.
#[test]
fn by_memory(rt: HostRuntime) {
    let rows = [row(0, 1, 10, 20), row(1, 2, 10, 20), row(0, 2, 0, 15)];
    let source = Rows::from_rows(4, &rows);
    check_refused(
        &rt,
        &source,
        &mut [OLD_ENTRY; 15],
        &mut [OLD_CODE; 6],
        (8, 0),
    );
    check_refused(
        &rt,
        &source,
        &mut [OLD_ENTRY; 20],
        &mut [OLD_CODE; 3],
        (8, 0),
    );
}
