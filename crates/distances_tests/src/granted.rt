// Networks that tighten grants, with the least totals of all their routes.
use crate::answers::{
    NO, OLD_CODE, OLD_ENTRY, check_codes_behind, check_granted, check_matrix, refusal, row,
};
use distances::tighten;
use layers::Hull;
use list_text::ListText;
use networks::{Row, Rows, Window};
use spans::Minutes;
use std::array;
use std::process::Abort;
use std::test::Fail;

fn check_rows(
    rt: &impl Abort,
    points: usize,
    rows: &[Row<Minutes>],
    expected: &[i64],
) -> Result<(), Fail> {
    check_granted(rt, &Rows::from_rows(points, rows), expected)
}

// Two steps of 10 to 20 minutes within 20 take exactly 10 each.
#[test]
fn two_steps(rt: HostRuntime) -> Result<(), Fail> {
    let rows = [row(0, 1, 10, 20), row(1, 2, 10, 20), row(0, 2, 0, 20)];
    check_rows(&rt, 3, &rows, &[0, 10, 20, -10, 0, 10, -20, -10, 0])
}

// One point is no time from itself.
#[test]
fn one_point(rt: HostRuntime) -> Result<(), Fail> {
    check_rows(&rt, 1, &[], &[0])
}

// From 0 to 3 the way over 1 takes at most 45; since 2 lies at least 20 before 3, it lies at most 25 after 0.
#[test]
fn four_points(rt: HostRuntime) -> Result<(), Fail> {
    let rows = [
        row(0, 1, 0, 10),
        row(0, 2, 15, 30),
        row(1, 3, 20, 35),
        row(2, 3, 20, 25),
    ];
    check_rows(
        &rt,
        4,
        &rows,
        &[
            0, 10, 25, 45, 0, 0, 15, 35, -15, -5, 0, 25, -35, -25, -20, 0,
        ],
    )
}

// Of several conditions between two points the tightest counts, either way, also one that is given from the second to the first.
#[test]
fn side_by_side(rt: HostRuntime) -> Result<(), Fail> {
    let rows = [row(0, 1, 2, 30), row(0, 1, 5, 50), row(1, 0, -20, -3)];
    check_rows(&rt, 2, &rows, &[0, 20, -5, 0])
}

// Without a route an entry is blank; a point without a condition is reached from itself alone.
#[test]
fn unreached(rt: HostRuntime) -> Result<(), Fail> {
    check_rows(
        &rt,
        4,
        &[row(0, 1, 3, 7)],
        &[0, 7, NO, NO, -3, 0, NO, NO, NO, NO, 0, NO, NO, NO, NO, 0],
    )
}

// A missing low end gives no edge back, a missing high end none forward.
#[test]
fn missing_ends(rt: HostRuntime) -> Result<(), Fail> {
    let rows = [
        Row::new(0, 1, &[Window::at_most(Minutes::from(7))]),
        Row::new(1, 2, &[Window::at_least(Minutes::from(2))]),
    ];
    let expected = [0, 7, NO, NO, 0, NO, NO, -2, 0];
    check_rows(&rt, 3, &rows, &expected)?;
    let text = "[(3,3,[]);(0,1,[(Inf,E(7))]);(1,2,[(E(2),Inf)])]";
    let source = ListText::read(text.as_bytes())
        .ok()
        .expect(&rt, "the text is read");
    check_granted(&rt, &source, &expected)
}

// Conditions with several windows count by their hulls: here [0, 20], at least 5, and [12, 18]. Rows, hulls of rows and
// list text give the same matrix.
#[test]
fn choices(rt: HostRuntime) -> Result<(), Fail> {
    check_rows(
        &rt,
        2,
        &[Row::new(0, 1, &[Window::minutes(0, 2), Window::minutes(8, 10)])],
        &[0, 10, 0, 0],
    )?;
    let rows = [
        Row::new(0, 1, &[Window::minutes(0, 10), Window::minutes(15, 20)]),
        Row::new(
            1,
            2,
            &[Window::minutes(5, 6), Window::at_least(Minutes::from(9))],
        ),
        row(0, 2, 12, 18),
    ];
    let expected = [0, 13, 18, 0, 0, 18, -12, -5, 0];
    check_rows(&rt, 3, &rows, &expected)?;
    check_granted(&rt, &Hull::over(Rows::from_rows(3, &rows)), &expected)?;
    let text =
        "[(3,3,[]);(0,1,[(E(0),E(10));(E(15),E(20))]);(1,2,[(E(5),E(6));(E(9),Inf)]);(0,2,[(E(12),E(18))])]";
    let source = ListText::read(text.as_bytes())
        .ok()
        .expect(&rt, "the text is read");
    check_granted(&rt, &source, &expected)
}

// 48 points in a chain, each 16777216 minutes after the one before.
fn chain() -> [Row<Minutes>; 47] {
    array::from_fn(|k| row(k, k + 1, 16777216, 16777216))
}

// In the chain, point j comes 16777216 minutes times j - i after point i.
fn chain_totals() -> [i64; 2304] {
    array::from_fn(|place| ((place % 48) as i64 - (place / 48) as i64) * 16777216)
}

// The greatest totals there are, either way.
#[test]
fn longest_chain(rt: HostRuntime) {
    let totals = chain_totals();
    assert_eq!(rt;
        (totals[47], totals[2256], totals[500]),
        (788529152, -788529152, 167772160)
    );
    let mut matrix = [OLD_ENTRY; 2310];
    let mut cycle = [OLD_CODE; 50];
    let rows = chain();
    let source = Rows::from_rows(48, &rows);
    assert_eq!(rt; refusal(tighten(&source, &mut matrix, &mut cycle)), None);
    check_matrix(&rt, &matrix, &totals);
    check_codes_behind(&rt, &cycle, 0);
}
