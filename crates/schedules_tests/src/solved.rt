// Networks that solve grants, with their dates.
use crate::memory::{check_solved, row};
use list_text::{ListText, write_dates};
use networks::{Row, Rows, Window};
use schedules::solve;
use spans::{MinuteRank, Minutes};
use std::test::Fail;

// A point by itself has date zero.
#[test]
fn one_point(rt: HostRuntime) {
    check_solved(&rt, &Rows::from_rows(1, &[]), &[0]);
}

// The second point comes as early as it may.
#[test]
fn earliest(rt: HostRuntime) {
    check_solved(&rt, &Rows::from_rows(2, &[row(0, 1, 5, 9)]), &[0, 5]);
}

// Two steps of 10 to 20 minutes within 20 take 10 each.
#[test]
fn two_steps(rt: HostRuntime) {
    let rows = [row(0, 1, 10, 20), row(1, 2, 10, 20), row(0, 2, 0, 20)];
    check_solved(&rt, &Rows::from_rows(3, &rows), &[0, 10, 20]);
}

// Without an earliest date the latest one; without either zero.
#[test]
fn latest_or_zero(rt: HostRuntime) {
    let before = Row::new(0, 1, &[Window::at_most(Minutes::from(-3))]);
    check_solved(&rt, &Rows::from_rows(2, &[before]), &[0, -3]);
    check_solved(&rt, &Rows::from_rows(3, &[before]), &[0, -3, 0]);
}

// The first window that has a plan is taken, also behind one that the hulls let pass.
#[test]
fn later_windows(rt: HostRuntime) {
    let choice = Row::new(0, 1, &[Window::minutes(0, 2), Window::minutes(8, 10)]);
    check_solved(&rt, &Rows::from_rows(2, &[choice]), &[0, 0]);
    check_solved(
        &rt,
        &Rows::from_rows(2, &[choice, row(0, 1, 1, 20)]),
        &[0, 1],
    );
    check_solved(
        &rt,
        &Rows::from_rows(2, &[choice, row(0, 1, 3, 20)]),
        &[0, 8],
    );
    let other = Row::new(1, 2, &[Window::minutes(0, 1), Window::minutes(5, 6)]);
    check_solved(
        &rt,
        &Rows::from_rows(3, &[choice, other, row(0, 2, 12, 20)]),
        &[0, 8, 13],
    );
}

// Of two choices that do not go together the later one gives way.
#[test]
fn first_choice_first(rt: HostRuntime) {
    let a = Row::new(0, 1, &[Window::minutes(0, 0), Window::minutes(4, 4)]);
    let b = Row::new(0, 2, &[Window::minutes(1, 1), Window::minutes(6, 6)]);
    check_solved(
        &rt,
        &Rows::from_rows(3, &[a, b, row(1, 2, 2, 9)]),
        &[0, 0, 6],
    );
}

// A list text and its dates as text.
#[test]
fn text_to_text(rt: HostRuntime) -> Result<(), Fail> {
    let text =
        "[(3,3,[]);(0,1,[(E(0),E(10));(E(15),E(20))]);(1,2,[(E(5),Inf)]);(0,2,[(E(12),E(18))])]";
    let source = ListText::read(text.as_bytes())
        .ok()
        .expect(&rt, "list text");
    check_solved(&rt, &source, &[0, 0, 12]);
    let mut dates = [Minutes::from(0); 3];
    let res = solve(&source, &mut [None; 9], &mut [0; 3], &mut dates);
    assert_eq!(rt; res, Ok(()));
    let written = write_dates(rt.alloc(), &dates)?.expect(&rt, "dates that have a text");
    assert_eq!(rt;
        written.as_str(),
        "[(3,3,[]);(0,1,[(E(0),E(0))]);(0,2,[(E(12),E(12))])]"
    );
    Ok(())
}

// Minute 5 in two ranks.
#[test]
fn minute_ranks(rt: HostRuntime) {
    let five = MinuteRank::from((5, 0));
    let rows = [
        Row::new(0, 1, &[Window::between(five, five)]),
        Row::new(1, 2, &[Window::at_least(MinuteRank::from((0, 1)))]),
    ];
    let mut dates = [MinuteRank::from((7, 7)); 3];
    let res = solve(
        &Rows::from_rows(3, &rows),
        &mut [None; 9],
        &mut [0; 3],
        &mut dates,
    );
    assert_eq!(rt; res, Ok(()));
    assert_eq!(rt; dates[0], MinuteRank::from((0, 0)));
    assert_eq!(rt; dates[1], five);
    assert_eq!(rt; dates[2], MinuteRank::from((5, 1)));
}
