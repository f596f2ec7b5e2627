// Networks that solve refuses: by the checks, by a cycle of the hulls, and where no window goes.
use crate::memory::{
    OLD_CODE, OLD_DATE, OLD_ENTRY, check_blank, check_codes_behind, check_dates, check_refused, row,
};
use networks::{Fault, Row, Rows, Window};
use schedules::solve;

// The hull [0, 10] and [4, 6] go together, neither of the windows does.
#[test]
fn no_window(rt: HostRuntime) {
    let choice = Row::new(0, 1, &[Window::minutes(0, 2), Window::minutes(8, 10)]);
    check_refused(
        &rt,
        &Rows::from_rows(2, &[choice, row(0, 1, 4, 6)]),
        Fault::NoPlan,
        4,
        0,
    );
}

// Two choices each of which goes by itself.
#[test]
fn no_pair_of_windows(rt: HostRuntime) {
    let a = Row::new(0, 1, &[Window::minutes(0, 0), Window::minutes(4, 4)]);
    let b = Row::new(1, 2, &[Window::minutes(0, 0), Window::minutes(4, 4)]);
    let rows = [a, b, row(0, 2, 2, 3), row(0, 2, 1, 7)];
    check_refused(&rt, &Rows::from_rows(3, &rows), Fault::NoPlan, 9, 0);
}

// Two steps of 10 to 20 minutes do not go into 15: a cycle of three edges.
#[test]
fn by_a_cycle(rt: HostRuntime) {
    let rows = [row(0, 1, 10, 20), row(1, 2, 10, 20), row(0, 2, 0, 15)];
    check_refused(&rt, &Rows::from_rows(3, &rows), Fault::Cycle(3), 9, 3);
}

// What the checks refuse, with nothing written.
#[test]
fn by_the_checks(rt: HostRuntime) {
    let good = row(0, 1, 0, 10);
    let choice = Row::new(0, 1, &[Window::minutes(0, 10), Window::minutes(11, 20)]);
    let table: [(usize, &[Row<spans::Minutes>], Fault); 9] = [
        (0, &[], Fault::Points),
        (49, &[good], Fault::Points),
        (4, &[good, row(0, 4, 0, 10)], Fault::Named(1)),
        (4, &[good, row(2, 2, 0, 10)], Fault::Named(1)),
        (4, &[good, good, Row::new(2, 1, &[])], Fault::WindowCount(2)),
        (4, &[row(0, 1, 0, 16777217)], Fault::EndSize(0)),
        (4, &[good, row(0, 1, 7, 6)], Fault::WindowOrder(1)),
        (4, &[good; 65], Fault::Full),
        (4, &[choice; 7], Fault::Choices),
    ];
    for (points, rows, fault) in table {
        check_refused(&rt, &Rows::from_rows(points, rows), fault, 0, 0);
    }
}

// Of four points the matrix takes 16 entries, the cycle and the dates 4 each.
#[test]
fn by_memory(rt: HostRuntime) {
    let rows = [row(0, 1, 0, 10)];
    let source = Rows::from_rows(4, &rows);
    for (entries, edges, points) in [(15, 4, 4), (16, 3, 4), (16, 4, 3)] {
        let mut matrix = [OLD_ENTRY; 16];
        let mut cycle = [OLD_CODE; 4];
        let mut dates = [OLD_DATE; 4];
        let res = solve(
            &source,
            &mut matrix[..entries],
            &mut cycle[..edges],
            &mut dates[..points],
        );
        assert_eq!(rt; res, Err(Fault::Memory));
        check_blank(&rt, &matrix, 0);
        check_codes_behind(&rt, &cycle, 0);
        check_dates(&rt, &dates, &[]);
    }
}
