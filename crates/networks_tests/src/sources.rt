// What rows answer, and what the layers over them make of their answers.
use layers::{Chosen, Hull, Selected};
use networks::{Row, Rows, Source, Window};
use spans::{MinuteRank, Minutes};
use std::process::Abort;

fn parts(span: Option<MinuteRank>) -> Option<(i64, i64)> {
    span.map(|a| (a.first.count, a.second.count))
}

// Of one condition: its two points, the number of its windows, and the two ends of one of them.
type Told = (usize, usize, usize, Option<i64>, Option<i64>);

fn told<T: Source<Span = Minutes>>(source: &T, k: usize, w: usize) -> Told {
    (
        source.from(k),
        source.to(k),
        source.windows(k),
        source.low(k, w).map(|a| a.count),
        source.high(k, w).map(|a| a.count),
    )
}

// Whether the source tells just this of condition k and its window w, for each (k, w).
fn check_told<T: Source<Span = Minutes>>(
    rt: &impl Abort,
    source: &T,
    table: &[((usize, usize), Told)],
) {
    for &((k, w), expected) in table {
        assert_eq!(rt; ((k, w), told(source, k, w)), ((k, w), expected));
    }
}

// The hull of the window that is selected by this number for condition k, asked of a layer over a layer.
fn hull_of_selected<T: Source>(source: &T, number: u8, k: usize) -> Window<T::Span> {
    let pile = Hull::over(Selected::over(source, [number; 64]));
    Window {
        low: pile.low(k, 0),
        high: pile.high(k, 0),
    }
}

// A condition with three windows, one whose windows fall, one without windows, and one with five.
fn four() -> [Row<Minutes>; 4] {
    let five = [
        Window::minutes(0, 1),
        Window::minutes(3, 4),
        Window::minutes(6, 7),
        Window::minutes(9, 10),
        Window::minutes(12, 13),
    ];
    [
        Row::new(
            0,
            1,
            &[
                Window::minutes(0, 1),
                Window::minutes(5, 6),
                Window::at_least(Minutes::from(8)),
            ],
        ),
        Row::new(1, 2, &[Window::minutes(10, 20), Window::minutes(0, 5)]),
        Row::new(2, 0, &[]),
        Row::new(2, 1, &five),
    ]
}

// A row has room for four windows: a fifth one is counted and lacks both ends.
#[test]
fn rows(rt: HostRuntime) {
    let rows = four();
    let source = Rows::from_rows(3, &rows);
    assert_eq!(rt; (source.points(), source.conditions()), (3, 4));
    check_told(
        &rt,
        &source,
        &[
            ((0, 0), (0, 1, 3, Some(0), Some(1))),
            ((0, 2), (0, 1, 3, Some(8), None)),
            ((0, 3), (0, 1, 3, None, None)),
            ((0, usize::MAX), (0, 1, 3, None, None)),
            ((1, 1), (1, 2, 2, Some(0), Some(5))),
            ((2, 0), (2, 0, 0, None, None)),
            ((3, 3), (2, 1, 5, Some(9), Some(10))),
            ((3, 4), (2, 1, 5, None, None)),
            ((4, 0), (0, 0, 0, None, None)),
            ((usize::MAX, 0), (0, 0, 0, None, None)),
        ],
    );
}

// A hull goes from the first window's low end to the last one's high end, even where the windows fall.
#[test]
fn hulls(rt: HostRuntime) {
    let rows = four();
    let hull = Hull::over(Rows::from_rows(3, &rows));
    assert_eq!(rt; (hull.points(), hull.conditions()), (3, 4));
    check_told(
        &rt,
        &hull,
        &[
            ((0, 0), (0, 1, 1, Some(0), None)),
            ((1, 0), (1, 2, 1, Some(10), Some(5))),
            ((1, 1), (1, 2, 1, None, None)),
            ((2, 0), (2, 0, 0, None, None)),
            ((3, 0), (2, 1, 1, Some(0), None)),
            ((4, 0), (0, 0, 0, None, None)),
        ],
    );
}

// A selection keeps the window with the given number, and none where there is no such window or no number.
#[test]
fn selections(rt: HostRuntime) {
    let mut rows = [Row::new(2, 1, &[Window::minutes(7, 9)]); 66];
    rows[0] = Row::new(0, 1, &[Window::minutes(0, 1), Window::minutes(5, 6)]);
    let mut numbers = [0; 64];
    numbers[0] = 1;
    numbers[1] = 1;
    let selected = Selected::over(Rows::from_rows(3, &rows), numbers);
    assert_eq!(rt; (selected.points(), selected.conditions()), (3, 66));
    check_told(
        &rt,
        &selected,
        &[
            ((0, 0), (0, 1, 1, Some(5), Some(6))),
            ((0, 1), (0, 1, 1, None, None)),
            ((1, 0), (2, 1, 0, None, None)),
            ((2, 0), (2, 1, 1, Some(7), Some(9))),
            ((63, 0), (2, 1, 1, Some(7), Some(9))),
            ((64, 0), (2, 1, 0, None, None)),
            ((65, 0), (2, 1, 0, None, None)),
            ((66, 0), (0, 0, 0, None, None)),
        ],
    );
}

// Below the place the selected window, if a number selects one; from the place on the hull.
#[test]
fn partly_selected(rt: HostRuntime) {
    let rows = [Row::new(
        2,
        1,
        &[
            Window::minutes(0, 1),
            Window::minutes(5, 6),
            Window::minutes(8, 9),
        ],
    ); 66];
    let chosen = Chosen::over(Rows::from_rows(3, &rows), [1; 64], 65);
    assert_eq!(rt; (chosen.points(), chosen.conditions()), (3, 66));
    check_told(
        &rt,
        &chosen,
        &[
            ((0, 0), (2, 1, 1, Some(5), Some(6))),
            ((63, 0), (2, 1, 1, Some(5), Some(6))),
            ((64, 0), (2, 1, 0, None, None)),
            ((65, 0), (2, 1, 1, Some(0), Some(9))),
            ((66, 0), (0, 0, 0, None, None)),
        ],
    );
}

// The hull of a selected window is that window, over minutes and over minutes with ranks.
#[test]
fn piles(rt: HostRuntime) {
    let rows = four();
    let kept = hull_of_selected(&Rows::from_rows(3, &rows), 1, 1);
    assert_eq!(rt;
        (kept.low.map(|a| a.count), kept.high.map(|a| a.count)),
        (Some(0), Some(5))
    );
    let ranked = [Row::new(
        0,
        1,
        &[
            Window::between(MinuteRank::from((5, 0)), MinuteRank::from((5, 1))),
            Window::between(MinuteRank::from((6, -2)), MinuteRank::from((7, 3))),
        ],
    )];
    let kept = hull_of_selected(&Rows::from_rows(2, &ranked), 1, 0);
    assert_eq!(rt;
        (parts(kept.low), parts(kept.high)),
        (Some((6, -2)), Some((7, 3)))
    );
}
