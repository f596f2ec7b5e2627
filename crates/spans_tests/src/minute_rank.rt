// A minute and a rank inside it: the minute is compared first, and the larger part is the size.
use spans::{MinuteRank, Span};

fn parts(span: MinuteRank) -> (i64, i64) {
    (span.first.count, span.second.count)
}

#[test]
fn sizes(rt: HostRuntime) {
    for (a, size) in [
        ((3, -7), 7),
        ((-7, 3), 7),
        ((i64::MIN, 0), 9223372036854775808),
        ((0, i64::MIN), 9223372036854775808),
        ((i64::MAX, i64::MAX), 9223372036854775807),
    ] {
        assert_eq!(rt; (a, MinuteRank::from(a).size()), (a, size));
    }
    assert_eq!(rt; parts(MinuteRank::zero()), (0, 0));
    assert_eq!(rt; parts(MinuteRank::step()), (0, 1));
}

// The rank decides only where the minutes are equal.
#[test]
fn order(rt: HostRuntime) {
    for (a, b, less) in [
        ((5, 100), (6, -100), true),
        ((6, -100), (5, 100), false),
        ((5, 0), (5, 1), true),
        ((5, 1), (5, 0), false),
        ((5, 1), (5, 1), false),
    ] {
        assert_eq!(rt;
            (a, b, MinuteRank::from(a).is_less(MinuteRank::from(b))),
            (a, b, less)
        );
    }
}

// A sum is there exactly when the two sizes add to at most 2^42, even where each part's sum would be;
// an opposite exactly when the size is at most 2^42.
#[test]
fn sums_and_opposites(rt: HostRuntime) {
    for (a, b, sum) in [
        ((5, -3), (-7, 1), Some((-2, -2))),
        ((1, 4398046511103), (0, 1), Some((1, 4398046511104))),
        ((4398046511104, 0), (0, 0), Some((4398046511104, 0))),
        ((4398046511104, 0), (0, 1), None),
        ((0, 1), (-4398046511104, 0), None),
        ((i64::MIN, 0), (0, i64::MIN), None),
    ] {
        assert_eq!(rt;
            (
                a,
                b,
                MinuteRank::from(a).sum(MinuteRank::from(b)).map(parts)
            ),
            (a, b, sum)
        );
    }
    for (a, opposite) in [
        ((5, -3), Some((-5, 3))),
        (
            (4398046511104, -4398046511104),
            Some((-4398046511104, 4398046511104)),
        ),
        ((0, 4398046511105), None),
        ((4398046511105, 0), None),
        ((i64::MIN, 0), None),
    ] {
        assert_eq!(rt;
            (a, MinuteRank::from(a).opposite().map(parts)),
            (a, opposite)
        );
    }
}
