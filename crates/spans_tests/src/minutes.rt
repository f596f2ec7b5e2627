// Minutes: sizes, order, sums and opposites, above all where they begin to be missing.
use spans::{Minutes, Span};

// A size is the absolute value, of the least number too.
#[test]
fn sizes(rt: HostRuntime) {
    for (a, size) in [
        (0, 0),
        (7, 7),
        (-7, 7),
        (i64::MAX, 9223372036854775807),
        (i64::MIN, 9223372036854775808),
    ] {
        assert_eq!(rt; (a, Minutes::from(a).size()), (a, size));
    }
    assert_eq!(rt; Minutes::zero().count, 0);
    assert_eq!(rt; Minutes::step().count, 1);
}

#[test]
fn order(rt: HostRuntime) {
    for (a, b, less) in [
        (5, 6, true),
        (6, 5, false),
        (5, 5, false),
        (-6, -5, true),
        (-1, 1, true),
        (i64::MIN, i64::MAX, true),
        (i64::MAX, i64::MIN, false),
    ] {
        assert_eq!(rt;
            (a, b, Minutes::from(a).is_less(Minutes::from(b))),
            (a, b, less)
        );
    }
}

// A sum is there exactly when the two sizes add to at most 2^42, even where the numbers would cancel;
// an opposite exactly when the size is at most 2^42.
#[test]
fn sums_and_opposites(rt: HostRuntime) {
    for (a, b, sum) in [
        (5, -7, Some(-2)),
        (4398046511104, 0, Some(4398046511104)),
        (-4398046511104, 0, Some(-4398046511104)),
        (4398046511104, 1, None),
        (4398046511104, -1, None),
        (1, -4398046511104, None),
        (4398046511103, 1, Some(4398046511104)),
        (-4398046511103, 1, Some(-4398046511102)),
        (2199023255552, 2199023255552, Some(4398046511104)),
        (2199023255552, 2199023255553, None),
        (4398046511105, 0, None),
        (i64::MIN, 0, None),
        (i64::MIN, i64::MIN, None),
        (i64::MAX, i64::MAX, None),
    ] {
        assert_eq!(rt;
            (
                a,
                b,
                Minutes::from(a).sum(Minutes::from(b)).map(|sum| sum.count)
            ),
            (a, b, sum)
        );
    }
    for (a, opposite) in [
        (0, Some(0)),
        (7, Some(-7)),
        (4398046511104, Some(-4398046511104)),
        (-4398046511104, Some(4398046511104)),
        (4398046511105, None),
        (-4398046511105, None),
        (i64::MAX, None),
        (i64::MIN, None),
    ] {
        assert_eq!(rt;
            (
                a,
                Minutes::from(a).opposite().map(|opposite| opposite.count)
            ),
            (a, opposite)
        );
    }
}
