// What good texts mean: their points, their conditions, and the windows of these.
use list_text::ListText;
use networks::Source;
use spans::Minutes;
use std::process::Abort;
use std::test::*;

// Of one condition: its two points, the number of its windows, and the two ends of one of them.
type Told = (usize, usize, usize, Option<i64>, Option<i64>);

// The numbers of points and conditions that the text tells of, and what it tells of condition k and its window w.
fn told(text: &str, k: usize, w: usize) -> Option<((usize, usize), Told)> {
    let source = ListText::read(text.as_bytes()).ok()?;
    Some((
        (source.points(), source.conditions()),
        (
            source.from(k),
            source.to(k),
            source.windows(k),
            source.low(k, w).map(|a| a.count),
            source.high(k, w).map(|a| a.count),
        ),
    ))
}

// Whether each text tells just this of itself and of condition k and its window w, for each (k, w).
fn check_told(
    rt: &impl Abort,
    table: &[(&str, (usize, usize), (usize, usize), Told)],
) -> Result<(), Fail> {
    for &(text, counts, (k, w), expected) in table {
        assert_eq!(rt;
            (text, k, w, told(text, k, w)),
            (text, k, w, Some((counts, expected)))
        );
    }
    Ok(())
}

const THREE: &str =
    "[(3,3,[]);(0,1,[(E(0),E(10));(E(15),E(20))]);(1,2,[(E(5),Inf)]);(0,2,[(E(12),E(18))])]";

const SIX: &str =
    "[(2,2,[]);(1,0,[(E(0),E(1));(E(3),E(4));(E(6),E(7));(E(9),E(10));(E(12),E(13));(E(-15),Inf)])]";

// Each window of each condition, and what is not there: a condition tells 0, 0 and 0, a window lacks both ends.
#[test]
fn conditions(rt: HostRuntime) -> Result<(), Fail> {
    check_told(
        &rt,
        &[
            (THREE, (3, 3), (0, 0), (0, 1, 2, Some(0), Some(10))),
            (THREE, (3, 3), (0, 1), (0, 1, 2, Some(15), Some(20))),
            (THREE, (3, 3), (0, 2), (0, 1, 2, None, None)),
            (THREE, (3, 3), (1, 0), (1, 2, 1, Some(5), None)),
            (THREE, (3, 3), (1, 1), (1, 2, 1, None, None)),
            (THREE, (3, 3), (2, 0), (0, 2, 1, Some(12), Some(18))),
            (THREE, (3, 3), (2, usize::MAX), (0, 2, 1, None, None)),
            (THREE, (3, 3), (3, 0), (0, 0, 0, None, None)),
            (THREE, (3, 3), (usize::MAX, 0), (0, 0, 0, None, None)),
            (SIX, (2, 1), (0, 0), (1, 0, 6, Some(0), Some(1))),
            (SIX, (2, 1), (0, 3), (1, 0, 6, Some(9), Some(10))),
            (SIX, (2, 1), (0, 4), (1, 0, 6, Some(12), Some(13))),
            (SIX, (2, 1), (0, 5), (1, 0, 6, Some(-15), None)),
            (SIX, (2, 1), (0, 6), (1, 0, 6, None, None)),
        ],
    )
}

// Two unlike header numbers mean no points. Rows are read whatever they name and wherever an end is missing.
#[test]
fn shapes(rt: HostRuntime) -> Result<(), Fail> {
    check_told(
        &rt,
        &[
            ("[(1,1,[])]", (1, 0), (0, 0), (0, 0, 0, None, None)),
            ("[(0,0,[])]", (0, 0), (0, 0), (0, 0, 0, None, None)),
            (
                "[(2,3,[]);(0,1,[(E(5),E(7))])]",
                (0, 1),
                (0, 0),
                (0, 1, 1, Some(5), Some(7)),
            ),
            (
                "[(0,9,[]);(4,3,[]);(8,6,[])]",
                (0, 2),
                (1, 0),
                (8, 6, 0, None, None),
            ),
            ("[(2,2,[]);(2,2,[])]", (2, 1), (0, 0), (2, 2, 0, None, None)),
            (
                "[(2,2,[]);(0,1,[]);(1,0,[(E(1),E(2))])]",
                (2, 2),
                (0, 0),
                (0, 1, 0, None, None),
            ),
            (
                "[(2,2,[]);(0,1,[]);(1,0,[(E(1),E(2))])]",
                (2, 2),
                (1, 0),
                (1, 0, 1, Some(1), Some(2)),
            ),
            (
                "[(1,1,[]);(7,7,[(E(9),E(1));(E(9),E(1))])]",
                (1, 1),
                (0, 1),
                (7, 7, 2, Some(9), Some(1)),
            ),
            (
                "[(2,2,[]);(0,1,[(Inf,E(-3))])]",
                (2, 1),
                (0, 0),
                (0, 1, 1, None, Some(-3)),
            ),
            (
                "[(2,2,[]);(0,1,[(Inf,Inf)])]",
                (2, 1),
                (0, 0),
                (0, 1, 1, None, None),
            ),
            (
                "[(2,2,[]);(0,1,[(E(3),Inf);(Inf,E(5))])]",
                (2, 1),
                (0, 0),
                (0, 1, 2, Some(3), None),
            ),
            (
                "[(2,2,[]);(0,1,[(E(3),Inf);(Inf,E(5))])]",
                (2, 1),
                (0, 1),
                (0, 1, 2, None, Some(5)),
            ),
        ],
    )
}

const BLANKS: &str =
    "\t\r\n [ \t( \r2\n,\t2 ,\n[\r] )\t;\n( 0 ,\t1\r,\n[ ( \tE\n(\r-4 )\t,\nInf\r) ;\t( Inf , E ( 90 ) ) ] ) ]\r\n\t ";

// Blanks between tokens, and numbers up to 12 digits, with zeros in front or a minus.
#[test]
fn tokens(rt: HostRuntime) -> Result<(), Fail> {
    check_told(
        &rt,
        &[
            (BLANKS, (2, 1), (0, 0), (0, 1, 2, Some(-4), None)),
            (BLANKS, (2, 1), (0, 1), (0, 1, 2, None, Some(90))),
            (
                "[(2,2,[]);(0,1,[(E (5),E( -6 ))])]",
                (2, 1),
                (0, 0),
                (0, 1, 1, Some(5), Some(-6)),
            ),
            (
                "[(2,2,[]);(0,1,[(E(-0),E(-000))])]",
                (2, 1),
                (0, 0),
                (0, 1, 1, Some(0), Some(0)),
            ),
            ("[(02,2,[])]", (2, 0), (0, 0), (0, 0, 0, None, None)),
            ("[(20,2,[])]", (0, 0), (0, 0), (0, 0, 0, None, None)),
            (
                "[(10,000000000010,[]);(09,010,[(E(08),E(-0100))])]",
                (10, 1),
                (0, 0),
                (9, 10, 1, Some(8), Some(-100)),
            ),
            (
                "[(7,000000000007,[]);(000000000001,0,[(E(000000000007),E(-000000000007))])]",
                (7, 1),
                (0, 0),
                (1, 0, 1, Some(7), Some(-7)),
            ),
            (
                "[(999999999999,999999999999,[]);(999999999998,999999999999,[(E(-999999999999),E(999999999999))])]",
                (999999999999, 1),
                (0, 0),
                (
                    999999999998,
                    999999999999,
                    1,
                    Some(-999999999999),
                    Some(999999999999),
                ),
            ),
            (
                "[(1,1,[]);(123456789012,987654321098,[(E(123456789012),E(-987654321098))])]",
                (1, 1),
                (0, 0),
                (
                    123456789012,
                    987654321098,
                    1,
                    Some(123456789012),
                    Some(-987654321098),
                ),
            ),
        ],
    )
}
