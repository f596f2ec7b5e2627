// The brake change: its points, and its conditions as list text.
pub const POINTS: usize = 7;

// The brake change as a terminal writes it. The berth's gaps come first, then the steps of the work, the whole change, and
// the second vessel, which has to find the crane handed back.
pub const BRAKE_CHANGE: &str = "[(7,7,[]);
 (0,1,[(E(30),E(90));(E(600),E(660));(E(1320),E(1400))]);
 (1,2,[(E(0),E(45))]);
 (2,3,[(E(120),E(180))]);
 (3,4,[(E(150),E(200))]);
 (4,5,[(E(40),E(60))]);
 (5,6,[(E(0),E(30))]);
 (1,6,[(E(430),E(430))]);
 (0,6,[(Inf,E(1080))])]
";

// The points by number, in the order in which they should come.
const NAMES: [&str; POINTS] = [
    "first vessel sails",
    "crane stopped",
    "crew at the crane",
    "brake out",
    "brake in",
    "test run done",
    "crane handed back",
];

pub fn point_name(p: usize) -> &'static str {
    NAMES.get(p).copied().unwrap_or("a point that is not there")
}
