// What the walkthrough tells: texts, the job's conditions, what selections leave of them, and what the checks say.
ghost use Rattle.std.specs.Prelude.{◌≡◌};
ghost use Rattle.networks.specs.Network.{condition_at, window_of};
ghost use Rattle.networks.specs.Hull.{hulls};

use crate::job::{BRAKE_CHANGE, POINTS, point_name};
use crate::words::{Refused, in_minutes};
use checks::check;
use layers::{Hull, Selected};
use list_text::ListText;
use networks::{
    Fault, Lent, MOST_CONDITIONS, MOST_ENTRIES, MOST_POINTS, Row, Rows, Source, Window,
};
use spans::Minutes;
use std::io;

// Memory that suffices for 48 points.
const AMPLE: Lent = Lent {
    matrix: MOST_ENTRIES,
    cycle: MOST_POINTS,
    dates: Some(MOST_POINTS),
};

// The hull of condition k of any source, asked of a layer over it.
pub(crate) fn hull_of<T: Source>(source: &T, k: usize) -> Window<T::Span>
    ensures { result ≡ window_of (condition_at (hulls (T.Source.means source.now)) k) 0 }
{
    let hull = Hull::over(source);
    Window {
        low: hull.low(k, 0),
        high: hull.high(k, 0),
    }
}

pub(crate) fn tell_condition<T: Source<Span = Minutes>>(
    rt: &HostRuntime,
    source: &T,
    k: usize,
) -> io::Result<()> {
    let from = point_name(source.from(k));
    let to = point_name(source.to(k));
    println!(rt; "  {k}: from '{from}' to '{to}'")?;
    for w in 0..source.windows(k) {
        let window = in_minutes(Window {
            low: source.low(k, w),
            high: source.high(k, w),
        });
        println!(rt; "       window {w}: {window}")?;
    }
    Ok(())
}

fn tell_hull<T: Source<Span = Minutes>>(rt: &HostRuntime, source: &T, k: usize) -> io::Result<()> {
    if source.windows(k) == 0 {
        return println!(rt; "       no window, so no hull");
    }
    let hull = in_minutes(hull_of(source, k));
    println!(rt; "       hull: {hull}")
}

// A text with a caret under the place of its fault.
pub(crate) fn tell_fault(rt: &HostRuntime, text: &str, fault: Fault) -> io::Result<()> {
    let before = "";
    let place = fault.detail();
    let refused = Refused(fault);
    println!(rt; "  {text}")?;
    println!(rt; "  {before:>place$}^ {refused}")
}

fn tell_text(rt: &HostRuntime, text: &str) -> io::Result<()> {
    match ListText::read(text.as_bytes()) {
        Ok(source) => {
            let points = source.points();
            let conditions = source.conditions();
            println!(rt; "  {text}")?;
            println!(rt; "  is list text of {points} points and {conditions} conditions")
        }
        Err(fault) => tell_fault(rt, text, fault),
    }
}

pub fn tell_texts(rt: &HostRuntime) -> io::Result<()> {
    println!(rt;
        "Texts that are read or turned away, with a caret under the first byte with which no list text can go on:"
    )?;
    tell_text(rt, "[(2,2,[]);(0,1,[(Inf,E(-3))])]")?;
    tell_text(rt, "[(2,2,[]);(0,1,[(E(3 0),E(90))])]")?;
    tell_text(rt, "[(2,2,[]);]")
}

fn tell_points(rt: &HostRuntime) -> io::Result<()> {
    println!(rt; "Its points:")?;
    for p in 0..POINTS {
        let name = point_name(p);
        println!(rt; "  {p}: {name}")?;
    }
    Ok(())
}

fn tell_job<T: Source<Span = Minutes>>(rt: &HostRuntime, job: &T) -> io::Result<()> {
    let count = job.conditions();
    println!(rt; "Its {count} conditions, each with the hull of its windows:")?;
    for k in 0..count {
        tell_condition(rt, job, k)?;
        tell_hull(rt, job, k)?;
    }
    tell_source(rt, "the brake change", job, AMPLE)
}

fn tell_selection<T: Source<Span = Minutes>>(rt: &HostRuntime, job: &T, gap: u8) -> io::Result<()> {
    let mut windows = [0u8; MOST_CONDITIONS];
    windows[0] = gap;
    let selected = Selected::over(job, windows);
    println!(rt;
        "With window {gap} selected for condition 0, and window 0 for each other one, there is left of condition 0:"
    )?;
    tell_condition(rt, &selected, 0)?;
    tell_hull(rt, &selected, 0)
}

fn tell_selections<T: Source<Span = Minutes>>(rt: &HostRuntime, job: &T) -> io::Result<()> {
    println!(rt; "The berth's gaps are a choice: a selection keeps one window of each condition.")?;
    tell_selection(rt, job, 0)?;
    tell_selection(rt, job, 2)?;
    println!(rt; "A window that is not there leaves none:")?;
    tell_selection(rt, job, 3)
}

pub fn tell_brake_change(rt: &HostRuntime) -> io::Result<()> {
    println!(rt; "A brake change of 430 minutes between two vessels, as list text:")?;
    print!(rt; "{BRAKE_CHANGE}")?;
    match ListText::read(BRAKE_CHANGE.as_bytes()) {
        Ok(job) => {
            tell_points(rt)?;
            tell_job(rt, &job)?;
            tell_selections(rt, &job)
        }
        Err(fault) => tell_fault(rt, BRAKE_CHANGE, fault),
    }
}

fn tell_source<T: Source<Span = Minutes>>(
    rt: &HostRuntime,
    what: &str,
    source: &T,
    lent: Lent,
) -> io::Result<()> {
    match check(source, lent) {
        Ok(()) => println!(rt; "  {what}: passes"),
        Err(fault) => {
            let refused = Refused(fault);
            println!(rt; "  {what}: {refused}")
        }
    }
}

// Texts that are read and then refused by the checks, and one that passes.
const JOBS: [(&str, &str); 13] = [
    ("one condition", "[(7,7,[]);(1,2,[(E(0),E(45))])]"),
    ("no points", "[(0,0,[])]"),
    ("49 points", "[(49,49,[])]"),
    ("unlike numbers of points", "[(7,6,[])]"),
    (
        "condition 1 to a point 7",
        "[(7,7,[]);(1,2,[(E(0),E(45))]);(1,7,[(E(0),E(45))])]",
    ),
    (
        "a condition from a point to itself",
        "[(7,7,[]);(2,2,[(E(0),E(45))])]",
    ),
    ("a condition without a window", "[(7,7,[]);(3,4,[])]"),
    (
        "a condition with five windows",
        "[(7,7,[]);(3,4,[(E(0),E(1));(E(3),E(4));(E(6),E(7));(E(9),E(9));(E(12),Inf)])]",
    ),
    ("an end of 16777217", "[(7,7,[]);(0,6,[(Inf,E(16777217))])]"),
    (
        "a window from 60 down to 40",
        "[(7,7,[]);(4,5,[(E(60),E(40))])]",
    ),
    (
        "windows that touch",
        "[(7,7,[]);(0,1,[(E(30),E(90));(E(90),E(120))])]",
    ),
    (
        "a missing high end in a window before the last",
        "[(7,7,[]);(0,1,[(E(30),Inf);(E(600),E(660))])]",
    ),
    (
        "a missing low end in a window behind the first",
        "[(7,7,[]);(0,1,[(E(30),E(90));(Inf,E(660))])]",
    ),
];

fn tell_jobs(rt: &HostRuntime) -> io::Result<()> {
    for (what, text) in JOBS {
        match ListText::read(text.as_bytes()) {
            Ok(job) => tell_source(rt, what, &job, AMPLE)?,
            Err(fault) => tell_fault(rt, text, fault)?,
        }
    }
    Ok(())
}

fn tell_check(rt: &HostRuntime, what: &str, rows: &[Row<Minutes>], lent: Lent) -> io::Result<()> {
    tell_source(rt, what, &Rows::from_rows(POINTS, rows), lent)
}

fn tell_many(rt: &HostRuntime) -> io::Result<()> {
    let one = Row::new(1, 2, &[Window::minutes(0, 45)]);
    tell_check(rt, "64 conditions", &[one; 64], AMPLE)?;
    tell_check(rt, "65 conditions", &[one; 65], AMPLE)?;
    let choice = Row::new(0, 1, &[Window::minutes(30, 90), Window::minutes(600, 660)]);
    tell_check(rt, "6 choice conditions", &[choice; 6], AMPLE)?;
    tell_check(rt, "7 choice conditions", &[choice; 7], AMPLE)
}

fn tell_memory(
    rt: &HostRuntime,
    what: &str,
    matrix: usize,
    cycle: usize,
    dates: usize,
) -> io::Result<()> {
    let row = Row::new(1, 2, &[Window::minutes(0, 45)]);
    tell_check(
        rt,
        what,
        &[row],
        Lent {
            matrix,
            cycle,
            dates: Some(dates),
        },
    )
}

pub fn tell_checks(rt: &HostRuntime) -> io::Result<()> {
    println!(rt; "What the checks say, with the number and the detail of each refusal:")?;
    tell_jobs(rt)?;
    tell_many(rt)?;
    tell_memory(rt, "memory of 49, 7 and 7 entries", 49, 7, 7)?;
    tell_memory(rt, "a matrix of 48 entries", 48, 7, 7)?;
    tell_memory(rt, "a cycle memory of 6 entries", 49, 6, 7)?;
    tell_memory(rt, "6 dates", 49, 7, 6)
}
