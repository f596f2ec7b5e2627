// What the walkthrough tells of the job's hulls taken together: how far apart any two points may lie, or why no plan meets them.
use crate::job::{BRAKE_CHANGE, POINTS, point_name};
use crate::story::{hull_of, tell_condition, tell_fault};
use crate::words::{Refused, in_hours};
use distances::{Edge, tighten};
use list_text::ListText;
use networks::{Fault, Row, Rows, Source, Window};
use spans::{Minutes, Span};
use std::io;

// How many minutes point j comes after point i at most; none where nothing bounds that.
fn at_most_after(matrix: &[Option<Minutes>], i: usize, j: usize) -> Option<Minutes> {
    if i < POINTS && j < POINTS {
        matrix.get(i * POINTS + j).copied().flatten()
    } else {
        None
    }
}

fn tell_table(rt: &HostRuntime, matrix: &[Option<Minutes>]) -> io::Result<()> {
    println!(rt;
        "The point of a column comes at most so many minutes after the point of the row; below zero, at least so many before it; a dash, no bound:"
    )?;
    print!(rt; "   ")?;
    for j in 0..POINTS {
        print!(rt; "{j:>6}")?;
    }
    println!(rt; "")?;
    for i in 0..POINTS {
        print!(rt; "  {i}")?;
        for j in 0..POINTS {
            match at_most_after(matrix, i, j) {
                Some(most) => {
                    let count = most.count;
                    print!(rt; "{count:>6}")?;
                }
                None => print!(rt; "     -")?,
            }
        }
        println!(rt; "")?;
    }
    Ok(())
}

// From point i to point j: at least the opposite of what point i comes after point j at most.
fn tight_window(matrix: &[Option<Minutes>], i: usize, j: usize) -> Window<Minutes> {
    Window {
        low: at_most_after(matrix, j, i).and_then(Minutes::opposite),
        high: at_most_after(matrix, i, j),
    }
}

fn tell_times(rt: &HostRuntime, matrix: &[Option<Minutes>]) -> io::Result<()> {
    let first = point_name(0);
    println!(rt; "So each point comes, in hours and minutes after '{first}':")?;
    for p in 1..POINTS {
        let name = point_name(p);
        let times = in_hours(tight_window(matrix, 0, p));
        println!(rt; "  {p}: {name}: {times}")?;
    }
    Ok(())
}

fn tell_narrowed<T: Source<Span = Minutes>>(
    rt: &HostRuntime,
    job: &T,
    matrix: &[Option<Minutes>],
) -> io::Result<()> {
    println!(rt; "The conditions whose hull the others narrow:")?;
    for k in 0..job.conditions() {
        let hull = hull_of(job, k);
        let tight = tight_window(matrix, job.from(k), job.to(k));
        if hull != tight {
            let from = point_name(job.from(k));
            let to = point_name(job.to(k));
            let told = in_hours(hull);
            let left = in_hours(tight);
            println!(rt; "  {k}: from '{from}' to '{to}': {told}, narrowed to {left}")?;
        }
    }
    Ok(())
}

// What an edge means: its second point comes at most so many minutes after its first.
fn tell_bound(rt: &HostRuntime, from: &str, to: &str, weight: i64) -> io::Result<()> {
    if weight < 0 {
        let size = weight.unsigned_abs();
        println!(rt; "       '{to}' comes at least {size} minutes before '{from}'")
    } else {
        println!(rt; "       '{to}' comes at most {weight} minutes after '{from}'")
    }
}

// Each edge of the cycle with its condition, its points, its weight and what that means, and the sum of the weights.
fn tell_cycle<T: Source<Span = Minutes>>(
    rt: &HostRuntime,
    job: &T,
    codes: &[u16],
) -> io::Result<()> {
    let mut total = Minutes::zero();
    let mut end = "";
    for code in codes {
        let edge = Edge::from(*code);
        if let Some(weight) = edge.weight(job) {
            let k = edge.condition();
            let from = point_name(edge.leaves(job));
            let to = point_name(edge.reaches(job));
            let count = weight.count;
            println!(rt; "  condition {k}, from '{from}' to '{to}': {count}")?;
            tell_bound(rt, from, to, count)?;
            total = total.sum(weight).unwrap_or(total);
            end = to;
        }
    }
    let count = total.count;
    let size = count.unsigned_abs();
    println!(rt; "  together: {count}")?;
    println!(rt; "       '{end}' would come at least {size} minutes before itself")
}

fn tell_refused<T: Source<Span = Minutes>>(
    rt: &HostRuntime,
    job: &T,
    fault: Fault,
    cycle: &[u16],
) -> io::Result<()> {
    let refused = Refused(fault);
    println!(rt; "  tightened: {refused}")?;
    let Fault::Cycle(edges) = fault else {
        return Ok(());
    };
    let Some(codes) = cycle.get(0..edges) else {
        return Ok(());
    };
    println!(rt;
        "The cycle that says why: its {edges} edges lead from point to point and back to the first, and add up below zero:"
    )?;
    tell_cycle(rt, job, codes)
}

// The hulls of a job, tightened.
fn tell_tightened<T: Source<Span = Minutes>>(rt: &HostRuntime, job: &T) -> io::Result<()> {
    let mut matrix = [None; POINTS * POINTS];
    let mut cycle = [0; POINTS];
    match tighten(job, &mut matrix, &mut cycle) {
        Ok(()) => {
            tell_table(rt, &matrix)?;
            tell_times(rt, &matrix)?;
            tell_narrowed(rt, job, &matrix)
        }
        Err(fault) => tell_refused(rt, job, fault, &cycle),
    }
}

// The job's 8 conditions, and one more as the last.
pub(crate) fn with_one_more(job: &ListText, more: Row<Minutes>) -> [Row<Minutes>; 9] {
    let mut rows = [more; 9];
    let _ = job.fill(0, &mut rows[0..8]);
    rows
}

fn tell_early_vessel(rt: &HostRuntime, job: &ListText) -> io::Result<()> {
    println!(rt; "Now the second vessel is to berth earlier, which is one condition more:")?;
    // The second vessel berths 450 minutes after the first one sails.
    let berths = Window::at_most(Minutes::from(450));
    let rows = with_one_more(job, Row::new(0, 6, &[berths]));
    let early = Rows::from_rows(POINTS, &rows);
    tell_condition(rt, &early, 8)?;
    tell_tightened(rt, &early)
}

pub fn tell_distances(rt: &HostRuntime) -> io::Result<()> {
    match ListText::read(BRAKE_CHANGE.as_bytes()) {
        Ok(job) => {
            println!(rt;
                "Tightened: what the hulls of the brake change say together, whichever gap is selected."
            )?;
            tell_tightened(rt, &job)?;
            tell_early_vessel(rt, &job)
        }
        Err(fault) => tell_fault(rt, BRAKE_CHANGE, fault),
    }
}
