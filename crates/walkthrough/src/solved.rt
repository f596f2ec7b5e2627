// What the walkthrough tells of dates: a timetable, ranges, and jobs with one condition more that a later gap or no gap can keep.
use crate::job::{BRAKE_CHANGE, POINTS, point_name};
use crate::story::{tell_condition, tell_fault};
use crate::tightened::with_one_more;
use crate::words::{Clock, Refused, in_hours};
use list_text::ListText;
use networks::{Row, Rows, Source, Window};
use schedules::{range, solve};
use spans::{Minutes, Span};
use std::io;

fn tell_timetable<T: Source<Span = Minutes>>(rt: &HostRuntime, source: &T) -> io::Result<()> {
    let mut matrix = [None; POINTS * POINTS];
    let mut cycle = [0; POINTS];
    let mut dates = [Minutes::zero(); POINTS];
    if let Err(fault) = solve(source, &mut matrix, &mut cycle, &mut dates) {
        let refused = Refused(fault);
        return println!(rt; "  solved: {refused}");
    }
    for (p, date) in dates.iter().enumerate() {
        let name = point_name(p);
        let clock = Clock(*date);
        println!(rt; "  {p}: {name}: {clock}")?;
    }
    Ok(())
}

fn tell_range<T: Source<Span = Minutes>>(
    rt: &HostRuntime,
    source: &T,
    i: usize,
    j: usize,
) -> io::Result<()> {
    let mut matrix = [None; POINTS * POINTS];
    let mut cycle = [0; POINTS];
    let from = point_name(i);
    let to = point_name(j);
    match range(source, i, j, &mut matrix, &mut cycle) {
        Ok(ends) => {
            let told = in_hours(ends);
            println!(rt; "  from '{from}' to '{to}': {told}")
        }
        Err(fault) => {
            let refused = Refused(fault);
            println!(rt; "  from '{from}' to '{to}': {refused}")
        }
    }
}

fn tell_one_more(rt: &HostRuntime, job: &ListText, more: Row<Minutes>) -> io::Result<()> {
    let rows = with_one_more(job, more);
    let source = Rows::from_rows(POINTS, &rows);
    tell_condition(rt, &source, 8)?;
    tell_timetable(rt, &source)
}

fn tell_job(rt: &HostRuntime, job: &ListText) -> io::Result<()> {
    println!(rt;
        "Solved: the first gap that can be kept, as a timetable in hours and minutes after '{}':",
        point_name(0)
    )?;
    tell_timetable(rt, job)?;
    println!(rt; "Over all plans, whichever gap they use:")?;
    tell_range(rt, job, 0, 1)?;
    tell_range(rt, job, 2, 3)?;
    println!(rt; "The crew cannot be there before 500 minutes, so only the second gap goes:")?;
    let crew = Window::at_least(Minutes::from(500));
    tell_one_more(rt, job, Row::new(0, 2, &[crew]))?;
    println!(rt; "A stop between the first two gaps: the hulls allow it, no gap does:")?;
    tell_one_more(rt, job, Row::new(0, 1, &[Window::minutes(100, 590)]))
}

pub fn tell_solutions(rt: &HostRuntime) -> io::Result<()> {
    match ListText::read(BRAKE_CHANGE.as_bytes()) {
        Ok(job) => tell_job(rt, &job),
        Err(fault) => tell_fault(rt, BRAKE_CHANGE, fault),
    }
}
