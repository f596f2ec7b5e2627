// A crane job from start to end: a brake change of 430 minutes between two vessels, told step by step.
#![tactic(auto)]

mod job;
mod solved;
mod story;
mod tightened;
mod words;

use solved::tell_solutions;
use std::io;
use story::{tell_brake_change, tell_checks, tell_texts};
use tightened::tell_distances;

fn main(rt: HostRuntime) -> io::Result<()> {
    tell_brake_change(&rt)?;
    tell_distances(&rt)?;
    tell_solutions(&rt)?;
    tell_texts(&rt)?;
    tell_checks(&rt)
}
