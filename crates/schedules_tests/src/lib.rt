// What solve and range answer on worked networks: dates, ends, refusals, and memory that stays as it was.
#![tactic(auto)]

#[cfg(test)]
mod memory;
#[cfg(test)]
mod ranged;
#[cfg(test)]
mod solved;
#[cfg(test)]
mod unsolved;
