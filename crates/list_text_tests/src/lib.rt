// What list texts mean, and where the faults of others lie.
#![tactic(auto)]

#[cfg(test)]
mod copies;
#[cfg(test)]
mod lengths;
#[cfg(test)]
mod meanings;
#[cfg(test)]
mod refusals;
