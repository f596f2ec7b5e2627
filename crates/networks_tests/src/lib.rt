// What the checks, the sources and the layers answer on examples.
#![tactic(auto)]

#[cfg(test)]
mod checking;
#[cfg(test)]
mod sources;
