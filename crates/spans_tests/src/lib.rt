// What the two kinds of spans answer on examples.
#![tactic(auto)]

#[cfg(test)]
mod minute_rank;
#[cfg(test)]
mod minutes;
