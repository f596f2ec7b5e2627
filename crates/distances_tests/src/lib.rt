// What tighten answers on worked networks: least totals, cycles below zero, and memory that stays as it was.
#![tactic(auto)]

#[cfg(test)]
mod answers;
#[cfg(test)]
mod granted;
#[cfg(test)]
mod refused;
