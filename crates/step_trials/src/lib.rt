//! Trials from outside of the machines of the file: steps that fail and are made again, and what is made
//! in one go. They stand here, so that `machine_trials`, which steps the machines, is not proved
//! once more for them. What text can say stands in tests/rows and tests/seats.

#![tactic(auto)]

#[cfg(test)]
mod files;
#[cfg(test)]
mod merges;
#[cfg(test)]
mod skips;
#[cfg(test)]
mod writes;
