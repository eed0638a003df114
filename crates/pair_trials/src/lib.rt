//! The pair of files of the system beside the one in memory, tried from outside.

#![tactic(auto)]

#[cfg(test)]
mod pairs;
#[cfg(test)]
mod recovered;
