//! Trials of threads over a kernel, from outside: real threads, each at a seat of its own. Each ends
//! by itself, and tells the same whichever thread comes first.

#![tactic(auto)]

#[cfg(test)]
mod asks;
#[cfg(test)]
mod board;
#[cfg(test)]
mod closing;
#[cfg(test)]
mod crowd;
#[cfg(test)]
mod failing;
#[cfg(test)]
mod files;
#[cfg(test)]
mod gated;
#[cfg(test)]
mod plain;
#[cfg(test)]
mod playing;
#[cfg(test)]
mod timed;
