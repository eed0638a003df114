//! Trials from outside of devices in memory, ranges and pseudokeys that are kept, and pools. They stand
//! here, so that those crates are not proved once more for them. What text can say of pages stands in
//! tests/rows, and what is done with files in scripts of tests/.

#![tactic(auto)]

#[cfg(test)]
mod devices;
#[cfg(test)]
mod kept_pseudokeys;
#[cfg(test)]
mod pools;
#[cfg(test)]
mod ranges;
