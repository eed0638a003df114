//! What standard error says of a new file that could not be made. No claim rests on these words.

use crate::fault::MakingFault;
use msgq_cli::{Stage, complain_of_fault};
use std::io::{self, Write};

/// Says why a new file could not be made: in the system's words, where it refused a transfer.
pub fn complain_of_unmade<E: Write>(
    file: &str,
    fault: MakingFault,
    refusal: Option<io::Error>,
    errors: &mut E,
) -> Stage {
    let what = "it can't be made";
    match refusal {
        Some(error) => complain_of_fault(file, what, fault.number(), &error, errors),
        None => complain_of_fault(file, what, fault.number(), fault, errors),
    }
    Stage::Making
}
