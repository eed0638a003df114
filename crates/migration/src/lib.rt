//! Files of which new ones are made, and the subcommands that do it: a file of version 1, or of another
//! size, becomes a new one of the same system; and so does what can be read of a file that is wrong.

#![tactic(auto)]

mod copied;
mod copies;
mod fault;
mod found;
mod growing;
mod kept;
mod losses;
mod made;
mod salvage_fault;
mod salvaged;
mod salvages;
mod unmade;
mod writer;

pub use copied::{Copied, copy, migrated_pages};
pub use copies::{CopyRequest, Size, copy_file, copy_on};
pub use fault::{CopyFault, MakingFault};
pub use growing::{GrowRequest, grow_file};
pub use losses::{Losses, Pages};
pub use made::{Made, Target, make};
pub use msgq_cli;
pub use salvage_fault::SalvageFault;
pub use salvaged::{Rescue, Salvaged, salvage};
pub use salvages::{SalvageRequest, salvage_file, salvage_on};
