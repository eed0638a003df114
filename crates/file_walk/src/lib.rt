//! A file of an extendible hash table is walked once: its pages, its chain, its free pages and its
//! directory. What is wrong first is told.

#![tactic(auto)]

mod chain;
mod fault;
mod form;
mod header_page;
mod index;
mod laws;
mod outline;
mod pages;
mod sealed_page;
mod sealed_run;
mod spares;
mod structure;

pub use chain::chain_of;
pub use fault::StructureFault;
pub use form::Form;
pub use header_page::header_of;
pub use index::test_directory;
pub use laws::{a_right_structure_has_no_fault, a_right_structure_is_sound};
pub use outline::Outline;
pub use pages::read_outline;
pub use sealed_page::read_sealed;
pub use spares::test_spares;
pub use structure::{Structure, check_structure, check_structure_in};
