//! The transfers of a save, one after another: who makes them asks for the next one, and tells how it
//! went.

#![tactic(auto)]

mod additions;
mod bytes;
mod looking;
mod note;
mod noting;
mod noting_over;
mod over;
mod recovering;
mod recovery;
mod recovery_over;
mod room;
mod save;
mod transfers;
mod unsaved;

pub use additions::{Additions, Came};
pub use journal_bytes;
pub use looking::{Look, Looking};
pub use note::{Note, NoteAct, NotePlace};
pub use noting::{FRONT_BYTES, NoteStep, Noting};
pub use noting_over::note_over;
pub use over::save_over;
pub use recovering::{Recovering, RecoveryStep};
pub use recovery::{RecoverFault, Recovery, RecoveryAct, RecoveryPlace, Seen};
pub use recovery_over::recover_over;
pub use room::Room;
pub use save::{Act, Place, Save, SaveFault};
pub use transfers::{Standing, Step, Transfer, Transfers};
pub use unsaved::Unsaved;
