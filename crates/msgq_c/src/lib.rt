//! Sessions for C: each function gives 0 or a number that says why not.

#![tactic(auto)]

mod arguments;
mod calls;
mod codes;
mod digest;
mod files;
mod handle;
mod held;
mod kept;
mod laws;
mod noting;
mod recovered;
mod saving;
mod serving;
mod telling;

pub use arguments::{GetCall, ReceiveCall, SendCall, SetCall};
pub use calls::{
    msgq_session_get, msgq_session_receive, msgq_session_remove, msgq_session_send,
    msgq_session_set, msgq_session_stat,
};
pub use digest::msgq_session_digest;
pub use files::{
    Owner, msgq_session_close, msgq_session_create, msgq_session_handle_size, msgq_session_notes,
    msgq_session_open, msgq_session_page, msgq_session_pages, msgq_session_remake,
    msgq_session_stop,
};
pub use handle::Handle;
pub use laws::what_is_noted_leads_on;
pub use noting::{
    msgq_session_note_begin, msgq_session_note_next, msgq_session_note_stands,
    msgq_session_note_told,
};
pub use recovered::{
    RecoveryHandle, msgq_recovery_begin, msgq_recovery_calls, msgq_recovery_end,
    msgq_recovery_next, msgq_recovery_stands, msgq_recovery_told,
};
pub use saving::{
    Order, Stands, msgq_session_save_begin, msgq_session_save_next, msgq_session_save_told,
};
pub use telling::{Got, Info};
