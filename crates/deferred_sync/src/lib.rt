//! A device over a file and its journal whose sync is put off until who lent it commits: until then
//! a crash leaves what there was before.

#![tactic(auto)]

mod beginning;
mod device;

pub use beginning::Beginning;
pub use device::{DeferredSync, a_settled_device_is_lent};
pub use safe_device;
