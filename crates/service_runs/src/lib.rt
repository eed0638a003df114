//! Scripts whose seats run beside one another, each in a thread at a seat of a service.

#![tactic(auto)]

mod crew;
mod desk;
mod ending;
mod opening;
mod printing;
mod running;
mod seat_lines;
mod waiter;

pub use crew::{ThreadASeat, make_all};
pub use desk::{Desk, at_desks, seats_of};
pub use ending::end_service;
pub use opening::{Plan, is_of_one_seat, prepare};
pub use printing::print_all;
pub use running::run_prepared;
pub use seat_lines::SeatLines;
pub use waiter::{Shared, Waiter};
