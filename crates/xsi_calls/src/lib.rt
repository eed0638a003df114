//! A call as one machine, one step at a time beside others: it takes its names, asks its questions,
//! inserts on trial, decides once, pays what it owes, and gives its names back.

#![tactic(auto)]

mod call_machine;
mod conclusion;
mod counting;
mod decided;
mod hearing;
mod held_laws;
mod held_names;
mod laws;
mod part;
mod phase;
mod question;
mod question_laws;
mod questions;
mod trials;
mod turn;
mod undecided;
mod undecided_laws;

pub use call_machine::CallMachine;
pub use call_machine::one_go::{Gone, QUESTION_STEPS, WRITE_STEPS};
pub use call_writes;
pub use conclusion::Conclusion;
pub use decided::Decided;
pub use held_laws::{a_turn_is_made_for_the_names, turns_come_to_an_end};
pub use held_names::HeldNames;
pub use laws::{
    a_call_begins_few_searches, calls_begin_right, calls_have_few_steps, calls_have_few_steps_left,
    calls_hold_their_file_locks, calls_hold_their_names, calls_name_what_is_there,
};
pub use question_laws::{
    a_call_asks_under_its_names, a_call_writes_under_names_that_it_holds, questions_have_few_steps,
    what_stands_answers_a_question,
};
pub use step_rules;
pub use turn::NameTurn;
pub use undecided_laws::calls_decide_in_few_steps;
