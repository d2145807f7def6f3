// A renewal at the branch, from halves that arrive in any order.
#![tactic(auto)]

mod lost;
mod states;

pub use states::{Complete, Declined, Gathering, Message, gather};
