// The renewal of a lost data box from halves of the other boxes, on any shelf.
#![tactic(auto)]

mod counting;
mod halves;
mod renewal;

pub use halves::send_half;
pub use renewal::{renew, renew_out};
