// Missing data columns from the columns of the other boxes.
#![tactic(auto)]

mod decoder;
mod filling;
mod matrix;
mod solving;
mod within;

pub use decoder::decode;
pub use filling::fill;
