// Sizes of cabinets, the binary digits of rows, and the data boxes, as the layers above go over them.
#![tactic(auto)]

mod cabinet;
mod kinds;
mod rows;
mod size;

pub use cabinet::Cabinet;
pub use kinds::{DataBox, KINDS, data_box, kind_at, shift_at};
pub use rows::{Digit, Pairs, pair_rows, power};
pub use size::{MOST_ROWS, Size};
