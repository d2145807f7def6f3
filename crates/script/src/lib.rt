// Scripts: commands to a vault as text, and the lines of the transcript that
// answers them.
#![tactic(auto)]

mod commands;
mod numbers;
mod reading;
mod transcript;

pub use commands::{Command, FieldName, Script};
pub use reading::{parse, scripts_stand};
pub use transcript::{Answer, Line, write_line};
