// Integers modulo a prime: the fields of five and of words.
#![tactic(auto)]

pub mod five;
pub mod words;
