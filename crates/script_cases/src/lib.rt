// Tests of the parser of scripts and of the writer of transcripts, by tables.
#![tactic(auto)]

#[cfg(test)]
mod scripts;
#[cfg(test)]
mod transcripts;
