// The writer of transcripts.

ghost use Rattle.std.specs.Prelude.{◌≡◌, ◌++◌, [], ◌∷◌, OnOk, map};
ghost use Rattle.std.specs.Fmt.{decimal};
ghost use Rattle.std.specs.List.{join_with_byte};
ghost use Rattle.std.specs.String.{string_bytes};
ghost use Rattle.script.specs.Scripts.{command_value, letter as letter_of};
ghost use Rattle.script.specs.Transcripts.{answered, line_printed, line_words, ran_words, spaced, status as status_of};

use crate::commands::Command;
use refusal::Refusal;
use std::alloc::AllocError;
use std::fmt::Write;

// What a call answers that is accepted.
#[derive(Clone, Copy, Debug)]
pub enum Answer<'a> {
    Nothing,
    Count(usize),
    Symbols(&'a [u32]),
}

// A line of a transcript.
#[derive(Clone, Copy, Debug)]
pub enum Line<'a> {
    // The text is no script.
    NoScript,
    // What set up answered.
    SetUp(Result<(), Refusal>),
    // What a command answered.
    Ran(&'a Command, Result<Answer<'a>, Refusal>),
}

// A space and a number.
fn write_number(out: &mut String, n: u64) -> Result<(), AllocError>
    ensures { OnOk result (string_bytes out.new ≡ string_bytes out.old ++ 32 ∷ decimal n) }
{
    write!(out, " {n}")
}

fn write_numbers(out: &mut String, numbers: &[u32]) -> Result<(), AllocError>
    ensures { OnOk result (string_bytes out.new ≡ string_bytes out.old ++ spaced (map decimal numbers.now)) }
{
    for n in numbers {
        write_number(out, u64::from(*n))?;
    }
    Ok(())
}

// 0 where a call was accepted, else its refusal's number.
fn status<T>(outcome: &Result<T, Refusal>) -> u32
    ensures { result ≡ status_of outcome.now }
{
    match outcome {
        Ok(_) => 0,
        Err(why) => why.number(),
    }
}

// What was answered, if that is anything.
fn write_answer(out: &mut String, outcome: &Result<Answer, Refusal>) -> Result<(), AllocError>
    ensures { OnOk result (string_bytes out.new ≡ string_bytes out.old ++ spaced (map decimal (answered outcome.now))) }
{
    match outcome {
        Ok(Answer::Count(n)) => write_number(out, *n as u64),
        Ok(Answer::Symbols(symbols)) => write_numbers(out, symbols),
        Ok(Answer::Nothing) | Err(_) => Ok(()),
    }
}

// A status and what was answered.
fn write_outcome(out: &mut String, outcome: &Result<Answer, Refusal>) -> Result<(), AllocError>
    ensures { OnOk result (string_bytes out.new ≡ string_bytes out.old ++ spaced (map decimal (status_of outcome.now ∷ answered outcome.now))) }
{
    write_number(out, u64::from(status(outcome)))?;
    write_answer(out, outcome)
}

fn write_letter(out: &mut String, command: &Command) -> Result<(), AllocError>
    ensures { OnOk result (string_bytes out.new ≡ string_bytes out.old ++ letter_of (command_value command.now) ∷ []) }
{
    out.push(command.letter())
}

// What a command answered, by its letter.
fn write_ran(
    out: &mut String,
    command: &Command,
    outcome: &Result<Answer, Refusal>,
) -> Result<(), AllocError>
    ensures { OnOk result (string_bytes out.new ≡ string_bytes out.old ++ join_with_byte 32 (ran_words command.now outcome.now)) }
{
    write_letter(out, command)?;
    write_outcome(out, outcome)
}

// A line without its line feed.
fn write_words(out: &mut String, line: &Line) -> Result<(), AllocError>
    ensures { OnOk result (string_bytes out.new ≡ string_bytes out.old ++ join_with_byte 32 (line_words line.now)) }
{
    match line {
        Line::NoScript => out.push('E'),
        Line::SetUp(outcome) => {
            out.push('S')?;
            write_number(out, u64::from(status(outcome)))
        }
        Line::Ran(command, outcome) => write_ran(out, command, outcome),
    }
}

// Appends a line, with its line feed.
pub fn write_line(out: &mut String, line: &Line) -> Result<(), AllocError>
    ensures { OnOk result (string_bytes out.new ≡ string_bytes out.old ++ line_printed line.now) }
{
    write_words(out, line)?;
    out.push('\n')
}
