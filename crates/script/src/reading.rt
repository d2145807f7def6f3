// The parser of scripts.

ghost use Rattle.std.specs.Prelude.{◌≡◌, IfOk, IfSome, IfNone, Some, option_map, map, nat_lt};
ghost use Rattle.std.specs.List.{list_all};
ghost use Rattle.script.specs.Reading.{Gives, bare_of, put_of, amend_of, first_byte, only_one, only_two, command_of, command_at, commands_at, field_of, first_line_at, second_line_at, script_at};
ghost use Rattle.script.specs.Scripts.{IsScript, Prints, ScriptValue, command_value, printed, script_value};

use crate::commands::{Command, FieldName, Script};
use crate::numbers::{Stop, after, number_line, number_then};
use std::alloc::{AllocError, Global};

// The longest script, in bytes.
const MOST_BYTES: usize = 16384;
// The largest m.
const MOST_SIZE: u32 = 9;

const MOST_COMMANDS: u32 = 64;
// How many numbers one command takes at most.
const MOST_NUMBERS: usize = 1152;

// What the first line says.
#[derive(Clone, Copy)]
struct FirstLine {
    field: FieldName,
    m: u32,
    count: u32,
}

fn field(letter: char) -> Option<FieldName>
    ensures { result ≡ field_of letter }
{
    match letter {
        'f' => Some(FieldName::Five),
        'q' => Some(FieldName::Four),
        'b' => Some(FieldName::Bytes),
        'w' => Some(FieldName::Words),
        _ => None,
    }
}

// The first line.
#[tactic(auto, unfolding(crate::specs::Reading::first_line_at))]
fn first_line(text: &[u8]) -> Option<(FirstLine, &[u8])>
    ensures { option_map (λ x. ((x.0.field, x.0.m, x.0.count), x.1.now)) result ≡ first_line_at text.now }
{
    let (letter, rest) = text.split_first()?;
    let field = field(*letter as char)?;
    let (m, rest) = number_then(b' ', after(b' ', rest)?)?;
    let (count, rest) = number_then(b'\n', rest)?;
    if MOST_SIZE < m || count < 1 || MOST_COMMANDS < count {
        return None;
    }
    Some((FirstLine { field, m, count }, rest))
}

// The second line: so many letters.
#[tactic(auto, unfolding(crate::specs::Reading::second_line_at))]
fn second_line(count: usize, text: &[u8]) -> Option<(&[u8], &[u8])>
    ensures { option_map (λ x. (x.0.now, x.1.now)) result ≡ second_line_at count text.now }
{
    if text.len() < count {
        return None;
    }
    let (letters, rest) = text.split_at(count);
    Some((letters, after(b'\n', rest)?))
}

// The only number of a list.
fn only_one(numbers: &[u32]) -> Option<usize>
    ensures { result ≡ only_one numbers.now }
{
    match numbers {
        [n] => Some(*n as usize),
        _ => None,
    }
}

// The only two.
fn only_two(numbers: &[u32]) -> Option<(usize, usize)>
    ensures { result ≡ only_two numbers.now }
{
    match numbers {
        [n, k] => Some((*n as usize, *k as usize)),
        _ => None,
    }
}

// Whether every number is below the size.
fn all_below(size: u32, numbers: &[u32]) -> bool
    ensures { result ≡ list_all (λ x. nat_lt x size) numbers.now }
{
    numbers.iter().all(|x| *x < size)
}

fn put(size: u32, symbols: Vec<u32>) -> Option<Command>
    ensures { option_map command_value result ≡ put_of size symbols.items }
{
    if all_below(size, &symbols) {
        Some(Command::Put(symbols))
    } else {
        None
    }
}

fn amend(size: u32, numbers: &[u32]) -> Option<Command>
    ensures { option_map command_value result ≡ amend_of size numbers.now }
{
    match numbers {
        [data_box, row, symbol] if *symbol < size => Some(Command::Amend {
            data_box: *data_box as usize,
            row: *row as usize,
            symbol: *symbol,
        }),
        _ => None,
    }
}

// A command that takes no numbers.
fn bare(command: Command, numbers: &[u32]) -> Option<Command>
    ensures { option_map command_value result ≡ bare_of (command_value command) numbers.now }
{
    if numbers.is_empty() {
        Some(command)
    } else {
        None
    }
}

// The command of this letter with these numbers, if it takes them.
#[tactic(auto, unfolding(crate::specs::Reading::command_of))]
fn command_with(size: u32, letter: char, numbers: Vec<u32>) -> Option<Command>
    ensures { option_map command_value result ≡ command_of size letter numbers.items }
{
    match letter {
        'P' => put(size, numbers),
        'A' => amend(size, &numbers),
        'R' => bare(Command::Read, &numbers),
        'C' => {
            let wanted = only_one(&numbers)?;
            Some(Command::Column { wanted })
        }
        'M' => {
            let (helper, lost) = only_two(&numbers)?;
            Some(Command::Message { helper, lost })
        }
        'L' => {
            let lost = only_one(&numbers)?;
            Some(Command::Lose { lost })
        }
        'N' => {
            let lost = only_one(&numbers)?;
            Some(Command::Renew { lost })
        }
        'B' => bare(Command::Rebuild, &numbers),
        _ => None,
    }
}

// A command, from its letter and its line of numbers.
#[tactic(auto, unfolding(crate::specs::Reading::command_at))]
fn command(alloc: Global, size: u32, letter: char, text: &[u8]) -> Result<(Command, &[u8]), Stop>
    ensures { Gives (λ x. (command_value x.0, x.1.now)) result (command_at size letter text.now) }
{
    let (numbers, rest) = number_line(alloc, MOST_NUMBERS, text)?;
    let command = command_with(size, letter, numbers).ok_or(Stop::Malformed)?;
    Ok((command, rest))
}

// A command for each letter.
#[tactic(auto, using(crate::proofs::Turns::with_front_none, crate::proofs::Turns::commands_step, crate::proofs::Turns::commands_fail, crate::proofs::Turns::commands_over))]
fn commands<'a>(
    alloc: Global,
    size: u32,
    letters: &[u8],
    text: &'a [u8],
) -> Result<(Vec<Command>, &'a [u8]), Stop>
    ensures { Gives (λ x. (map command_value x.0.items, x.1.now)) result (commands_at size letters.now text.now) }
{
    let mut commands = Vec::new(alloc);
    let mut rest = text;
    for letter in letters {
        let (next, behind) = command(alloc, size, *letter as char, rest)?;
        commands.push(next)?;
        rest = behind;
    }
    Ok((commands, rest))
}

// All of the text.
#[tactic(auto, unfolding(crate::specs::Reading::script_at))]
fn script(alloc: Global, text: &[u8]) -> Result<Script, Stop>
    ensures { Gives script_value result (script_at text.now) }
{
    if MOST_BYTES < text.len() {
        return Err(Stop::Malformed);
    }
    let (first, rest) = first_line(text).ok_or(Stop::Malformed)?;
    let (letters, rest) = second_line(first.count as usize, rest).ok_or(Stop::Malformed)?;
    let (commands, rest) = commands(alloc, first.field.size(), letters, rest)?;
    if !rest.is_empty() {
        return Err(Stop::Malformed);
    }
    Ok(Script {
        field: first.field,
        m: first.m as usize,
        commands,
    })
}

// Reads a script, from all of the text. Err where memory runs out.
pub fn parse(alloc: Global, text: &[u8]) -> Result<Option<Script>, AllocError>
    // What is read is a script, and is printed as the text.
    ensures read { IfOk result (λ r. IfSome r (λ s. Prints (script_value s) text.now)) }
    // Nothing is read only where no script is printed as the text.
    ensures none { IfOk result (λ r. IfNone r ((s : ScriptValue) → ¬ (Prints s text.now))) }
    // A script that is printed as the text is read, so there is only one.
    ensures only { IfOk result (λ r. (s : ScriptValue) → Prints s text.now → option_map script_value r ≡ Some s) }
{
    match script(alloc, text) {
        Ok(script) => Ok(Some(script)),
        Err(Stop::Malformed) => Ok(None),
        Err(Stop::Memory) => Err(AllocError),
    }
}

// A theorem of what scripts are printed as: no two are printed alike.
pub fn scripts_stand()
    ensures { (s t : ScriptValue) → IsScript s → IsScript t → printed s ≡ printed t → s ≡ t }
{}
