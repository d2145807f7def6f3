// Commands as calls, and what calls came to as lines of a transcript.
ghost use Rattle.std.specs.Prelude.{◌≡◌, ◌<◌, ◌++◌, IfOk, OnOk, map};
ghost use Rattle.std.specs.List.{AllByRecursion};
ghost use Rattle.std.specs.String.{string_bytes};
ghost use Rattle.ledger.specs.Calls.{lent};
ghost use Rattle.script.specs.Scripts.{IsCommand, command_value};
ghost use Rattle.script.specs.Transcripts.{answered as answered_of, line_printed, numbers_of, status};
ghost use Rattle.vault_laws.specs.Agreement.{told_call};
ghost use Rattle.vault_runs.specs.Entries.{asked};
ghost use Rattle.transcripts.specs.Calls.{call_of, calls_of, numbered_call};
ghost use Rattle.transcripts.specs.Lines.{answered, command_line, command_lines, lines as lines_of, shown as shown_of};
ghost use Rattle.transcripts.specs.Entries.{called, came_to};

use crate::lengths::Lengths;
use field::Sums;
use ledger::Call;
use refusal::Refusal;
use script::{Answer, Command, Line, write_line};
use std::alloc::{AllocError, Global};
use vault_runs::Entry;

// The symbol of a number that is below the field's size.
fn symbol<F: Sums>(number: u32) -> F
    requires { number < F.symbols.size }
    ensures { F.symbols.number (F.value result) ≡ number }
{
    F::symbol(number).unwrap()
}

fn symbols<F: Sums>(alloc: Global, numbers: &[u32]) -> Result<Vec<F>, AllocError>
    requires { AllByRecursion (λ n. n < F.symbols.size) numbers.now }
    ensures { IfOk result (λ v. map F.symbols.number (map F.value v.items) ≡ numbers.now) }
{
    let mut symbols = Vec::new(alloc);
    for number in numbers {
        symbols.push(symbol(*number))?;
    }
    Ok(symbols)
}

fn numbers<F: Sums>(alloc: Global, symbols: &[F]) -> Result<Vec<u32>, AllocError>
    ensures { IfOk result (λ v. v.items ≡ map F.symbols.number (map F.value symbols.now)) }
{
    let mut numbers = Vec::new(alloc);
    for symbol in symbols {
        numbers.push(symbol.number())?;
    }
    Ok(numbers)
}

// The call of a command, with a buffer of the length that is wanted. A put has
// the symbols that it was given.
fn call<F: Sums>(
    alloc: Global,
    lengths: &Lengths,
    command: &Command,
) -> Result<Call<F, Vec<F>>, AllocError>
    requires { IsCommand F.symbols.size (command_value command.now) }
    ensures { IfOk result (λ call. numbered_call F.symbols (told_call F.symbols F.value (asked call)) ≡ call_of F.symbols lengths.now.m (command_value command.now)) }
{
    Ok(match command {
        Command::Put(numbers) => Call::Put(symbols(alloc, numbers)?),
        Command::Amend {
            data_box,
            row,
            symbol: number,
        } => Call::Amend {
            number: *data_box,
            row: *row,
            symbol: symbol(*number),
            work: lengths.file(alloc)?,
        },
        Command::Read => Call::Read(lengths.file(alloc)?),
        Command::Column { wanted } => Call::Column {
            number: *wanted,
            into: lengths.column(alloc)?,
        },
        Command::Message { helper, lost } => Call::Message {
            helper: *helper,
            lost: *lost,
            into: lengths.half(alloc)?,
        },
        Command::Lose { lost } => Call::Lose(*lost),
        Command::Renew { lost } => Call::Renew {
            number: *lost,
            work: lengths.file(alloc)?,
        },
        Command::Rebuild => Call::Rebuild(lengths.file(alloc)?),
    })
}

// A call that has not been made.
fn unmade<F>(call: Call<F, Vec<F>>) -> Entry<F>
    ensures { result.call ≡ call }
{
    Entry {
        call,
        answer: Err(Refusal::NotSetUp),
    }
}

// Set up for size m, and then each command.
pub(crate) fn entries<F: Sums>(
    alloc: Global,
    m: usize,
    commands: &[Command],
) -> Result<Vec<Entry<F>>, AllocError>
    requires { AllByRecursion (IsCommand F.symbols.size) (map command_value commands.now) }
    ensures { IfOk result (λ v. map (λ e. numbered_call F.symbols (called F.symbols F.value e)) v.items ≡ calls_of F.symbols m (map command_value commands.now)) }
{
    let lengths = Lengths::new(m);
    let mut entries = Vec::new(alloc);
    entries.push(unmade(Call::SetUp(m)))?;
    for command in commands {
        entries.push(unmade(call(alloc, &lengths, command)?))?;
    }
    Ok(entries)
}

// The symbols in the buffer of a call.
fn buffer<F>(call: &Call<F, Vec<F>>) -> &[F]
    ensures { result.now ≡ lent (asked call.now) }
{
    match call {
        Call::SetUp(_) | Call::Lose(_) => &[],
        Call::Put(file) => file,
        Call::Read(into) | Call::Column { into, .. } | Call::Message { into, .. } => into,
        Call::Amend { work, .. } | Call::Renew { work, .. } | Call::Rebuild(work) => work,
    }
}

// What the line of a command has, of the symbols in the buffer of its call.
fn shown<'a>(command: &Command, symbols: &'a [u32]) -> Answer<'a>
    ensures { numbers_of result ≡ shown_of (command_value command.now) symbols.now }
{
    match command {
        Command::Read | Command::Column { .. } | Command::Message { .. } => {
            Answer::Symbols(symbols)
        }
        _ => Answer::Nothing,
    }
}

// What a call answered, as the line of its command has it.
fn outcome<'a>(
    command: &Command,
    answer: Result<ledger::Answer, Refusal>,
    symbols: &'a [u32],
) -> Result<Answer<'a>, Refusal>
    ensures status { status result ≡ status answer }
    ensures answered { answered_of result ≡ answered (command_value command.now) answer symbols.now }
{
    match answer? {
        ledger::Answer::Count(n) => Ok(Answer::Count(n)),
        ledger::Answer::Done => Ok(shown(command, symbols)),
    }
}

// The line of a command.
fn line<'a>(
    command: &'a Command,
    answer: Result<ledger::Answer, Refusal>,
    symbols: &'a [u32],
) -> Line<'a>
    ensures { line_printed result ≡ command_line (command_value command.now) (record { answer = answer; buffer = symbols.now }) }
{
    Line::Ran(command, outcome(command, answer, symbols))
}

// Appends the line of a command.
fn write_command<F: Sums>(
    alloc: Global,
    out: &mut String,
    command: &Command,
    entry: &Entry<F>,
) -> Result<(), AllocError>
    ensures { OnOk result (string_bytes out.new ≡ string_bytes out.old ++ command_line (command_value command.now) (came_to F.symbols F.value entry.now)) }
{
    let symbols = numbers(alloc, buffer(&entry.call))?;
    write_line(out, &line(command, entry.answer, &symbols))
}

// Appends the lines of commands.
fn write_commands<F: Sums>(
    alloc: Global,
    out: &mut String,
    commands: &[Command],
    entries: &[Entry<F>],
) -> Result<(), AllocError>
    ensures { OnOk result (string_bytes out.new ≡ string_bytes out.old ++ command_lines (map command_value commands.now) (map (came_to F.symbols F.value) entries.now)) }
{
    for (command, entry) in commands.iter().zip(entries) {
        write_command(alloc, out, command, entry)?;
    }
    Ok(())
}

// The lines of set up and of the commands.
pub(crate) fn lines<F: Sums>(
    alloc: Global,
    commands: &[Command],
    entries: &[Entry<F>],
) -> Result<String, AllocError>
    ensures { IfOk result (λ out. string_bytes out ≡ lines_of (map command_value commands.now) (map (came_to F.symbols F.value) entries.now)) }
{
    let mut out = String::new(alloc);
    if let [first, rest @ ..] = entries {
        write_line(&mut out, &Line::SetUp(first.answer.map(|_| ())))?;
        write_commands(alloc, &mut out, commands, rest)?;
    }
    Ok(out)
}
