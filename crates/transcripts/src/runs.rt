// Scripts that are run on a new vault.
ghost use Rattle.std.specs.Prelude.{◌≡◌, ℕ, List, [], ◌∷◌, IfOk, codes};
ghost use Rattle.std.specs.List.{AllByRecursion};
ghost use Rattle.std.specs.String.{string_bytes};
ghost use Rattle.script.specs.Scripts.{IsCommand, Prints, ScriptValue, command_value, line, script_value};
ghost use Rattle.transcripts.specs.Lengths.{IsShelfFor};
ghost use Rattle.transcripts.specs.Entries.{IsAt};
ghost use Rattle.transcripts.specs.Rounds.{IsRounds, Round, turn, turns};
ghost use Rattle.transcripts.specs.Transcripts.{IsTranscript, symbols_of};

use crate::calls::{entries, lines};
use crate::lengths::Lengths;
use byte_field::Byte;
use field::{Quotients, Sums};
use flat::Flat;
use four::Four;
use image::Image;
use joined::Joined;
use prime::five::Five;
use prime::words::Words;
use script::{FieldName, Line, Script, parse, write_line};
use shelf::Shelf;
use std::alloc::{AllocError, Global};
use vault_calls::Vault;
use vault_runs::{Entry, run as run_calls, run_new};

// How many bytes of an image hold a word.
const BYTES: usize = 3;

// Which calls are made again, those from one on, and how often. Set up is the
// call number 0.
#[derive(Clone, Copy)]
struct Again {
    from: usize,
    times: usize,
}

// Makes the calls from one on once more, each with the buffer that it left.
fn make_again<F: Quotients, S: Shelf<Symbol = F>>(
    vault: &mut Vault<S>,
    entries: &mut [Entry<F>],
    from: usize,
)
    ensures { (r : Round F.symbols) → IsAt F.symbols F.value r vault.old.size (S.meaning vault.old.shelf) entries.old → IsAt F.symbols F.value (turn F.symbols from r) vault.new.size (S.meaning vault.new.shelf) entries.new }
{
    let from = from.min(entries.len());
    run_calls(vault, &mut entries[from..]);
}

fn make_turns<F: Quotients, S: Shelf<Symbol = F>>(
    vault: &mut Vault<S>,
    entries: &mut [Entry<F>],
    again: Again,
)
    ensures { (r : Round F.symbols) → IsAt F.symbols F.value r vault.old.size (S.meaning vault.old.shelf) entries.old → IsAt F.symbols F.value (turns F.symbols again.from again.times r) vault.new.size (S.meaning vault.new.shelf) entries.new }
{
    for _ in 0..again.times {
        make_again(vault, entries, again.from);
    }
}

// Runs a script over a shelf.
fn run<F: Quotients, S: Shelf<Symbol = F> + Drop>(
    alloc: Global,
    script: &Script,
    again: Again,
    shelf: S,
) -> Result<String, AllocError>
    requires commands { AllByRecursion (IsCommand F.symbols.size) (script_value script.now).commands }
    requires shelf { IsShelfFor script.now.m (S.meaning shelf) }
    ensures { IfOk result (λ out. IsRounds F.symbols (script_value script.now) again.from again.times (string_bytes out)) }
{
    let mut entries = entries(alloc, script.m, &script.commands)?;
    let mut vault = run_new(shelf, &mut entries);
    make_turns(&mut vault, &mut entries, again);
    lines(alloc, &script.commands, &entries)
}

// Runs it over a flat shelf.
fn run_flat<F: Quotients>(
    alloc: Global,
    script: &Script,
    again: Again,
) -> Result<String, AllocError>
    requires { AllByRecursion (IsCommand F.symbols.size) (script_value script.now).commands }
    ensures { IfOk result (λ out. IsRounds F.symbols (script_value script.now) again.from again.times (string_bytes out)) }
{
    let lengths = Lengths::new(script.m);
    let mut buffer = vec![in alloc; F::zero(); lengths.boxes() * lengths.rows]?;
    run(
        alloc,
        script,
        again,
        Flat::new(&mut buffer, lengths.boxes(), lengths.rows),
    )
}

// Runs one over words: data boxes on a flat shelf, and parity boxes in an image.
fn run_joined(alloc: Global, script: &Script, again: Again) -> Result<String, AllocError>
    requires { AllByRecursion (IsCommand 65537) (script_value script.now).commands }
    ensures { IfOk result (λ out. IsRounds (symbols_of FieldName.Words) (script_value script.now) again.from again.times (string_bytes out)) }
{
    let lengths = Lengths::new(script.m);
    let mut symbols = lengths.file::<Words>(alloc)?;
    let mut bytes = vec![in alloc; 0; BYTES * lengths.parities * lengths.rows]?;
    let data = Flat::new(&mut symbols, lengths.data_boxes, lengths.rows);
    let parities = Image::new(&mut bytes, lengths.parities, lengths.rows);
    run(alloc, script, again, Joined::new(data, parities))
}

fn no_script(alloc: Global) -> Result<String, AllocError>
    ensures { IfOk result (λ out. string_bytes out ≡ line (codes "E" ∷ [])) }
{
    let mut out = String::new(alloc);
    write_line(&mut out, &Line::NoScript)?;
    Ok(out)
}

// The transcript of a text. Err where memory runs out.
#[tactic(auto, using(crate::proofs::Turns::no_turns))]
pub fn transcript(alloc: Global, text: &[u8]) -> Result<String, AllocError>
    // Where no script is printed as the text, it says that there is none.
    ensures none { IfOk result (λ out. ((s : ScriptValue) → ¬ (Prints s text.now)) → string_bytes out ≡ line (codes "E" ∷ [])) }
    // That of a script has what the ledger answers.
    ensures script { IfOk result (λ out. (s : ScriptValue) → Prints s text.now → IsTranscript (symbols_of s.field) s (string_bytes out)) }
{
    rounds(alloc, text, 0, 0)
}

// The transcript of a text whose calls from one on are made so many times more,
// each with the buffer that it left. Set up is the call number 0, and a line
// has what its call came to the last time. Err where memory runs out.
pub fn rounds(alloc: Global, text: &[u8], from: usize, times: usize) -> Result<String, AllocError>
    // Where no script is printed as the text, it says that there is none.
    ensures none { IfOk result (λ out. ((s : ScriptValue) → ¬ (Prints s text.now)) → string_bytes out ≡ line (codes "E" ∷ [])) }
    // That of a script has what the ledger answers.
    ensures script { IfOk result (λ out. (s : ScriptValue) → Prints s text.now → IsRounds (symbols_of s.field) s from times (string_bytes out)) }
{
    let Some(script) = parse(alloc, text)? else {
        return no_script(alloc);
    };
    let again = Again { from, times };
    match script.field {
        FieldName::Five => run_flat::<Five>(alloc, &script, again),
        FieldName::Four => run_flat::<Four>(alloc, &script, again),
        FieldName::Bytes => run_flat::<Byte>(alloc, &script, again),
        FieldName::Words => run_joined(alloc, &script, again),
    }
}

// A theorem of every field: a script, whose symbols are the field's, has one
// transcript, and no two, however often calls of it are made again.
pub fn transcripts_stand<F: Sums>()
    ensures some { (s : ScriptValue) → AllByRecursion (IsCommand F.symbols.size) s.commands → (bytes : List ℕ) × IsTranscript F.symbols s bytes }
    ensures only { (s : ScriptValue) (a b : List ℕ) → IsTranscript F.symbols s a → IsTranscript F.symbols s b → a ≡ b }
    ensures some_rounds { (s : ScriptValue) (from times : ℕ) → AllByRecursion (IsCommand F.symbols.size) s.commands → (bytes : List ℕ) × IsRounds F.symbols s from times bytes }
    ensures only_rounds { (s : ScriptValue) (from times : ℕ) (a b : List ℕ) → IsRounds F.symbols s from times a → IsRounds F.symbols s from times b → a ≡ b }
{}
