// Vaults run: calls made one after another, with buffers of their own.
#![tactic(auto)]

ghost use Rattle.std.specs.Prelude.{◌≡◌, None, map};
ghost use Rattle.ledger.specs.Calls.{lent};
ghost use Rattle.ledger.specs.declared.calls.Answer.TheVariants.{Done};
ghost use Rattle.ledger.specs.declared.calls.Call.TheVariants.{Put};
ghost use Rattle.vault_calls.specs.Vaults.{Did, done as as_answer};
ghost use Rattle.vault_laws.specs.Laws.{VaultLaw};
ghost use Rattle.vault_laws.specs.Runs.{Run};
ghost use Rattle.vault_runs.specs.Entries.{asked, bare, calls, replies};

use field::Quotients;
use ledger::{Answer, Call};
use refusal::Refusal;
use shelf::Shelf;
use vault_calls::Vault;
use vault_laws::vaults_stand;

// A call with its buffer, and what it answered; before it is made, anything.
#[derive(Drop)]
pub struct Entry<F> {
    pub call: Call<F, Vec<F>>,
    pub answer: Result<Answer, Refusal>,
}

fn done(_: ()) -> Answer
    ensures { result ≡ Done }
{
    Answer::Done
}

// Puts the file in a vector, which stays.
fn put<F: Quotients, S: Shelf<Symbol = F>>(
    vault: &mut Vault<S>,
    file: &mut Vec<F>,
) -> Result<(), Refusal>
    ensures does { Did F.symbols F.value S.meaning vault.old (Put file.old.items) (as_answer result) file.new.items vault.new }
    ensures lender { S.buffers vault.new.shelf ≡ S.buffers vault.old.shelf }
{
    vault.put(file)
}

// Makes one call, with the buffer that it holds. But for what is in that, the
// call stays.
pub fn serve<F: Quotients, S: Shelf<Symbol = F>>(
    vault: &mut Vault<S>,
    call: &mut Call<F, Vec<F>>,
) -> Result<Answer, Refusal>
    ensures does { Did F.symbols F.value S.meaning vault.old (asked call.old) result (lent (asked call.new)) vault.new }
    ensures call { bare (asked call.new) ≡ bare (asked call.old) }
    ensures lender { S.buffers vault.new.shelf ≡ S.buffers vault.old.shelf }
{
    match call {
        Call::SetUp(m) => vault.set_up(*m).map(done),
        Call::Put(file) => put(vault, file).map(done),
        Call::Amend {
            number,
            row,
            symbol,
            work,
        } => vault.amend(*number, *row, *symbol, work).map(done),
        Call::Read(into) => vault.read(into).map(done),
        Call::Column { number, into } => vault.column(*number, into).map(done),
        Call::Message { helper, lost, into } => vault.message(*helper, *lost, into).map(done),
        Call::Lose(number) => vault.lose(*number).map(done),
        Call::Renew { number, work } => vault.renew(*number, work).map(Answer::Count),
        Call::Rebuild(work) => vault.rebuild(work).map(Answer::Count),
    }
}

// Makes calls one after another, each with the buffer that it holds.
pub fn run<F: Quotients, S: Shelf<Symbol = F>>(vault: &mut Vault<S>, entries: &mut [Entry<F>])
    ensures run { Run F.symbols F.value (calls entries.old) (replies entries.new) vault.old.size (S.meaning vault.old.shelf) vault.new.size (S.meaning vault.new.shelf) }
    ensures calls { map bare (calls entries.new) ≡ map bare (calls entries.old) }
    ensures lender { S.buffers vault.new.shelf ≡ S.buffers vault.old.shelf }
{
    for entry in entries.iter_mut() {
        entry.answer = serve(vault, &mut entry.call);
    }
}

// Makes a vault on a shelf, and then calls one after another, each with the
// buffer that it holds. All that a vault promises of any calls is promised here.
pub fn run_new<F: Quotients, S: Shelf<Symbol = F>>(shelf: S, entries: &mut [Entry<F>]) -> Vault<S>
    ensures law { VaultLaw F.symbols F.value (S.meaning shelf) (calls entries.old) (replies entries.new) result.size (S.meaning result.shelf) }
    ensures run { Run F.symbols F.value (calls entries.old) (replies entries.new) None (S.meaning shelf) result.size (S.meaning result.shelf) }
    ensures calls { map bare (calls entries.new) ≡ map bare (calls entries.old) }
    ensures lender { S.buffers result.shelf ≡ S.buffers shelf }
{
    vaults_stand::<F>();
    let mut vault = Vault::new(shelf);
    run(&mut vault, entries);
    vault
}
