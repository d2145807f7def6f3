// What holds of vaults after any calls.
#![tactic(auto)]

ghost use Rattle.std.specs.Prelude.{List, None, Option, ℕ};
ghost use Rattle.ledger.specs.declared.calls.Call.{Call};
ghost use Rattle.shelf.specs.Meaning.{Meaning};
ghost use Rattle.vault_calls.specs.Calls.{Reply};
ghost use Rattle.vault_laws.specs.Determined.{OneOutcome};
ghost use Rattle.vault_laws.specs.Laws.{VaultLaw};
ghost use Rattle.vault_laws.specs.Runs.{Run};

use code::code_stands;
use field::Quotients;

// The law of vaults, for any calls made one by one from a vault's making on.
// And of each call, whatever its vault and its shelf hold, what it answers and
// leaves is determined, up to the values of symbols.
pub fn vaults_stand<F: Quotients>()
    ensures laws { (s s' : Meaning F) (calls : List (Call F (List F))) (replies : List (Reply F)) (size' : Option ℕ) → Run F.symbols F.value calls replies None s size' s' → VaultLaw F.symbols F.value s calls replies size' s' }
    ensures determined { (size : Option ℕ) (s : Meaning F) (call : Call F (List F)) → OneOutcome F.symbols F.value size s call }
{
    code_stands::<F>()
}
