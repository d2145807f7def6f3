// The worked calls on vaults over any shelf: what the law of vaults promises of
// them, in numbers.
#![tactic(auto)]

ghost use Rattle.std.specs.Prelude.{◌≡◌, ℕ, List, [], ◌∷◌, Ok, Some, length, map};
ghost use Rattle.ledger_cases.specs.Worked.{amended};
ghost use Rattle.prime.specs.Five.{five_number};
ghost use Rattle.run_cases.specs.Numbers.{AreWorked, CameAsWorked, HoldsThree, HoldsWorked, RenewedFromFour, WorkedByLeast, shown};

#[cfg(test)]
mod flat_shelf;

use ledger_cases::worked_run;
use prime::five::Five;
use refusal::Refusal;
use shelf::Shelf;
use vault_calls::Vault;
use vault_runs::{Entry, run_new};

// Makes calls of a new vault over any shelf. Where they are the worked ones, or
// the first so many of these:
pub fn run_worked<S: Shelf<Symbol = Five>>(shelf: S, entries: &mut [Entry<Five>]) -> Vault<S>
    // Each comes to what was worked out.
    ensures replies { (n : ℕ) → AreWorked n (S.meaning shelf) entries.old → CameAsWorked n entries.new }
    // Each that is declined is declined by the least number of those that fit.
    ensures declined { (n : ℕ) → AreWorked n (S.meaning shelf) entries.old → WorkedByLeast n }
    // The renewal took four numbers, and none of them can be spared.
    ensures renewed { AreWorked 36 (S.meaning shelf) entries.old → RenewedFromFour entries.new }
    // After 36 calls boxes 1 and 4 are out, and the others hold their columns of the amended file.
    ensures boxes { AreWorked 36 (S.meaning shelf) entries.old → HoldsWorked (S.meaning result.shelf) }
{
    worked_run();
    run_new(shelf, entries)
}

// Makes calls of a new vault over any shelf, and then reads its file.
pub fn read_worked<S: Shelf<Symbol = Five> + Drop>(
    shelf: S,
    entries: &mut [Entry<Five>],
    into: &mut [Five],
) -> Result<(), Refusal>
    // With boxes 1 and 4 out it reads what was written last.
    ensures newest { AreWorked 36 (S.meaning shelf) entries.old → length into.old ≡ 6 → (result ≡ Ok tt) × (map five_number into.new ≡ amended) }
{
    run_new(shelf, entries).read(into)
}

// Makes calls of two new vaults, and then reads the second one's file.
pub fn read_alike<S: Shelf<Symbol = Five> + Drop, U: Shelf<Symbol = Five>>(
    shelf: S,
    entries: &mut [Entry<Five>],
    other: U,
    others: &mut [Entry<Five>],
    into: &mut [Five],
) -> (Result<(), Refusal>, Vault<U>)
    // Whatever the calls of the second, where three boxes hold the same in both, it reads what was written to the first last.
    ensures read { AreWorked 35 (S.meaning shelf) entries.old → HoldsThree result.1.size (U.meaning result.1.shelf) → length into.old ≡ 6 → (result.0 ≡ Ok tt) × (map five_number into.new ≡ amended) }
    // Its fourth box, if that stands, holds what the first one's does.
    ensures fourth { AreWorked 35 (S.meaning shelf) entries.old → HoldsThree result.1.size (U.meaning result.1.shelf) → (column : List ℕ) → shown (U.meaning result.1.shelf) 4 ≡ Some column → column ≡ 4 ∷ 0 ∷ [] }
{
    let mut first = run_new(shelf, entries);
    let mut second = run_new(other, others);
    // What the first read answers is not asked: the law has it.
    let _ = first.read(into);
    (second.read(into), second)
}
