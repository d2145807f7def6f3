// The calls on a vault's boxes.
ghost use Rattle.std.specs.Prelude.{◌≡◌, []};
ghost use Rattle.ledger.specs.declared.calls.Call.TheVariants.{Column, Lose, Message, Renew};
ghost use Rattle.vault_calls.specs.Vaults.{Did, counted, done};

use crate::Vault;
use field::Quotients;
use refusal::{Refusal, numbered, refuse_if};
use renewing::{renew_out, send_half};
use shelf::Shelf;
use stripe_file::read_column;

impl<F: Quotients, S: Shelf<Symbol = F>> Vault<S> {
    // Reads the column of a standing box.
    pub fn column(&mut self, number: usize, into: &mut [F]) -> Result<(), Refusal>
        ensures does { Did F.symbols F.value S.meaning self.old (Column number into.old) (done result) into.new self.new }
        ensures lender { S.buffers self.new.shelf ≡ S.buffers self.old.shelf }
    {
        let stripe = self.stripe()?;
        read_column(&mut self.shelf, &stripe, number, into)
    }

    // Reads the half that a helper sends for a lost data box, which may stand
    // or not.
    pub fn message(&mut self, helper: usize, lost: usize, into: &mut [F]) -> Result<(), Refusal>
        ensures does { Did F.symbols F.value S.meaning self.old (Message helper lost into.old) (done result) into.new self.new }
        ensures lender { S.buffers self.new.shelf ≡ S.buffers self.old.shelf }
    {
        let stripe = self.stripe()?;
        send_half(&mut self.shelf, &stripe, helper, lost, into)
    }

    // Loses a box.
    pub fn lose(&mut self, number: usize) -> Result<(), Refusal>
        ensures does { Did F.symbols F.value S.meaning self.old (Lose number) (done result) [] self.new }
        ensures lender { S.buffers self.new.shelf ≡ S.buffers self.old.shelf }
    {
        let stripe = self.stripe()?;
        numbered(stripe.cabinet.size.boxes() + 2, number)?;
        refuse_if(!self.shelf.stands(number), Refusal::Out)?;
        self.shelf.withdraw(number);
        Ok(())
    }

    // Restores a data box that is out from half of every other box, answers how
    // many numbers it took, and leaves them at the front of the work buffer.
    #[tactic(auto, using(crate::proofs::Verdicts::renewal_verdict))]
    pub fn renew(&mut self, number: usize, work: &mut [F]) -> Result<usize, Refusal>
        ensures does { Did F.symbols F.value S.meaning self.old (Renew number work.old) (counted result) work.new self.new }
        ensures lender { S.buffers self.new.shelf ≡ S.buffers self.old.shelf }
    {
        let stripe = self.stripe()?;
        renew_out(&mut self.shelf, &stripe, number, work)
    }
}
