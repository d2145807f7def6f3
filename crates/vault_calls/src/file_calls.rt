// The calls on a vault's file.
ghost use Rattle.std.specs.Prelude.{◌≡◌};
ghost use Rattle.ledger.specs.declared.calls.Call.TheVariants.{Amend, Put, Read, Rebuild};
ghost use Rattle.vault_calls.specs.Vaults.{Did, counted, done};

use crate::Vault;
use amending::amend;
use field::Quotients;
use filing::{restore_out, write_file};
use refusal::{Refusal, fitting};
use shelf::Shelf;
use stripe_file::{find, read_file};

impl<F: Quotients, S: Shelf<Symbol = F>> Vault<S> {
    // Stores a file: every standing box gets its column of it.
    #[tactic(auto, using(crate::proofs::Verdicts::three_same))]
    pub fn put(&mut self, file: &[F]) -> Result<(), Refusal>
        ensures does { Did F.symbols F.value S.meaning self.old (Put file.now) (done result) file.now self.new }
        ensures lender { S.buffers self.new.shelf ≡ S.buffers self.old.shelf }
    {
        let stripe = self.stripe()?;
        let size = &stripe.cabinet.size;
        let boxes = size.boxes();
        fitting(&[(file.len(), boxes * size.rows())])?;
        find(&mut self.shelf, boxes + 2)?;
        write_file(&mut self.shelf, &stripe, file)
    }

    // Changes one symbol of the file, and leaves the file in the work buffer.
    #[tactic(auto, using(crate::proofs::Verdicts::three_same))]
    pub fn amend(
        &mut self,
        number: usize,
        row: usize,
        symbol: F,
        work: &mut [F],
    ) -> Result<(), Refusal>
        ensures does { Did F.symbols F.value S.meaning self.old (Amend number row symbol work.old) (done result) work.new self.new }
        ensures lender { S.buffers self.new.shelf ≡ S.buffers self.old.shelf }
    {
        let stripe = self.stripe()?;
        amend(&mut self.shelf, &stripe, number, row, symbol, work)
    }

    // Reads the file.
    #[tactic(auto, using(crate::proofs::Verdicts::three_same))]
    pub fn read(&mut self, into: &mut [F]) -> Result<(), Refusal>
        ensures does { Did F.symbols F.value S.meaning self.old (Read into.old) (done result) into.new self.new }
        ensures lender { S.buffers self.new.shelf ≡ S.buffers self.old.shelf }
    {
        let stripe = self.stripe()?;
        read_file(&mut self.shelf, &stripe, into)?;
        Ok(())
    }

    // Restores every box that is out, answers how many, and leaves the file in
    // the work buffer.
    #[tactic(auto, using(crate::proofs::Verdicts::three_same))]
    pub fn rebuild(&mut self, work: &mut [F]) -> Result<usize, Refusal>
        ensures does { Did F.symbols F.value S.meaning self.old (Rebuild work.old) (counted result) work.new self.new }
        ensures lender { S.buffers self.new.shelf ≡ S.buffers self.old.shelf }
    {
        let stripe = self.stripe()?;
        restore_out(&mut self.shelf, &stripe, work)
    }
}
