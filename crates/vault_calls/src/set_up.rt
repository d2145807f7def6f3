// Setting a vault up.
ghost use Rattle.std.specs.Prelude.{◌≡◌, ◌+◌, ◌*◌, ◌<◌, ◌∷◌, [], true, None, Some, IfOk};
ghost use Rattle.ledger.specs.Calls.{not_set_up, wrong_shape};
ghost use Rattle.ledger.specs.declared.calls.Call.TheVariants.{SetUp};
ghost use Rattle.refusal.specs.Refusals.{earliest, few_marks, refusal, wrong_size};
ghost use Rattle.shelf.specs.Meaning.{box_count};
ghost use Rattle.stripe.specs.Stripes.{has_stripe};
ghost use Rattle.vault_calls.specs.Calls.{Cleared, ClearedBox};
ghost use Rattle.vault_calls.specs.States.{in_force, shelf_state};
ghost use Rattle.vault_calls.specs.Vaults.{Did, done, state_of};

use crate::Vault;
use field::{Quotients, Sums};
use refusal::{Refusal, refuse_if};
use shelf::{Shelf, shelves_stand};
use stripe::Stripe;

// The stripe that fills a shelf's boxes. Refused by a size, by too few marks,
// and by other boxes or rows than the cabinet has.
fn filling<F: Sums, S: Shelf<Symbol = F>>(shelf: &mut S, m: usize) -> Result<Stripe<F>, Refusal>
    ensures answer { let s = S.meaning shelf.old in refusal result ≡ earliest (wrong_size m ∷ few_marks F.symbols m ∷ wrong_shape (shelf_state F.symbols None s) m ∷ []) }
    ensures size { IfOk result (λ t. t.cabinet.size.m ≡ m) }
    ensures from { IfOk result (λ t. t.from ≡ 0) }
    ensures fits { IfOk result (λ t. has_stripe m 0 (S.meaning shelf.old) ≡ true) }
    ensures boxes { IfOk result (λ t. box_count (S.meaning shelf.old) ≡ 3 * m + 2) }
    ensures stays { S.meaning shelf.new ≡ S.meaning shelf.old }
    ensures lender { S.buffers shelf.new ≡ S.buffers shelf.old }
{
    let stripe = Stripe::new(m, 0)?;
    let sizes = shelf.sizes();
    let size = &stripe.cabinet.size;
    refuse_if(
        sizes.boxes != size.boxes() + 2 || sizes.rows != size.rows(),
        Refusal::Shape,
    )?;
    Ok(stripe)
}

// Makes the box in place b stand, with zero in every row.
fn clear_box<F: Sums, S: Shelf<Symbol = F>>(shelf: &mut S, b: usize)
    requires { b < 32 }
    ensures after { ClearedBox F.symbols F.value b (S.meaning shelf.old) (S.meaning shelf.new) }
    ensures lender { S.buffers shelf.new ≡ S.buffers shelf.old }
{
    // By the laws of shelves it is out then, and holds zero when it is put in.
    shelves_stand::<S>();
    shelf.withdraw(b + 1);
    shelf.insert(b + 1, F::zero());
}

// Makes all boxes stand, with zero in every row.
#[tactic(auto, using(crate::proofs::Clearing::none_cleared, crate::proofs::Clearing::all_cleared))]
fn clear<F: Sums, S: Shelf<Symbol = F>>(shelf: &mut S, boxes: usize)
    requires { boxes ≡ box_count (S.meaning shelf.old) }
    ensures after { Cleared F.symbols F.value (S.meaning shelf.old) (S.meaning shelf.new) }
    ensures lender { S.buffers shelf.new ≡ S.buffers shelf.old }
{
    for b in 0..boxes {
        clear_box(shelf, b);
    }
}

impl<F: Quotients, S: Shelf<Symbol = F>> Vault<S> {
    // The stripe of a vault that is set up.
    pub(crate) fn stripe(&mut self) -> Result<Stripe<F>, Refusal>
        ensures answer { refusal result ≡ not_set_up (state_of F.symbols S.meaning self.old) }
        ensures size { IfOk result (λ t. in_force F.symbols self.old.size (S.meaning self.old.shelf) ≡ Some t.cabinet.size.m) }
        ensures from { IfOk result (λ t. t.from ≡ 0) }
        ensures fits { IfOk result (λ t. has_stripe t.cabinet.size.m 0 (S.meaning self.old.shelf) ≡ true) }
        ensures boxes { IfOk result (λ t. box_count (S.meaning self.old.shelf) ≡ 3 * t.cabinet.size.m + 2) }
        ensures held { self.new.size ≡ self.old.size }
        ensures stays { S.meaning self.new.shelf ≡ S.meaning self.old.shelf }
        ensures lender { S.buffers self.new.shelf ≡ S.buffers self.old.shelf }
    {
        let Some(m) = self.size else {
            return Err(Refusal::NotSetUp);
        };
        match filling(&mut self.shelf, m) {
            Ok(stripe) => Ok(stripe),
            Err(_) => Err(Refusal::NotSetUp),
        }
    }

    // Sets the vault up with size m: all boxes stand and hold zero. Also where
    // it was set up before.
    pub fn set_up(&mut self, m: usize) -> Result<(), Refusal>
        ensures does { Did F.symbols F.value S.meaning self.old (SetUp m) (done result) [] self.new }
        ensures lender { S.buffers self.new.shelf ≡ S.buffers self.old.shelf }
    {
        let stripe = filling(&mut self.shelf, m)?;
        clear(&mut self.shelf, stripe.cabinet.size.boxes() + 2);
        self.size = Some(m);
        Ok(())
    }
}
