// Which boxes of a shelf stand.
ghost use Rattle.std.specs.Prelude.{◌≡◌, ℕ, ◌-◌, ◌≤◌};
ghost use Rattle.code.specs.Standing.{standing};
ghost use Rattle.refusal.specs.Refusals.{refusal};
ghost use Rattle.renewing.specs.Renewals.{not_renewable, others_stand as others};
ghost use Rattle.stripe.specs.Stripes.{stands};

use refusal::{Refusal, refuse_if};
use shelf::Shelf;

// How many of the first boxes stand.
pub(crate) fn count_standing<S: Shelf>(shelf: &mut S, boxes: usize) -> usize
    ensures answer { result ≡ standing (stands (S.meaning shelf.old)) boxes }
    ensures stays { S.meaning shelf.new ≡ S.meaning shelf.old }
    ensures lender { S.buffers shelf.new ≡ S.buffers shelf.old }
{
    let mut count = 0;
    for b in 0..boxes {
        if shelf.stands(b + 1) {
            count += 1;
        }
    }
    count
}

// Does each of the first boxes stand, but for the lost one, which may or may not?
fn others_stand<S: Shelf>(shelf: &mut S, boxes: usize, lost: usize) -> bool
    requires { 1 ≤ lost }
    ensures answer { result ≡ others (stands (S.meaning shelf.old)) (lost - 1) boxes }
    ensures stays { S.meaning shelf.new ≡ S.meaning shelf.old }
    ensures lender { S.buffers shelf.new ≡ S.buffers shelf.old }
{
    let mut all = true;
    for b in 0..boxes {
        let stands = shelf.stands(b + 1);
        all = (b == lost - 1 || stands) && all;
    }
    all
}

// Refuses a lost box that halves do not renew, of so many data boxes and two parity boxes.
pub(crate) fn renewable<S: Shelf>(shelf: &mut S, boxes: usize, lost: usize) -> Result<(), Refusal>
    requires first { 1 ≤ lost }
    requires bound { boxes ≤ 18 }
    ensures answer { refusal result ≡ not_renewable boxes lost (stands (S.meaning shelf.old)) }
    ensures stays { S.meaning shelf.new ≡ S.meaning shelf.old }
    ensures lender { S.buffers shelf.new ≡ S.buffers shelf.old }
{
    let others = others_stand(shelf, boxes + 2, lost);
    refuse_if(boxes < lost || !others, Refusal::NotRenewable)
}
