// A data box that is lost, and its helpers.
ghost use Rattle.std.specs.Prelude.{◌≡◌, ℕ, ◌+◌, ◌-◌, ◌*◌, ◌^◌, ◌<◌, ◌≤◌, ◌≢◌, [], ◌∷◌, IfOk};
ghost use Rattle.code.specs.Recovery.{seat as seated};
ghost use Rattle.refusal.specs.Refusals.{earliest, refusal};
ghost use Rattle.gathering.specs.Gatherings.{opening};

use boxes::Cabinet;
use field::Sums;
use refusal::{Refusal, holding_data, numbered};

// A data box that a cabinet has lost.
#[derive(Drop)]
pub(crate) struct Lost<F: Sums> {
    pub(crate) cabinet: Cabinet<F>,
    // Its number, from 1.
    pub(crate) number: usize,
    ghost first: { 1 ≤ number },
    ghost data: { number ≤ 3 * cabinet.size.m },
}

impl<F: Sums> Lost<F> {
    // Refused by a size, too few marks or a box that does not fit.
    pub(crate) fn new(m: usize, number: usize) -> Result<Self, Refusal>
        ensures answer { refusal result ≡ earliest (opening F.symbols m number) }
        ensures named { IfOk result (λ l. (l.cabinet.size.m ≡ m) × (l.number ≡ number)) }
    {
        let cabinet = Cabinet::new(m)?;
        let boxes = cabinet.size.boxes();
        numbered(boxes + 2, number)?;
        holding_data(boxes, number)?;
        Ok(Lost { cabinet, number })
    }

    // The place of a helper among all boxes but the lost one.
    fn seat(&self, helper: usize) -> usize
        requires first { 1 ≤ helper }
        requires last { helper ≤ 3 * self.now.cabinet.size.m + 2 }
        requires other { helper ≢ self.now.number }
        ensures place { result ≡ seated (self.now.number - 1) (helper - 1) }
        ensures inside { result < 3 * self.now.cabinet.size.m + 1 }
    {
        if helper < self.number {
            helper - 1
        } else {
            helper - 2
        }
    }

    // Where in the store the half of a helper begins.
    pub(crate) fn start(&self, helper: usize) -> usize
        requires first { 1 ≤ helper }
        requires last { helper ≤ 3 * self.now.cabinet.size.m + 2 }
        requires other { helper ≢ self.now.number }
        ensures place { result ≡ seated (self.now.number - 1) (helper - 1) * 2 ^ (self.now.cabinet.size.m - 1) }
        ensures inside { result + 2 ^ (self.now.cabinet.size.m - 1) ≤ (3 * self.now.cabinet.size.m + 1) * 2 ^ (self.now.cabinet.size.m - 1) }
    {
        self.seat(helper) * self.cabinet.size.pairs()
    }
}
