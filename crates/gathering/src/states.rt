// The states of a renewal: halves are gathered until every helper has been heard.
ghost use Rattle.std.specs.Prelude.{◌≡◌, ℕ, ◌+◌, ◌-◌, ◌*◌, ◌^◌, ◌<◌, ◌≤◌, ◌≢◌, [], ◌∷◌, ◌++◌, true, false, not, ◌||◌, ◌==◌, length, if◌then◌else◌, IfOk, MatchResult, replicate, slice_set};
ghost use Rattle.std.specs.List.{All};
ghost use Rattle.std.specs.Option.{is_some};
ghost use Rattle.code.specs.Codes.{full, Given};
ghost use Rattle.code.specs.Contents.{at, parts};
ghost use Rattle.code.specs.Recovery.{seat as seated};
ghost use Rattle.refusal.specs.Refusals.{earliest, no_box, no_helper, refusal, unheard, wrong_lengths};
ghost use Rattle.gathering.specs.States.{SameLost, flags, lost_box, size_of};
ghost use Rattle.gathering.specs.Gatherings.{Heard, Renewed, asked, declined, filled, heard_by, missing, opening, reasons, sent, with_half};

use crate::lost::Lost;
use columns::restore;
use field::{Quotients, Sums};
use refusal::{Refusal, all_heard, fitting, helping, numbered};

// The boxes of the largest cabinet.
const MOST_BOXES: usize = 20;

// A call that was declined, with what it took given back.
#[derive(Drop)]
pub struct Declined<T> {
    pub why: Refusal,
    pub state: T,
}

impl<T: Drop> From<Declined<T>> for Refusal {
    ghost from_gives = { λ declined why. why ≡ declined.why };

    fn from(declined: Declined<T>) -> Refusal {
        declined.why
    }
}

// A lost box, and the helpers whose halves have come.
#[derive(Drop)]
pub struct Gathering<F: Sums> {
    lost: Lost<F>,
    // Box by box: has it been heard?
    heard: [bool; MOST_BOXES],
}

// A gathering that has heard every helper.
#[derive(Drop)]
pub struct Complete<F: Sums> {
    gathering: Gathering<F>,
    ghost whole: { missing (3 * size_of gathering + 2) (lost_box gathering) (heard_by (flags gathering)) ≡ false },
}

// One message: the number of a helper and the half that it sends.
#[derive(Drop)]
pub struct Message<'a, F> {
    pub helper: usize,
    pub half: &'a [F],
}

impl<F: Sums> Gathering<F> {
    // Begins with no helper heard. Refused by a size, too few marks or a box
    // that does not fit.
    pub fn begin(m: usize, lost: usize) -> Result<Self, Refusal>
        ensures answer { refusal result ≡ earliest (opening F.symbols m lost) }
        ensures size { IfOk result (λ g. size_of g ≡ m) }
        ensures lost { IfOk result (λ g. lost_box g ≡ lost) }
        ensures none { IfOk result (λ g. flags g ≡ replicate MOST_BOXES false) }
    {
        let lost = Lost::new(m, lost)?;
        Ok(Gathering {
            lost,
            heard: [false; MOST_BOXES],
        })
    }

    // Puts the half of a helper into the store, at the helper's place. Refused,
    // with nothing written, by a length or a helper that does not fit.
    pub fn hear(&mut self, helper: usize, half: &[F], store: &mut [F]) -> Result<(), Refusal>
        ensures answer { let m = size_of self.old in let lost = lost_box self.old in refusal result ≡ earliest (wrong_lengths ((length half.now, 2 ^ (m - 1)) ∷ (length store.old, (3 * m + 1) * 2 ^ (m - 1)) ∷ []) ∷ no_box (3 * m + 2) helper ∷ no_helper lost helper (heard_by (flags self.old) helper) ∷ []) }
        ensures lost { SameLost self.new self.old }
        ensures heard { MatchResult result (λ _. flags self.new ≡ slice_set (flags self.old) (helper - 1) true) (λ _. flags self.new ≡ flags self.old) }
        ensures store { let m = size_of self.old in let lost = lost_box self.old in MatchResult result (λ _. store.new ≡ with_half (2 ^ (m - 1)) (seated (lost - 1) (helper - 1)) half.now store.old) (λ _. store.new ≡ store.old) }
    {
        let boxes = self.lost.cabinet.size.boxes();
        let pairs = self.lost.cabinet.size.pairs();
        fitting(&[(half.len(), pairs), (store.len(), (boxes + 1) * pairs)])?;
        numbered(boxes + 2, helper)?;
        helping(self.lost.number, helper, self.heard[helper - 1])?;
        self.heard[helper - 1] = true;
        let start = self.lost.start(helper);
        store[start..start + pairs].copy_from_slice(half);
        Ok(())
    }

    // Hears messages in their order, up to the first that is declined, as the
    // first messages of the gathering.
    fn hear_all(&mut self, messages: &[Message<'_, F>], store: &mut [F]) -> Result<(), Refusal>
        requires { flags self.old ≡ replicate MOST_BOXES false }
        ensures answer { let m = size_of self.old in let lost = lost_box self.old in refusal result ≡ earliest (reasons m lost (length store.old) [] messages.now) }
        ensures lost { SameLost self.new self.old }
        ensures heard { IfOk result (λ _. (b : ℕ) → 1 ≤ b → b ≤ MOST_BOXES → heard_by (flags self.new) b ≡ sent messages.now b) }
        ensures store { let m = size_of self.old in let lost = lost_box self.old in store.new ≡ filled m lost [] messages.now store.old }
        ensures placed { let m = size_of self.old in let lost = lost_box self.old in IfOk result (λ _. All (Heard m lost store.new) messages.now) }
    {
        for message in messages {
            self.hear(message.helper, message.half, store)?;
        }
        Ok(())
    }

    // Is a box a helper that is still to be heard?
    fn awaits(&self, b: usize) -> bool
        requires first { 1 ≤ b }
        requires last { let m = size_of self.now in b ≤ 3 * m + 2 }
        ensures { let lost = lost_box self.now in result ≡ not (b == lost || heard_by (flags self.now) b) }
    {
        b != self.lost.number && !self.heard[b - 1]
    }

    // Is a helper still to be heard?
    fn is_waiting(&self) -> bool
        ensures { let m = size_of self.now in let lost = lost_box self.now in result ≡ missing (3 * m + 2) lost (heard_by (flags self.now)) }
    {
        let boxes = self.lost.cabinet.size.boxes() + 2;
        for b in 1..boxes + 1 {
            if self.awaits(b) {
                return true;
            }
        }
        false
    }

    // Ends the gathering. Refused, with the gathering given back, as long as a helper is missing.
    pub fn close(self) -> Result<Complete<F>, Declined<Self>>
        ensures answer { let m = size_of self in let lost = lost_box self in declined result ≡ unheard (missing (3 * m + 2) lost (heard_by (flags self))) }
        ensures kept { MatchResult result (λ c. c.gathering ≡ self) (λ d. d.state ≡ self) }
    {
        match all_heard(self.is_waiting()) {
            Ok(()) => Ok(Complete { gathering: self }),
            Err(why) => Err(Declined { why, state: self }),
        }
    }
}

impl<F: Quotients> Complete<F> {
    // Writes the column that the store's halves give. Refused, with nothing
    // written and itself given back, by a length that does not fit.
    pub fn column(self, store: &[F], into: &mut [F]) -> Result<(), Declined<Self>>
        ensures answer { let m = size_of self.gathering in declined result ≡ earliest (wrong_lengths ((length store.now, (3 * m + 1) * 2 ^ (m - 1)) ∷ (length into.old, 2 ^ m) ∷ []) ∷ []) }
        ensures column { let m = size_of self.gathering in let lost = lost_box self.gathering in MatchResult result (λ _. Given (full F.symbols m) (lost - 1) (parts F.symbols F.value (2 ^ (m - 1)) store.now) (at F.symbols F.value into.new)) (λ d. (into.new ≡ into.old) × (d.state ≡ self)) }
    {
        restore(
            self.gathering.lost.cabinet.size.m,
            self.gathering.lost.number,
            store,
            into,
        )
        .map_err(|why| Declined { why, state: self })
    }
}

impl<F: Quotients> Gathering<F> {
    // Hears messages, as the first of the gathering, and writes the column.
    fn finish(
        mut self,
        messages: &[Message<'_, F>],
        store: &mut [F],
        column: &mut [F],
    ) -> Result<(), Refusal>
        requires { flags self ≡ replicate MOST_BOXES false }
        ensures answer { let m = size_of self in let lost = lost_box self in refusal result ≡ earliest (asked m lost (length store.old) (length column.old) messages.now) }
        ensures column { let m = size_of self in let lost = lost_box self in MatchResult result (λ _. Renewed F.symbols F.value m lost messages.now store.new column.new) (λ _. column.new ≡ column.old) }
        ensures store { let m = size_of self in let lost = lost_box self in store.new ≡ filled m lost [] messages.now store.old }
    {
        self.hear_all(messages, store)?;
        let complete = self.close()?;
        complete.column(store, column)?;
        Ok(())
    }
}

// Gathers the halves that messages bring, and writes the lost column. Refused
// by a size, too few marks or a box that does not fit, by the first message
// that does not, by a helper that is missing, and by a length: the column is
// then as it was, and the store holds the halves that came before.
pub fn gather<F: Quotients>(
    m: usize,
    lost: usize,
    messages: &[Message<'_, F>],
    store: &mut [F],
    column: &mut [F],
) -> Result<(), Refusal>
    ensures answer { refusal result ≡ earliest (opening F.symbols m lost ++ asked m lost (length store.old) (length column.old) messages.now) }
    ensures column { MatchResult result (λ _. Renewed F.symbols F.value m lost messages.now store.new column.new) (λ _. column.new ≡ column.old) }
    ensures store { store.new ≡ (if is_some (earliest (opening F.symbols m lost)) then store.old else filled m lost [] messages.now store.old) }
{
    Gathering::begin(m, lost)?.finish(messages, store, column)
}
