// The ledger: what a vault answers to its calls, and what it leaves in their buffers.
#![tactic(auto)]

ghost use Rattle.std.specs.Prelude.{◌≡◌, List, map};
ghost use Rattle.ledger.specs.Calls.{State, call_map, reasons};
ghost use Rattle.ledger.specs.Laws.{LedgerStands};

mod calls;

pub use calls::{Answer, Call};
use field::Sums;

// A theorem of every field, however many boxes and rows there are, and any
// calls one after another. A call is declined by the least number of those that
// fit, and changes nothing then. The newest write wins: since the last accepted
// set up each place of the file has what was written there last, and a read
// with at most two boxes out finds this. The boxes out are those lost since
// then and not brought back since. Of a buffer only the length counts, and not
// which symbols are in it.
pub fn ledger_stands<F: Sums>()
    ensures laws { LedgerStands F.symbols }
    ensures lengths { (s : State) (call : Call F (List F)) → reasons F.symbols s (call_map F.value (map F.value) call) ≡ reasons F.symbols s call }
{}
