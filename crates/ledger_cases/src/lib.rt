// A run of the ledger worked out by hand, against its definitions, by computation.
#![tactic(auto)]

ghost use Rattle.ledger_cases.specs.Worked.{Answers, worked};

// The ledger answers these calls so, and leaves this in their buffers.
pub fn worked_run()
    ensures { Answers worked }
{}
