// Cases worked out by hand: once against the definitions, by computation, and
// once against the code, by running it.
#![tactic(auto)]

ghost use Rattle.cases.specs.Worked.{Worked};

#[cfg(test)]
mod codes;
#[cfg(test)]
mod decodings;
#[cfg(test)]
mod fields;
#[cfg(test)]
mod gatherings;

// The worked cases are what the definitions of the code give.
pub fn worked_cases()
    ensures { Worked }
{}
