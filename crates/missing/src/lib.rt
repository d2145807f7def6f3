// The boxes of a cabinet that are out, at most two: which they are, and which boxes tell their columns.
#![tactic(auto)]

ghost use Rattle.std.specs.Prelude.{◌≡◌, ℕ, ◌+◌, ◌-◌, ◌*◌, ◌<◌, ◌≤◌, not, MatchOption, IfOk};
ghost use Rattle.refusal.specs.Refusals.{refusal};
ghost use Rattle.missing.specs.Missing.{AllStand, Found, LowestOut, are_boxes as boxes_of, count as count_of, many_out, present, source as source_of, stands, wrong_boxes};

use boxes::Size;
use refusal::{Refusal, numbered};

// The boxes that are out, at most two, by their places from 0; the lower first.
#[derive(Clone, Copy, Debug, PartialEq, Eq)]
pub enum Missing {
    Nothing,
    One(usize),
    Two(usize, usize),
}

// Are these boxes of n, the lower first?
pub fn are_boxes(n: usize, missing: Missing) -> bool
    ensures { result ≡ boxes_of n missing }
{
    match missing {
        Missing::Nothing => true,
        Missing::One(x) => x < n,
        Missing::Two(x, y) => x < y && y < n,
    }
}

impl Missing {
    // How many they are.
    pub fn count(self) -> usize
        ensures { result ≡ count_of self }
    {
        match self {
            Missing::Nothing => 0,
            Missing::One(_) => 1,
            Missing::Two(_, _) => 2,
        }
    }

    // Is the box in place b one of them?
    pub fn lists(self, b: usize) -> bool
        ensures { result ≡ not (present self b) }
    {
        match self {
            Missing::Nothing => false,
            Missing::One(x) => b == x,
            Missing::Two(x, y) => b == x || b == y,
        }
    }

    // The box whose column tells that of the data box in place b, of a cabinet of some size.
    pub fn source(self, size: &Size, b: usize) -> usize
        ensures { result ≡ source_of (3 * size.now.m) self b }
    {
        let first = size.boxes();
        let second = first + 1;
        match self {
            Missing::One(x) if b == x => first,
            Missing::Two(_, y) if b == y => second,
            Missing::Two(x, y) if b == x && y == first => second,
            Missing::Two(x, _) if b == x => first,
            _ => b,
        }
    }
}

// Refuses numbers that are none of the boxes 1 to n.
pub fn all_numbered(n: usize, out: &[usize]) -> Result<(), Refusal>
    ensures { refusal result ≡ wrong_boxes n out.now }
{
    for b in out {
        numbered(n, *b)?;
    }
    Ok(())
}

// The lowest box that is out, of those in the places from `from` on and below n.
fn lowest_out(n: usize, out: &[usize], from: usize) -> Option<usize>
    requires { from ≤ n }
    ensures { MatchOption result (AllStand (stands out.now) from n) (LowestOut (stands out.now) from n) }
{
    let mut b = from;
    loop {
        if b == n {
            break None;
        }
        if out.contains(&(b + 1)) {
            break Some(b);
        }
        b += 1;
    }
}

// Finds the boxes that are listed as out, of n boxes. Refused where these are three or more.
pub fn find_listed(n: usize, out: &[usize]) -> Result<Missing, Refusal>
    ensures answer { refusal result ≡ many_out n out.now }
    ensures boxes { IfOk result (Found (stands out.now) n) }
{
    let Some(x) = lowest_out(n, out, 0) else {
        return Ok(Missing::Nothing);
    };
    let Some(y) = lowest_out(n, out, x + 1) else {
        return Ok(Missing::One(x));
    };
    match lowest_out(n, out, y + 1) {
        None => Ok(Missing::Two(x, y)),
        Some(_) => Err(Refusal::ManyOut),
    }
}
