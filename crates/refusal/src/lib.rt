// Why a call is declined.
#![tactic(auto)]

ghost use Rattle.std.specs.Prelude.{◌≡◌, ℕ, ◌*◌, ◌≤◌, ◌<◌, ◌||◌, nat_lt, Some};
ghost use Rattle.refusal.specs.Refusals.{any_wrong, earliest as first, few_marks as too_few_marks, no_box, no_helper, number as number_of, parity_box, refusal, text, unheard, where_holds, wrong_lengths as wrong_length, wrong_size};

use field::Sums;
use std::error::Error;
use std::fmt;

#[derive(Clone, Copy, Debug, PartialEq, Eq)]
pub enum Refusal {
    // The vault is not set up.
    NotSetUp = 1,
    // m is outside 1 to 6.
    Size = 2,
    // The field has fewer than 2m marks.
    Marks = 3,
    // The shelf has not the boxes and rows that are wanted.
    Shape = 4,
    // A buffer's length is wrong.
    Length = 5,
    // There is no box of that number.
    NoBox = 6,
    // There is no row of that number.
    NoRow = 7,
    // The box is out.
    Out = 8,
    // The box stands, and one that is out is wanted.
    Standing = 9,
    // Three or more boxes are out.
    ManyOut = 10,
    // The box is a parity box, or a second box is out, so halves do not renew it.
    NotRenewable = 11,
    // The helper is the lost box, or has been heard already.
    Helper = 12,
    // A helper has not been heard yet.
    Unheard = 13,
}

impl Refusal {
    // The number by which the refusal is known.
    pub fn number(self) -> u32
        ensures { result ≡ number_of self }
    {
        self as u32
    }
}

impl fmt::Display for Refusal {
    ghost output = { λ why. Some (text why) };

    fn fmt<W: fmt::Write>(&self, f: &mut fmt::Formatter<W>) -> fmt::Result {
        f.write_str(match self {
            Refusal::NotSetUp => "the vault is not set up",
            Refusal::Size => "the size is outside 1 to 6",
            Refusal::Marks => "the field has too few marks",
            Refusal::Shape => "the shelf has other boxes or rows",
            Refusal::Length => "a buffer has the wrong length",
            Refusal::NoBox => "there is no box of that number",
            Refusal::NoRow => "there is no row of that number",
            Refusal::Out => "the box is out",
            Refusal::Standing => "the box stands",
            Refusal::ManyOut => "three or more boxes are out",
            Refusal::NotRenewable => "the box is a parity box, or a second box is out",
            Refusal::Helper => "the helper is the lost box, or has been heard already",
            Refusal::Unheard => "a helper has not been heard yet",
        })
    }
}

impl Error for Refusal {}

// Declines by the earliest of the reasons that are there. In a loop, since the
// proof of `find_map` stays open.
pub fn earliest(reasons: &[Option<Refusal>]) -> Result<(), Refusal>
    ensures { refusal result ≡ first reasons.now }
{
    for reason in reasons {
        if let Some(why) = reason {
            return Err(*why);
        }
    }
    Ok(())
}

// Refuses where a test holds.
pub fn refuse_if(fits: bool, why: Refusal) -> Result<(), Refusal>
    ensures { refusal result ≡ where_holds fits why }
{
    if fits {
        return Err(why);
    }
    Ok(())
}

// Refuses a size outside 1 to 6.
pub fn sized(m: usize) -> Result<(), Refusal>
    ensures { refusal result ≡ wrong_size m }
{
    refuse_if(m < 1 || 6 < m, Refusal::Size)
}

// The same questions as yes or no; the check beside each asks it.

// Does the field have fewer than 2m marks? Half their count is compared with m,
// since 2m need not fit.
pub fn few_marks<F: Sums>(m: usize) -> bool
    ensures { result ≡ nat_lt F.symbols.marks (2 * m) }
{
    (F::mark_count() as usize) / 2 < m
}

// Refuses a size for which the field has too few marks.
pub fn marked<F: Sums>(m: usize) -> Result<(), Refusal>
    ensures { refusal result ≡ too_few_marks F.symbols m }
{
    refuse_if(few_marks::<F>(m), Refusal::Marks)
}

// Lengths of buffers, each beside the length that it should be: is one wrong?
pub fn wrong_lengths(lengths: &[(usize, usize)]) -> bool
    ensures { result ≡ any_wrong lengths.now }
{
    lengths.iter().any(|(length, wanted)| length != wanted)
}

// Refuses buffers' lengths if one of them is wrong.
pub fn fitting(lengths: &[(usize, usize)]) -> Result<(), Refusal>
    ensures { refusal result ≡ wrong_length lengths.now }
{
    refuse_if(wrong_lengths(lengths), Refusal::Length)
}

// Is b none of the boxes 1 to n?
pub fn outside(n: usize, b: usize) -> bool
    ensures { result ≡ (nat_lt b 1 || nat_lt n b) }
{
    b < 1 || n < b
}

// Refuses a box that is none of the boxes 1 to n.
pub fn numbered(n: usize, b: usize) -> Result<(), Refusal>
    ensures { refusal result ≡ no_box n b }
{
    refuse_if(outside(n, b), Refusal::NoBox)
}

// Refuses a box that is none of the n data boxes.
pub fn holding_data(n: usize, b: usize) -> Result<(), Refusal>
    ensures { refusal result ≡ parity_box n b }
{
    refuse_if(n < b, Refusal::NotRenewable)
}

// Refuses a helper that is the lost box, or that has been heard already.
pub fn helping(lost: usize, helper: usize, heard: bool) -> Result<(), Refusal>
    ensures { refusal result ≡ no_helper lost helper heard }
{
    refuse_if(helper == lost || heard, Refusal::Helper)
}

// Refuses as long as a helper is missing.
pub fn all_heard(missing: bool) -> Result<(), Refusal>
    ensures { refusal result ≡ unheard missing }
{
    refuse_if(missing, Refusal::Unheard)
}
