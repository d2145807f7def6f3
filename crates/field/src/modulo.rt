// The arithmetic of the numbers below a prime.
ghost use Rattle.std.specs.Prelude.{◌≡◌, ◌+◌, ◌-◌, ◌*◌, ◌/◌, ◌%◌, ◌<◌, ◌≤◌};
ghost use Rattle.field.specs.Residues.{Halved};

use crate::residue::Residue;

// Of two numbers below the size, by a comparison and a subtraction.
#[inline(always)]
pub(crate) fn sum<R: Residue>(a: u32, b: u32) -> u32
    requires first { a < R.SIZE }
    requires second { b < R.SIZE }
    ensures { result ≡ (a + b) % R.SIZE }
{
    let sum = a + b;
    if sum < R::SIZE { sum } else { sum - R::SIZE }
}

#[inline(always)]
pub(crate) fn negative<R: Residue>(a: u32) -> u32
    requires { a < R.SIZE }
    ensures { result ≡ (R.SIZE - a) % R.SIZE }
{
    if a == 0 { 0 } else { R::SIZE - a }
}

#[inline(always)]
pub(crate) fn product<R: Residue>(a: u32, b: u32) -> u32
    ensures { result ≡ (a * b) % R.SIZE }
{
    (a as u64 * b as u64 % R::SIZE as u64) as u32
}

// With the size q·a + r, the remainder r is −q times a, modulo the size, and
// a − r is q + 1 times a: the smaller of the two, which is at most half of a,
// and its factor.
fn smaller<R: Residue>(a: u32) -> (u32, u32)
    requires above { 1 < a }
    requires below { a < R.SIZE }
    ensures left { R.SIZE % a ≤ a - R.SIZE % a → result ≡ (R.SIZE % a, R.SIZE - R.SIZE / a) }
    ensures lacking { a - R.SIZE % a < R.SIZE % a → result ≡ (a - R.SIZE % a, R.SIZE / a + 1) }
{
    let q = R::SIZE / a;
    let r = R::SIZE % a;
    if r <= a - r {
        (r, R::SIZE - q)
    } else {
        (a - r, q + 1)
    }
}

// From a factor that takes some x to a, modulo the size, to a number at most
// half of a and the factor that takes x to that.
fn halve<R: Residue>(a: u32, factor: u32) -> (u32, u32)
    requires above { 1 < a }
    requires below { a < R.SIZE }
    ensures { Halved R.SIZE a factor result.0 result.1 }
{
    let (b, m) = smaller::<R>(a);
    (b, product::<R>(factor, m))
}

// Keeps factor times x equal to a modulo the size, until a is 1. Each turn at
// least halves a, so 32 turns are enough for any number of 32 bits.
pub(crate) fn inverse<R: Residue>(x: u32) -> u32
    requires above { 0 < x }
    requires below { x < R.SIZE }
    ensures below { result < R.SIZE }
    ensures one { (x * result) % R.SIZE ≡ 1 }
{
    let mut a = x;
    let mut factor = 1;
    // Turns are counted, and there is nothing to go over.
    for _ in 0..32u32 {
        if a == 1 {
            break;
        }
        (a, factor) = halve::<R>(a, factor);
    }
    factor
}
