// Bytes: the field of FIPS 197, section 4. Each byte is a polynomial over two
// elements, and products are taken modulo x^8 + x^4 + x^3 + x + 1.
#![tactic(auto)]

ghost use Rattle.std.specs.Prelude.{◌≡◌, ◌%◌, length, refl};
ghost use Rattle.byte_field.specs.Bytes.{byte_of, byte_symbols, byte_value};
ghost use Rattle.byte_field.specs.Polynomials.{Products};
ghost use Rattle.byte_field.specs.Product.{doublings as doubles_of, inverse as power_254, pick, product as product_of, squares as squares_of, twice as double_of};

use field::{Quotients, Sums};

#[derive(Clone, Copy, Debug, PartialEq, Eq)]
pub struct Byte(pub u8);

// x^8 + x^4 + x^3 + x + 1 without its highest term.
const REDUCTION: u8 = 0x1b;

// a times x.
#[inline(always)]
fn twice(a: u8) -> u8
    ensures { result ≡ double_of a }
{
    let low = a % 128 * 2;
    if a < 128 { low } else { low ^ REDUCTION }
}

// Fills the buffer with a, a times x, a times x^2 and so on.
#[inline(always)]
fn list_doublings(doubles: &mut [u8], a: u8)
    ensures { doubles.new ≡ doubles_of (length doubles.old) a }
{
    let mut d = a;
    for double in doubles.iter_mut() {
        *double = d;
        d = twice(d);
    }
}

// Eight of them, since a factor has eight digits.
#[inline(always)]
fn doublings(a: u8) -> [u8; 8]
    ensures { result ≡ doubles_of 8 a }
{
    let mut doubles = [0u8; 8];
    list_doublings(&mut doubles, a);
    doubles
}

// d if b is odd.
#[inline(always)]
fn chosen(b: u8, d: u8) -> u8
    ensures { result ≡ pick (b % 2) d }
{
    if b % 2 == 1 { d } else { 0 }
}

// The sum of the doublings of a that the digits of b pick.
#[inline(always)]
fn times(a: u8, b: u8) -> u8
    ensures { result ≡ product_of a b }
{
    let mut sum = 0;
    let mut rest = b;
    for double in doublings(a) {
        sum ^= chosen(rest, double);
        rest /= 2;
    }
    sum
}

// The product of the powers 2, 4, 8 and so on of a, count of them.
fn squares(a: u8, count: u32) -> u8
    ensures { result ≡ squares_of count a 1 }
{
    let mut square = a;
    let mut found = 1;
    // Turns are counted, and there is nothing to go over.
    for _ in 0..count {
        square = times(square, square);
        found = times(found, square);
    }
    found
}

// The 254th power, since the 255th of each byte but 0 is 1: the product of the
// powers 2, 4, 8, 16, 32, 64 and 128.
fn invert(a: u8) -> u8
    ensures { result ≡ power_254 a }
{
    squares(a, 7)
}

impl Sums for Byte {
    const MARKS: u32 = 255;

    ghost MARKS = { 255 };

    ghost symbols = { byte_symbols };

    ghost value = { byte_value };

    ghost of_number = { byte_of };

    ghost marks_agree = { refl };

    fn takes_few_bytes() {}

    fn zero() -> Byte {
        Byte(0)
    }

    fn one() -> Byte {
        Byte(1)
    }

    fn sum(self, other: Byte) -> Byte {
        Byte(self.0 ^ other.0)
    }

    // Each byte gives zero with itself.
    fn negative(self) -> Byte {
        self
    }

    #[inline(always)]
    fn product(self, other: Byte) -> Byte {
        Byte(times(self.0, other.0))
    }

    fn number(self) -> u32 {
        u32::from(self.0)
    }

    fn symbol(n: u32) -> Option<Byte> {
        u8::try_from(n).ok().map(Byte)
    }

    fn mark(j: u32) -> Option<Byte> {
        if j == 0 { None } else { Self::symbol(j) }
    }
}

impl Quotients for Byte {
    fn divides() {}

    fn inverse(self) -> Option<Byte> {
        if self.0 == 0 {
            None
        } else {
            Some(Byte(invert(self.0)))
        }
    }
}

// A theorem on bytes as polynomials over two elements: the product that the
// field is built on is the remainder of the product of the polynomials by
// x^8 + x^4 + x^3 + x + 1.
pub fn products_stand()
    ensures { Products }
{}
