// The fields against tables of other code, or written out by hand.
use byte_field::Byte;
use field::{Quotients, Sums};
use four::Four;
use prime::five::Five;
use prime::words::Words;
use std::process::Abort;
use std::test::Fail;

// The four tables of bytes and words are made by tools/products.py, those of bytes with sympy.
const BYTE_PRODUCTS: [(u32, u32, u32); 64] = [
    (0x00, 0xff, 0x00),
    (0x01, 0xff, 0xff),
    (0xff, 0xff, 0x13),
    (0x80, 0x80, 0x9a),
    (0x02, 0x80, 0x1b),
    (0x80, 0x02, 0x1b),
    (0x07, 0x43, 0xd2),
    (0x53, 0x0a, 0x08),
    (0x60, 0x3c, 0x58),
    (0x14, 0xf8, 0xd4),
    (0xe9, 0x32, 0xff),
    (0x68, 0xd4, 0xae),
    (0x72, 0x56, 0xc9),
    (0x4e, 0xfa, 0x5f),
    (0xd3, 0xfc, 0xc7),
    (0x9a, 0xf6, 0x76),
    (0x98, 0x27, 0x63),
    (0x7c, 0xd5, 0x40),
    (0x7a, 0xf3, 0x56),
    (0xfd, 0xb5, 0x81),
    (0x61, 0x94, 0xb3),
    (0xa4, 0x8a, 0x03),
    (0xaf, 0xff, 0xc5),
    (0x2f, 0xb8, 0x58),
    (0xba, 0x91, 0x71),
    (0xbf, 0x98, 0xa2),
    (0x9f, 0x97, 0x40),
    (0xd8, 0x83, 0x10),
    (0x2c, 0x57, 0xc7),
    (0xb6, 0xb9, 0x11),
    (0x5c, 0xf8, 0x31),
    (0xca, 0x7e, 0xec),
    (0xa9, 0xc0, 0x3e),
    (0x4d, 0xd7, 0x15),
    (0xdf, 0xda, 0xf1),
    (0x1d, 0xc7, 0x50),
    (0x4a, 0xa0, 0xb9),
    (0x40, 0x4b, 0x5d),
    (0xf4, 0xae, 0xd4),
    (0xc8, 0xf9, 0xe5),
    (0xce, 0x18, 0x7e),
    (0x01, 0x4f, 0x4f),
    (0xcb, 0x6c, 0x1b),
    (0x4d, 0x66, 0x10),
    (0xa6, 0x83, 0xed),
    (0x7b, 0x75, 0x6d),
    (0x6b, 0x85, 0xcd),
    (0x3e, 0xaa, 0x24),
    (0x21, 0x58, 0xad),
    (0x3b, 0x00, 0x00),
    (0x02, 0x05, 0x0a),
    (0xe2, 0x72, 0x9c),
    (0x1d, 0x5d, 0x4b),
    (0xca, 0xfc, 0xc3),
    (0xac, 0x8a, 0x3f),
    (0x4e, 0x4c, 0x63),
    (0xa2, 0xdc, 0x28),
    (0x9d, 0x93, 0x37),
    (0xa9, 0x5d, 0x99),
    (0xe1, 0xf0, 0x2f),
    (0x34, 0x48, 0x14),
    (0x5e, 0x59, 0x65),
    (0x33, 0xdc, 0xce),
    (0x62, 0x6c, 0xa9),
];

const BYTE_INVERSES: [(u32, u32); 16] = [
    (0x01, 0x01),
    (0x02, 0x8d),
    (0x03, 0xf6),
    (0x80, 0x83),
    (0xfe, 0x41),
    (0xff, 0x1c),
    (0x9b, 0x88),
    (0xbe, 0x86),
    (0x1b, 0xcc),
    (0xea, 0xd7),
    (0xe5, 0x0e),
    (0x28, 0xc1),
    (0x4f, 0x09),
    (0x10, 0x74),
    (0x5a, 0x22),
    (0x1e, 0xee),
];

const WORD_PRODUCTS: [(u32, u32, u32); 12] = [
    (0, 65536, 0),
    (1, 65536, 65536),
    (65536, 65536, 1),
    (65535, 65536, 2),
    (256, 256, 65536),
    (32768, 2, 65536),
    (38996, 65485, 3855),
    (30616, 4301, 15583),
    (16754, 42919, 58499),
    (16460, 60898, 58202),
    (6792, 37907, 35008),
    (12688, 4216, 14416),
];

const WORD_INVERSES: [(u32, u32); 16] = [
    (1, 1),
    (2, 32769),
    (3, 21846),
    (32768, 65535),
    (65535, 32768),
    (65536, 65536),
    (12767, 49172),
    (54493, 6130),
    (45837, 58461),
    (64537, 30999),
    (27026, 29650),
    (12482, 37809),
    (16505, 8684),
    (9579, 42063),
    (7995, 63750),
    (45706, 2353),
];

// Those of five and four are written out by hand: sums, products, inverses and marks.
const FIVE_SUMS: [(u32, u32, u32); 10] = [
    (0, 3, 3),
    (1, 1, 2),
    (1, 4, 0),
    (2, 2, 4),
    (2, 3, 0),
    (2, 4, 1),
    (3, 3, 1),
    (3, 4, 2),
    (4, 4, 3),
    (4, 0, 4),
];

const FIVE_PRODUCTS: [(u32, u32, u32); 11] = [
    (0, 3, 0),
    (1, 3, 3),
    (2, 2, 4),
    (2, 3, 1),
    (2, 4, 3),
    (3, 2, 1),
    (3, 3, 4),
    (3, 4, 2),
    (4, 2, 3),
    (4, 3, 2),
    (4, 4, 1),
];

const FIVE_INVERSES: [(u32, u32); 4] = [(1, 1), (2, 3), (3, 2), (4, 4)];

const FIVE_MARKS: [(u32, u32); 4] = [(1, 1), (2, 4), (3, 2), (4, 3)];

const FOUR_SUMS: [(u32, u32, u32); 8] = [
    (0, 3, 3),
    (1, 1, 0),
    (1, 2, 3),
    (1, 3, 2),
    (2, 2, 0),
    (2, 3, 1),
    (3, 1, 2),
    (3, 3, 0),
];

const FOUR_PRODUCTS: [(u32, u32, u32); 8] = [
    (0, 2, 0),
    (1, 3, 3),
    (2, 1, 2),
    (2, 2, 3),
    (2, 3, 1),
    (3, 1, 3),
    (3, 2, 1),
    (3, 3, 2),
];

const FOUR_INVERSES: [(u32, u32); 3] = [(1, 1), (2, 3), (3, 2)];

const FOUR_MARKS: [(u32, u32); 3] = [(1, 3), (2, 2), (3, 1)];

// The symbol with a number, where there is one.
pub(crate) fn symbol<F: Sums>(n: u32) -> Result<F, Fail> {
    Ok(F::symbol(n).ok_or("no symbol")?)
}

// What an operation makes of two symbols.
fn operation<F: Sums, O: Fn(F, F) -> F>(
    rt: &impl Abort,
    operate: O,
    table: &[(u32, u32, u32)],
) -> Result<(), Fail>
    requires { O.IsAlwaysCallable operate }
{
    for &(a, b, expected) in table {
        let made = operate(symbol(a)?, symbol(b)?);
        assert_eq!(rt; made.number(), expected);
    }
    Ok(())
}

// A sum less one part is the other part, and symbols are the same if their numbers are.
fn differences<F: Sums>(rt: &impl Abort, table: &[(u32, u32, u32)]) -> Result<(), Fail> {
    for &(a, b, _) in table {
        let x: F = symbol(a)?;
        let y = symbol(b)?;
        assert_eq!(rt; x.sum(y).sum(y.negative()).number(), a);
        assert_eq!(rt; x.sum(y).minus(y).number(), a);
        assert_eq!(rt; x.same(y), a == b);
    }
    Ok(())
}

// What is found for a number, by its number: a closure whose result alone names the field gets no proof.
fn found<L: Fn(u32) -> Option<u32>>(rt: &impl Abort, find: L, table: &[(u32, u32)])
    requires { L.IsAlwaysCallable find }
{
    for &(n, expected) in table {
        assert_eq!(rt; find(n), Some(expected));
    }
}

// Nothing is there outside the marks and from the size up, and zero has no inverse.
fn edges<F: Quotients>(rt: &impl Abort, count: u32, size: u32) -> Result<(), Fail> {
    assert_eq!(rt; F::mark_count(), count);
    assert!(rt; F::mark(0).is_none() && F::mark(count.saturating_add(1)).is_none());
    assert!(rt; F::symbol(size).is_none() && F::zero().inverse().is_none());
    let last = size.saturating_sub(1);
    assert_eq!(rt; F::symbol(last).ok_or("no symbol")?.number(), last);
    assert_eq!(rt; F::one().number(), 1);
    Ok(())
}

// What a field is held against, by the numbers of symbols.
#[derive(Drop)]
struct Tables<'a> {
    sums: &'a [(u32, u32, u32)],
    products: &'a [(u32, u32, u32)],
    inverses: &'a [(u32, u32)],
    marks: &'a [(u32, u32)],
    mark_count: u32,
    size: u32,
}

impl Tables<'_> {
    fn hold<F: Quotients>(&self, rt: &impl Abort) -> Result<(), Fail> {
        operation(rt, F::sum, self.sums)?;
        differences::<F>(rt, self.sums)?;
        operation(rt, F::product, self.products)?;
        found(
            rt,
            |a| Some(F::symbol(a)?.inverse()?.number()),
            self.inverses,
        );
        found(rt, |j| Some(F::mark(j)?.number()), self.marks);
        edges::<F>(rt, self.mark_count, self.size)
    }
}

#[test]
fn five(rt: HostRuntime) -> Result<(), Fail> {
    let tables = Tables {
        sums: &FIVE_SUMS,
        products: &FIVE_PRODUCTS,
        inverses: &FIVE_INVERSES,
        marks: &FIVE_MARKS,
        mark_count: 4,
        size: 5,
    };
    tables.hold::<Five>(&rt)
}

#[test]
fn four(rt: HostRuntime) -> Result<(), Fail> {
    let tables = Tables {
        sums: &FOUR_SUMS,
        products: &FOUR_PRODUCTS,
        inverses: &FOUR_INVERSES,
        marks: &FOUR_MARKS,
        mark_count: 3,
        size: 4,
    };
    tables.hold::<Four>(&rt)
}

// The first two products are those worked out in FIPS 197.
#[test]
fn bytes(rt: HostRuntime) -> Result<(), Fail> {
    operation(
        &rt,
        Byte::product,
        &[(0x57, 0x83, 0xc1), (0x57, 0x13, 0xfe)],
    )?;
    let tables = Tables {
        sums: &[(0x57, 0x83, 0xd4), (0xff, 0xff, 0x00)],
        products: &BYTE_PRODUCTS,
        inverses: &BYTE_INVERSES,
        marks: &[(1, 1), (128, 128), (255, 255)],
        mark_count: 255,
        size: 256,
    };
    tables.hold::<Byte>(&rt)
}

#[test]
fn words(rt: HostRuntime) -> Result<(), Fail> {
    let tables = Tables {
        sums: &[(65536, 65536, 65535), (65536, 1, 0), (40000, 30000, 4463)],
        products: &WORD_PRODUCTS,
        inverses: &WORD_INVERSES,
        marks: &[(1, 1), (65535, 65535), (65536, 65536)],
        mark_count: 65536,
        size: 65537,
    };
    tables.hold::<Words>(&rt)
}
