// A cabinet keeps a recipient's levels in six data boxes and two parity boxes.
// One data box is lost, and is renewed from half of each other column, in
// whatever order the halves arrive. Then two are lost, and are decoded from the
// whole columns of the others.
#![tactic(auto)]

ghost use Rattle.std.specs.Prelude.{◌≡◌};

use anyhow::Context;
use byte_field::Byte;
use columns::{half, parities};
use decoding::decode;
use field::Sums;
use gathering::{Message, gather};
use std::fmt;

// The size m: columns of 2^m symbols, 3m data boxes.
const SIZE: usize = 2;

const ROWS: usize = 1 << SIZE;

// The symbols of a half, one for each pair of rows.
const PAIRS: usize = ROWS / 2;

const DATA_BOXES: usize = 3 * SIZE;

const PARITIES: usize = 2;

const BOXES: usize = DATA_BOXES + PARITIES;

// The symbols of a file, as many as renewal from whole columns would take.
const SYMBOLS: usize = DATA_BOXES * ROWS;

const LOST: usize = 3;

// The boxes that are left, each with a half for the lost one.
const HELPERS: usize = BOXES - 1;

// Their halves arrive in this order.
const ARRIVING: [usize; HELPERS] = [6, 1, 8, 4, 2, 7, 5];

const OUT: [usize; 2] = [2, 5];

// Threshold and comfort levels, box after box.
const LEVELS: [u8; SYMBOLS] = [
    101, 104, 98, 107, 188, 192, 181, 196, 110, 113, 109, 95, 201, 205, 199, 187, 92, 90, 88, 103,
    176, 180, 171, 168,
];

// A box and its symbols, or its half, as they are printed.
#[derive(Drop)]
struct Line<'a> {
    number: usize,
    symbols: &'a [Byte],
}

impl fmt::Display for Line<'_> {
    fn fmt<W: fmt::Write>(&self, f: &mut fmt::Formatter<W>) -> fmt::Result {
        write!(f, "box {}:", self.number)?;
        for symbol in self.symbols {
            write!(f, " {}", symbol.number())?;
        }
        Ok(())
    }
}

// The columns of all boxes: those of the file one after another, and the parities.
#[derive(Clone, Copy)]
struct Cabinet {
    file: [Byte; SYMBOLS],
    first: [Byte; ROWS],
    second: [Byte; ROWS],
}

impl Cabinet {
    // Keeps levels, and beside them the parities that are worked out from them.
    fn new(levels: [u8; SYMBOLS]) -> anyhow::Result<Cabinet> {
        let file = levels.map(Byte);
        let mut first = [Byte(0); ROWS];
        let mut second = [Byte(0); ROWS];
        parities(SIZE, &file, &mut first, &mut second)?;
        Ok(Cabinet {
            file,
            first,
            second,
        })
    }

    fn column(&self, number: usize) -> Option<&[Byte]> {
        let parities = [&self.first[..], &self.second[..]];
        let mut columns = self.file.chunks_exact(ROWS).chain(parities);
        columns.nth(number.checked_sub(1)?)
    }

    fn line(&self, number: usize) -> anyhow::Result<Line<'_>> {
        let symbols = self.column(number).context("no such box")?;
        Ok(Line { number, symbols })
    }

    // What a helper sends for a lost box: the half of its column.
    fn half(&self, lost: usize, helper: usize) -> anyhow::Result<Sent> {
        let mut symbols = [Byte(0); PAIRS];
        half(SIZE, lost, self.line(helper)?.symbols, &mut symbols)?;
        Ok(Sent { helper, symbols })
    }

    fn halves(&self, lost: usize, helpers: [usize; HELPERS]) -> anyhow::Result<Halves> {
        let sent = helpers.try_map(|helper| self.half(lost, helper))?;
        Ok(Halves { lost, sent })
    }

    // Loses the columns of data boxes.
    fn lose(&mut self, out: &[usize]) {
        for number in out {
            let place = number.saturating_sub(1);
            if let Some(column) = self.file.chunks_exact_mut(ROWS).nth(place) {
                column.fill(Byte(0));
            }
        }
    }

    // The cabinet with the columns of the boxes out decoded from the others.
    fn decoded(&self, out: &[usize]) -> anyhow::Result<Cabinet> {
        let mut cabinet = *self;
        decode(
            SIZE,
            out,
            &mut cabinet.file,
            &mut cabinet.first,
            &mut cabinet.second,
        )?;
        Ok(cabinet)
    }
}

impl fmt::Display for Cabinet {
    fn fmt<W: fmt::Write>(&self, f: &mut fmt::Formatter<W>) -> fmt::Result {
        writeln!(
            f,
            "A cabinet of {DATA_BOXES} data boxes and {PARITIES} parity boxes, {ROWS} symbols in each:"
        )?;
        for number in 1..=BOXES {
            if let Some(symbols) = self.column(number) {
                writeln!(f, "{}", Line { number, symbols })?;
            }
        }
        Ok(())
    }
}

// The half that a helper sends.
#[derive(Drop)]
struct Sent {
    helper: usize,
    symbols: [Byte; PAIRS],
}

// The halves that are sent for a lost box, in the order in which they arrive.
#[derive(Drop)]
struct Halves {
    lost: usize,
    sent: [Sent; HELPERS],
}

impl Halves {
    // The lost column.
    fn renew(&self) -> anyhow::Result<[Byte; ROWS]> {
        let messages = self.sent.each_ref().map(|sent| Message {
            helper: sent.helper,
            half: &sent.symbols,
        });
        let mut store = [Byte(0); HELPERS * PAIRS];
        let mut column = [Byte(0); ROWS];
        gather(SIZE, self.lost, &messages, &mut store, &mut column)?;
        Ok(column)
    }
}

impl fmt::Display for Halves {
    fn fmt<W: fmt::Write>(&self, f: &mut fmt::Formatter<W>) -> fmt::Result {
        let lost = self.lost;
        writeln!(
            f,
            "Box {lost} is lost. The others send their halves, which arrive in this order:"
        )?;
        for sent in &self.sent {
            let line = Line {
                number: sent.helper,
                symbols: &sent.symbols,
            };
            writeln!(f, "{line}")?;
        }
        Ok(())
    }
}

// One box is lost, and renewed from halves.
fn renew(rt: &impl Print, cabinet: &Cabinet) -> anyhow::Result<()> {
    let halves = cabinet.halves(LOST, ARRIVING)?;
    print!(rt; "{halves}")?;
    let renewed = halves.renew()?;
    rt.println("Renewed from them:")?;
    rt.println(Line {
        number: LOST,
        symbols: &renewed,
    })?;
    rt.println(if cabinet.column(LOST) == Some(&renewed[..]) {
        "It is the lost column."
    } else {
        "It is not the lost column."
    })?;
    let taken = halves.sent.len().saturating_mul(PAIRS);
    println!(rt; "Numbers taken: {taken}. Whole columns would have cost {SYMBOLS}.")?;
    Ok(())
}

// The columns of the boxes that are out, as a cabinet has them.
fn print_out(rt: &impl Print, cabinet: &Cabinet) -> anyhow::Result<()> {
    for number in OUT {
        rt.println(cabinet.line(number)?)?;
    }
    Ok(())
}

// Two boxes are out, and decoded from the columns of the others.
fn decode_two(rt: &impl Print, cabinet: &Cabinet) -> anyhow::Result<()> {
    let mut left = *cabinet;
    left.lose(&OUT);
    let [a, b] = OUT;
    println!(rt; "Boxes {a} and {b} are out. This is left of their columns:")?;
    print_out(rt, &left)?;
    let decoded = left.decoded(&OUT)?;
    rt.println("Decoded from the columns of the others:")?;
    print_out(rt, &decoded)?;
    rt.println(if decoded.file == cabinet.file {
        "They are the lost columns."
    } else {
        "They are not the lost columns."
    })?;
    Ok(())
}

fn run(rt: &impl Print) -> anyhow::Result<()> {
    let cabinet = Cabinet::new(LEVELS)?;
    print!(rt; "{cabinet}")?;
    renew(rt, &cabinet)?;
    decode_two(rt, &cabinet)
}

fn main(rt: HostRuntime) -> anyhow::Result<()> {
    run(&rt)
}
