// Parities and decoded columns of cabinets whose columns are drawn, for every
// field and size. tools/compare.gp prints the same lines from the construction's
// eigenspaces, by other code.
#![tactic(auto)]

ghost use Rattle.std.specs.Prelude.{◌<◌};

mod draws;

use anyhow::Context;
use boxes::Size;
use byte_field::Byte;
use columns::parities;
use decoding::decode;
use draws::Draws;
use field::{Quotients, Sums};
use four::Four;
use prime::five::Five;
use prime::words::Words;
use refusal::few_marks;
use std::alloc::Global;
use std::fmt;

const PARITIES: usize = 2;

// The greatest size.
const MOST: usize = 6;

// Symbols of a box as they are printed.
#[derive(Drop)]
struct Line<'a, F> {
    number: usize,
    symbols: &'a [F],
}

impl<F: Sums> fmt::Display for Line<'_, F> {
    fn fmt<W: fmt::Write>(&self, f: &mut fmt::Formatter<W>) -> fmt::Result {
        write!(f, "box {}:", self.number)?;
        for symbol in self.symbols {
            write!(f, " {}", symbol.number())?;
        }
        Ok(())
    }
}

// The columns of a cabinet's boxes.
#[derive(Drop)]
struct Cabinet<'a, F> {
    size: &'a Size,
    file: Vec<F>,
    first: Vec<F>,
    second: Vec<F>,
}

impl<'a, F: Quotients> Cabinet<'a, F> {
    // Draws a file, and encodes it.
    fn encoded(alloc: Global, size: &'a Size, draws: &mut Draws) -> anyhow::Result<Self> {
        let file = draws.symbols(alloc, size.boxes() * size.rows())?;
        let mut first = vec![in alloc; F::zero(); size.rows()]?;
        let mut second = vec![in alloc; F::zero(); size.rows()]?;
        parities(size.m, &file, &mut first, &mut second)?;
        Ok(Cabinet {
            size,
            file,
            first,
            second,
        })
    }

    // The same file beside other parity columns, which are drawn: no encoder
    // leaves such columns, but any of them can be decoded from the others.
    fn disturbed(self, alloc: Global, draws: &mut Draws) -> anyhow::Result<Self> {
        let Cabinet { size, file, .. } = self;
        Ok(Cabinet {
            size,
            file,
            first: draws.symbols(alloc, size.rows())?,
            second: draws.symbols(alloc, size.rows())?,
        })
    }

    // The cabinet with the columns of the boxes out decoded from the others.
    fn decoded(&self, alloc: Global, out: &[usize]) -> anyhow::Result<Self> {
        let mut file = self.file.to_vec(alloc)?;
        let mut first = self.first.to_vec(alloc)?;
        let mut second = self.second.to_vec(alloc)?;
        decode(self.size.m, out, &mut file, &mut first, &mut second)?;
        Ok(Cabinet {
            size: self.size,
            file,
            first,
            second,
        })
    }

    // The column of a box, as it is printed.
    fn line(&self, number: usize) -> Option<Line<'_, F>> {
        let parities = [self.first.as_slice(), self.second.as_slice()];
        let mut columns = self.file.chunks_exact(self.size.rows()).chain(parities);
        let symbols = columns.nth(number.checked_sub(1)?)?;
        Some(Line { number, symbols })
    }
}

// The boxes out.
#[derive(Drop)]
struct Out<'a>(&'a [usize]);

impl fmt::Display for Out<'_> {
    fn fmt<W: fmt::Write>(&self, f: &mut fmt::Formatter<W>) -> fmt::Result {
        write!(f, "out")?;
        for number in self.0 {
            write!(f, " {number}")?;
        }
        Ok(())
    }
}

fn print_decoded<F: Quotients>(
    rt: &(impl Print + AllocGlobal),
    cabinet: &Cabinet<'_, F>,
    out: &[usize],
) -> anyhow::Result<()> {
    let decoded = cabinet.decoded(rt.alloc(), out)?;
    for &number in out {
        let line = decoded.line(number).context("no such box")?;
        println!(rt; "{}, {line}", Out(out))?;
    }
    Ok(())
}

// Each choice of one or two boxes.
fn print_every_choice<F: Quotients>(
    rt: &(impl Print + AllocGlobal),
    cabinet: &Cabinet<'_, F>,
) -> anyhow::Result<()> {
    for b in 1..=cabinet.size.boxes() + PARITIES {
        print_decoded(rt, cabinet, &[b])?;
        for c in 1..b {
            print_decoded(rt, cabinet, &[b, c])?;
        }
    }
    Ok(())
}

// Choices of each sort, with data boxes by kind and direction.
fn print_some_choices<F: Quotients>(
    rt: &(impl Print + AllocGlobal),
    cabinet: &Cabinet<'_, F>,
) -> anyhow::Result<()> {
    let m = cabinet.size.m;
    let (lower, upper, sum, parity) = (0, m, 2 * m, 3 * m);
    for b in [lower + 3, parity + 2] {
        print_decoded(rt, cabinet, &[b])?;
    }
    let pairs = [
        // One direction.
        [lower + 1, upper + 1],
        [sum + 2, upper + 2],
        [lower + m, sum + m],
        // Two directions.
        [lower + 1, lower + m],
        [upper + m, upper + 2],
        [sum + 2, sum + 3],
        [lower + 1, upper + 2],
        [upper + 2, lower + m],
        [upper + 1, sum + m],
        [sum + 2, upper + 3],
        [lower + 2, sum + m],
        [lower + m, sum + 1],
        // With parity boxes.
        [parity + 1, sum + m],
        [upper + 2, parity + 2],
        [parity + 2, parity + 1],
    ];
    for out in &pairs {
        print_decoded(rt, cabinet, out)?;
    }
    Ok(())
}

fn compare<F: Quotients>(
    rt: &(impl Print + AllocGlobal),
    m: usize,
    mut draws: Draws,
) -> anyhow::Result<()> {
    let size = Size::new(m)?;
    let cabinet = Cabinet::<F>::encoded(rt.alloc(), &size, &mut draws)?;
    for parity in 1..=PARITIES {
        rt.println(cabinet.line(size.boxes() + parity).context("no such box")?)?;
    }
    let cabinet = cabinet.disturbed(rt.alloc(), &mut draws)?;
    if m <= 2 {
        print_every_choice(rt, &cabinet)
    } else {
        print_some_choices(rt, &cabinet)
    }
}

// All sizes for which the field has the marks.
fn compare_field<F: Quotients>(
    rt: &(impl Print + AllocGlobal),
    name: &str,
    symbols: u32,
) -> anyhow::Result<()>
    requires { 0 < symbols }
{
    for m in 1..=MOST {
        if few_marks::<F>(m) {
            break;
        }
        println!(rt; "{name}, m = {m}")?;
        compare::<F>(rt, m, Draws::new(symbols, m as u32))?;
    }
    Ok(())
}

fn main(rt: HostRuntime) -> anyhow::Result<()> {
    compare_field::<Five>(&rt, "five", 5)?;
    compare_field::<Four>(&rt, "four", 4)?;
    compare_field::<Byte>(&rt, "bytes", 256)?;
    compare_field::<Words>(&rt, "words", 65537)
}
