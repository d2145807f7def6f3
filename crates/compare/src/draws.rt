// Symbols that are drawn.
ghost use Rattle.std.specs.Prelude.{◌≡◌, ◌<◌, IfOk, vec_len};

use anyhow::Context;
use field::Sums;
use std::alloc::Global;

// Numbers below a field's size, each from a state that is replaced by
// (1103515245·state + 12345) modulo 2^31 before it.
#[derive(Drop)]
pub(crate) struct Draws {
    size: u32,
    state: u32,
    ghost some: { 0 < size },
}

impl Draws {
    pub(crate) fn new(size: u32, state: u32) -> Draws
        requires { 0 < size }
        ensures { result.size ≡ size }
    {
        Draws { size, state }
    }

    // One in 16 is the field's last number and one in 16 zero, which would hardly
    // come up among those of a large field.
    fn number(&mut self) -> u32
        ensures below { result < self.old.size }
        ensures size { self.new.size ≡ self.old.size }
    {
        self.state = ((self.state as u64 * 1103515245 + 12345) % (1 << 31)) as u32;
        match self.state >> 27 {
            0 => self.size - 1,
            1 => 0,
            _ => (self.state >> 8) % self.size,
        }
    }

    pub(crate) fn symbols<F: Sums>(&mut self, alloc: Global, count: usize) -> anyhow::Result<Vec<F>>
        ensures { IfOk result (λ symbols. vec_len symbols ≡ count) }
    {
        let mut symbols = Vec::new(alloc);
        for _ in 0..count {
            symbols.push(F::symbol(self.number()).context("no symbol has that number")?)?;
        }
        Ok(symbols)
    }
}
