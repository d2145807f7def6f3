// A shelf that has nothing better for rows than the trait's text.
use shelf::{Shelf, Sizes};

// Another shelf, asked for one symbol after another.
#[derive(Drop)]
pub struct Plain<S> {
    inner: S,
}

impl<S: Shelf> Plain<S> {
    pub fn new(inner: S) -> Plain<S> {
        Plain { inner }
    }
}

impl<S: Shelf> Shelf for Plain<S> {
    type Symbol = S::Symbol;

    ghost meaning = { λ s. S.meaning s.inner };

    ghost buffers = { λ s. S.buffers s.inner };

    fn sizes(&mut self) -> Sizes {
        self.inner.sizes()
    }

    fn stands(&mut self, b: usize) -> bool {
        self.inner.stands(b)
    }

    fn fetch(&mut self, b: usize, a: usize) -> Option<S::Symbol> {
        self.inner.fetch(b, a)
    }

    fn store(&mut self, b: usize, a: usize, x: S::Symbol) -> bool {
        self.inner.store(b, a, x)
    }

    fn withdraw(&mut self, b: usize) -> bool {
        self.inner.withdraw(b)
    }

    fn insert(&mut self, b: usize, x: S::Symbol) -> bool {
        self.inner.insert(b, x)
    }

    ghost sound = { λ s. S.sound s.inner };
}
