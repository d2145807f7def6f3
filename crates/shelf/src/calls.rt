// Calls of shelves as values, to say of any two shelves how they answer.
ghost use Rattle.std.specs.Prelude.{◌≡◌};
ghost use Rattle.shelf.specs.Calls.{after, after_all, answer_to};

use crate::{Shelf, Sizes};

// A call of a shelf.
#[derive(Clone, Copy)]
pub enum Call<T> {
    AskSizes,
    Stands(usize),
    Fetch(usize, usize),
    Store(usize, usize, T),
    Withdraw(usize),
    Insert(usize, T),
}

// What a shelf answers.
#[derive(Clone, Copy, Debug, PartialEq, Eq)]
pub enum Answer<T> {
    Size(Sizes),
    Told(bool),
    Symbol(Option<T>),
}

// Performs a call.
pub fn perform<S: Shelf>(shelf: &mut S, call: Call<S::Symbol>) -> Answer<S::Symbol>
    ensures answer { result ≡ answer_to (S.meaning shelf.old) call }
    ensures after { S.meaning shelf.new ≡ after (S.meaning shelf.old) call }
    ensures lender { S.buffers shelf.new ≡ S.buffers shelf.old }
{
    match call {
        Call::AskSizes => Answer::Size(shelf.sizes()),
        Call::Stands(b) => Answer::Told(shelf.stands(b)),
        Call::Fetch(b, a) => Answer::Symbol(shelf.fetch(b, a)),
        Call::Store(b, a, x) => Answer::Told(shelf.store(b, a, x)),
        Call::Withdraw(b) => Answer::Told(shelf.withdraw(b)),
        Call::Insert(b, x) => Answer::Told(shelf.insert(b, x)),
    }
}

// Performs one call on two shelves. Only what they mean matters.
pub fn perform_on_both<A: Shelf, B: Shelf<Symbol = A::Symbol>>(
    first: &mut A,
    second: &mut B,
    call: Call<A::Symbol>,
) -> (Answer<A::Symbol>, Answer<A::Symbol>)
    ensures answers { A.meaning first.old ≡ B.meaning second.old → result.0 ≡ result.1 }
    ensures after { A.meaning first.old ≡ B.meaning second.old → A.meaning first.new ≡ B.meaning second.new }
{
    (perform(first, call), perform(second, call))
}

// Performs calls one after another.
pub fn perform_all<S: Shelf>(shelf: &mut S, calls: &[Call<S::Symbol>])
    ensures after { S.meaning shelf.new ≡ after_all (S.meaning shelf.old) calls.now }
    ensures lender { S.buffers shelf.new ≡ S.buffers shelf.old }
{
    for call in calls {
        perform(shelf, *call);
    }
}
