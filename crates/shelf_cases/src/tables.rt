// Calls one after another, each beside the answer that it should get.
use shelf::{Answer, Call, Shelf, Sizes, perform};
use std::fmt::Debug;
use std::process::Abort;

pub type Row<T> = (Call<T>, Answer<T>);

pub fn answers<T: Copy + PartialEq + Debug, S: Shelf<Symbol = T>>(
    rt: &impl Abort,
    shelf: &mut S,
    table: &[Row<T>],
) {
    for &(call, answer) in table {
        assert_eq!(rt; perform(shelf, call), answer);
    }
}

pub fn sizes<T>(boxes: usize, rows: usize) -> Row<T> {
    (Call::AskSizes, Answer::Size(Sizes { boxes, rows }))
}

pub fn stands<T>(b: usize, yes: bool) -> Row<T> {
    (Call::Stands(b), Answer::Told(yes))
}

pub fn fetched<T>(b: usize, a: usize, symbol: Option<T>) -> Row<T> {
    (Call::Fetch(b, a), Answer::Symbol(symbol))
}

pub fn stored<T>(b: usize, a: usize, x: T, yes: bool) -> Row<T> {
    (Call::Store(b, a, x), Answer::Told(yes))
}

pub fn withdrawn<T>(b: usize, yes: bool) -> Row<T> {
    (Call::Withdraw(b), Answer::Told(yes))
}

pub fn inserted<T>(b: usize, x: T, yes: bool) -> Row<T> {
    (Call::Insert(b, x), Answer::Told(yes))
}
