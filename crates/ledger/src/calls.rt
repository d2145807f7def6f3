// Calls of a vault, with the buffers that they are lent.

// Boxes are numbered from 1, rows from 0. A program lends slices or vectors, and
// contracts read them as lists: hence a type for buffers.
#[derive(Debug, Drop)]
pub enum Call<T, B> {
    // Makes a cabinet of a size, with every symbol zero.
    SetUp(usize),
    // Stores a file, the columns of the data boxes one after another.
    Put(B),
    // Changes one symbol of the file.
    Amend {
        number: usize,
        row: usize,
        symbol: T,
        work: B,
    },
    // Reads the file.
    Read(B),
    // Reads the column of a box.
    Column {
        number: usize,
        into: B,
    },
    // Reads the half that a helper sends for a lost data box.
    Message {
        helper: usize,
        lost: usize,
        into: B,
    },
    // Loses a box.
    Lose(usize),
    // Brings a data box back, from the halves of all others.
    Renew {
        number: usize,
        work: B,
    },
    // Brings all boxes back that are out.
    Rebuild(B),
}

// What a call answers that is not declined.
#[derive(Clone, Copy, Debug, PartialEq, Eq)]
pub enum Answer {
    Done,
    // How many numbers were taken to renew a box, or how many boxes were rebuilt.
    Count(usize),
}
