// The worked calls as a program makes them, on a flat shelf.
use crate::read_worked;
use flat::Flat;
use ledger::{Answer, Call};
use prime::five::Five;
use prime::five::Five::{Four, One, Three, Two, Zero};
use std::alloc::{AllocError, Global};
use std::test::Fail;
use vault_runs::Entry;

const FILE: [Five; 6] = [One, Two, Three, Four, Zero, One];

const AMENDED: [Five; 6] = [One, Zero, Three, Four, Zero, One];

// The first 36 calls, each with the length of its buffer.
fn worked() -> [Call<Five, usize>; 36] {
    [
        Call::Read(6),
        Call::SetUp(0),
        Call::SetUp(2),
        Call::SetUp(3),
        Call::SetUp(1),
        Call::Read(6),
        Call::Put(6),
        Call::Lose(1),
        Call::Lose(1),
        column(1),
        Call::Lose(2),
        Call::SetUp(2),
        Call::Read(6),
        renew(1),
        Call::Rebuild(6),
        column(1),
        column(4),
        column(5),
        column(6),
        message(2, 1, 1),
        message(3, 1, 1),
        message(4, 1, 1),
        message(5, 1, 1),
        message(1, 1, 1),
        message(1, 4, 1),
        message(2, 1, 2),
        renew(1),
        Call::Lose(1),
        renew(1),
        Call::Lose(1),
        amend(1, 1),
        amend(1, 2),
        amend(4, 1),
        column(4),
        column(5),
        Call::Lose(4),
    ]
}

fn column(number: usize) -> Call<Five, usize> {
    Call::Column { number, into: 2 }
}

fn message(helper: usize, lost: usize, into: usize) -> Call<Five, usize> {
    Call::Message { helper, lost, into }
}

fn renew(number: usize) -> Call<Five, usize> {
    Call::Renew { number, work: 6 }
}

fn amend(number: usize, row: usize) -> Call<Five, usize> {
    Call::Amend {
        number,
        row,
        symbol: Zero,
        work: 6,
    }
}

fn blank(alloc: Global, length: usize) -> Result<Vec<Five>, AllocError> {
    vec![in alloc; Four; length]
}

fn file(alloc: Global) -> Result<Vec<Five>, AllocError> {
    let mut file = Vec::new(alloc);
    file.extend_from_slice(&FILE)?;
    Ok(file)
}

// The call with a buffer.
fn with_buffer(
    alloc: Global,
    call: &Call<Five, usize>,
) -> Result<Call<Five, Vec<Five>>, AllocError> {
    Ok(match call {
        Call::SetUp(m) => Call::SetUp(*m),
        Call::Put(_) => Call::Put(file(alloc)?),
        Call::Amend {
            number,
            row,
            symbol,
            work,
        } => Call::Amend {
            number: *number,
            row: *row,
            symbol: *symbol,
            work: blank(alloc, *work)?,
        },
        Call::Read(into) => Call::Read(blank(alloc, *into)?),
        Call::Column { number, into } => Call::Column {
            number: *number,
            into: blank(alloc, *into)?,
        },
        Call::Message { helper, lost, into } => Call::Message {
            helper: *helper,
            lost: *lost,
            into: blank(alloc, *into)?,
        },
        Call::Lose(number) => Call::Lose(*number),
        Call::Renew { number, work } => Call::Renew {
            number: *number,
            work: blank(alloc, *work)?,
        },
        Call::Rebuild(work) => Call::Rebuild(blank(alloc, *work)?),
    })
}

fn entries(alloc: Global) -> Result<Vec<Entry<Five>>, AllocError> {
    let mut entries = Vec::new(alloc);
    for call in &worked() {
        entries.push(Entry {
            call: with_buffer(alloc, call)?,
            answer: Ok(Answer::Done),
        })?;
    }
    Ok(entries)
}

// The calls can be made: the premise of the contracts is met.
#[test]
fn read_after_the_worked_calls(rt: HostRuntime) -> Result<(), Fail> {
    let mut buffer = [Zero; 10];
    let mut entries = entries(rt.alloc())?;
    let mut into = [Four; 6];
    read_worked(Flat::new(&mut buffer, 5, 2), &mut entries, &mut into)?;
    assert_eq!(&rt; into, AMENDED);
    let renewal = entries.get(28).map(|entry| entry.answer);
    assert_eq!(&rt; renewal, Some(Ok(Answer::Count(4))));
    Ok(())
}
