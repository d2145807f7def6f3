// Halves that arrive in any order: the small file over five, and each refusal.
use crate::codes::{are, refused, symbols};
use gathering::{Gathering, Message, gather};
use prime::five::Five;
use refusal::Refusal;
use std::alloc::Global;
use std::process::Abort;
use std::test::Fail;

// For a lost box of the small file: the helpers as they come, what they send,
// the store afterwards and the column.
type Case = (usize, [usize; 4], [u32; 4], [u32; 4], [u32; 2]);

const CASES: [Case; 2] = [
    (1, [4, 2, 5, 3], [4, 3, 2, 0], [3, 0, 4, 2], [1, 2]),
    (3, [5, 2, 1, 4], [3, 2, 3, 1], [3, 2, 1, 3], [0, 1]),
];

fn messages<'a>(
    alloc: Global,
    helpers: &[usize],
    halves: &'a [Five],
) -> Result<Vec<Message<'a, Five>>, Fail> {
    let mut messages = Vec::new(alloc);
    for (&helper, half) in helpers.iter().zip(halves.chunks_exact(1)) {
        messages.push(Message { helper, half })?;
    }
    Ok(messages)
}

#[test]
fn gathered(rt: HostRuntime) -> Result<(), Fail> {
    for (lost, helpers, halves, stored, expected) in CASES {
        let halves: Vec<Five> = symbols(rt.alloc(), &halves)?;
        let mut store = [Five::Four; 4];
        let mut column = [Five::Four; 2];
        gather(
            1,
            lost,
            &messages(rt.alloc(), &helpers, &halves)?,
            &mut store,
            &mut column,
        )?;
        are(&rt, &store, &stored);
        are(&rt, &column, &expected);
    }
    Ok(())
}

// The same call by call, with a call declined before each that is not.
#[test]
fn gathered_by_hand(rt: HostRuntime) -> Result<(), Fail> {
    for (lost, helpers, halves, stored, expected) in CASES {
        let halves: Vec<Five> = symbols(rt.alloc(), &halves)?;
        let mut store = [Five::Four; 4];
        let mut column = [Five::Four; 2];
        let mut gathering = Gathering::begin(1, lost)?;
        for (&helper, half) in helpers.iter().zip(halves.chunks_exact(1)) {
            gathering = match gathering.close() {
                Ok(_) => return Ok(assert!(&rt; false)),
                Err(declined) => {
                    assert_eq!(&rt; declined.why, Refusal::Unheard);
                    declined.state
                }
            };
            refused(&rt, gathering.hear(lost, half, &mut store), 12);
            gathering.hear(helper, half, &mut store)?;
            refused(&rt, gathering.hear(helper, &[Five::Four], &mut store), 12);
        }
        are(&rt, &store, &stored);
        let complete = gathering.close().map_err(Refusal::from)?;
        let complete = match complete.column(&store, &mut [Five::Four]) {
            Ok(()) => return Ok(assert!(&rt; false)),
            Err(declined) => {
                assert_eq!(&rt; declined.why, Refusal::Length);
                declined.state
            }
        };
        complete.column(&store, &mut column).map_err(Refusal::from)?;
        are(&rt, &column, &expected);
    }
    Ok(())
}

#[test]
fn begun_refusals(rt: HostRuntime) {
    let begun = |m, lost| Gathering::<Five>::begin(m, lost).map(|_| ());
    refused(&rt, begun(0, 1), 2);
    refused(&rt, begun(7, 0), 2);
    refused(&rt, begun(3, 0), 3);
    refused(&rt, begun(2, 0), 6);
    refused(&rt, begun(2, 9), 6);
    refused(&rt, begun(2, 7), 11);
    refused(&rt, begun(2, 8), 11);
}

// A half is declined by the earliest number, and nothing is written.
#[test]
fn heard_refusals(rt: HostRuntime) -> Result<(), Fail> {
    let mut gathering = Gathering::begin(1, 2)?;
    let mut store = [Five::Zero; 4];
    refused(&rt, gathering.hear(0, &[], &mut store), 5);
    refused(&rt, gathering.hear(0, &[Five::One], &mut store[1..]), 5);
    refused(&rt, gathering.hear(0, &[Five::One], &mut store), 6);
    refused(&rt, gathering.hear(6, &[Five::One], &mut store), 6);
    refused(&rt, gathering.hear(2, &[Five::One], &mut store), 12);
    are(&rt, &store, &[0, 0, 0, 0]);
    gathering.hear(5, &[Five::One], &mut store)?;
    are(&rt, &store, &[0, 0, 0, 1]);
    refused(&rt, gathering.hear(5, &[Five::Two], &mut store), 12);
    are(&rt, &store, &[0, 0, 0, 1]);
    Ok(())
}

// The column stays, and the halves before the message that is declined are there.
#[test]
fn gather_refusals(rt: HostRuntime) -> Result<(), Fail> {
    let halves: Vec<Five> = symbols(rt.alloc(), &[1, 2, 3, 4])?;
    let mut column = [Five::Zero; 2];
    for (helpers, number, stored) in [
        ([5, 1, 1, 2], 12, [2, 0, 0, 1]),
        ([5, 1, 6, 2], 6, [2, 0, 0, 1]),
        ([3, 1, 4, 2], 12, [0, 0, 0, 0]),
    ] {
        let mut store = [Five::Zero; 4];
        let sent = messages(rt.alloc(), &helpers, &halves)?;
        refused(&rt, gather(1, 3, &sent, &mut store, &mut column), number);
        are(&rt, &store, &stored);
    }
    let sent = messages(rt.alloc(), &[5, 4, 1], &halves)?;
    let mut store = [Five::Zero; 4];
    refused(&rt, gather(1, 3, &sent, &mut store, &mut column), 13);
    are(&rt, &store, &[3, 0, 2, 1]);
    let sent = messages(rt.alloc(), &[5, 4, 1, 2], &halves)?;
    refused(&rt, gather(1, 3, &sent, &mut store, &mut column[1..]), 5);
    are(&rt, &store, &[3, 4, 2, 1]);
    are(&rt, &column, &[0, 0]);
    Ok(())
}
