// Scripts that are read, and texts that are none.
use script::{Command, FieldName, Script, parse};
use std::alloc::{AllocError, Global};
use std::process::Abort;
use std::test::Fail;

fn is_script(alloc: Global, text: &[u8]) -> Result<bool, AllocError> {
    Ok(parse(alloc, text)?.is_some())
}

// A script of every command, with what it holds.
#[test]
fn every_command(rt: HostRuntime) -> Result<(), Fail> {
    let alloc = rt.alloc();
    let text = b"b 9 8\nPARCMLNB\n0 255 7\n18 511 255\n-\n1\n20 19\n999999999\n0\n-\n";
    let commands = vec![in alloc;
        Command::Put(vec![in alloc; 0, 255, 7]?),
        Command::Amend {
            data_box: 18,
            row: 511,
            symbol: 255
        },
        Command::Read,
        Command::Column { wanted: 1 },
        Command::Message {
            helper: 20,
            lost: 19
        },
        Command::Lose { lost: 999999999 },
        Command::Renew { lost: 0 },
        Command::Rebuild,
    ]?;
    let script = Script {
        field: FieldName::Bytes,
        m: 9,
        commands,
    };
    assert_eq!(&rt; parse(alloc, text)?, Some(script));
    Ok(())
}

// Each text beside whether it is a script.
#[test]
fn short_texts(rt: HostRuntime) -> Result<(), Fail> {
    let table = [
        ("f 1 7\nPLLRNBC\n1 2 3 4 0 1\n1\n2\n-\n1\n-\n5\n", true),
        // Each field's largest symbol, and one that is too large.
        ("f 1 1\nP\n4\n", true),
        ("f 1 1\nP\n5\n", false),
        ("q 1 1\nP\n3\n", true),
        ("q 1 1\nP\n4\n", false),
        ("b 1 1\nP\n255\n", true),
        ("b 1 1\nP\n256\n", false),
        ("w 1 1\nP\n65536\n", true),
        ("w 1 1\nP\n65537\n", false),
        ("w 0 1\nP\n1 2 65537 3\n", false),
        ("f 1 1\nA\n1 2 4\n", true),
        ("f 1 1\nA\n1 2 5\n", false),
        ("w 1 1\nA\n65537 65537 1\n", true),
        // The first line.
        ("f 0 1\nR\n-\n", true),
        ("f 9 1\nR\n-\n", true),
        ("f 10 1\nR\n-\n", false),
        ("f 01 1\nR\n-\n", false),
        ("f 00 1\nR\n-\n", false),
        ("f -1 1\nR\n-\n", false),
        ("f 1 0\n\n", false),
        ("f 1 01\nR\n-\n", false),
        ("f 1\nR\n-\n", false),
        ("f 1 1 1\nR\n-\n", false),
        ("f  1 1\nR\n-\n", false),
        ("f 1  1\nR\n-\n", false),
        ("f 1 1 \nR\n-\n", false),
        (" f 1 1\nR\n-\n", false),
        ("f1 1\nR\n-\n", false),
        ("g 1 1\nR\n-\n", false),
        ("F 1 1\nR\n-\n", false),
        ("ff 1 1\nR\n-\n", false),
        ("f 1 1\r\nR\n-\n", false),
        // The ends of lines and of the text.
        ("", false),
        ("f 1 1\nR\n-", false),
        ("f 1 1\nR\n-\n\n", false),
        ("f 1 1\nR\n-\n ", false),
        ("f 1 1\nR\n", false),
        ("f 1 1\nR", false),
        ("f 1 1\n\nR\n-\n", false),
        ("f 1 1\nL\n1", false),
        // The letters.
        ("f 1 2\nRR\n-\n-\n", true),
        ("f 1 2\nR\n-\n-\n", false),
        ("f 1 1\nRR\n-\n-\n", false),
        ("f 1 2\nR\n\n-\n-\n", false),
        ("f 1 2\nRR\n-\n", false),
        ("f 1 1\nX\n-\n", false),
        ("f 1 1\nr\n-\n", false),
        ("f 1 1\n-\n-\n", false),
        // How many numbers a command takes.
        ("f 1 1\nP\n-\n", true),
        ("f 1 1\nP\n\n", false),
        ("f 1 1\nR\n1\n", false),
        ("f 1 1\nB\n0\n", false),
        ("f 1 1\nR\n--\n", false),
        ("f 1 1\nR\n-1\n", false),
        ("f 1 1\nL\n-\n", false),
        ("f 1 1\nN\n-\n", false),
        ("f 1 1\nC\n-\n", false),
        ("f 1 1\nC\n1 2\n", false),
        ("f 1 1\nM\n1\n", false),
        ("f 1 1\nM\n1 2\n", true),
        ("f 1 1\nM\n1 2 3\n", false),
        ("f 1 1\nA\n1 2\n", false),
        ("f 1 1\nA\n1 2 3 4\n", false),
        // The numbers of a line.
        ("f 1 1\nL\n0\n", true),
        ("f 1 1\nL\n00\n", false),
        ("f 1 1\nL\n01\n", false),
        ("f 1 1\nL\n10\n", true),
        ("f 1 1\nL\n123456789\n", true),
        ("f 1 1\nL\n1234567890\n", false),
        ("f 1 1\nL\n1000000000\n", false),
        ("f 1 1\nL\n+1\n", false),
        ("f 1 1\nL\n1.\n", false),
        ("f 1 1\nP\n1 2\n", true),
        ("f 1 1\nP\n1  2\n", false),
        ("f 1 1\nP\n 1 2\n", false),
        ("f 1 1\nP\n1 2 \n", false),
        ("f 1 1\nP\n1\t2\n", false),
        ("f 1 1\nP\n1,2\n", false),
        ("f 1 1\nP\n1 -\n", false),
        ("f 1 1\nP\n/\n", false),
        ("f 1 1\nP\n:\n", false),
    ];
    for (text, wanted) in table {
        assert_eq!(&rt; is_script(rt.alloc(), text.as_bytes())?, wanted, "{text:?}");
    }
    Ok(())
}

// A line of this number and so many zeros.
fn zeros(text: &mut Vec<u8>, number: &str, more: usize) -> Result<(), AllocError> {
    text.extend_from_slice(number.as_bytes())?;
    for _ in 0..more {
        text.extend_from_slice(b" 0")?;
    }
    text.push(b'\n')?;
    Ok(())
}

// Puts into a cabinet over bytes: each but the last of a zero and `more` others,
// and the last of this number and `few` zeros.
fn puts(
    alloc: Global,
    count: usize,
    more: usize,
    number: &str,
    few: usize,
) -> Result<Vec<u8>, AllocError> {
    let mut text = Vec::new(alloc);
    text.extend_from_slice(format!(in alloc; "b 1 {count}\n")?.as_bytes())?;
    for _ in 0..count {
        text.push(b'P')?;
    }
    text.push(b'\n')?;
    for _ in 1..count {
        zeros(&mut text, "0", more)?;
    }
    zeros(&mut text, number, few)?;
    Ok(text)
}

// Counts of commands and of numbers, and lengths, at their limits.
#[test]
fn long_texts(rt: HostRuntime) -> Result<(), Fail> {
    let table = [
        (64, 0, "10", 0, 7 + 65 + 63 * 2 + 3, true),
        (65, 0, "10", 0, 7 + 66 + 64 * 2 + 3, false),
        (1, 0, "0", 1151, 6 + 2 + 1152 * 2, true),
        (1, 0, "0", 1152, 6 + 2 + 1153 * 2, false),
        (8, 1151, "10", 119, 16384, true),
        (8, 1151, "100", 119, 16385, false),
        (8, 1151, "0", 120, 16385, false),
    ];
    for (count, more, number, few, length, wanted) in table {
        let text = puts(rt.alloc(), count, more, number, few)?;
        assert_eq!(&rt; text.len(), length);
        assert_eq!(&rt; is_script(rt.alloc(), &text)?, wanted);
    }
    Ok(())
}
