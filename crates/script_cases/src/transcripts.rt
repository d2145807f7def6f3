// Lines of transcripts.
use refusal::Refusal;
use script::{Answer, Command, Line, write_line};
use std::test::Fail;

#[test]
fn lines(rt: HostRuntime) -> Result<(), Fail> {
    let read = Command::Read;
    let rebuild = Command::Rebuild;
    let table = [
        (Line::NoScript, "E\n"),
        (Line::SetUp(Ok(())), "S 0\n"),
        (Line::SetUp(Err(Refusal::Size)), "S 2\n"),
        (
            Line::Ran(&read, Ok(Answer::Symbols(&[1, 20, 65536, 0]))),
            "R 0 1 20 65536 0\n",
        ),
        (Line::Ran(&read, Ok(Answer::Symbols(&[]))), "R 0\n"),
        (Line::Ran(&rebuild, Ok(Answer::Count(2))), "B 0 2\n"),
        (Line::Ran(&rebuild, Err(Refusal::ManyOut)), "B 10\n"),
    ];
    for (line, wanted) in table {
        let mut out = String::new(rt.alloc());
        write_line(&mut out, &line)?;
        assert_eq!(&rt; out.as_str(), wanted);
    }
    Ok(())
}
