// Words, lines and printed lines on examples.
use crate::command::{Command, GuideName, MOST_BYTES, lines_of, read};
use crate::entry::{Entry, LineRefusal, Said, heading};
use crate::word::{Word, first_line, first_word};
use orders::Ingredient;
use records::{Answer, Refusal, Stepped, Work};
use std::process::Abort;
use std::test::Fail;

#[test]
fn cuts(rt: HostRuntime) -> Result<(), Fail> {
    let (line, rest) = first_line(b"run\n\nleave").ok_or("no line feed")?;
    assert!(rt; line == b"run".as_slice() && rest == b"\nleave".as_slice());
    assert_eq!(rt; first_line(b"run"), None);
    let (word, rest) = first_word(b"run ");
    assert!(rt; word == b"run".as_slice() && rest == Some(b""));
    let (word, rest) = first_word(b"run");
    assert!(rt; word == b"run".as_slice() && rest.is_none());
    Ok(())
}

#[test]
fn kinds_of_words(rt: HostRuntime) {
    assert_eq!(rt; Word::of(b"az"), Some(Word::Name(b"az")));
    assert_eq!(rt; Word::of(b"09"), Some(Word::Number(b"09")));
    assert_eq!(rt; Word::of(b"-"), Some(Word::Dash(b"-")));
    let others: [&[u8]; 6] = [b"", b"--", b"a1", b"Run", b"1\t", b"1\r"];
    for piece in others {
        assert_eq!(rt; Word::of(piece), None);
    }
}

#[test]
fn good_lines(rt: HostRuntime) {
    assert_eq!(rt;
        read(b"open 2 line 8"),
        Some(Command::Open {
            stations: 2,
            guide: GuideName::Line,
            places: 8
        })
    );
    assert_eq!(rt;
        read(b"begin 1 after 0020"),
        Some(Command::Begin {
            station: 1,
            work: Work::After,
            key: 20
        })
    );
    assert_eq!(rt;
        read(b"begin 1 first -"),
        Some(Command::Begin {
            station: 1,
            work: Work::First,
            key: 0
        })
    );
    assert_eq!(rt;
        read(b"run 4294967295 - -"),
        Some(Command::Run {
            station: 4294967295
        })
    );
    assert_eq!(rt; read(b"leave 0 - -"), Some(Command::Leave { station: 0 }));
}

#[test]
fn bad_lines(rt: HostRuntime) {
    let lines: [&[u8]; 14] = [
        b"",
        b"run",
        b"run 1 -",
        b"run 1 - - -",
        b"run 1 - 2",
        b"run 1  - -",
        b"run 1 - - ",
        b" run 1 - -",
        b"run\t1 - -",
        b"run 4294967296 - -",
        b"begin 1 first 20",
        b"begin 1 put -",
        b"open 2 tree 8",
        b"mend 1 - -",
    ];
    for line in lines {
        assert_eq!(rt; read(line), None);
    }
}

#[test]
fn whole_scripts(rt: HostRuntime) {
    assert_eq!(rt;
        lines_of(b"call station work key\nrun"),
        Some(b"run".as_slice())
    );
    assert_eq!(rt; lines_of(b"call station work key\n"), Some(b"".as_slice()));
    assert_eq!(rt; lines_of(b"call station work key"), None);
    assert_eq!(rt; lines_of(b"call station work\nrun"), None);
    assert_eq!(rt; MOST_BYTES, 32768);
}

fn prints(rt: &(impl Abort + AllocGlobal), line: u32, said: Said, text: &str) -> Result<(), Fail> {
    assert_eq!(rt; Entry { line, said }.text(rt.alloc())?.as_str(), text);
    Ok(())
}

fn ended(answer: Answer<Ingredient>, steps: u64) -> Said {
    Said::Ran(Stepped::Ended(answer, steps))
}

#[test]
fn printed_lines(rt: HostRuntime) -> Result<(), Fail> {
    assert_eq!(rt; heading(), "line answer key steps");
    prints(&rt, 1, Said::Opened, "1 opened - -")?;
    prints(&rt, 2, Said::Ran(Stepped::Waits), "2 waits - -")?;
    prints(&rt, 3, ended(Answer::Yes, 14), "3 yes - 14")?;
    prints(
        &rt,
        7,
        ended(Answer::Found(Ingredient(20)), 6),
        "7 key 20 6",
    )?;
    prints(&rt, 9, ended(Answer::Missing, 1), "9 none - 1")?;
    prints(
        &rt,
        10,
        Said::Refused(LineRefusal::Call(Refusal::Idle)),
        "10 refused-5 - -",
    )?;
    prints(
        &rt,
        0,
        Said::Refused(LineRefusal::BadLine),
        "0 refused-11 - -",
    )
}
