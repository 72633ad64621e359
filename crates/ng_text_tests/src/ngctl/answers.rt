// Answers that were put together by hand, and their text as ngctl(8) prints it.
use super::text::{Asked, answer, printed, what_of};
use ng_base::Name;
use ng_message::{GENERIC_COOKIE, generic, put_name, put_u32};
use std::alloc::Global;
use std::test::Fail;

// A field of an answer: a name in 32 bytes, which may be none, a number in four, or bytes as they stand.
enum Field {
    Text(&'static str),
    Number(u32),
    Bytes(&'static [u8]),
}

use Field::{Bytes, Number, Text};

// An answer to what is asked for, by cookie and number, and its text, each line put by itself.
struct Example {
    asked: Asked,
    cookie: u32,
    number: u32,
    answer: &'static [Field],
    text: &'static str,
    lines: u64,
}

const ANSWERS: [Example; 9] = [
    Example {
        asked: Asked::List,
        cookie: GENERIC_COOKIE,
        number: generic::LISTNODES,
        answer: &[
            Number(2),
            Text("ngctl"),
            Text("socket"),
            Number(1),
            Number(0),
            Text(""),
            Text("ether"),
            Number(31),
            Number(1),
        ],
        text: "There are 2 total nodes:
  Name: ngctl           Type: socket          ID: 00000001   Num hooks: 0
  Name: <unnamed>       Type: ether           ID: 0000001f   Num hooks: 1
",
        lines: 3,
    },
    Example {
        asked: Asked::NamedList,
        cookie: GENERIC_COOKIE,
        number: generic::LISTNAMES,
        answer: &[
            Number(1),
            Text("ngctl"),
            Text("socket"),
            Number(1),
            Number(0),
        ],
        text: "There are 1 total named nodes:
  Name: ngctl           Type: socket          ID: 00000001   Num hooks: 0
",
        lines: 2,
    },
    Example {
        asked: Asked::NamedList,
        cookie: GENERIC_COOKIE,
        number: generic::LISTNAMES,
        answer: &[Number(0)],
        text: "There are 0 total named nodes:\n",
        lines: 1,
    },
    Example {
        asked: Asked::Show,
        cookie: GENERIC_COOKIE,
        number: generic::LISTHOOKS,
        answer: &[
            Text("br0"),
            Text("bridge"),
            Number(4),
            Number(2),
            Text("link0"),
            Text("lower"),
            Text("em0"),
            Text("ether"),
            Number(2),
            Number(1),
            Text("link1"),
            Text("lower"),
            Text(""),
            Text("ether"),
            Number(0xabc_def0),
            Number(1),
        ],
        text: "  Name: br0             Type: bridge          ID: 00000004   Num hooks: 2
  Local hook      Peer name       Peer type    Peer ID         Peer hook
  ----------      ---------       ---------    -------         ---------
  link0           em0             ether        00000002        lower
  link1           <unnamed>       ether        0abcdef0        lower
",
        lines: 5,
    },
    Example {
        asked: Asked::BriefShow,
        cookie: GENERIC_COOKIE,
        number: generic::LISTHOOKS,
        answer: &[Text("br0"), Text("bridge"), Number(4), Number(2)],
        text: "  Name: br0             Type: bridge          ID: 00000004   Num hooks: 2
",
        lines: 1,
    },
    // A node without hooks has no heads of columns.
    Example {
        asked: Asked::Show,
        cookie: GENERIC_COOKIE,
        number: generic::LISTHOOKS,
        answer: &[Text("br0"), Text("bridge"), Number(4), Number(0)],
        text: "  Name: br0             Type: bridge          ID: 00000004   Num hooks: 0
",
        lines: 1,
    },
    Example {
        asked: Asked::Types,
        cookie: GENERIC_COOKIE,
        number: generic::LISTTYPES,
        answer: &[Number(2), Text("hub"), Number(0), Text("socket"), Number(1)],
        text: "There are 2 types:
  hub             0
  socket          1
",
        lines: 3,
    },
    Example {
        asked: Asked::Show,
        cookie: GENERIC_COOKIE,
        number: generic::LISTHOOKS,
        answer: &[
            Text("br0"),
            Text("bridge"),
            Number(4),
            Number(2),
            Text("link0"),
            Text("lower"),
            Text("em0"),
            Text("ether"),
            Number(2),
            Number(1),
            Text("link1"),
            Text("lower"),
            Text("em1"),
            Text("ether"),
            Number(3),
            Number(1),
        ],
        text: "  Name: br0             Type: bridge          ID: 00000004   Num hooks: 2
  Local hook      Peer name       Peer type    Peer ID         Peer hook
  ----------      ---------       ---------    -------         ---------
  link0           em0             ether        00000002        lower
  link1           em1             ether        00000003        lower
",
        lines: 5,
    },
    Example {
        asked: Asked::Table,
        cookie: 0x4e47_0007,
        number: 0x2000_0007,
        answer: &[
            Number(2),
            Bytes(&[2, 0, 0, 0, 0, 0x0a]),
            Text("link0"),
            Bytes(&[5, 0, 1, 0]),
            Bytes(&[2, 0, 0, 0, 0, 0x0b]),
            Text("link1"),
            Bytes(&[4, 0, 0, 0]),
        ],
        text: "answer gettable from [4]:
{ numHosts=2 hosts=[ { addr=02:00:00:00:00:0a hook=\"link0\" age=5 staleness=1 } { addr=02:00:00:00:00:0b hook=\"link1\" age=4 } ] }
",
        lines: 2,
    },
];

fn put_text(out: &mut Vec<u8>, text: &str) -> Result<(), Fail> {
    if text.is_empty() {
        put_name(out, None)?;
        return Ok(());
    }
    put_name(out, Some(&Name::read(text.as_bytes())?))?;
    Ok(())
}

fn bytes_of(alloc: Global, answer: &[Field]) -> Result<Vec<u8>, Fail> {
    let mut bytes = Vec::new(alloc);
    for field in answer {
        match field {
            Text(text) => put_text(&mut bytes, text)?,
            Number(number) => put_u32(&mut bytes, *number)?,
            Bytes(piece) => bytes.extend_from_slice(piece)?,
        }
    }
    Ok(bytes)
}

#[test]
fn answers_are_printed(rt: HostRuntime) -> Result<(), Fail> {
    for example in &ANSWERS {
        let bytes = bytes_of(rt.alloc(), example.answer)?;
        let told = answer(example.cookie, example.number, bytes);
        let sink = printed(rt.alloc(), what_of(rt.alloc(), &example.asked)?, &told)?;
        assert_eq!(rt; str::from_utf8(sink.bytes())?, example.text);
        assert_eq!(rt; sink.calls(), example.lines);
    }
    Ok(())
}
