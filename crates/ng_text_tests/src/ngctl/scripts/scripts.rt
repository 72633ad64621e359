// Lines, marks, the end of a script, and its faults.
use super::check_asked;
use crate::ngctl::same::{holds, same};
use ngctl_script::{Script, ScriptFault, When, read_script};
use std::alloc::{AllocError, Global};
use std::test::Fail;

#[test]
fn a_line_is_trimmed(rt: HostRuntime) -> Result<(), Fail> {
    for (text, line) in [
        ("types", "types"),
        ("types\n", "types"),
        ("types\r\n", "types"),
        ("\n\r\n \t\n# types\n  #\n\t types \t \r\n\n", "types"),
        ("list\t-n \n", "list\t-n"),
        ("types\r", "types\r"),
        ("types\r\r\n", "types\r"),
        ("a\0b", "a\0b"),
        ("\u{e9}", "\u{e9}"),
    ] {
        let script = read_script(rt.alloc(), text.as_bytes())?;
        let [(_, command)] = script.commands() else {
            return Err(Fail::from("one command is wanted"));
        };
        same(&rt, command.line.0.as_slice(), line.as_bytes(), text);
    }
    Ok(())
}

const NO_BLANKS: &[(&str, &str)] = &[
    ("types\r", "|bad|unknown command"),
    ("types\0", "|bad|unknown command"),
    ("types\u{b}", "|bad|unknown command"),
    ("\u{a0}types", "|bad|unknown command"),
    ("list\r-n\n", "|bad|unknown command"),
    ("list -n\0", "|bad|usage: list [-n]"),
    ("show .\r", "|bad|bad path"),
    ("msg . a \0\n", "|msg|.|a|\0"),
    ("list # all", "|bad|usage: list [-n]"),
];

#[test]
fn other_bytes_are_no_blanks(rt: HostRuntime) -> Result<(), Fail> {
    check_asked(&rt, rt.alloc(), NO_BLANKS)
}

/// When the commands are fed: before the first mark, behind a packet, or late.
fn times(alloc: Global, script: &Script) -> Result<Vec<Option<u32>>, AllocError> {
    let mut times = Vec::new(alloc);
    for (when, _) in script.commands() {
        times.push(match when {
            When::First => None,
            When::After(number) => Some(*number),
            When::Late => Some(9_999_999),
        })?;
    }
    Ok(times)
}

#[test]
fn marks_say_when(rt: HostRuntime) -> Result<(), Fail> {
    let late = Some(9_999_999);
    for (text, want) in [
        ("", [].as_slice()),
        ("# nothing\n@1\n", [].as_slice()),
        ("list\n@0\nlist\nzz\n", [None, Some(0), Some(0)].as_slice()),
        ("@3\n@3\n@1000000\nlist\n", [Some(1_000_000)].as_slice()),
        (
            " @2 \nlist\n@end\r\nlist\n@end\nlist",
            [Some(2), late, late].as_slice(),
        ),
        ("@end\nquit x\nq\nlist\n@end\n", [late, late].as_slice()),
        ("quit\nlist\n", [None].as_slice()),
    ] {
        let script = read_script(rt.alloc(), text.as_bytes())?;
        let found = times(rt.alloc(), &script)?;
        holds(&rt, found.as_slice() == want, text);
    }
    Ok(())
}

#[test]
fn the_first_fault_is_told(rt: HostRuntime) {
    for (text, line) in [
        ("@3\n@2\n", 2),
        ("@end\n@1\n", 2),
        ("@1000001\n", 1),
        ("list\n\n @\n", 3),
        ("@ 1\n", 1),
        ("@01\n", 1),
        ("@00\n", 1),
        ("@+1\n", 1),
        ("@-1\n", 1),
        ("@0x1\n", 1),
        ("@1 2\n", 1),
        ("@End\n", 1),
        ("@ends\n", 1),
        ("@18446744073709551617\n", 1),
        ("@1\r", 1),
        ("quit\n@2\n@1\n@0\n", 3),
    ] {
        let fault = read_script(rt.alloc(), text.as_bytes()).err();
        holds(&rt, fault == Some(ScriptFault::BadMark(line)), text);
    }
}

/// A script of two lines: `types`, and one of so many bytes that begins with `begin`.
fn long_line(alloc: Global, begin: &str, len: usize, end: &str) -> Result<Vec<u8>, AllocError> {
    let mut text = Vec::from_slice(alloc, b"types\n")?;
    text.extend_from_slice(begin.as_bytes())?;
    for _ in begin.len()..len {
        text.push(b' ')?;
    }
    text.extend_from_slice(end.as_bytes())?;
    Ok(text)
}

#[test]
fn a_line_has_4096_bytes_at_most(rt: HostRuntime) -> Result<(), Fail> {
    for (begin, len, end, want) in [
        ("list", 4_096, "\n", None),
        ("list", 4_096, "\r\n", None),
        ("#", 4_096, "", None),
        ("list", 4_097, "\n", Some(ScriptFault::LineTooLong(2))),
        ("list", 4_097, "\r\n", Some(ScriptFault::LineTooLong(2))),
        ("list", 4_096, "\r", Some(ScriptFault::LineTooLong(2))),
        ("#", 4_097, "", Some(ScriptFault::LineTooLong(2))),
        ("@x", 4_097, "\n", Some(ScriptFault::LineTooLong(2))),
        ("", 4_097, "\n@x", Some(ScriptFault::LineTooLong(2))),
        ("@x", 4_096, "\n", Some(ScriptFault::BadMark(2))),
    ] {
        let text = long_line(rt.alloc(), begin, len, end)?;
        let fault = read_script(rt.alloc(), text.as_slice()).err();
        holds(&rt, fault == want, begin);
    }
    Ok(())
}

/// A script of so many lines `list` behind one other line.
fn many_lists(alloc: Global, first: &str, lists: usize) -> Result<Vec<u8>, AllocError> {
    let mut text = Vec::from_slice(alloc, first.as_bytes())?;
    for _ in 0..lists {
        text.extend_from_slice(b"list\n")?;
    }
    Ok(text)
}

#[test]
fn a_script_has_4096_commands_at_most(rt: HostRuntime) -> Result<(), Fail> {
    for (first, lists, want) in [
        ("", 4_096, None),
        ("# lists\n", 4_096, None),
        ("", 4_097, Some(ScriptFault::TooMany(4_097))),
        ("\n@1\n", 5_000, Some(ScriptFault::TooMany(4_099))),
        ("quit\n", 4_095, None),
        ("quit\n", 4_096, Some(ScriptFault::TooMany(4_097))),
        ("zz\n", 4_096, Some(ScriptFault::TooMany(4_097))),
    ] {
        let text = many_lists(rt.alloc(), first, lists)?;
        let fault = read_script(rt.alloc(), text.as_slice()).err();
        holds(&rt, fault == want, first);
    }
    Ok(())
}

#[test]
fn commands_have_numbers(rt: HostRuntime) -> Result<(), Fail> {
    let text = many_lists(rt.alloc(), "@5\n", 4_096)?;
    let script = read_script(rt.alloc(), text.as_slice())?;
    let mut number = 0u32;
    for (when, command) in script.commands() {
        number = number.saturating_add(1);
        assert_eq!(rt; (command.number, *when), (number, When::After(5)));
    }
    assert_eq!(rt; number, 4_096);
    assert_eq!(rt; script.into_commands().len(), 4_096);
    Ok(())
}

#[test]
fn faults_print(rt: HostRuntime) -> Result<(), Fail> {
    for (fault, want) in [
        (ScriptFault::LineTooLong(1), "script line 1: line too long"),
        (ScriptFault::BadMark(2), "script line 2: bad mark"),
        (
            ScriptFault::TooMany(4_097),
            "script line 4097: too many commands",
        ),
        (ScriptFault::NoMemory, "out of memory"),
    ] {
        let text = format!(in rt.alloc(); "{fault}")?;
        assert_eq!(rt; text.as_str(), want);
    }
    Ok(())
}
