// What the line of each command asks for.
use super::{asked, check_asked};
use crate::ngctl::same::holds;
use ngctl_script::{Refusal, Verb};
use std::test::Fail;

/// Hooks are made and taken away.
const HOOKS: &[(&str, &str)] = &[
    ("connect br0: a b", "|connect|~|br0:|a|b"),
    ("connect . a b", "|connect|~|.|a|b"),
    ("connect . br0:link0 a b", "|connect|.|br0:link0|a|b"),
    ("connect [1f]: x.y a b", "|connect|[1f]:|x.y|a|b"),
    ("mkpeer hub a b", "|mkpeer|~|hub|a|b"),
    ("mkpeer . hub a b", "|mkpeer|.|hub|a|b"),
    (
        "mkpeer br0:link0.x no_type [a] b",
        "|mkpeer|br0:link0.x|no_type|[a]|b",
    ),
    ("rmhook a", "|rmhook|~|a"),
    ("rmhook br0: a", "|rmhook|br0:|a"),
];

/// Nodes are told something.
const NODES: &[(&str, &str)] = &[
    ("config .", "|config|.|"),
    ("config .  a  b ", "|config|.|a  b"),
    ("config br0: # x", "|config|br0:|# x"),
    ("msg br0: getstats", "|msg|br0:|getstats|"),
    ("msg br0: getstats 1", "|msg|br0:|getstats|1"),
    (
        "msg . x \t{ a=1  b=\"c d\" }\t",
        "|msg|.|x|{ a=1  b=\"c d\" }",
    ),
    ("name . sw0", "|name|.|sw0"),
    ("name br0:link0 [x]", "|name|br0:link0|[x]"),
    ("shutdown br0:", "|shutdown|br0:"),
    ("shutdown a.b.c", "|shutdown|a.b.c"),
    ("status .", "|status|."),
    ("status [0000001f]:", "|status|[0000001f]:"),
];

/// Questions are asked.
const QUESTIONS: &[(&str, &str)] = &[
    ("help", "|help|~"),
    ("help types", "|help|types"),
    ("help w", "|help|w"),
    ("help s", "|bad|ambiguous command"),
    ("help zz", "|bad|unknown command"),
    ("list", "|list|no"),
    ("list -n", "|list|yes"),
    ("show .", "|show|no|."),
    ("show -n .", "|show|yes|."),
    ("show -n", "|show|no|-n"),
    ("types", "|types"),
    ("quit", "|quit"),
    ("q", "|quit"),
];

/// Words have the form of the usage.
const USAGES: &[(&str, &str)] = &[
    ("config", "|bad|usage: config path [args]"),
    (
        "connect",
        "|bad|usage: connect [path] relpath hook peerhook",
    ),
    (
        "connect a b",
        "|bad|usage: connect [path] relpath hook peerhook",
    ),
    (
        "connect a b c d e",
        "|bad|usage: connect [path] relpath hook peerhook",
    ),
    ("help list -n", "|bad|usage: help [command]"),
    ("list -N", "|bad|usage: list [-n]"),
    ("list -n -n", "|bad|usage: list [-n]"),
    ("mkpeer x", "|bad|usage: mkpeer [path] type hook peerhook"),
    (
        "mkpeer . hub a b c",
        "|bad|usage: mkpeer [path] type hook peerhook",
    ),
    ("msg", "|bad|usage: msg path command [args]"),
    ("msg .", "|bad|usage: msg path command [args]"),
    ("name .", "|bad|usage: name path name"),
    ("name . a b", "|bad|usage: name path name"),
    ("quit x", "|bad|usage: quit"),
    ("rmhook", "|bad|usage: rmhook [path] hook"),
    ("rmhook . a b", "|bad|usage: rmhook [path] hook"),
    ("show", "|bad|usage: show [-n] path"),
    ("show . .", "|bad|usage: show [-n] path"),
    ("show -n . .", "|bad|usage: show [-n] path"),
    ("shutdown", "|bad|usage: shutdown path"),
    ("shutdown a: b:", "|bad|usage: shutdown path"),
    ("status", "|bad|usage: status path"),
    ("types x", "|bad|usage: types"),
    ("write", "|bad|usage: write hook byte .."),
    ("write a", "|bad|usage: write hook byte .."),
];

/// Refusals have an order.
const REFUSALS: &[(&str, &str)] = &[
    ("connect a:b:c x x.y", "|bad|bad name"),
    ("connect a:b:c x y", "|bad|bad path"),
    ("connect .. . x y", "|bad|bad path"),
    ("connect . a..b x y", "|bad|bad path"),
    ("mkpeer a:b:c h.b x y", "|bad|bad name"),
    (
        "mkpeer a:b:c hub x abcdefghijklmnopqrstuvwxyz012345",
        "|bad|bad name",
    ),
    ("mkpeer a:b:c hub x y", "|bad|bad path"),
    ("mkpeer : hub x:y z", "|bad|bad name"),
    ("msg : x", "|bad|bad path"),
    ("config [g]: x", "|bad|bad path"),
    ("name : a:", "|bad|bad name"),
    ("name : a", "|bad|bad path"),
    ("rmhook a.b", "|bad|bad name"),
    ("rmhook : a.b", "|bad|bad name"),
    ("rmhook : a", "|bad|bad path"),
    ("show -n :", "|bad|bad path"),
    ("shutdown a:b:", "|bad|bad path"),
    ("status [123456789]:", "|bad|bad path"),
    ("write a.b 300", "|bad|bad name"),
    ("write a 1 2 256", "|bad|bad byte"),
    ("write a -1", "|bad|bad byte"),
    ("write a 08", "|bad|bad byte"),
    ("write a 0x", "|bad|bad byte"),
    ("write a 0x00000000000000000", "|bad|bad byte"),
    ("write a 1x", "|bad|bad byte"),
    ("write a 18446744073709551617", "|bad|bad byte"),
    ("write \u{e9} 1", "|bad|bad name"),
];

#[test]
fn lines_ask_for_commands(rt: HostRuntime) -> Result<(), Fail> {
    for rows in [HOOKS, NODES, QUESTIONS, USAGES, REFUSALS] {
        check_asked(&rt, rt.alloc(), rows)?;
    }
    Ok(())
}

#[test]
fn bytes_are_integers(rt: HostRuntime) -> Result<(), Fail> {
    for (line, bytes) in [
        ("write a 0", [0].as_slice()),
        ("write a 1 2  3\t255", [1, 2, 3, 255].as_slice()),
        (
            "write a 0x0 0xfF 0xFF 0x00000000000000a0",
            [0, 255, 255, 160].as_slice(),
        ),
        (
            "write a 00 0017 010 0377 00000000000000000001",
            [0, 15, 8, 255, 1].as_slice(),
        ),
    ] {
        let found = asked(rt.alloc(), line.as_bytes())?;
        let written = found.as_slice().strip_prefix(b"|write|a|".as_slice());
        holds(&rt, written == Some(bytes), line);
    }
    Ok(())
}

#[test]
fn a_command_is_named_by_a_prefix_of_its_own(rt: HostRuntime) {
    for (word, want) in [
        ("config", Ok(Verb::Config)),
        ("conf", Ok(Verb::Config)),
        ("conn", Ok(Verb::Connect)),
        ("h", Ok(Verb::Help)),
        ("l", Ok(Verb::List)),
        ("mk", Ok(Verb::Mkpeer)),
        ("ms", Ok(Verb::Msg)),
        ("n", Ok(Verb::Name)),
        ("q", Ok(Verb::Quit)),
        ("r", Ok(Verb::Rmhook)),
        ("sho", Ok(Verb::Show)),
        ("shu", Ok(Verb::Shutdown)),
        ("st", Ok(Verb::Status)),
        ("t", Ok(Verb::Types)),
        ("write", Ok(Verb::Write)),
        ("c", Err(Refusal::Ambiguous)),
        ("con", Err(Refusal::Ambiguous)),
        ("m", Err(Refusal::Ambiguous)),
        ("s", Err(Refusal::Ambiguous)),
        ("sh", Err(Refusal::Ambiguous)),
        ("", Err(Refusal::Ambiguous)),
        ("zz", Err(Refusal::Unknown)),
        ("List", Err(Refusal::Unknown)),
        ("types1", Err(Refusal::Unknown)),
        ("showshow", Err(Refusal::Unknown)),
    ] {
        holds(&rt, Verb::named(word.as_bytes()) == want, word);
    }
}

// Each prefix of each command, by how many letters tell the command from all others.
#[test]
fn shorter_prefixes_are_of_several_commands(rt: HostRuntime) {
    for (name, letters, verb) in [
        ("config", 4, Verb::Config),
        ("connect", 4, Verb::Connect),
        ("help", 1, Verb::Help),
        ("list", 1, Verb::List),
        ("mkpeer", 2, Verb::Mkpeer),
        ("msg", 2, Verb::Msg),
        ("name", 1, Verb::Name),
        ("quit", 1, Verb::Quit),
        ("rmhook", 1, Verb::Rmhook),
        ("show", 3, Verb::Show),
        ("shutdown", 3, Verb::Shutdown),
        ("status", 2, Verb::Status),
        ("types", 1, Verb::Types),
        ("write", 1, Verb::Write),
    ] {
        let bytes = name.as_bytes();
        for len in 1..=bytes.len() {
            let want = if len < letters {
                Err(Refusal::Ambiguous)
            } else {
                Ok(verb)
            };
            holds(&rt, Verb::named(&bytes[..len]) == want, name);
        }
    }
}
