// Help and texts of runs as ngctl(8) prints them, each line put by itself, and a capture as a file.
use ng_base::{Bytes, Name, NodeId, Packet, Stamp};
use ng_machine::{Command, PortTotals, Told, Totals, What};
use ng_outside::MemSink;
use ngctl_print::whole::{PortReport, Summary, capture_text, is_printable, print_text, print_told};
use std::alloc::Global;
use std::test::Fail;

const HELP: &str = "  config path [args]
  connect [path] relpath hook peerhook
  help [command]
  list [-n]
  mkpeer [path] type hook peerhook
  msg path command [args]
  name path name
  quit
  rmhook [path] hook
  show [-n] path
  shutdown path
  status path
  types
  write hook byte ..
";

const TEXT: &str = "+ show br0:
summary: fed 16 of 16, applied 34, data refused 0
dropped: node gone 0, hook gone 0, budget 0
lost: no peer 0, node gone 0, full 0, spool 0
graph: nodes 4, hooks 4
port em0: in 3, left 3, up 0
port em1: in 3, left 3, up 0, capture cut at byte 54
";

fn bytes_of(alloc: Global, text: &str) -> Result<Bytes, Fail> {
    Ok(Bytes(Vec::from_slice(alloc, text.as_bytes())?))
}

fn show_of(alloc: Global, brief: bool) -> Result<What, Fail> {
    Ok(What::Show {
        brief,
        path: bytes_of(alloc, "br0:")?,
    })
}

// A list of the only command of a run.
fn only(alloc: Global, line: &str, what: What) -> Result<Vec<Command>, Fail> {
    let mut commands = Vec::new(alloc);
    commands.push(Command {
        number: 1,
        line: bytes_of(alloc, line)?,
        what,
    })?;
    Ok(commands)
}

fn sink_of(alloc: Global) -> Result<MemSink, Fail> {
    Ok(MemSink::new(alloc, 10_000, false, Vec::new(alloc))?)
}

/// What one entry of a run with that command prints; nothing where it can't be printed.
pub(super) fn printed(alloc: Global, what: What, told: &Told) -> Result<MemSink, Fail> {
    let commands = only(alloc, "", what)?;
    let mut sink = sink_of(alloc)?;
    if is_printable(told, &commands) {
        print_told(alloc, told, &commands, &mut sink)?;
    }
    Ok(sink)
}

/// An answer of the fourth node.
pub(super) fn answer(cookie: u32, number: u32, bytes: Vec<u8>) -> Told {
    Told::Answer {
        command: 1,
        from: NodeId(4),
        cookie,
        number,
        bytes: Bytes(bytes),
    }
}

/// What is asked for.
#[derive(Drop)]
pub(super) enum Asked {
    Help,
    HelpOf(&'static str),
    List,
    NamedList,
    Show,
    BriefShow,
    Types,
    Table,
}

pub(super) fn what_of(alloc: Global, asked: &Asked) -> Result<What, Fail> {
    Ok(match asked {
        Asked::Help => What::Help { command: None },
        Asked::HelpOf(word) => What::Help {
            command: Some(bytes_of(alloc, word)?),
        },
        Asked::List => What::List { named: false },
        Asked::NamedList => What::List { named: true },
        Asked::Show => show_of(alloc, false)?,
        Asked::BriefShow => show_of(alloc, true)?,
        Asked::Types => What::Types,
        Asked::Table => What::Msg {
            path: bytes_of(alloc, "br0:")?,
            command: bytes_of(alloc, "gettable")?,
            args: bytes_of(alloc, "")?,
        },
    })
}

#[test]
fn help_is_usages(rt: HostRuntime) -> Result<(), Fail> {
    let told = Told::Help { command: 1 };
    for (asked, text, lines) in [(Asked::Help, HELP, 14), (Asked::HelpOf("q"), "  quit\n", 1)] {
        let sink = printed(rt.alloc(), what_of(rt.alloc(), &asked)?, &told)?;
        assert_eq!(rt; str::from_utf8(sink.bytes())?, text);
        assert_eq!(rt; sink.calls(), lines);
    }
    Ok(())
}

fn totals() -> Totals {
    Totals {
        applied: 34,
        refused: 0,
        node_gone: 0,
        hook_gone: 0,
        budget: 0,
        no_peer: 0,
        peer_gone: 0,
        full: 0,
        spool: 0,
        nodes: 4,
        hooks: 4,
    }
}

fn port(name: &str, cut: Option<u64>) -> Result<PortReport, Fail> {
    let name = Name::read(name.as_bytes())?;
    let totals = PortTotals {
        fed: 3,
        left: 3,
        up: 0,
    };
    Ok(PortReport { name, totals, cut })
}

#[test]
fn ports_stand_behind_the_summary(rt: HostRuntime) -> Result<(), Fail> {
    let commands = only(rt.alloc(), "show br0:", show_of(rt.alloc(), false)?)?;
    let told = [Told::Line { command: 1 }];
    let summary = Summary {
        totals: totals(),
        fed: 16,
        of: 16,
        stopped: false,
    };
    let ports = [port("em0", None)?, port("em1", Some(54))?];
    let mut sink = sink_of(rt.alloc())?;
    print_text(rt.alloc(), &commands, &told, &summary, &ports, &mut sink)?;
    assert_eq!(rt; str::from_utf8(sink.bytes())?, TEXT);
    assert_eq!(rt; sink.calls(), 1);
    Ok(())
}

// The head of a file, and two packets.
const CAPTURE: [u8; 61] = [
    0x4d, 0x3c, 0xb2, 0xa1, 2, 0, 4, 0, 0, 0, 0, 0, 0, 0, 0, 0, 0, 0, 4, 0, 1, 0, 0, 0, 2, 0, 0, 0,
    0, 0, 0, 0, 3, 0, 0, 0, 3, 0, 0, 0, 7, 8, 9, 4, 0, 0, 0, 0x40, 0x42, 0x0f, 0, 2, 0, 0, 0, 2, 0,
    0, 0, 5, 6,
];

#[test]
fn what_left_is_a_capture(rt: HostRuntime) -> Result<(), Fail> {
    let leaving = [
        (Stamp(2_000_000_000), Packet::new(rt.alloc(), &[7, 8, 9])?),
        (Stamp(4_001_000_000), Packet::new(rt.alloc(), &[5, 6])?),
    ];
    let bytes = capture_text(rt.alloc(), &leaving)?;
    assert_eq!(rt; bytes.as_slice(), CAPTURE.as_slice());
    Ok(())
}
