// The list of inputs of a script and of two captures.
ghost use Rattle.std.specs.Prelude.{◌≡◌, All, IfOk, length};
ghost use Rattle.ngctl_script.specs.feed.Early.{IsEarly};

use ng_base::{NoMemory, Packet, Sequence, Stamp};
use ng_machine::Input;
use ng_pcap::{Capture, NANOS_PER_SECOND};
use ngctl_script::feed::inputs;
use ngctl_script::read_script;
use std::alloc::Global;
use std::test::Fail;

/// A capture of one packet, at so many seconds.
fn capture(alloc: Global, seconds: u32) -> Result<Capture, NoMemory>
    ensures { IfOk result (λ capture. All IsEarly capture.kept) }
{
    let stamp = Stamp(u64::from(seconds) * NANOS_PER_SECOND);
    let mut kept = Sequence::new(alloc);
    kept.push((stamp, Packet::new(alloc, &[7, 8, 9])?))?;
    Ok(Capture { kept, cut: None })
}

/// Two captures of one packet each.
fn captures(alloc: Global) -> Result<Vec<Capture>, NoMemory>
    ensures few { IfOk result (λ captures. length captures.items ≡ 2) }
    ensures early { IfOk result (λ captures. All (λ capture. All IsEarly capture.kept) captures.items) }
{
    let mut captures = Vec::new(alloc);
    captures.push(capture(alloc, 5)?)?;
    captures.push(capture(alloc, 3)?)?;
    Ok(captures)
}

/// A letter for each input, and the port for a packet.
fn letter(input: &Input) -> u8 {
    match input {
        Input::Command(_) => b'C',
        Input::Late(_) => b'L',
        Input::Tick(_) => b'T',
        Input::Packet { port: 0, .. } => b'0',
        Input::Packet { .. } => b'1',
    }
}

#[test]
fn inputs_are_listed(rt: HostRuntime) -> Result<(), Fail> {
    let alloc = rt.alloc();
    let script = read_script(alloc, b"list\n@1\ntypes\n@end\nlist\n")?;
    let inputs = inputs(alloc, script, captures(alloc)?)?;
    let mut letters = Vec::new(alloc);
    for input in &inputs {
        letters.push(letter(input))?;
    }
    assert_eq!(rt; letters.as_slice(), b"C1CT0L".as_slice());
    Ok(())
}
