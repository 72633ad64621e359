// The captures that leave.
ghost use Rattle.std.specs.Prelude.{◌≡◌, ◌++◌, IfOk, OnOk};
ghost use Rattle.ngctl_print.specs.whole.Captures.{capture_of, AreWritable};

use ng_base::{NoMemory, Packet, Stamp};
use ng_pcap::{write_head, write_packet};
use std::alloc::Global;

/// Appends the capture of packets that left by a port's wire, in order, each with its time: the head of a file,
/// and each packet. Times lie below 2^32 seconds, and a packet has at most 262,144 bytes. pcap-savefile(5).
///
/// # Errors
/// `NoMemory` where memory ran out, and for nothing else. A front of the capture was appended then.
pub fn put_capture(
    alloc: Global,
    out: &mut Vec<u8>,
    leaving: &[(Stamp, Packet)],
) -> Result<(), NoMemory>
    requires { AreWritable leaving.now }
    ensures { OnOk result (out.new.items ≡ out.old.items ++ capture_of leaving.now) }
{
    write_head(alloc, out)?;
    for (stamp, packet) in leaving {
        write_packet(alloc, out, *stamp, packet)?;
    }
    Ok(())
}

/// The capture of packets that left by a port's wire, as `put_capture` appends it.
///
/// # Errors
/// `NoMemory` where memory ran out, and for nothing else.
pub fn capture_text(alloc: Global, leaving: &[(Stamp, Packet)]) -> Result<Vec<u8>, NoMemory>
    requires { AreWritable leaving.now }
    ensures { IfOk result (λ bytes. bytes.items ≡ capture_of leaving.now) }
{
    let mut bytes = Vec::new(alloc);
    put_capture(alloc, &mut bytes, leaving)?;
    Ok(bytes)
}
