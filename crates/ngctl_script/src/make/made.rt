// Making a script and captures.
ghost use Rattle.std.specs.Prelude.{◌≡◌, ◌≤◌, ◌<◌, ◌*◌, ◌++◌, [], None, IfOk, OnOk};
ghost use Rattle.ng_base.specs.Name.{name_fault};
ghost use Rattle.ngctl_script.specs.make.Made.{made_script, made_ports, packet_bytes, made_packets, made_captures};
ghost use Rattle.ng_pcap.specs.Writing.{written_file, written_packet};

use ng_base::{Bytes, Name, Names, NoMemory, Packet, Sequence, Stamp};
use ng_pcap::{write_head, write_packet};
use std::alloc::Global;

/// A script, and the ports with the captures that they receive.
#[derive(Drop)]
pub struct Made {
    /// The bytes of the script.
    pub script: Bytes,
    /// The names of the ports: em0, em1 and em2.
    pub ports: Names,
    /// The bytes of each port's capture.
    pub captures: Sequence<Bytes>,
}

const SCRIPT: &str = "mkpeer em0: hub lower a
name em0:lower h
mkpeer h: bpf b in
name h:b f
mkpeer f: patch hit in
connect f:hit em1: out lower
mkpeer h: vlan c downstream
name h:c v
mkpeer v: hole nomatch x
connect v: em2: v5 lower
msg v: addfilter { hook=\"v5\" vlan=5 }
msg f: setprogram { thisHook=\"in\" ifMatch=\"hit\" bpf_prog_len=3 bpf_prog=[ { code=0x30 k=18 } { code=0x54 k=1 } { code=0x16 } ] }
msg f:hit setconfig { count=1 ops=[ { offset=18 length=1 mode=9 value=255 } ] }
";

fn script(alloc: Global) -> Result<Bytes, NoMemory>
    ensures { IfOk result (λ script. script ≡ made_script) }
{
    Ok(Bytes(Vec::from_slice(alloc, SCRIPT.as_bytes())?))
}

fn port_name(bytes: &[u8]) -> Name
    requires { name_fault bytes.now ≡ None }
    ensures { result ≡ bytes.now }
{
    match Name::read(bytes) {
        Ok(name) => name,
        Err(_) => unreachable!(),
    }
}

fn ports(alloc: Global) -> Result<Names, NoMemory>
    ensures { IfOk result (λ ports. ports ≡ made_ports) }
{
    let mut ports = Names::new(alloc);
    ports.push(port_name(b"em0"))?;
    ports.push(port_name(b"em1"))?;
    ports.push(port_name(b"em2"))?;
    Ok(ports)
}

/// Packet k of n.
fn packet(alloc: Global, n: u32, k: u32) -> Result<Packet, NoMemory>
    requires few { n ≤ 100000 }
    requires below { k < n }
    ensures { IfOk result (λ packet. packet ≡ packet_bytes n k) }
{
    let vlan = (k % 8) as u8;
    let byte = ((7 * k + n) % 256) as u8;
    let head = [
        2, 0, 0, 0, 0, 1, 2, 0, 0, 0, 0, 2, 0x81, 0, 0, vlan, 8, 0, byte,
    ];
    let mut bytes = [0u8; 64];
    bytes[..19].copy_from_slice(&head);
    Packet::new(alloc, &bytes)
}

/// Appends packet k of n to a capture.
fn add_packet(alloc: Global, bytes: &mut Vec<u8>, n: u32, k: u32) -> Result<(), NoMemory>
    requires few { n ≤ 100000 }
    requires below { k < n }
    ensures { OnOk result (bytes.new.items ≡ bytes.old.items ++ written_packet (record { 0 = k * 1000 }) (packet_bytes n k)) }
{
    let packet = packet(alloc, n, k)?;
    write_packet(alloc, bytes, Stamp(u64::from(k) * 1000), &packet)
}

/// The capture of the first port.
fn first_capture(alloc: Global, n: u32) -> Result<Bytes, NoMemory>
    requires { n ≤ 100000 }
    ensures { IfOk result (λ capture. capture ≡ written_file (made_packets n)) }
{
    let mut bytes = Vec::new(alloc);
    write_head(alloc, &mut bytes)?;
    for k in 0..n {
        add_packet(alloc, &mut bytes, n, k)?;
    }
    Ok(Bytes(bytes))
}

/// A capture without packets.
fn empty_capture(alloc: Global) -> Result<Bytes, NoMemory>
    ensures { IfOk result (λ capture. capture ≡ written_file []) }
{
    let mut bytes = Vec::new(alloc);
    write_head(alloc, &mut bytes)?;
    Ok(Bytes(bytes))
}

fn captures(alloc: Global, n: u32) -> Result<Sequence<Bytes>, NoMemory>
    requires { n ≤ 100000 }
    ensures { IfOk result (λ captures. captures ≡ made_captures n) }
{
    let mut captures = Sequence::new(alloc);
    captures.push(first_capture(alloc, n)?)?;
    captures.push(empty_capture(alloc)?)?;
    captures.push(empty_capture(alloc)?)?;
    Ok(captures)
}

/// The workload of `n` packets, 1 to 100,000: a script of thirteen commands, the ports em0, em1 and em2, and their captures,
/// in nanoseconds, with the lowest byte first. That of em0 has packets of 64 bytes, of which packet k, from 0, comes at k
/// microseconds with the tag of VLAN k mod 8; those of em1 and em2 have none.
///
/// # Errors
/// `NoMemory` where memory ran out, and for nothing else.
pub fn make(alloc: Global, n: u32) -> Result<Made, NoMemory>
    requires some { 1 ≤ n }
    requires few { n ≤ 100000 }
    ensures script { IfOk result (λ made. made.script ≡ made_script) }
    ensures ports { IfOk result (λ made. made.ports ≡ made_ports) }
    ensures captures { IfOk result (λ made. made.captures ≡ made_captures n) }
{
    Ok(Made {
        script: script(alloc)?,
        ports: ports(alloc)?,
        captures: captures(alloc, n)?,
    })
}
