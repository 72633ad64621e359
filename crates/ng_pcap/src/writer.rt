// Captures to bytes.
ghost use Rattle.std.specs.Prelude.{◌≡◌, ◌≤◌, ◌<◌, ◌^◌, ◌*◌, ◌+◌, ◌++◌, ◌/◌, ◌%◌, length, vec_len, vec_capacity, OnOk, OnErr};
ghost use Rattle.ng_pcap.specs.Writing.{written_head, written_packet};
ghost use Rattle.byteorder.specs.Endian.{little_bytes};

use crate::format::{MAJOR, MINOR, NANOSECOND_MAGIC};
use crate::{ETHERNET, HEAD_LEN, NANOS_PER_SECOND, PACKET_HEAD_LEN};
use byteorder::{ByteOrder, LittleEndian};
use ng_base::{MAX_PACKET_LEN, NoMemory, Packet, Stamp};
use std::alloc::Global;

/// Appends a file's head, 24 bytes: version 2.4, Ethernet, nanoseconds, numbers with the lowest byte
/// first. `out` grows by its own allocator, and nothing else takes memory.
///
/// # Errors
/// `NoMemory` where memory ran out, and only where `out` had no room left; `out` is then as before.
pub fn write_head(_alloc: Global, out: &mut Vec<u8>) -> Result<(), NoMemory>
    ensures ok { OnOk result (out.new.items ≡ out.old.items ++ written_head) }
    ensures err { OnErr result (out.new.items ≡ out.old.items) }
    ensures no_room { OnErr result (vec_capacity out.old < vec_len out.old + HEAD_LEN) }
{
    out.extend_from_slice(&file_head())?;
    Ok(())
}

/// Appends a packet: 16 bytes that say when it was seen and how long it is, and its bytes. `out` grows
/// by its own allocator, and nothing else takes memory.
///
/// The time lies below 2^32 seconds, and the packet has at most `MAX_PACKET_LEN` bytes.
///
/// # Errors
/// `NoMemory` where memory ran out, and only where `out` had no room left; `out` is then as before.
pub fn write_packet(
    _alloc: Global,
    out: &mut Vec<u8>,
    stamp: Stamp,
    packet: &Packet,
) -> Result<(), NoMemory>
    requires stamp { stamp.0 < 2 ^ 32 * NANOS_PER_SECOND }
    requires packet { length packet.now ≤ MAX_PACKET_LEN }
    ensures ok { OnOk result (out.new.items ≡ out.old.items ++ written_packet stamp packet.now) }
    ensures err { OnErr result (out.new.items ≡ out.old.items) }
    ensures no_room { OnErr result (vec_capacity out.old < vec_len out.old + PACKET_HEAD_LEN + length packet.now) }
{
    let bytes = packet.bytes();
    out.reserve(PACKET_HEAD_LEN + bytes.len())?;
    out.extend_from_slice(&packet_head(stamp, bytes.len() as u32))?;
    out.extend_from_slice(bytes)?;
    Ok(())
}

/// The head of a file.
fn file_head() -> [u8; HEAD_LEN]
    ensures { result ≡ written_head }
{
    let mut head = [0u8; HEAD_LEN];
    LittleEndian::write_u32(&mut head, NANOSECOND_MAGIC);
    LittleEndian::write_u16(&mut head[4..], MAJOR);
    LittleEndian::write_u16(&mut head[6..], MINOR);
    LittleEndian::write_u32(&mut head[16..], MAX_PACKET_LEN as u32);
    LittleEndian::write_u32(&mut head[20..], ETHERNET);
    head
}

/// The head of a packet of so many bytes.
fn packet_head(stamp: Stamp, len: u32) -> [u8; PACKET_HEAD_LEN]
    requires { stamp.0 < 2 ^ 32 * NANOS_PER_SECOND }
    ensures { result ≡ little_bytes 4 (stamp.0 / NANOS_PER_SECOND)
        ++ (little_bytes 4 (stamp.0 % NANOS_PER_SECOND)
        ++ (little_bytes 4 len
        ++ little_bytes 4 len)) }
{
    let seconds = (stamp.0 / NANOS_PER_SECOND) as u32;
    let nanos = (stamp.0 % NANOS_PER_SECOND) as u32;
    let mut head = [0u8; PACKET_HEAD_LEN];
    LittleEndian::write_u32_into(&[seconds, nanos, len, len], &mut head);
    head
}
