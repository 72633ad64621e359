// Captures from bytes.
ghost use Rattle.std.specs.Prelude.{◌≡◌, ◌≤◌, ◌+◌, length, drop, IfOk, IfSome, OnOk};
ghost use Rattle.ng_pcap.specs.Reading.{IsAnswer, IsUnlessNoMemory, count_of, count_in, head_of, packet_head, packets};

use crate::format::{Format, MAJOR, MINOR};
use crate::{Capture, CaptureFault, ETHERNET, HEAD_LEN, PACKET_HEAD_LEN};
use ng_base::{MAX_PACKET_LEN, Packet, Sequence, Stamp};
use std::alloc::Global;

/// The head of a packet: when it was seen, and how many of its bytes follow.
#[derive(Clone, Copy)]
struct PacketHead {
    stamp: Stamp,
    len: usize,
}

/// The capture that a file's bytes are (pcap-savefile(5)).
///
/// The packets come in the file's order, and share the file's bytes. A packet of no bytes is a packet. A fraction at or above a whole second counts as the last one below it. Where the
/// file's end cuts a packet or its head, the capture ends before it and says where that head stands.
/// The zone, the accuracy, the longest kept length and each packet's original length may be any
/// numbers.
///
/// # Errors
/// The first of these that holds: `ShortHeader` with the number of bytes where they are fewer than 24,
/// `NoMagic` where the first four are no magic number in either order, `BadVersion` where the version
/// isn't 2.4, `BadLink` with the link type where it isn't Ethernet, `TooLong` with the place of the
/// packet's head and the length that it says, for the first that says more than
/// `MAX_PACKET_LEN`; or `NoMemory` where memory ran out and none of the first four holds.
pub fn read_capture(alloc: Global, bytes: Vec<u8>) -> Result<Capture, CaptureFault>
    ensures { IsAnswer bytes.items result }
{
    let format = read_head(&bytes)?;
    let file = Packet::from_bytes(alloc, bytes)?;
    read_packets(alloc, format, &file)
}

/// How many packets the capture has that a file's bytes are. The packets are passed over and not kept, so it takes no memory:
/// a caller who takes only so many can ask first.
///
/// # Errors
/// Those of `read_capture`, but for `NoMemory`.
pub fn count_packets(bytes: &[u8]) -> Result<u64, CaptureFault>
    ensures { result ≡ count_of bytes.now }
{
    let format = read_head(bytes)?;
    count_behind_head(format, bytes)
}

/// How the file is written that begins with this head.
#[tactic(auto, unfolding(crate::specs::Reading::head_of))]
fn read_head(bytes: &[u8]) -> Result<Format, CaptureFault>
    ensures found { result ≡ head_of bytes.now }
    ensures whole { OnOk result (HEAD_LEN ≤ length bytes.now) }
{
    if bytes.len() < HEAD_LEN {
        return Err(CaptureFault::ShortHeader(bytes.len() as u64));
    }
    let format = Format::from_head(bytes).ok_or(CaptureFault::NoMagic)?;
    let endian = format.endian;
    if endian.u16_at(bytes, 4) != MAJOR || endian.u16_at(bytes, 6) != MINOR {
        return Err(CaptureFault::BadVersion);
    }
    let link = endian.u32_at(bytes, 20);
    if link != ETHERNET {
        return Err(CaptureFault::BadLink(link));
    }
    Ok(format)
}

/// The packets that stand after the file's head, as parts of the file.
fn read_packets(alloc: Global, format: Format, file: &Packet) -> Result<Capture, CaptureFault>
    requires { HEAD_LEN ≤ length file.now }
    ensures { IsUnlessNoMemory (packets (length file.now) format 24 (drop 24 file.now)) result }
{
    let mut kept = Sequence::new(alloc);
    let bytes = file.bytes();
    let (_, mut left) = bytes.split_at(HEAD_LEN);
    while !left.is_empty() {
        let place = bytes.len() - left.len();
        let Some(head) = read_packet_head(format, place as u64, left)? else {
            let cut = Some(place as u64);
            return Ok(Capture { kept, cut });
        };
        let (_, text) = left.split_at(PACKET_HEAD_LEN);
        let (_, behind) = text.split_at(head.len);
        let packet = file.part(place + PACKET_HEAD_LEN, head.len)?;
        kept.push((head.stamp, packet))?;
        left = behind;
    }
    Ok(Capture { kept, cut: None })
}

/// How many packets stand after the file's head.
fn count_behind_head(format: Format, bytes: &[u8]) -> Result<u64, CaptureFault>
    requires { HEAD_LEN ≤ length bytes.now }
    ensures { result ≡ count_in (packets (length bytes.now) format 24 (drop 24 bytes.now)) }
{
    let mut count = 0;
    let (_, mut left) = bytes.split_at(HEAD_LEN);
    while !left.is_empty() {
        let place = (bytes.len() - left.len()) as u64;
        let Some(head) = read_packet_head(format, place, left)? else {
            return Ok(count);
        };
        let (_, text) = left.split_at(PACKET_HEAD_LEN);
        let (_, behind) = text.split_at(head.len);
        count += 1;
        left = behind;
    }
    Ok(count)
}

/// The head of the packet at the start of what is left of a file from `place` on. `None` where the
/// file's end cuts the head or the packet.
#[tactic(auto, unfolding(crate::specs::Reading::packet_head))]
fn read_packet_head(
    format: Format,
    place: u64,
    left: &[u8],
) -> Result<Option<PacketHead>, CaptureFault>
    ensures found { result ≡ packet_head format place left.now }
    ensures whole { IfOk result (λ found. IfSome found (λ head. PACKET_HEAD_LEN + head.len ≤ length left.now)) }
{
    if left.len() < PACKET_HEAD_LEN {
        return Ok(None);
    }
    let endian = format.endian;
    let len = endian.u32_at(left, 8);
    if len as usize > MAX_PACKET_LEN {
        return Err(CaptureFault::TooLong(place, len));
    }
    let len = len as usize;
    if left.len() < PACKET_HEAD_LEN + len {
        return Ok(None);
    }
    let stamp = format
        .resolution
        .stamp(endian.u32_at(left, 0), endian.u32_at(left, 4));
    Ok(Some(PacketHead { stamp, len }))
}
