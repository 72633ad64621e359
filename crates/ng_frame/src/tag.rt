//! The VLAN tag of an Ethernet frame: read, left out, inserted.

ghost use Rattle.std.specs.Prelude.{◌≡◌, ◌+◌, ◌≤◌, ◌↔◌, length, slice_range, IsSome, IfOk};
ghost use Rattle.ng_frame.specs.Frame.{IsTagged, tag_of, with_tag, without_tag};

use crate::no_memory::NoMemory;
use std::alloc::Global;

/// The bytes of the shortest frame: two addresses of 6 bytes and an ethertype of 2 (IEEE 802.3).
pub const MIN_FRAME_LEN: usize = 14;

/// The most bytes of a frame that a tag is inserted into: with the four bytes of its tag it has 262,144,
/// the most that a packet has (`MAX_PACKET_LEN` of ng_base, on which this crate does not stand).
pub const MAX_UNTAGGED_LEN: usize = 262_140;

/// The tag protocol identifier of a customer VLAN tag (IEEE 802.1Q).
pub const CUSTOMER_TAG: u16 = 0x8100;

/// The tag protocol identifier of a service VLAN tag (IEEE 802.1ad).
pub const SERVICE_TAG: u16 = 0x88a8;

/// The twelve bits of tag control information that are the VLAN identifier.
const VLAN_BITS: u16 = 0x0fff;

/// Where the two addresses end and a tag begins.
const TAG_START: usize = 12;

/// Where the tag control information begins, behind the TPID.
const CONTROL_START: usize = 14;

/// Where a tag ends and the ethertype behind it begins.
const TAG_END: usize = 16;

/// The bytes of a tag.
const TAG_LEN: usize = 4;

/// The bytes of two addresses, a tag and an ethertype.
const MIN_TAGGED_LEN: usize = 18;

const _: () = prove!(MAX_UNTAGGED_LEN + TAG_LEN == 262_144);

/// The two bytes from `start` on.
fn pair_at(bytes: &[u8], start: usize) -> [u8; 2]
    requires { start + 2 ≤ length bytes.now }
    ensures { result ≡ slice_range bytes.now start (start + 2) }
{
    [bytes[start], bytes[start + 1]]
}

/// The VLAN number of a frame's tag, at most 4,095, and the ethertype behind the tag, as its two
/// bytes stand in the frame. The number is the low 12 bits of the tag control information: the
/// priority and the drop eligible indicator are left out of it.
///
/// `None` where the frame has fewer than 18 bytes, or where bytes 12 and 13 are not `kind`, the tag
/// protocol identifier, its high byte first (IEEE 802.1Q). Takes no memory.
pub fn untag(bytes: &[u8], kind: u16) -> Option<(u16, [u8; 2])>
    ensures tagged { IsSome result ↔ IsTagged kind bytes.now }
    ensures tag { result ≡ tag_of kind bytes.now }
{
    if bytes.len() < MIN_TAGGED_LEN || pair_at(bytes, TAG_START) != kind.to_be_bytes() {
        return None;
    }
    let control = u16::from_be_bytes(pair_at(bytes, CONTROL_START));
    Some((control & VLAN_BITS, pair_at(bytes, TAG_END)))
}

/// The frame without its tag: all bytes but 12 to 15. The frame has to be one of which `untag`
/// gives a number, with the same `kind`.
///
/// # Errors
///
/// `NoMemory` where memory ran out, and for nothing else.
pub fn without_tag(alloc: Global, bytes: &[u8], kind: u16) -> Result<Vec<u8>, NoMemory>
    requires { IsTagged kind bytes.now }
    ensures { IfOk result (λ plain. plain.items ≡ without_tag bytes.now) }
{
    let mut plain = Vec::with_capacity(alloc, bytes.len() - TAG_LEN)?;
    plain.extend_from_slice(&bytes[..TAG_START])?;
    plain.extend_from_slice(&bytes[TAG_END..])?;
    Ok(plain)
}

/// The frame with a tag between its addresses and its ethertype: `kind`, the tag protocol identifier, and
/// `control`, the tag control information, as 16 bits each with the high byte first, after byte 11
/// (IEEE 802.1Q: of `control` three bits are the priority, one says that the frame may be dropped first,
/// and twelve are the number of the VLAN).
///
/// The frame has 14 to 262,140 bytes.
///
/// # Errors
///
/// `NoMemory` where memory ran out, and for nothing else.
pub fn with_tag(alloc: Global, bytes: &[u8], kind: u16, control: u16) -> Result<Vec<u8>, NoMemory>
    requires whole { MIN_FRAME_LEN ≤ length bytes.now }
    requires room { length bytes.now ≤ MAX_UNTAGGED_LEN }
    ensures { IfOk result (λ frame. frame.items ≡ with_tag kind control bytes.now) }
{
    let mut frame = Vec::with_capacity(alloc, bytes.len() + TAG_LEN)?;
    frame.extend_from_slice(&bytes[..TAG_START])?;
    frame.extend_from_slice(&kind.to_be_bytes())?;
    frame.extend_from_slice(&control.to_be_bytes())?;
    frame.extend_from_slice(&bytes[TAG_START..])?;
    Ok(frame)
}
