// Messages to bytes and back.
ghost use Rattle.std.specs.Prelude.{◌≡◌, ◌≤◌, ◌++◌, length, take, vec_len, IfOk, OnOk, OnErr};
ghost use Rattle.ng_message.specs.declared.message.Msg.{Msg as Message};
ghost use Rattle.ng_message.specs.Layout.{header_bytes, message_bytes};
ghost use Rattle.ng_message.specs.Message.{IsAnswer, IsHeader, IsInForm, IsUnlessNoMemory};

use crate::readers::{u16_at, u32_at};
use crate::writers::{or_as_before, put_u16, put_u32};
use crate::{HEADER_LEN, Header, Msg, MsgFault, VERSION};
use ng_base::{Bytes, NoMemory, NodeId};
use std::alloc::Global;

/// Appends a message's bytes: its header and its arguments. `out` grows by its own allocator, and
/// nothing else takes memory.
///
/// # Errors
/// `NoMemory` where memory ran out, and for nothing else; `out` is then as before.
pub fn encode(_alloc: Global, msg: &Msg, out: &mut Vec<u8>) -> Result<(), NoMemory>
    requires { IsInForm msg.now }
    ensures ok { OnOk result (out.new.items ≡ out.old.items ++ message_bytes msg.now) }
    ensures err { OnErr result (out.new.items ≡ out.old.items) }
{
    let start = out.len();
    let done = append_message(msg, out);
    or_as_before(out, start, done)
}

/// Appends as much of a message as there is memory for.
fn append_message(msg: &Msg, out: &mut Vec<u8>) -> Result<(), NoMemory>
    ensures ok { OnOk result (out.new.items ≡ out.old.items ++ message_bytes msg.now) }
    ensures err { OnErr result (take (vec_len out.old) out.new.items ≡ out.old.items) }
{
    append_header(&msg.header, out)?;
    out.extend_from_slice(&msg.args.0)?;
    Ok(())
}

/// Appends as much of a header as there is memory for.
fn append_header(header: &Header, out: &mut Vec<u8>) -> Result<(), NoMemory>
    ensures ok { OnOk result (out.new.items ≡ out.old.items ++ header_bytes header.now) }
    ensures err { OnErr result (take (vec_len out.old) out.new.items ≡ out.old.items) }
{
    out.extend_from_slice(&[header.version, header.spare])?;
    put_u16(out, header.spare2)?;
    put_u32(out, header.arglen)?;
    put_u32(out, header.cmd)?;
    put_u32(out, header.flags)?;
    put_u32(out, header.token)?;
    put_u32(out, header.typecookie)?;
    out.extend_from_slice(&header.cmdstr)?;
    Ok(())
}

/// The message that the bytes are, sent by `from`. The bytes are all of the message, and nothing
/// follows it.
///
/// # Errors
/// The first of these that holds: `Short` with the number of bytes where they are fewer than 56,
/// `BadVersion` with the version where it isn't 8, `BadLength` with the number of bytes of arguments
/// that the header says and the number that there is where they differ, `NoNul` where the command's
/// name has no NUL; or `NoMemory` where memory ran out, and for nothing else.
pub fn decode(alloc: Global, bytes: &[u8], from: NodeId) -> Result<Msg, MsgFault>
    // The answer is that of the one header that begins the bytes, and of the rest.
    ensures answer { IsAnswer from bytes.now result }

    // What is read is a message, whose bytes are these.
    ensures found { IfOk result (λ msg. IsInForm msg × (msg.from ≡ from) × (message_bytes msg ≡ bytes.now)) }

    // Whatever message has these bytes is read, unless memory runs out.
    ensures only { (msg : Message) → IsHeader msg.header → IsInForm msg → msg.from ≡ from → message_bytes msg ≡ bytes.now
        → IsUnlessNoMemory msg result }
{
    if bytes.len() < HEADER_LEN {
        return Err(MsgFault::Short(bytes.len()));
    }
    let (front, rest) = bytes.split_at(HEADER_LEN);
    let header = header_of(front);
    if header.version != VERSION {
        return Err(MsgFault::BadVersion(header.version));
    }
    if header.arglen as usize != rest.len() {
        return Err(MsgFault::BadLength(header.arglen, rest.len()));
    }
    if !header.cmdstr.contains(&0) {
        return Err(MsgFault::NoNul);
    }
    let args = Bytes(Vec::from_slice(alloc, rest)?);
    Ok(Msg { from, header, args })
}

/// The header that these 56 bytes are.
fn header_of(bytes: &[u8]) -> Header
    requires { length bytes.now ≡ HEADER_LEN }
    ensures header { IsHeader result }
    ensures bytes { header_bytes result ≡ bytes.now }
{
    let mut cmdstr = [0u8; 32];
    cmdstr.copy_from_slice(&bytes[24..]);
    Header {
        version: bytes[0],
        spare: bytes[1],
        spare2: u16_at(bytes, 2),
        arglen: u32_at(bytes, 4),
        cmd: u32_at(bytes, 8),
        flags: u32_at(bytes, 12),
        token: u32_at(bytes, 16),
        typecookie: u32_at(bytes, 20),
        cmdstr,
    }
}
