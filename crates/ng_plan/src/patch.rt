// ng_patch(4): changes packets by arithmetic at places.
ghost use Rattle.std.specs.Prelude.{◌≡◌, ◌-◌, ◌^◌, ◌<◌, ◌≤◌, nat_lt, true, OnOk, slice_index_or};
ghost use Rattle.std.specs.List.{fold};
ghost use Rattle.ng_machine.specs.Outcome.{nothing};
ghost use Rattle.ng_machine.specs.kinds.Patch.{is_op, modes, operation_result, patch_by, patches, shift_left, shift_right, width};

use crate::lookup::{Hooks, in_hook, is_named, out_hook, send, send_by};
use crate::operations::Operations;
use byteorder::{BigEndian, ByteOrder};
use ng_base::{Name, NoMemory, Packet};
use ng_machine::{Door, Outcome, PatchOp};
use std::alloc::Global;

/// What a patch node works by: its hooks and its operations.
#[derive(Drop)]
pub struct PatchPlan {
    pub hooks: Hooks,
    pub ops: Operations,
}

/// A number of `width` bits shifted left; a shift by its bits or more changes nothing.
fn shift_left(width: u32, x: u128, v: u128) -> u128
    requires few { width ≤ 64 }
    requires number { x < 2 ^ width }
    ensures { result ≡ shift_left (nat_lt v width) x v }
{
    if v < u128::from(width) {
        x << v as u32
    } else {
        x
    }
}

/// A number of `width` bits shifted right; a shift by its bits or more changes nothing.
fn shift_right(width: u32, x: u128, v: u128) -> u128
    requires few { width ≤ 64 }
    ensures { result ≡ shift_right (nat_lt v width) x v }
{
    if v < u128::from(width) {
        x >> v as u32
    } else {
        x
    }
}

/// The number above those of `width` bits.
fn modulus(width: u32) -> u128
    requires { width ≤ 64 }
    ensures { result ≡ 2 ^ width }
{
    1 << width
}

/// What a mode makes of the number `x` of a packet and the value `v`, both of `width` bits, before it is taken
/// to these bits.
fn work(mode: u16, width: u32, x: u128, v: u128) -> u128
    requires known { 1 ≤ mode }
    requires eleven { mode ≤ 11 }
    requires few { width ≤ 64 }
    requires number { x < 2 ^ width }
    requires value { v < 2 ^ width }
    requires divides { mode ≡ 5 → 0 < v }
    ensures { result ≡ slice_index_or (modes width) (mode - 1) (λ y w. y) x v }
{
    match mode {
        1 => v,
        2 => x + v,
        3 => x + (modulus(width) - v),
        4 => x * v,
        5 => x / v,
        6 => modulus(width) - x,
        7 => x & v,
        8 => x | v,
        9 => x ^ v,
        10 => shift_left(width, x, v),
        _ => shift_right(width, x, v),
    }
}

/// The result of an operation on the number `x` that stands at its place.
fn result_of(op: &PatchOp, x: u64) -> u64
    requires right { is_op op.now ≡ true }
    requires number { x < 2 ^ width op.now }
    ensures value { result ≡ operation_result op.now x }
    ensures bound { result < 2 ^ width op.now }
{
    let op = *op;
    let width = 8 * u32::from(op.length);
    let modulus = modulus(width);
    let value = u128::from(op.value) % modulus;
    (work(op.mode, width, u128::from(x), value) % modulus) as u64
}

/// Does an operation on a packet, where its bytes are inside.
fn patch_by(packet: &mut [u8], op: &PatchOp)
    requires { is_op op.now ≡ true }
    ensures { packet.new ≡ patch_by packet.old op.now }
{
    let start = op.offset as usize;
    let len = op.length as usize;
    if start + len <= packet.len() {
        let field = &mut packet[start..start + len];
        let x = BigEndian::read_uint(field, len);
        BigEndian::write_uint(field, result_of(op, x), len);
    }
}

/// Does operations on a packet, in order.
fn patch_all(packet: &mut [u8], ops: &Operations)
    ensures { packet.new ≡ fold patch_by packet.old ops.now }
{
    for op in ops.as_slice() {
        patch_by(packet, op);
    }
}

impl PatchPlan {
    /// A packet that comes by a hook.
    fn work_by(
        &self,
        alloc: Global,
        hook: &Name,
        packet: &Packet,
        outcome: &mut Outcome,
    ) -> Result<(), NoMemory>
        requires { outcome.old ≡ nothing }
        ensures { OnOk result (outcome.new ≡ patches self.now.hooks self.now.ops (Door.Hook hook.now) packet.now) }
    {
        if is_named(hook, b"out") {
            return send_by(outcome, &self.hooks, &in_hook(), packet);
        }
        let mut bytes = Vec::from_slice(alloc, packet.bytes())?;
        patch_all(bytes.as_mut_slice(), &self.ops);
        let patched = Packet::new(alloc, &bytes)?;
        let out = out_hook();
        if self.hooks.has(&out) {
            send(outcome, &out, &patched)
        } else {
            send_by(outcome, &self.hooks, &in_hook(), &patched)
        }
    }

    /// What becomes of a packet.
    pub fn work(
        &self,
        alloc: Global,
        door: &Door,
        packet: &Packet,
        outcome: &mut Outcome,
    ) -> Result<(), NoMemory>
        requires { outcome.old ≡ nothing }
        ensures { OnOk result (outcome.new ≡ patches self.now.hooks self.now.ops door.now packet.now) }
    {
        match door {
            Door::Hook(hook) => self.work_by(alloc, hook, packet, outcome),
            Door::Wire => Ok(()),
        }
    }
}
