// The operations of a patch node, and their bytes in messages.
ghost use Rattle.std.specs.Prelude.{◌≡◌, ◌≤◌, ◌-◌, ◌*◌, ◌/◌, ◌%◌, ◌^◌, ◌==◌, ◌&&◌, ◌++◌, [], false, true, length, drop, flat_map, IfOk, OnOk, MatchOption, Some, None};
ghost use Rattle.std.specs.List.{list_all};
ghost use Rattle.ng_machine.specs.Errors.{einval};
ghost use Rattle.ng_machine.specs.kinds.Patch.{is_op, has_ops, op_bytes, op_in, ops_bytes, ops_in, ops_of, ops_refusals, width};
ghost use Rattle.ng_machine.specs.Words.{first_refusal};
ghost use Rattle.ng_filter_types.specs.patch.Operations.{AreOps};

use ng_base::{Bytes, NoMemory, Sequence};
use ng_machine::PatchOp;
use ng_message::{put_u16, put_u32, put_u64, u16_at, u32_at, u64_at};
use std::alloc::Global;
use std::marker::Model;

/// The most operations of a node.
const MAX_OPS: usize = 128;

/// The bytes of a count and of flags, which stand before the operations of a message.
const HEAD_LEN: usize = 8;

/// The bytes of an operation in a message.
const OP_LEN: usize = 16;

/// The mode of a division (`NG_PATCH_MODE_DIV`).
const DIVIDE: u16 = 5;

/// The number of modes, from 1 on.
const MODES: u16 = 11;

/// The operations of a patch node, each of which can be done, and at most 128. A contract sees them as a list.
#[derive(Drop)]
pub struct Operations {
    list: Vec<PatchOp>,
}

impl Model for Operations {
    ghost use Rattle.std.specs.Prelude.{List};
    ghost use Rattle.ng_machine.specs.declared.plan.PatchOp.{PatchOp};
    ghost use Rattle.ng_filter_types.specs.patch.Operations.{AreOps};

    ghost Value = { List PatchOp };

    ghost view = { λ o. o.list.items };

    ghost invariant = { λ o. AreOps o.list.items };
}

/// Whether an operation divides by a value that is 0 in the operation's bits.
fn divides_by_zero(op: &PatchOp) -> bool
    requires { op.now.length ≤ 8 }
    ensures { result ≡ (op.now.mode == 5 && op.now.value % 2 ^ width op.now == 0) }
{
    let op = *op;
    let modulus = 1u128 << (8 * u32::from(op.length));
    op.mode == DIVIDE && u128::from(op.value) % modulus == 0
}

/// Whether an operation can be done: on 1, 2, 4 or 8 bytes, by one of the modes, and not as a division by 0.
fn can_be_done(op: &PatchOp) -> bool
    ensures { result ≡ is_op op.now }
{
    let PatchOp { length, mode, .. } = *op;
    (length == 1 || length == 2 || length == 4 || length == 8)
        && (1 <= mode && mode <= MODES)
        && !divides_by_zero(op)
}

/// The operation that stands at the start of bytes.
fn op_in(field: &[u8]) -> PatchOp
    requires { 16 ≤ length field.now }
    ensures { result ≡ op_in field.now }
{
    PatchOp {
        offset: u32_at(field, 0),
        length: u16_at(field, 4),
        mode: u16_at(field, 6),
        value: u64_at(field, 8),
    }
}

/// The bytes from a place on.
fn bytes_from(bytes: &[u8], at: usize) -> &[u8]
    requires { at ≤ length bytes.now }
    ensures { result.now ≡ drop at bytes.now }
{
    &bytes[at..]
}

/// So many operations, one behind another.
#[tactic(auto, using(crate::proofs::patch::Reading::few))]
fn ops_in(alloc: Global, count: usize, fields: &[u8]) -> Result<Vec<PatchOp>, NoMemory>
    requires { 16 * count ≤ length fields.now }
    ensures same { IfOk result (λ list. list.items ≡ ops_in count fields.now) }
    ensures len { IfOk result (λ list. length list.items ≡ count) }
{
    let mut list = Vec::new(alloc);
    for place in 0..count {
        list.push(op_in(bytes_from(fields, OP_LEN * place)))?;
    }
    Ok(list)
}

/// How many operations the arguments hold, where they are a count of at most 128, flags, and so many operations.
fn count_in(args: &[u8]) -> Option<usize>
    ensures { MatchOption result
        (has_ops args.now ≡ false)
        (λ count. (has_ops args.now ≡ true) × (8 ≤ length args.now) × (count ≡ (length args.now - 8) / 16) × (count ≤ 128)) }
{
    if args.len() < HEAD_LEN {
        return None;
    }
    let count = u32_at(args, 0) as usize;
    if args.len() == HEAD_LEN + OP_LEN * count && count <= MAX_OPS {
        Some(count)
    } else {
        None
    }
}

/// Whether each operation can be done.
fn can_all_be_done(ops: &[PatchOp]) -> bool
    ensures { result ≡ list_all is_op ops.now }
{
    ops.iter().all(|op| can_be_done(op))
}

/// Operations as those of a node, unless one can't be done.
fn as_operations(list: Vec<PatchOp>) -> Option<Operations>
    requires { length list.items ≤ 128 }
    ensures { MatchOption result
        (list_all is_op list.items ≡ false)
        (λ ops. (list_all is_op list.items ≡ true) × (ops ≡ list.items)) }
{
    if can_all_be_done(&list) {
        Some(Operations { list })
    } else {
        None
    }
}

fn put_op(out: &mut Vec<u8>, op: &PatchOp) -> Result<(), NoMemory>
    ensures { OnOk result (out.new.items ≡ out.old.items ++ op_bytes op.now) }
{
    put_u32(out, op.offset)?;
    put_u16(out, op.length)?;
    put_u16(out, op.mode)?;
    put_u64(out, op.value)?;
    Ok(())
}

fn put_ops(out: &mut Vec<u8>, ops: &[PatchOp]) -> Result<(), NoMemory>
    ensures { OnOk result (out.new.items ≡ out.old.items ++ flat_map op_bytes ops.now) }
{
    for op in ops {
        put_op(out, op)?;
    }
    Ok(())
}

impl Operations {
    /// No operations. It takes no memory.
    pub fn new(alloc: Global) -> Operations
        ensures { result ≡ [] }
    {
        Operations {
            list: Vec::new(alloc),
        }
    }

    /// The operations in the arguments of `setconfig`, or `None` where the message is refused: where the arguments are
    /// no count of at most 128 with so many operations, where flags are set, or where an operation can't be done.
    ///
    /// # Errors
    /// `NoMemory` where memory ran out, and for nothing else.
    #[tactic(auto, using(crate::proofs::patch::Reading::not_counted, crate::proofs::patch::Reading::flagged, crate::proofs::patch::Reading::undoable, crate::proofs::patch::Reading::doable))]
    pub fn read(alloc: Global, args: &[u8]) -> Result<Option<Operations>, NoMemory>
        ensures { IfOk result (λ read. MatchOption read
            (first_refusal (ops_refusals [] args.now) ≡ Some einval)
            (λ ops. (first_refusal (ops_refusals [] args.now) ≡ None) × (ops ≡ ops_of args.now))) }
    {
        let Some(count) = count_in(args) else {
            return Ok(None);
        };
        if u32_at(args, 4) != 0 {
            return Ok(None);
        }
        let list = ops_in(alloc, count, bytes_from(args, HEAD_LEN))?;
        Ok(as_operations(list))
    }

    /// A copy of the operations, as a plan holds them.
    ///
    /// # Errors
    /// `NoMemory` where memory ran out, and for nothing else.
    pub fn copy(&self, alloc: Global) -> Result<Sequence<PatchOp>, NoMemory>
        ensures same { IfOk result (λ ops. ops ≡ self.now) }
        ensures right { list_all is_op self.now ≡ true }
    {
        Ok(Sequence::from_vec(Vec::from_slice(alloc, &self.list)?))
    }

    /// The operations as `struct ng_patch_config` of the manual page.
    ///
    /// # Errors
    /// `NoMemory` where memory ran out, and for nothing else.
    pub fn bytes(&self, alloc: Global) -> Result<Bytes, NoMemory>
        ensures { IfOk result (λ bytes. bytes ≡ ops_bytes self.now) }
    {
        let mut out = Vec::new(alloc);
        put_u32(&mut out, self.list.len() as u32)?;
        put_u32(&mut out, 0)?;
        put_ops(&mut out, &self.list)?;
        Ok(Bytes(out))
    }
}
