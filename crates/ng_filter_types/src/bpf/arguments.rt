// What stands in the arguments of a bpf node's messages.
ghost use Rattle.std.specs.Prelude.{◌≡◌, ◌≤◌, ◌+◌, ◌*◌, ◌-◌, ◌/◌, [], ◌∷◌, false, true, drop, is_some, length, List, IfOk, MatchOption, MatchResult, None, Some};
ghost use Rattle.ng_base.specs.Name.{is_name};
ghost use Rattle.ng_bpf_vm.specs.Validity.{first_fault};
ghost use Rattle.ng_machine.specs.Arguments.{text_at};
ghost use Rattle.ng_machine.specs.kinds.Bpf.{Filter as FilterData, has_filter, has_program, insn_in, insns_in, is_target, of_hook, program_in, program_refusals, target_of, way_in};
ghost use Rattle.ng_machine.specs.Errors.{einval};
ghost use Rattle.ng_machine.specs.Outcome.{Reply, refuses};
ghost use Rattle.ng_machine.specs.Words.{first_refusal};

use crate::bpf::filter::Filter;
use crate::bpf::filters::Filters;
use ng_base::{Errno, Name, NoMemory};
use ng_bpf_vm::{BadProgram, Insn, MAX_INSNS, Program, validate};
use ng_machine::BpfWay;
use ng_message::{NAME_LEN, name_at, u16_at, u32_at};
use std::alloc::Global;

/// Where the target of packets that match stands in `struct ng_bpf_hookprog`.
const IF_MATCH_AT: usize = NAME_LEN;

/// Where the target of the other packets stands.
const IF_NOT_MATCH_AT: usize = 2 * NAME_LEN;

/// Where the number of instructions stands.
const COUNT_AT: usize = 3 * NAME_LEN;

/// Where the instructions stand.
const INSNS_AT: usize = COUNT_AT + 4;

/// The bytes of an instruction.
const INSN_LEN: usize = 8;

/// The hook of `struct ng_bpf_hookprog` and its two targets.
#[derive(Clone, Copy)]
struct Targets {
    hook: Name,
    if_match: Option<Name>,
    if_not_match: Option<Name>,
}

/// The instruction that stands at the start of bytes.
fn insn_in(field: &[u8]) -> Insn
    requires { 8 ≤ length field.now }
    ensures { result ≡ insn_in field.now }
{
    Insn {
        code: u16_at(field, 0),
        jt: field[2],
        jf: field[3],
        k: u32_at(field, 4),
    }
}

/// The bytes from a place on.
fn bytes_from(bytes: &[u8], at: usize) -> &[u8]
    requires { at ≤ length bytes.now }
    ensures { result.now ≡ drop at bytes.now }
{
    &bytes[at..]
}

/// So many instructions, one behind another.
fn insns_in(alloc: Global, count: usize, fields: &[u8]) -> Result<Vec<Insn>, NoMemory>
    requires { 8 * count ≤ length fields.now }
    ensures { IfOk result (λ list. list.items ≡ insns_in count fields.now) }
{
    let mut list = Vec::new(alloc);
    for place in 0..count {
        list.push(insn_in(bytes_from(fields, INSN_LEN * place)))?;
    }
    Ok(list)
}

/// How many instructions the arguments hold, where they are as long as a `struct ng_bpf_hookprog` with as many as it
/// says, at most 512.
fn count_in(args: &[u8]) -> Option<usize>
    ensures { MatchOption result
        (has_program args.now ≡ false)
        (λ count. (has_program args.now ≡ true) × (100 ≤ length args.now) × (count ≡ (length args.now - 100) / 8) × (8 * count ≤ length args.now - 100)) }
{
    if args.len() < INSNS_AT {
        return None;
    }
    let count = u32_at(args, COUNT_AT) as usize;
    if args.len() == INSNS_AT + INSN_LEN * count && count <= MAX_INSNS {
        Some(count)
    } else {
        None
    }
}

/// The name in the first 32 bytes, unless what stands there is no name.
fn hook_in(args: &[u8]) -> Option<Name>
    requires { 32 ≤ length args.now }
    ensures { MatchOption result
        (is_name (text_at args.now 0) ≡ false)
        (λ hook. (is_name (text_at args.now 0) ≡ true) × (hook ≡ text_at args.now 0)) }
{
    match name_at(args, 0) {
        Ok(hook) => hook,
        Err(_) => None,
    }
}

/// The target that stands at a place, which may be empty, unless what stands there is no name.
fn target_in(args: &[u8], at: usize) -> Option<Option<Name>>
    requires { at + 32 ≤ length args.now }
    ensures { MatchOption result
        (is_target (text_at args.now at) ≡ false)
        (λ target. (is_target (text_at args.now at) ≡ true) × (target ≡ target_of (text_at args.now at))) }
{
    match name_at(args, at) {
        Ok(target) => Some(target),
        Err(_) => None,
    }
}

/// The hook and the targets that arguments of `setprogram` name.
///
/// # Errors
/// `EINVAL` where the hook or a target isn't a name, and then `ENOENT` where the node has no such hook.
#[tactic(auto, using(crate::proofs::bpf::Refusals::not_named, crate::proofs::bpf::Refusals::no_match, crate::proofs::bpf::Refusals::no_other, crate::proofs::bpf::Refusals::not_there, crate::proofs::bpf::Refusals::named))]
fn targets_in(filters: &Filters, args: &[u8]) -> Result<Targets, Errno>
    requires whole { has_program args.now ≡ true }
    requires long { 100 ≤ length args.now }
    ensures { MatchResult result
        (λ t. (first_refusal (program_refusals filters.now args.now) ≡ first_refusal ((is_some (first_fault (program_in args.now)), einval) ∷ []))
        × (t.hook ≡ text_at args.now 0) × (t.if_match ≡ target_of (text_at args.now 32)) × (t.if_not_match ≡ target_of (text_at args.now 64)))
        (λ errno. first_refusal (program_refusals filters.now args.now) ≡ Some errno) }
{
    let Some(hook) = hook_in(args) else {
        return Err(Errno::INVAL);
    };
    let Some(if_match) = target_in(args, IF_MATCH_AT) else {
        return Err(Errno::INVAL);
    };
    let Some(if_not_match) = target_in(args, IF_NOT_MATCH_AT) else {
        return Err(Errno::INVAL);
    };
    if !filters.has(&hook) {
        return Err(Errno::NOENT);
    }
    Ok(Targets {
        hook,
        if_match,
        if_not_match,
    })
}

/// The program of instructions, unless they are not a valid one.
fn program_of(alloc: Global, insns: &[Insn]) -> Result<Option<Program>, NoMemory>
    ensures { IfOk result (λ found. MatchOption found
        (is_some (first_fault insns.now) ≡ true)
        (λ program. (is_some (first_fault insns.now) ≡ false) × (program ≡ insns.now) × (length program ≤ 512))) }
{
    match validate(alloc, insns) {
        Ok(program) => Ok(Some(program)),
        Err(BadProgram::Bad { .. }) => Ok(None),
        Err(BadProgram::NoMemory) => Err(NoMemory),
    }
}

/// What `setprogram` is to set at a hook, or why the message is refused: `EINVAL` where its arguments have a wrong
/// length, or one of its three names is none; then `ENOENT` where the node has no such hook; then `EINVAL` where the
/// program isn't valid.
///
/// # Errors
/// `NoMemory` where memory ran out, and for nothing else.
#[tactic(auto, using(crate::proofs::bpf::Refusals::not_whole, crate::proofs::bpf::Refusals::faulty, crate::proofs::bpf::Refusals::faultless))]
pub fn read_way(
    alloc: Global,
    filters: &Filters,
    args: &[u8],
) -> Result<Result<BpfWay, Errno>, NoMemory>
    ensures { IfOk result (λ read. MatchResult read
        (λ way. (first_refusal (program_refusals filters.now args.now) ≡ None) × (way ≡ way_in args.now) × (length way.program ≤ 512))
        (λ errno. first_refusal (program_refusals filters.now args.now) ≡ Some errno)) }
{
    let Some(count) = count_in(args) else {
        return Ok(Err(Errno::INVAL));
    };
    let targets = match targets_in(filters, args) {
        Ok(targets) => targets,
        Err(errno) => return Ok(Err(errno)),
    };
    let insns = insns_in(alloc, count, bytes_from(args, INSNS_AT))?;
    match program_of(alloc, &insns)? {
        Some(program) => Ok(Ok(BpfWay {
            hook: targets.hook,
            program,
            if_match: targets.if_match,
            if_not_match: targets.if_not_match,
        })),
        None => Ok(Err(Errno::INVAL)),
    }
}

/// What there is of the hook that arguments name.
///
/// # Errors
/// `EINVAL` where they are no name; `ENOENT` where the node has no such hook.
pub fn filter_in<'a>(filters: &'a Filters, args: &[u8]) -> Result<&'a Filter, Errno>
    ensures { MatchResult result
        (λ filter. (reply : FilterData → Reply (List FilterData)) → of_hook filters.now args.now reply ≡ reply filter.now)
        (λ errno. (reply : FilterData → Reply (List FilterData)) → of_hook filters.now args.now reply ≡ refuses filters.now errno) }
{
    if args.len() != NAME_LEN {
        return Err(Errno::INVAL);
    }
    match hook_in(args) {
        Some(hook) => filters.find(&hook).ok_or(Errno::NOENT),
        None => Err(Errno::INVAL),
    }
}
