// The messages of ng_bpf(4).
ghost use Rattle.std.specs.Prelude.{◌≡◌, ◌≢◌, List, IfOk, OnErr, OnOk};
ghost use Rattle.ng_filter_types.specs.bpf.Filters.{hooks_of};
ghost use Rattle.ng_machine.specs.kinds.Bpf.{Filter as FilterData, bpf_clear, bpf_message, of_hook, set_program, way_bytes};
ghost use Rattle.ng_machine.specs.Counters.{row_bytes};
ghost use Rattle.ng_machine.specs.Outcome.{answers, sets};
ghost use Rattle.ng_machine.specs.declared.outcome.Outcome.{Outcome as OutcomeData};

use crate::bpf::arguments::{filter_in, read_way};
use crate::bpf::filters::Filters;
use ng_base::{Bytes, Errno, NoMemory};
use ng_machine::Outcome;
use ng_message::{HAS_ANSWER, READ_ONLY};
use ng_plan::{answers, fails, nothing};
use std::alloc::Global;

/// `NGM_BPF_SET_PROGRAM`.
const SET_PROGRAM: u32 = 1;

/// `NGM_BPF_GET_PROGRAM`.
const GET_PROGRAM: u32 = READ_ONLY + HAS_ANSWER + 2;

/// `NGM_BPF_GET_STATS`.
const GET_STATS: u32 = HAS_ANSWER + 3;

/// `NGM_BPF_CLR_STATS`.
const CLEAR_STATS: u32 = 4;

/// `NGM_BPF_GETCLR_STATS`.
const GET_AND_CLEAR_STATS: u32 = HAS_ANSWER + 5;

/// Works on `setprogram`.
fn set_program(alloc: Global, filters: &mut Filters, args: &[u8]) -> Result<Outcome, NoMemory>
    ensures after { OnOk result (filters.new ≡ (set_program filters.old args.now).after) }
    ensures outcome { IfOk result (λ outcome. outcome ≡ (set_program filters.old args.now).outcome) }
    ensures err { OnErr result (filters.new ≡ filters.old) }
    ensures hooks { hooks_of filters.new ≡ hooks_of filters.old }
{
    match read_way(alloc, filters, args)? {
        Ok(way) => {
            filters.set_way(way);
            Ok(nothing(alloc))
        }
        Err(errno) => Ok(fails(alloc, errno)),
    }
}

/// The answer to `getprogram`.
fn get_program(alloc: Global, filters: &Filters, args: &[u8]) -> Result<Outcome, NoMemory>
    ensures { IfOk result (λ outcome.
        outcome ≡ (of_hook filters.now args.now (λ f. answers filters.now (way_bytes f.way))).outcome) }
{
    match filter_in(filters, args) {
        Ok(filter) => {
            let mut out = Vec::new(alloc);
            filter.put_program(&mut out)?;
            Ok(answers(alloc, Bytes(out)))
        }
        Err(errno) => Ok(fails(alloc, errno)),
    }
}

/// The answer to `getstats` and `getclrstats`.
fn get_stats(alloc: Global, filters: &Filters, args: &[u8]) -> Result<Outcome, NoMemory>
    ensures { (after : FilterData → List FilterData) → IfOk result (λ outcome.
        outcome ≡ (of_hook filters.now args.now (λ f. answers (after f) (row_bytes f.counters))).outcome) }
{
    match filter_in(filters, args) {
        Ok(filter) => {
            let mut out = Vec::new(alloc);
            filter.put_counters(&mut out)?;
            Ok(answers(alloc, Bytes(out)))
        }
        Err(errno) => Ok(fails(alloc, errno)),
    }
}

/// Whether `clrstats` is taken.
fn allow_clear(alloc: Global, filters: &Filters, args: &[u8]) -> Outcome
    ensures { (after : FilterData → List FilterData) → result ≡ (of_hook filters.now args.now (λ f. sets (after f))).outcome }
{
    match filter_in(filters, args) {
        Ok(_) => nothing(alloc),
        Err(errno) => fails(alloc, errno),
    }
}

/// What a message other than `setprogram` is answered.
///
/// # Errors
/// `NoMemory` where memory ran out, and for nothing else.
pub fn reply(
    alloc: Global,
    filters: &Filters,
    number: u32,
    args: &[u8],
) -> Result<Outcome, NoMemory>
    requires { number ≢ 1 }
    ensures { IfOk result (λ outcome. outcome ≡ (bpf_message filters.now number args.now).outcome) }
{
    match number {
        GET_PROGRAM => get_program(alloc, filters, args),
        GET_STATS => get_stats(alloc, filters, args),
        CLEAR_STATS => Ok(allow_clear(alloc, filters, args)),
        GET_AND_CLEAR_STATS => get_stats(alloc, filters, args),
        _ => Ok(fails(alloc, Errno::INVAL)),
    }
}

/// Sets the counters of the hook that arguments name to 0.
fn clear_stats(filters: &mut Filters, args: &[u8])
    ensures cleared { (outcome : FilterData → OutcomeData)
        → filters.new ≡ (of_hook filters.old args.now (λ f. record { after = bpf_clear filters.old f; outcome = outcome f })).after }
    ensures hooks { hooks_of filters.new ≡ hooks_of filters.old }
{
    match filter_in(filters, args) {
        Ok(filter) => {
            let hook = filter.hook();
            filters.clear(&hook);
        }
        Err(_) => {}
    }
}

/// What a message other than `setprogram` makes of the hooks. It takes no memory.
fn change(filters: &mut Filters, number: u32, args: &[u8])
    requires { number ≢ 1 }
    ensures after { filters.new ≡ (bpf_message filters.old number args.now).after }
    ensures hooks { hooks_of filters.new ≡ hooks_of filters.old }
{
    match number {
        CLEAR_STATS => clear_stats(filters, args),
        GET_AND_CLEAR_STATS => clear_stats(filters, args),
        _ => {}
    }
}

/// Works on a message.
///
/// # Errors
/// `NoMemory` where memory ran out, and for nothing else; the hooks are then as before.
pub fn obey(
    alloc: Global,
    filters: &mut Filters,
    number: u32,
    args: &[u8],
) -> Result<Outcome, NoMemory>
    ensures after { OnOk result (filters.new ≡ (bpf_message filters.old number args.now).after) }
    ensures outcome { IfOk result (λ outcome. outcome ≡ (bpf_message filters.old number args.now).outcome) }
    ensures err { OnErr result (filters.new ≡ filters.old) }
    ensures hooks { hooks_of filters.new ≡ hooks_of filters.old }
{
    if number == SET_PROGRAM {
        return set_program(alloc, filters, args);
    }
    let outcome = reply(alloc, filters, number, args)?;
    change(filters, number, args);
    Ok(outcome)
}
