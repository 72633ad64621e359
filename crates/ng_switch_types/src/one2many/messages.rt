// The messages of ng_one2many(4).
ghost use Rattle.std.specs.Prelude.{◌≡◌, ℕ, true, if◌then◌else◌, length, IfOk, List, MatchResult};
ghost use Rattle.ng_machine.specs.Counters.{row_bytes};
ghost use Rattle.ng_machine.specs.declared.outcome.Outcome.{Outcome as OutcomeData};
ghost use Rattle.ng_machine.specs.kinds.One2many as machine;
ghost use Rattle.ng_machine.specs.kinds.One2many.{by_link, config_bytes, link_hook, many_clear, one2many_message, set_config, with_config};
ghost use Rattle.ng_machine.specs.Outcome.{Reply, answers, invalid, refuses, sets, with_length};
ghost use Rattle.ng_switch_types.specs.one2many.Node.{names_of};

use crate::one2many::one2many::{FAILOVER, MANUAL, One2many, ROUND_ROBIN};
use crate::one2many::rows::{Row, put_counters};
use ng_base::{Bytes, Errno, Name, NoMemory};
use ng_machine::Outcome;
use ng_message::u32_at;
use ng_plan::{answers, fails, many, nothing, one};
use std::alloc::Global;

/// `NGM_ONE2MANY_SET_CONFIG` and the other numbers of ng_one2many(4), with the bits that say that a message changes nothing
/// (0x1000_0000) and that it has an answer (0x2000_0000).
const SET_CONFIG: u32 = 1;

const GET_CONFIG: u32 = 0x3000_0002;

const GET_STATS: u32 = 0x2000_0003;

const CLEAR_STATS: u32 = 4;

const GET_AND_CLEAR_STATS: u32 = 0x2000_0005;

/// The bytes of a configuration.
const CONFIG_LEN: usize = 72;

/// The bytes of a link's number.
const LINK_LEN: usize = 4;

/// The number of links.
const LINKS: u32 = 64;

/// -1, which stands for `one` where links are numbers.
const ONE: u32 = u32::MAX;

/// Whether arguments are a configuration that is taken.
fn is_config(args: &[u8]) -> bool
    ensures long { result ≡ true → length args.now ≡ 72 }
    ensures taken { (s : machine.One2many) → with_length s 72 args.now (set_config s args.now) ≡ (if result then sets (with_config s args.now) else invalid s) }
{
    if args.len() != CONFIG_LEN {
        return false;
    }
    let algorithm = u32_at(args, 0);
    let failure = u32_at(args, 4);
    ROUND_ROBIN <= algorithm && algorithm <= FAILOVER && failure == MANUAL
}

/// The hook of a link's number.
fn hook_of(number: u32) -> Option<Name>
    ensures { result ≡ link_hook number }
{
    if number == ONE {
        Some(one())
    } else if number < LINKS {
        Some(many(number as u8))
    } else {
        None
    }
}

/// The counters that arguments name by the number of a link.
///
/// # Errors
/// `EINVAL` where they are no number, or one outside -1 to 63; `ENOTCONN` where there is no such hook.
fn row_in<'a>(one2many: &'a One2many, args: &[u8]) -> Result<&'a Row, Errno>
    ensures { MatchResult result
        (λ row. (reply : List ℕ → List ℕ → Reply machine.One2many) → by_link one2many.now args.now reply ≡ reply row.now.0 row.now.1)
        (λ errno. (reply : List ℕ → List ℕ → Reply machine.One2many) → by_link one2many.now args.now reply ≡ refuses one2many.now errno) }
{
    if args.len() != LINK_LEN {
        return Err(Errno::INVAL);
    }
    let Some(hook) = hook_of(u32_at(args, 0)) else {
        return Err(Errno::INVAL);
    };
    match one2many.row(&hook) {
        Some(row) => Ok(row),
        None => Err(Errno::NOTCONN),
    }
}

/// Whether `NGM_ONE2MANY_SET_CONFIG` is taken.
fn allow_config(alloc: Global, args: &[u8]) -> Outcome
    ensures { (s : machine.One2many) → result ≡ (with_length s 72 args.now (set_config s args.now)).outcome }
{
    if is_config(args) {
        nothing(alloc)
    } else {
        fails(alloc, Errno::INVAL)
    }
}

/// The answer to `NGM_ONE2MANY_GET_CONFIG`.
fn get_config(alloc: Global, one2many: &One2many, args: &[u8]) -> Result<Outcome, NoMemory>
    ensures { IfOk result (λ outcome. outcome ≡ (with_length one2many.now 0 args.now (answers one2many.now (config_bytes one2many.now))).outcome) }
{
    if !args.is_empty() {
        return Ok(fails(alloc, Errno::INVAL));
    }
    let mut out = Vec::new(alloc);
    one2many.put_config(&mut out)?;
    Ok(answers(alloc, Bytes(out)))
}

/// The answer to `NGM_ONE2MANY_GET_STATS` and `NGM_ONE2MANY_GETCLR_STATS`.
fn get_stats(alloc: Global, one2many: &One2many, args: &[u8]) -> Result<Outcome, NoMemory>
    ensures { (after : List ℕ → machine.One2many) → IfOk result (λ outcome.
        outcome ≡ (by_link one2many.now args.now (λ hook row. answers (after hook) (row_bytes row))).outcome) }
{
    match row_in(one2many, args) {
        Ok(row) => {
            let mut out = Vec::new(alloc);
            put_counters(&mut out, &row.1)?;
            Ok(answers(alloc, Bytes(out)))
        }
        Err(errno) => Ok(fails(alloc, errno)),
    }
}

/// Whether `NGM_ONE2MANY_CLR_STATS` is taken.
fn allow_clear(alloc: Global, one2many: &One2many, args: &[u8]) -> Outcome
    ensures { (after : List ℕ → machine.One2many) → result ≡ (by_link one2many.now args.now (λ hook row. sets (after hook))).outcome }
{
    match row_in(one2many, args) {
        Ok(_) => nothing(alloc),
        Err(errno) => fails(alloc, errno),
    }
}

/// What a message is answered.
///
/// # Errors
/// `NoMemory` where memory ran out, and for nothing else.
pub fn reply(
    alloc: Global,
    one2many: &One2many,
    number: u32,
    args: &[u8],
) -> Result<Outcome, NoMemory>
    ensures { IfOk result (λ outcome. outcome ≡ (one2many_message one2many.now number args.now).outcome) }
{
    match number {
        SET_CONFIG => Ok(allow_config(alloc, args)),
        GET_CONFIG => get_config(alloc, one2many, args),
        GET_STATS => get_stats(alloc, one2many, args),
        CLEAR_STATS => Ok(allow_clear(alloc, one2many, args)),
        GET_AND_CLEAR_STATS => get_stats(alloc, one2many, args),
        _ => Ok(fails(alloc, Errno::INVAL)),
    }
}

/// Sets the counters of the link that arguments name to 0.
fn clear_stats(one2many: &mut One2many, args: &[u8])
    ensures after { (outcome : List ℕ → OutcomeData) → one2many.new ≡ (by_link one2many.old args.now (λ hook row. record { after = many_clear one2many.old hook; outcome = outcome row })).after }
    ensures hooks { names_of (one2many.new).rows ≡ names_of (one2many.old).rows }
{
    if let Ok(row) = row_in(one2many, args) {
        let hook = row.0;
        one2many.clear(&hook);
    }
}

/// What a message makes of the node. It takes no memory.
pub fn obey(one2many: &mut One2many, number: u32, args: &[u8])
    ensures after { one2many.new ≡ (one2many_message one2many.old number args.now).after }
    ensures hooks { names_of (one2many.new).rows ≡ names_of (one2many.old).rows }
{
    match number {
        SET_CONFIG => {
            if is_config(args) {
                one2many.set_config(args);
            }
        }
        CLEAR_STATS => clear_stats(one2many, args),
        GET_AND_CLEAR_STATS => clear_stats(one2many, args),
        _ => {}
    }
}
