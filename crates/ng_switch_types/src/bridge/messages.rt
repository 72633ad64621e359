// The messages of ng_bridge(4).
ghost use Rattle.std.specs.Prelude.{◌≡◌, ℕ, ◌≤◌, ◌++◌, IfOk, MatchResult, OnOk, length};
ghost use Rattle.ng_machine.specs.kinds.Bridge as machine;
ghost use Rattle.ng_machine.specs.kinds.Bridge.{bridge_config_bytes, bridge_config_in, bridge_message, hosts_bytes, by_link};
ghost use Rattle.ng_machine.specs.Counters.{row_bytes};
ghost use Rattle.ng_machine.specs.Outcome.{Reply, answers, refuses, with_length};
ghost use Rattle.std.specs.Prelude.{Bool, if◌then◌else◌};
ghost use Rattle.ng_machine.specs.Outcome.{fails, nothing};
ghost use Rattle.ng_machine.specs.Errors.{einval};
ghost use Rattle.ng_machine.specs.Outcome.{sets};
ghost use Rattle.ng_machine.specs.kinds.Bridge.{bridge_clear};
ghost use Rattle.ng_machine.specs.declared.outcome.Outcome.{Outcome as OutcomeData};

use crate::bridge::bridge::Bridge;
use crate::bridge::link::Link;
use ng_base::{Bytes, Errno, NoMemory};
use ng_machine::Outcome;
use ng_message::{put_u32, u32_at};
use ng_plan::{BridgeConfig, answers, fails, nothing};
use std::alloc::Global;

/// `NGM_BRIDGE_SET_CONFIG` and the other numbers of ng_bridge(4), with the bits that say that a message changes nothing
/// (0x1000_0000) and that it has an answer (0x2000_0000).
const SET_CONFIG: u32 = 1;

const GET_CONFIG: u32 = 0x3000_0002;

const RESET: u32 = 3;

const GET_STATS: u32 = 0x2000_0004;

const CLEAR_STATS: u32 = 5;

const GET_AND_CLEAR_STATS: u32 = 0x2000_0006;

const GET_TABLE: u32 = 0x2000_0007;

const SET_PERSISTENT: u32 = 8;

/// The bytes of a configuration.
const CONFIG_LEN: usize = 16;

/// The bytes of a link's number.
const LINK_LEN: usize = 4;

/// The most links of a bridge.
const MAX_LINKS: u32 = 32;

/// The configuration that arguments are.
fn config_in(args: &[u8]) -> BridgeConfig
    requires { length args.now ≡ 16 }
    ensures { result ≡ bridge_config_in args.now }
{
    BridgeConfig {
        debug_level: args[0],
        loop_timeout: u32_at(args, 4),
        max_staleness: u32_at(args, 8),
        min_stable_age: u32_at(args, 12),
    }
}

/// The link that arguments name by its number.
///
/// # Errors
/// `EINVAL` where they are no number, or one above 31; `ENOTCONN` where the bridge has no such hook.
fn link_in<'a>(bridge: &'a Bridge, args: &[u8]) -> Result<&'a Link, Errno>
    ensures { MatchResult result
        (λ link. (reply : machine.Link → Reply machine.Bridge) → by_link bridge.now args.now reply ≡ reply link.now)
        (λ errno. (reply : machine.Link → Reply machine.Bridge) → by_link bridge.now args.now reply ≡ refuses bridge.now errno) }
{
    if args.len() != LINK_LEN {
        return Err(Errno::INVAL);
    }
    let number = u32_at(args, 0);
    if number >= MAX_LINKS {
        return Err(Errno::INVAL);
    }
    match bridge.link(number as u8) {
        Some(link) => Ok(link),
        None => Err(Errno::NOTCONN),
    }
}

/// A message that is taken where its arguments have the right length.
fn take(alloc: Global, is_right: bool) -> Outcome
    ensures { result ≡ (if is_right then nothing else fails einval) }
{
    if is_right {
        nothing(alloc)
    } else {
        fails(alloc, Errno::INVAL)
    }
}

/// The answer to `NGM_BRIDGE_GET_CONFIG`.
fn get_config(alloc: Global, bridge: &Bridge, args: &[u8]) -> Result<Outcome, NoMemory>
    ensures { IfOk result (λ outcome.
        outcome ≡ (with_length bridge.now 0 args.now (answers bridge.now (bridge_config_bytes bridge.now.config))).outcome) }
{
    if !args.is_empty() {
        return Ok(fails(alloc, Errno::INVAL));
    }
    let config = bridge.config();
    let mut out = Vec::from_slice(alloc, &[config.debug_level, 0, 0, 0])?;
    put_u32(&mut out, config.loop_timeout)?;
    put_u32(&mut out, config.max_staleness)?;
    put_u32(&mut out, config.min_stable_age)?;
    Ok(answers(alloc, Bytes(out)))
}

/// The answer to `NGM_BRIDGE_GET_TABLE`: how many hosts there are, and each.
fn get_table(alloc: Global, bridge: &Bridge, args: &[u8]) -> Result<Outcome, NoMemory>
    ensures { IfOk result (λ outcome.
        outcome ≡ (with_length bridge.now 0 args.now (answers bridge.now (hosts_bytes bridge.now.hosts))).outcome) }
{
    if !args.is_empty() {
        return Ok(fails(alloc, Errno::INVAL));
    }
    let mut out = Vec::new(alloc);
    let hosts = bridge.hosts();
    put_u32(&mut out, hosts.len() as u32)?;
    hosts.put_rows(&mut out)?;
    Ok(answers(alloc, Bytes(out)))
}

/// The answer to `NGM_BRIDGE_GET_STATS` and `NGM_BRIDGE_GETCLR_STATS`.
fn get_stats(alloc: Global, bridge: &Bridge, args: &[u8]) -> Result<Outcome, NoMemory>
    ensures { (after : machine.Link → machine.Bridge) → IfOk result (λ outcome.
        outcome ≡ (by_link bridge.now args.now (λ l. answers (after l) (row_bytes l.counters))).outcome) }
{
    match link_in(bridge, args) {
        Ok(link) => {
            let mut out = Vec::new(alloc);
            link.put_counters(&mut out)?;
            Ok(answers(alloc, Bytes(out)))
        }
        Err(errno) => Ok(fails(alloc, errno)),
    }
}

/// Whether `NGM_BRIDGE_CLR_STATS` is taken.
fn allow_clear(alloc: Global, bridge: &Bridge, args: &[u8]) -> Outcome
    ensures { (after : machine.Link → machine.Bridge) → result ≡ (by_link bridge.now args.now (λ l. sets (after l))).outcome }
{
    match link_in(bridge, args) {
        Ok(_) => nothing(alloc),
        Err(errno) => fails(alloc, errno),
    }
}

/// What a message is answered.
///
/// # Errors
/// `NoMemory` where memory ran out, and for nothing else.
pub fn reply(alloc: Global, bridge: &Bridge, number: u32, args: &[u8]) -> Result<Outcome, NoMemory>
    ensures { IfOk result (λ outcome. outcome ≡ (bridge_message bridge.now number args.now).outcome) }
{
    match number {
        SET_CONFIG => Ok(take(alloc, args.len() == CONFIG_LEN)),
        GET_CONFIG => get_config(alloc, bridge, args),
        RESET => Ok(take(alloc, args.is_empty())),
        GET_STATS => get_stats(alloc, bridge, args),
        CLEAR_STATS => Ok(allow_clear(alloc, bridge, args)),
        GET_AND_CLEAR_STATS => get_stats(alloc, bridge, args),
        GET_TABLE => get_table(alloc, bridge, args),
        SET_PERSISTENT => Ok(take(alloc, args.is_empty())),
        _ => Ok(fails(alloc, Errno::INVAL)),
    }
}

/// Sets the counters of the link that arguments name to 0.
fn clear_stats(bridge: &mut Bridge, args: &[u8])
    ensures { (outcome : machine.Link → OutcomeData) → bridge.new ≡ (by_link bridge.old args.now (λ l. record { after = bridge_clear bridge.old l; outcome = outcome l })).after }
{
    if let Ok(link) = link_in(bridge, args) {
        let number = link.number();
        bridge.clear(number);
    }
}

/// What a message makes of the bridge.
pub fn obey(bridge: &mut Bridge, number: u32, args: &[u8])
    ensures { bridge.new ≡ (bridge_message bridge.old number args.now).after }
{
    match number {
        SET_CONFIG => {
            if args.len() == CONFIG_LEN {
                bridge.set_config(config_in(args));
            }
        }
        RESET => {
            if args.is_empty() {
                bridge.reset();
            }
        }
        CLEAR_STATS => clear_stats(bridge, args),
        GET_AND_CLEAR_STATS => clear_stats(bridge, args),
        SET_PERSISTENT => {
            if args.is_empty() {
                bridge.persist();
            }
        }
        _ => {}
    }
}
