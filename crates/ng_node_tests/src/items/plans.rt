// What becomes of packets by plans, and that plans are made where there is memory.
ghost use Rattle.std.specs.Prelude.{◌≡◌, IfOk};
ghost use Rattle.ng_plan.specs.Way.{IsWorkable};

use ng_base::{Kind, Name, Names, Packet, Sequence};
use ng_bpf_vm::{Insn, Program, validate};
use ng_plan::{
    BpfWay, BridgeConfig, BridgeHost, BridgeLink, Door, EtfWay, Outcome, PatchOp, Plan, VlanWay,
    Way, eval,
};
use std::alloc::Global;
use std::sync::Arc;
use std::test::Fail;

fn names(alloc: Global, texts: &[&[u8]]) -> Result<Names, Fail> {
    let mut names = Names::new(alloc);
    for text in texts {
        names.push(Name::read(text)?)?;
    }
    Ok(names)
}

// What becomes of bytes that come by a hook.
fn eval_by(alloc: Global, plan: &Plan, hook: &[u8], bytes: &[u8]) -> Result<Outcome, Fail> {
    let door = Door::Hook(Name::read(hook)?);
    let packet = Packet::new(alloc, bytes)?;
    Ok(eval(alloc, plan, &door, &packet)?)
}

// Whether these bytes go out of this hook, and nothing else goes out.
fn is_sent(outcome: &Outcome, hook: &[u8], bytes: &[u8]) -> bool {
    match outcome.sends.as_slice() {
        [(out, packet)] => out.bytes() == hook && packet.bytes() == bytes,
        _ => false,
    }
}

// Whether this is the whole of what is counted.
fn is_counted(outcome: &Outcome, counts: &[(&[u8], u64, u64)]) -> bool {
    let counted = outcome.counts.as_slice();
    counted.len() == counts.len()
        && counted.iter().zip(counts).all(|(one, other)| one.0.bytes() == other.0
            && one.1 == other.1
            && one.2 == other.2)
}

fn insn(code: u16, k: u32) -> Insn {
    Insn {
        code,
        jt: 0,
        jf: 0,
        k,
    }
}

// A bpf node whose hook x has a program that looks behind short packets, and so answers 0 for them.
fn bpf(alloc: Global) -> Result<Way, Fail>
    ensures { IfOk result IsWorkable }
{
    let mut hooks = Sequence::new(alloc);
    hooks.push(BpfWay {
        hook: Name::read(b"x")?,
        program: validate(alloc, &[insn(32, 100), insn(6, 1)])?,
        if_match: Some(Name::read(b"y")?),
        if_not_match: Some(Name::read(b"z")?),
    })?;
    for hook in [b"y", b"z"] {
        hooks.push(BpfWay {
            hook: Name::read(hook)?,
            program: validate(alloc, &[insn(6, 0)])?,
            if_match: None,
            if_not_match: None,
        })?;
    }
    Ok(Way::Bpf { hooks })
}

fn patch(alloc: Global) -> Result<Way, Fail>
    ensures { IfOk result IsWorkable }
{
    let mut ops = Sequence::new(alloc);
    ops.push(PatchOp {
        offset: 0,
        length: 1,
        mode: 2,
        value: 1,
    })?;
    ops.push(PatchOp {
        offset: 100,
        length: 4,
        mode: 1,
        value: 7,
    })?;
    Ok(Way::Patch {
        hooks: names(alloc, &[b"in", b"out"])?,
        ops,
    })
}

fn vlan(alloc: Global) -> Result<Way, Fail>
    ensures { IfOk result IsWorkable }
{
    let mut filters = Sequence::new(alloc);
    filters.push(VlanWay {
        vlan: 5,
        hook: Name::read(b"v5")?,
        pcp: 0,
        cfi: 0,
    })?;
    Ok(Way::Vlan {
        hooks: names(alloc, &[b"downstream", b"v5", b"nomatch"])?,
        kind: 0x8100,
        filters,
    })
}

#[test]
fn packets_go_by_a_program_operations_and_tags(rt: HostRuntime) -> Result<(), Fail> {
    let plan = Plan::share(rt.alloc(), bpf(rt.alloc())?)?;
    let outcome = eval_by(rt.alloc(), &plan, b"x", &[1, 2, 3])?;
    assert!(rt; is_sent(&outcome, b"z", &[1, 2, 3]));

    let plan = Plan::share(rt.alloc(), patch(rt.alloc())?)?;
    let outcome = eval_by(rt.alloc(), &plan, b"in", &[255, 2])?;
    assert!(rt; is_sent(&outcome, b"out", &[0, 2]));

    let tagged = [
        1, 2, 3, 4, 5, 6, 7, 8, 9, 10, 11, 12, 0x81, 0, 0x20, 5, 8, 0,
    ];
    let plain = [1, 2, 3, 4, 5, 6, 7, 8, 9, 10, 11, 12, 8, 0];
    let again = [1, 2, 3, 4, 5, 6, 7, 8, 9, 10, 11, 12, 0x81, 0, 0, 5, 8, 0];
    let plan = Plan::share(rt.alloc(), vlan(rt.alloc())?)?;
    let outcome = eval_by(rt.alloc(), &plan, b"downstream", &tagged)?;
    assert!(rt; is_sent(&outcome, b"v5", &plain));
    let outcome = eval_by(rt.alloc(), &plan, b"v5", &plain)?;
    assert!(rt; is_sent(&outcome, b"downstream", &again));
    Ok(())
}

#[test]
fn clones_of_a_plan_work_beside_each_other(rt: HostRuntime) -> Result<(), Fail> {
    let hooks = names(rt.alloc(), &[b"left", b"right"])?;
    let kind = Kind::Tee;
    let plan = Plan::share(rt.alloc(), Way::Ways { kind, hooks })?;
    let clone = Arc::try_clone(&plan)?;
    let second = eval_by(rt.alloc(), &clone, b"right", &[2, 3])?;
    let first = eval_by(rt.alloc(), &plan, b"left", &[1])?;
    assert!(rt; is_sent(&first, b"right", &[1]));
    assert!(rt; is_sent(&second, b"left", &[2, 3]));
    assert!(rt;
        is_counted(
            &first,
            &[
                (b"left", 1, 1),
                (b"left", 0, 1),
                (b"right", 3, 1),
                (b"right", 2, 1),
            ]
        )
    );
    assert!(rt;
        is_counted(
            &second,
            &[
                (b"right", 1, 1),
                (b"right", 0, 2),
                (b"left", 3, 1),
                (b"left", 2, 2),
            ]
        )
    );
    Ok(())
}

// Makes the plan of a way, and works out a frame that comes by a hook.
fn try_all(alloc: Global, way: Way, hook: &[u8]) -> Result<(), Fail>
    requires { IsWorkable way }
{
    let plan = Plan::share(alloc, way)?;
    let _outcome = eval_by(alloc, &plan, hook, &[2; 60])?;
    Ok(())
}

fn bridge(alloc: Global) -> Result<Way, Fail>
    ensures { IfOk result IsWorkable }
{
    let mut links = Sequence::new(alloc);
    for hook in [b"link0", b"link1"] {
        let hook = Name::read(hook)?;
        links.push(BridgeLink { hook, mute: 0 })?;
    }
    let mut hosts = Sequence::new(alloc);
    for addr in [[0, 0, 0, 0, 0, 1], [2; 6]] {
        hosts.push(BridgeHost {
            addr,
            link: 0,
            age: 0,
        })?;
    }
    let config = BridgeConfig {
        debug_level: 1,
        loop_timeout: 60,
        max_staleness: 900,
        min_stable_age: 1,
    };
    Ok(Way::Bridge {
        config,
        links,
        hosts,
    })
}

fn etf(alloc: Global) -> Result<Way, Fail>
    ensures { IfOk result IsWorkable }
{
    let hooks = names(alloc, &[b"downstream", b"ip"])?;
    let mut filters = Sequence::new(alloc);
    filters.push(EtfWay {
        ethertype: 0x0202,
        hook: Name::read(b"ip")?,
    })?;
    Ok(Way::Etf { hooks, filters })
}

fn macset(alloc: Global) -> Result<Way, Fail>
    ensures { IfOk result IsWorkable }
{
    let hooks = names(alloc, &[b"all", b"known", b"other"])?;
    let mut set = Sequence::new(alloc);
    set.push([2; 6])?;
    Ok(Way::Macset { hooks, set })
}

#[test]
fn there_is_memory_for_plans_of_few_things(rt: HostRuntime) -> Result<(), Fail> {
    try_all(rt.alloc(), Way::Discard, b"a")?;
    try_all(rt.alloc(), Way::Echo, b"a")?;
    let hooks = names(rt.alloc(), &[b"a", b"b"])?;
    try_all(rt.alloc(), Way::Fan { hooks }, b"a")?;
    let hooks = names(rt.alloc(), &[b"in", b"mixed"])?;
    let kind = Kind::Split;
    try_all(rt.alloc(), Way::Ways { kind, hooks }, b"in")?;
    try_all(rt.alloc(), Way::Ether { lower: true }, b"lower")?;
    try_all(rt.alloc(), Way::Socket, b"a")
}

#[test]
fn there_is_memory_for_plans_with_tables(rt: HostRuntime) -> Result<(), Fail> {
    try_all(rt.alloc(), bpf(rt.alloc())?, b"x")?;
    try_all(rt.alloc(), patch(rt.alloc())?, b"in")?;
    try_all(rt.alloc(), vlan(rt.alloc())?, b"v5")?;
    try_all(rt.alloc(), bridge(rt.alloc())?, b"link1")?;
    try_all(rt.alloc(), etf(rt.alloc())?, b"ip")?;
    try_all(rt.alloc(), macset(rt.alloc())?, b"all")
}
