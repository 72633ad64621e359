// There is memory for all the nodes, and a call on one goes to the node of its type.
use crate::types::bench::try_case;
use crate::types::steps::Case;
use crate::types::steps::Step::{HasPlan, Hook};
use ng_plain_types::simple::blank_echo;
use ng_stock::{AnyNode, TypedNode, stock};
use std::test::Fail;

#[test]
fn all_are_made(rt: HostRuntime) -> Result<(), Fail> {
    let nodes = stock(rt.alloc())?;
    assert_eq!(rt; nodes.len(), 1 + 64 + 12 * 256);
    Ok(())
}

/// The cookie of an echo, which has no messages.
const ECHO: u32 = 0x4e47_0003;

const ANY_HOOK: Case = Case {
    shows: "a call goes to the node",
    steps: &[Hook(b"any"), HasPlan(true)],
};

#[test]
fn calls_go_to_the_node(rt: HostRuntime) -> Result<(), Fail> {
    let alloc = rt.alloc();
    try_case(
        &rt,
        alloc,
        ECHO,
        AnyNode::new(alloc, TypedNode::Echo(blank_echo(alloc)?))?,
        &ANY_HOOK,
    )
}
