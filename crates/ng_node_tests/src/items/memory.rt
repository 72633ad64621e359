// The calls that take memory.
use ng_base::NodeId;
use ng_queue::pending::Pending;
use std::test::Fail;

/// Where there is memory, queues are made and widened.
#[test]
fn memory_is_there(rt: HostRuntime) -> Result<(), Fail> {
    let mut pending = Pending::new(rt.alloc(), 3)?;
    pending.widen(NodeId(2))?;
    assert!(rt; pending.out == 0);
    Ok(())
}
