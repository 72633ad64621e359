// Hooks and counters, where there is memory.
use ng_base::Name;
use ng_plan::node::{HookList, absorb_rows};
use std::test::Fail;

#[test]
fn hooks_stay_in_order(rt: HostRuntime) -> Result<(), Fail> {
    let a = Name::read(b"a")?;
    let b = Name::read(b"b")?;
    let mut hooks = HookList::new(rt.alloc());
    hooks.reserve()?;
    hooks.add(b);
    hooks.reserve()?;
    hooks.add(a);
    assert_eq!(rt; hooks.names(rt.alloc())?.as_slice(), [b, a].as_slice());
    Ok(())
}

// A count goes to the row of its name. One of a number that the row lacks is passed over.
#[test]
fn counts_go_by_name_and_number(rt: HostRuntime) -> Result<(), Fail> {
    let a = Name::read(b"a")?;
    let b = Name::read(b"b")?;
    let mut rows = [(a, [7, 0]), (b, [0, 0])];
    absorb_rows(&mut rows, &[(b, 1, 5), (a, 0, 3), (a, 2, 9)]);
    assert_eq!(rt; rows[0].1, [10, 0]);
    assert_eq!(rt; rows[1].1, [0, 5]);
    Ok(())
}
