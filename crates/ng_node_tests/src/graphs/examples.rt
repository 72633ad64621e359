// Graphs that orders change, as they were worked out by hand.
use crate::graphs::boxes::boxes;
use crate::graphs::steps::Step::{
    AddHalf, Connect, Gone, Hooks, Leave, Lend, Make, MayNot, Named, Plan, Rename, Retire,
    ShutDown, Sprout, Walk,
};
use crate::graphs::steps::{Case, try_case};
use ng_base::{Errno, Kind};
use std::test::Fail;

const CASES: &[Case] = &[
    Case {
        shows: "of a connect to a hook that is there, nothing is left",
        steps: &[
            Make(Kind::Socket, b"ngctl"),
            Sprout((1, b"a"), Kind::Hub, b"x"),
            Sprout((1, b"b"), Kind::Hub, b"y"),
            Rename(3, b"hb"),
            Walk(2, b"hb:", Some(3)),
            AddHalf((2, b"u"), (3, b"y"), 3),
            MayNot((3, b"y"), Errno::EXIST),
            Leave((2, b"u"), 3, true),
            Hooks(2, &[(b"x", 1, (1, b"a"))]),
            Hooks(3, &[(b"y", 2, (1, b"b"))]),
        ],
    },
    Case {
        shows: "a hook that took the name of another stays where one leaves by the other's link",
        steps: &[
            Make(Kind::Socket, b"ngctl"),
            Make(Kind::Ether, b"em0"),
            Sprout((2, b"lower"), Kind::Hub, b"l"),
            Sprout((3, b"x"), Kind::Hub, b"y"),
            Sprout((4, b"k"), Kind::Hole, b"k"),
            Leave((4, b"y"), 2, true),
            Walk(1, b"em0:lower.x", Some(4)),
            Sprout((4, b"y"), Kind::Hole, b"h"),
            Leave((4, b"y"), 2, false),
            Hooks(4, &[(b"k", 3, (5, b"k")), (b"y", 4, (6, b"h"))]),
            Leave((3, b"x"), 2, true),
            Walk(1, b"em0:lower.x", None),
        ],
    },
    // The first step of the connect is undone, and the own node's hook to the node that went is taken away.
    Case {
        shows: "a connect that meets a node that goes is undone",
        steps: &[
            Make(Kind::Socket, b"ngctl"),
            Sprout((1, b"a"), Kind::Hub, b"x"),
            Sprout((2, b"p"), Kind::Hub, b"q"),
            Rename(3, b"nb"),
            Sprout((1, b"d"), Kind::Hub, b"y"),
            Retire(2),
            AddHalf((4, b"u"), (3, b"v"), 4),
            Leave((3, b"q"), 2, true),
            Hooks(3, &[]),
            Retire(3),
            Named(b"nb", None),
            Leave((4, b"u"), 4, true),
            Leave((1, b"a"), 1, true),
            Hooks(1, &[(b"d", 3, (4, b"y"))]),
            Hooks(4, &[(b"y", 3, (1, b"d"))]),
        ],
    },
    // That order is neither that of names nor of numbers.
    Case {
        shows: "the neighbours of a node that goes are cut in the order of its hooks",
        steps: &[
            Make(Kind::Socket, b"ngctl"),
            Sprout((1, b"a"), Kind::Hub, b"x"),
            Sprout((1, b"b"), Kind::Hub, b"y"),
            Sprout((1, b"c"), Kind::Hub, b"z"),
            Connect((2, b"w"), (4, b"s")),
            Connect((2, b"m"), (3, b"t")),
            Plan(2),
            Lend(2),
            Plan(2),
            Plan(2),
            Hooks(
                2,
                &[
                    (b"x", 1, (1, b"a")),
                    (b"w", 4, (4, b"s")),
                    (b"m", 5, (3, b"t")),
                ],
            ),
            ShutDown(2, &[(1, b"a"), (4, b"s"), (3, b"t")]),
            Gone(2),
            Hooks(4, &[(b"z", 3, (1, b"c"))]),
        ],
    },
];

#[test]
fn orders_change_graphs(rt: HostRuntime) -> Result<(), Fail> {
    let alloc = rt.alloc();
    for case in CASES {
        try_case(&rt, alloc, boxes(alloc)?, case)?;
    }
    Ok(())
}
