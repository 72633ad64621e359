// Lists of moves by a rule: whatever the moves, each item is applied, dropped or pending, and once, and the journal is accepted.
use crate::chosen::begin::{boxes, judged, play, ports};
use crate::chosen::examples::GIVEN;
use crate::chosen::inputs::inputs;
use ng_replay::judge::Verdict;
use ng_workers::pool::Move;
use std::alloc::Global;
use std::test::Fail;

// The seven moves that the rule chooses from.
const MOVES: [Move; 7] = [
    Move::Feed,
    Move::Take { seat: 0 },
    Move::Apply { seat: 0 },
    Move::Take { seat: 1 },
    Move::Apply { seat: 1 },
    Move::Back { seat: 0 },
    Move::Back { seat: 1 },
];

// 200 moves: each is that of a number's rest by seven, and the number goes on from the list's own by a rule.
fn moves(alloc: Global, list: u32) -> Result<Vec<Move>, Fail> {
    let mut moves = Vec::new(alloc);
    let mut number = u64::from(list);
    for _ in 0..200 {
        number = (75 * (number % 65_537) + 74) % 65_537;
        moves.push(MOVES[(number % 7) as usize])?;
    }
    Ok(moves)
}

#[test]
fn each_item_is_accounted_for_and_each_journal_accepted(rt: HostRuntime) -> Result<(), Fail> {
    let alloc = rt.alloc();
    for (count, given) in GIVEN {
        for list in 0..20 {
            let run = play(
                alloc,
                ports(alloc, count)?,
                boxes(alloc)?,
                2,
                inputs(alloc, given)?,
                &moves(alloc, list)?,
            )?;
            assert!(rt; run.ended, "list {list}");
            assert!(rt; run.accounted, "list {list}");
            let verdict = judged(
                alloc,
                ports(alloc, count)?,
                boxes(alloc)?,
                (1000, 2),
                inputs(alloc, given)?,
                &run.journal,
            )?;
            assert_eq!(rt; verdict, Verdict::Yes, "list {list}");
        }
    }
    Ok(())
}
