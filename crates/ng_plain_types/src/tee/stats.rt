// The counters of a tee, and its messages.
ghost use Rattle.std.specs.Prelude.{◌≡◌, ◌++◌, IfOk, OnOk};
ghost use Rattle.ng_machine.specs.Counters.{row_bytes, zeros};
ghost use Rattle.ng_machine.specs.kinds.Tee.{tee_bytes, tee_clear, tee_message};

use ng_base::{Bytes, Errno, Name, NoMemory};
use ng_machine::Outcome;
use ng_message::{HAS_ANSWER, put_u64};
use ng_plan::{answers, fails, nothing};
use std::alloc::Global;

/// `NGM_TEE_GET_STATS`.
const GET_STATS: u32 = HAS_ANSWER + 1;

/// `NGM_TEE_CLR_STATS`.
const CLEAR_STATS: u32 = 2;

/// `NGM_TEE_GETCLR_STATS`.
const GET_AND_CLEAR_STATS: u32 = HAS_ANSWER + 3;

fn put_row(out: &mut Vec<u8>, row: &[u64; 4]) -> Result<(), NoMemory>
    ensures { OnOk result (out.new.items ≡ out.old.items ++ row_bytes row.now) }
{
    put_u64(out, row[0])?;
    put_u64(out, row[1])?;
    put_u64(out, row[2])?;
    put_u64(out, row[3])?;
    Ok(())
}

/// The counters as `struct ng_tee_stats` of the manual page.
fn stats(alloc: Global, rows: &[(Name, [u64; 4])]) -> Result<Bytes, NoMemory>
    ensures { IfOk result (λ bytes. bytes ≡ tee_bytes rows.now) }
{
    let mut out = Vec::new(alloc);
    for row in rows {
        put_row(&mut out, &row.1)?;
    }
    Ok(Bytes(out))
}

fn clear_row(row: &mut (Name, [u64; 4]))
    ensures { row.new ≡ (row.old.0, zeros 4) }
{
    row.1 = [0; 4];
}

fn clear(rows: &mut [(Name, [u64; 4])])
    ensures { rows.new ≡ tee_clear rows.old }
{
    for row in rows.iter_mut() {
        clear_row(row);
    }
}

/// What a message is answered. No message has arguments.
pub(super) fn reply(
    alloc: Global,
    rows: &[(Name, [u64; 4])],
    number: u32,
    args: &[u8],
) -> Result<Outcome, NoMemory>
    ensures { IfOk result (λ outcome. outcome ≡ (tee_message rows.now number args.now).outcome) }
{
    if !args.is_empty() {
        return Ok(fails(alloc, Errno::INVAL));
    }
    match number {
        GET_STATS | GET_AND_CLEAR_STATS => Ok(answers(alloc, stats(alloc, rows)?)),
        CLEAR_STATS => Ok(nothing(alloc)),
        _ => Ok(fails(alloc, Errno::INVAL)),
    }
}

/// What a message makes of the counters. It takes no memory.
pub(super) fn obey(rows: &mut [(Name, [u64; 4])], number: u32, args: &[u8])
    ensures { rows.new ≡ (tee_message rows.old number args.now).after }
{
    if args.is_empty() && (number == CLEAR_STATS || number == GET_AND_CLEAR_STATS) {
        clear(rows);
    }
}
