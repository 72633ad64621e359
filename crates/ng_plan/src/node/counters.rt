// Rows of counters, one for each name.
ghost use Rattle.std.specs.Prelude.{◌≡◌, [], ◌∷◌, if◌then◌else◌, length};
ghost use Rattle.std.specs.Str.{bytes_eq};
ghost use Rattle.ng_machine.specs.Counters.{after_counts, at_row, count_row, raise_at};

use ng_base::Name;

fn raise<const N: usize>(counters: &mut [u64; N], number: u64, amount: u64)
    ensures { counters.new ≡ raise_at counters.old number amount }
{
    if number < N as u64 {
        let place = number as usize;
        counters[place] = counters[place].saturating_add(amount);
    }
}

fn count_if<const N: usize>(row: &mut (Name, [u64; N]), hook: &Name, number: u64, amount: u64)
    ensures { row.new ≡ (if bytes_eq row.old.0 hook.now then (row.old.0, raise_at row.old.1 number amount) else row.old) }
{
    if row.0 == *hook {
        raise(&mut row.1, number, amount);
    }
}

fn count_at<const N: usize>(rows: &mut [(Name, [u64; N])], hook: &Name, number: u64, amount: u64)
    ensures { rows.new ≡ at_row hook.now (λ row. raise_at row number amount) rows.old }
{
    for row in rows.iter_mut() {
        count_if(row, hook, number, amount);
    }
}

/// Adds counts to the rows of their names. A counter that no row has is passed over.
pub fn absorb_rows<const N: usize>(rows: &mut [(Name, [u64; N])], counts: &[(Name, u64, u64)])
    ensures { rows.new ≡ after_counts count_row rows.old counts.now }
{
    for count in counts {
        count_at(rows, &count.0, count.1, count.2);
    }
}
