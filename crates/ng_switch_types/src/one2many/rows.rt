// The hooks of a node, each with a row of counters.
ghost use Rattle.std.specs.Prelude.{◌≡◌, ◌∷◌, [], ◌++◌, if◌then◌else◌, OnErr, OnOk};
ghost use Rattle.std.specs.List.{find, list_any};
ghost use Rattle.std.specs.Option.{option_copied};
ghost use Rattle.std.specs.Str.{bytes_eq};
ghost use Rattle.ng_base.specs.Names.{has_name};
ghost use Rattle.ng_machine.specs.Counters.{after_counts, at_row, count_row, row_bytes, without_row, zeros};
ghost use Rattle.ng_switch_types.specs.one2many.Node.{names_of};

use ng_base::{Name, NoMemory};
use ng_message::put_u64;
use ng_plan::node::absorb_rows;
use std::alloc::Global;
use std::marker::Model;

/// A hook with its counters, in the order of the manual page: recvOctets, recvPackets, xmitOctets, xmitPackets and
/// memoryFailures.
pub type Row = (Name, [u64; 5]);

/// The rows in the order in which their hooks were made.
#[derive(Drop)]
pub struct Rows {
    rows: Vec<Row>,
}

impl Model for Rows {
    ghost use Rattle.ng_machine.specs.Counters as machine;

    ghost Value = { machine.Rows };

    ghost view = { λ r. r.rows.items };
}

impl Rows {
    /// No rows. It takes no memory.
    pub fn new(alloc: Global) -> Rows
        ensures { result ≡ [] }
    {
        Rows {
            rows: Vec::new(alloc),
        }
    }

    /// Whether there is a hook of this name.
    pub fn has(&self, hook: &Name) -> bool
        ensures { result ≡ has_name (names_of self.now) hook.now }
    {
        is_there(&self.rows, hook)
    }

    /// The row of a hook.
    pub fn find(&self, hook: &Name) -> Option<&Row>
        ensures { option_copied result ≡ find (λ row. bytes_eq row.0 hook.now) self.now }
    {
        self.rows.iter().find(|row| row.0 == *hook)
    }

    /// Adds a hook at the end, whose counters are 0.
    ///
    /// # Errors
    /// `NoMemory` where memory ran out, and for nothing else; the rows are then as before.
    pub fn add(&mut self, hook: &Name) -> Result<(), NoMemory>
        ensures ok { OnOk result (self.new ≡ self.old ++ (hook.now, zeros 5) ∷ []) }
        ensures err { OnErr result (self.new ≡ self.old) }
    {
        self.rows.push((*hook, [0; 5]))?;
        Ok(())
    }

    /// Takes a hook out, with its counters.
    pub fn cut(&mut self, hook: &Name)
        ensures { self.new ≡ without_row hook.now self.old }
    {
        self.rows.retain(|row| row.0 != *hook);
    }

    /// Adds counts. One of a hook that isn't there is passed over.
    pub fn absorb(&mut self, counts: &[(Name, u64, u64)])
        ensures { self.new ≡ after_counts count_row self.old counts.now }
    {
        absorb_rows(self.rows.as_mut_slice(), counts);
    }

    /// Sets the counters of a hook to 0.
    pub fn clear(&mut self, hook: &Name)
        ensures { self.new ≡ at_row hook.now (λ row. zeros 5) self.old }
    {
        clear_of(self.rows.as_mut_slice(), hook);
    }
}

fn is_there(rows: &[Row], hook: &Name) -> bool
    ensures { result ≡ list_any (λ row. bytes_eq row.0 hook.now) rows.now }
{
    rows.iter().any(|row| row.0 == *hook)
}

fn clear_if(row: &mut Row, hook: &Name)
    ensures { row.new ≡ (if bytes_eq row.old.0 hook.now then (row.old.0, zeros 5) else row.old) }
{
    if row.0 == *hook {
        row.1 = [0; 5];
    }
}

fn clear_of(rows: &mut [Row], hook: &Name)
    ensures { rows.new ≡ at_row hook.now (λ row. zeros 5) rows.old }
{
    for row in rows.iter_mut() {
        clear_if(row, hook);
    }
}

/// Appends counters as `struct ng_one2many_link_stats` of the manual page.
///
/// # Errors
/// `NoMemory` where memory ran out, and for nothing else.
pub fn put_counters(out: &mut Vec<u8>, counters: &[u64; 5]) -> Result<(), NoMemory>
    ensures { OnOk result (out.new.items ≡ out.old.items ++ row_bytes counters.now) }
{
    for counter in counters {
        put_u64(out, *counter)?;
    }
    Ok(())
}
