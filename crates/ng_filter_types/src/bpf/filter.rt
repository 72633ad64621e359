// What a bpf node keeps of one hook.
ghost use Rattle.std.specs.Prelude.{◌≡◌, ◌≤◌, ◌++◌, length, flat_map, IfOk, OnOk};
ghost use Rattle.ng_bpf_vm.specs.Machine.{lone_return};
ghost use Rattle.ng_machine.specs.kinds.Bpf.{insn_bytes, new_filter, way_bytes};
ghost use Rattle.ng_machine.specs.Counters.{raise_at, row_bytes, zeros};

use ng_base::{Name, NoMemory};
use ng_bpf_vm::{Insn, Program, validate};
use ng_machine::BpfWay;
use ng_message::{put_name, put_u16, put_u32, put_u64};
use ng_plan::lookup::Named;
use std::alloc::Global;
use std::marker::Model;

/// The instruction that answers 0, `BPF_RET + BPF_K` of bpf(4).
const RETURN_ZERO: Insn = Insn {
    code: 0x06,
    jt: 0,
    jf: 0,
    k: 0,
};

/// How many counters a hook has.
const COUNTERS: u64 = 6;

/// A hook with its program, which has at most 512 instructions, and its targets, and its counters in the order of
/// `struct ng_bpf_hookstat`.
#[derive(Drop)]
pub struct Filter {
    way: BpfWay,
    counters: [u64; 6],
}

impl Model for Filter {
    ghost use Rattle.std.specs.Prelude.{◌≤◌, length};
    ghost use Rattle.ng_machine.specs.kinds.Bpf as machine;

    ghost Value = { machine.Filter };

    ghost view = { λ f. record { way = f.way; counters = f.counters } };

    ghost invariant = { λ f. length f.way.program ≤ 512 };
}

/// What stands at a hook, by the hook.
impl Named for Filter {
    ghost name_of = { λ f. f.way.hook };

    fn name(&self) -> Name {
        self.way.hook
    }
}

/// The program that matches no packet.
fn program_of_new(alloc: Global) -> Result<Program, NoMemory>
    ensures { IfOk result (λ program. program ≡ lone_return 0) }
{
    validate(alloc, &[RETURN_ZERO]).map_err(|_| NoMemory)
}

fn put_insn(out: &mut Vec<u8>, insn: &Insn) -> Result<(), NoMemory>
    ensures { OnOk result (out.new.items ≡ out.old.items ++ insn_bytes insn.now) }
{
    put_u16(out, insn.code)?;
    out.push(insn.jt)?;
    out.push(insn.jf)?;
    put_u32(out, insn.k)?;
    Ok(())
}

fn put_insns(out: &mut Vec<u8>, insns: &[Insn]) -> Result<(), NoMemory>
    ensures { OnOk result (out.new.items ≡ out.old.items ++ flat_map insn_bytes insns.now) }
{
    for insn in insns {
        put_insn(out, insn)?;
    }
    Ok(())
}

fn put_row(out: &mut Vec<u8>, row: &[u64]) -> Result<(), NoMemory>
    ensures { OnOk result (out.new.items ≡ out.old.items ++ row_bytes row.now) }
{
    for counter in row {
        put_u64(out, *counter)?;
    }
    Ok(())
}

impl Filter {
    /// What a new hook has: the program that matches no packet, no targets, and counters of 0.
    ///
    /// # Errors
    /// `NoMemory` where memory ran out, and for nothing else.
    pub fn new(alloc: Global, hook: &Name) -> Result<Filter, NoMemory>
        ensures { IfOk result (λ filter. filter ≡ new_filter hook.now) }
    {
        Ok(Filter {
            way: BpfWay {
                hook: *hook,
                program: program_of_new(alloc)?,
                if_match: None,
                if_not_match: None,
            },
            counters: [0; 6],
        })
    }

    /// The hook.
    pub fn hook(&self) -> Name
        ensures { result ≡ self.now.way.hook }
    {
        self.way.hook
    }

    /// A copy of the program and the targets, as a plan holds them.
    ///
    /// # Errors
    /// `NoMemory` where memory ran out, and for nothing else.
    pub fn way(&self) -> Result<BpfWay, NoMemory>
        ensures { IfOk result (λ way. way ≡ self.now.way) }
    {
        Ok(BpfWay {
            hook: self.way.hook,
            program: self.way.program.clone()?,
            if_match: self.way.if_match,
            if_not_match: self.way.if_not_match,
        })
    }

    /// Sets the program and the targets. The counters stay.
    pub fn set_way(&mut self, way: BpfWay)
        requires { length way.program ≤ 512 }
        ensures { self.new ≡ record (self.old) { way = way } }
    {
        self.way = way;
    }

    /// Adds to a counter, which stops at 2^64 - 1. A counter that a hook doesn't have is passed over.
    pub fn count(&mut self, number: u64, amount: u64)
        ensures { self.new ≡ record (self.old) { counters = raise_at (self.old).counters number amount } }
    {
        if number < COUNTERS {
            let place = number as usize;
            self.counters[place] = self.counters[place].saturating_add(amount);
        }
    }

    /// Sets the counters to 0.
    pub fn clear(&mut self)
        ensures { self.new ≡ record (self.old) { counters = zeros 6 } }
    {
        self.counters = [0; 6];
    }

    /// Appends the hook, the targets and the program as `struct ng_bpf_hookprog`.
    ///
    /// # Errors
    /// `NoMemory` where memory ran out, and for nothing else.
    pub fn put_program(&self, out: &mut Vec<u8>) -> Result<(), NoMemory>
        ensures { OnOk result (out.new.items ≡ out.old.items ++ way_bytes (self.now).way) }
    {
        let insns = self.way.program.insns();
        put_name(out, Some(&self.way.hook))?;
        put_name(out, self.way.if_match.as_ref())?;
        put_name(out, self.way.if_not_match.as_ref())?;
        put_u32(out, insns.len() as u32)?;
        put_insns(out, insns)
    }

    /// Appends the counters as `struct ng_bpf_hookstat`.
    ///
    /// # Errors
    /// `NoMemory` where memory ran out, and for nothing else.
    pub fn put_counters(&self, out: &mut Vec<u8>) -> Result<(), NoMemory>
        ensures { OnOk result (out.new.items ≡ out.old.items ++ row_bytes (self.now).counters) }
    {
        put_row(out, &self.counters)
    }
}
