// Programs that are valid, and their runs.

ghost use Rattle.std.specs.Prelude.{◌≡◌, ◌↔◌, ℕ, Some, IfOk, IsOkUnless};
ghost use Rattle.ng_bpf_vm.specs.declared.validity.Fault.{Fault};
ghost use Rattle.ng_bpf_vm.specs.Machine.{outcome, answer_of};
ghost use Rattle.ng_bpf_vm.specs.Reading.{AreRead};
ghost use Rattle.ng_bpf_vm.specs.Validity.{IsValid, EachIsRight, first_fault};

use crate::instruction::Insn;
use crate::machine::{Next, Registers};
use crate::operation::Operation;
use crate::validity::{Fault, find_fault};
use std::alloc::{AllocError, Global};
use std::marker::Model;
use std::sync::Arc;
use thiserror::Error;

/// Why there is no program.
#[derive(Clone, Copy, Debug, PartialEq, Eq, Error)]
pub enum BadProgram {
    /// The first fault and its place: the number of the instruction, or for `TooLong` the number of instructions.
    #[error("{why} at {at}")]
    Bad { at: usize, why: Fault },
    /// Memory ran out.
    #[error("out of memory")]
    NoMemory,
}

// The instructions of a program, and each as it is run.
#[derive(Debug, Drop)]
struct Parts {
    insns: Vec<Insn>,
    operations: Vec<Operation>,
}

/// A valid program, which contracts see as the list of its instructions. Only `validate` and `clone` make one.
#[derive(Debug, Drop)]
pub struct Program {
    // A clone shares it.
    parts: Arc<Parts>,
}

impl Model for Program {
    ghost use Rattle.std.specs.Prelude.{List};
    ghost use Rattle.std.specs.Arc.{arc_value};
    ghost use Rattle.ng_bpf_vm.specs.Reading.{AreRead};
    ghost use Rattle.ng_bpf_vm.specs.Validity.{IsValid};
    ghost use Rattle.ng_bpf_vm.specs.declared.instruction.Insn.{Insn};

    ghost Value = { List Insn };

    ghost view = { λ p. (arc_value p.parts).insns.items };

    ghost invariant = { λ p. IsValid (arc_value p.parts).insns.items × AreRead (arc_value p.parts).insns.items (arc_value p.parts).operations.items };
}

impl Program {
    /// The instructions, as `validate` was given them.
    pub fn insns(&self) -> &[Insn]
        ensures { result.now ≡ self.now }
    {
        self.parts.insns.as_slice()
    }
}

impl Clone for Program {
    ghost is_clone = { λ program copy. copy ≡ program };

    fn clone(&self) -> Result<Self, AllocError> {
        Ok(Program {
            parts: Arc::try_clone(&self.parts)?,
        })
    }
}

/// The program of exactly these instructions, or why there is none: their first fault with its place, or
/// `BadProgram::NoMemory`, which comes only where they are valid and memory runs out.
///
/// The faults are looked for in this order: no instruction, more than 512, then the instructions from the first to the
/// last, of which each has at most one fault, then a last instruction that does not return. bpf(4) has the limit, and
/// the rules that jumps lead forward and that programs end by returning.
pub fn validate(alloc: Global, insns: &[Insn]) -> Result<Program, BadProgram>
    ensures ok { IfOk result (λ program. program ≡ insns.now) }
    ensures valid { IsValid insns.now ↔ IsOkUnless result BadProgram.NoMemory }
    ensures bad { (at : ℕ) (why : Fault)
        → (result ≡ Err (BadProgram.Bad at why)) ↔ (first_fault insns.now ≡ Some (at, why)) }
{
    match find_fault(insns) {
        Some((at, why)) => Err(BadProgram::Bad { at, why }),
        None => with_operations(alloc, insns).map_err(|_| BadProgram::NoMemory),
    }
}

/// What a program answers on a packet: how many of its bytes to keep, for a capture, or whether it matches, where only
/// zero and non-zero are told apart (bpf(4)).
///
/// It takes no memory and always returns. A load past the packet's end ends the program with the answer 0, and so does
/// a division or a remainder by 0.
pub fn run(program: &Program, packet: &[u8]) -> u32
    ensures answers { outcome program.now packet.now ≡ Some result }
    ensures value { result ≡ answer_of program.now packet.now }
{
    let operations = program.parts.operations.as_slice();
    let mut registers = Registers::new();
    let mut at = 0;
    loop {
        match registers.step(operations[at], packet) {
            Next::Over(over) => at += 1 + over as usize,
            Next::Answer(answer) => return answer,
        }
    }
}

// The program of instructions that are valid.
fn with_operations(alloc: Global, insns: &[Insn]) -> Result<Program, AllocError>
    requires { IsValid insns.now }
    ensures { IfOk result (λ program. program ≡ insns.now) }
{
    let parts = Parts {
        operations: read_all(alloc, insns)?,
        insns: Vec::from_slice(alloc, insns)?,
    };
    Ok(Program {
        parts: Arc::new(alloc, parts)?,
    })
}

// The operations of instructions of which each is right.
fn read_all(alloc: Global, insns: &[Insn]) -> Result<Vec<Operation>, AllocError>
    requires { EachIsRight insns.now }
    ensures { IfOk result (λ operations. AreRead insns.now operations.items) }
{
    let mut operations = Vec::with_capacity(alloc, insns.len())?;
    for insn in insns {
        operations.push(Operation::read(*insn).unwrap())?;
    }
    Ok(operations)
}
