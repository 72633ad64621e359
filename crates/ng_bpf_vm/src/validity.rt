// The faults of lists of instructions.

ghost use Rattle.std.specs.Prelude.{◌≡◌};
ghost use Rattle.ng_bpf_vm.specs.Validity.{first_fault, insn_fault, operation_fault, unless, returns_answer};

use crate::instruction::Insn;
use crate::operation::{Arithmetic, Operand, Operation};
use thiserror::Error;

/// How many instructions a program may have: `BPF_MAXINSNS` of bpf(4).
pub const MAX_INSNS: usize = 512;

/// What is wrong with a program that is not valid.
#[derive(Clone, Copy, Debug, PartialEq, Eq, Error)]
pub enum Fault {
    /// There is no instruction.
    #[error("no instruction")]
    Empty,
    /// There are more than 512 instructions.
    #[error("more than 512 instructions")]
    TooLong,
    /// The code is none of bpf(4)'s.
    #[error("unknown code")]
    UnknownCode,
    /// A jump leads past the last instruction.
    #[error("jump past the end")]
    JumpOut,
    /// A word of scratch memory is not one of the sixteen.
    #[error("no such word of memory")]
    BadWord,
    /// A division or a remainder by the constant 0.
    #[error("division by zero")]
    ZeroDivisor,
    /// The last instruction does not end the program.
    #[error("no return at the end")]
    NoReturn,
}

/// The first fault of a list of instructions, with its place, or nothing where they are a valid program.
pub fn find_fault(insns: &[Insn]) -> Option<(usize, Fault)>
    ensures { result ≡ first_fault insns.now }
{
    let Some(last) = insns.last() else {
        return Some((0, Fault::Empty));
    };
    if insns.len() > MAX_INSNS {
        return Some((insns.len(), Fault::TooLong));
    }
    for (at, insn) in insns.iter().enumerate() {
        if let Some(fault) = insn_fault(*insn, insns.len() - 1 - at) {
            return Some((at, fault));
        }
    }
    if returns_answer(*last) {
        None
    } else {
        Some((insns.len() - 1, Fault::NoReturn))
    }
}

// Whether an instruction ends a program.
fn returns_answer(insn: Insn) -> bool
    ensures { result ≡ returns_answer insn }
{
    insn.code == 0x06 || insn.code == 0x16
}

// The fault of an instruction that so many follow.
fn insn_fault(insn: Insn, after: usize) -> Option<Fault>
    ensures { result ≡ insn_fault insn after }
{
    match Operation::read(insn) {
        None => Some(Fault::UnknownCode),
        Some(operation) => operation_fault(operation, after),
    }
}

// The fault of an operation that so many instructions follow.
fn operation_fault(operation: Operation, after: usize) -> Option<Fault>
    ensures { result ≡ operation_fault operation after }
{
    match operation {
        Operation::Jump(over) => unless((over as usize) < after, Fault::JumpOut),
        Operation::Branch(_, _, holds, fails) => {
            let inside = (holds as usize) < after && (fails as usize) < after;
            unless(inside, Fault::JumpOut)
        }
        Operation::LoadMemory(word)
        | Operation::IndexMemory(word)
        | Operation::Store(word)
        | Operation::StoreIndex(word) => unless(word < 16, Fault::BadWord),
        Operation::Compute(Arithmetic::Divide | Arithmetic::Remainder, Operand::Constant(k)) => {
            unless(k > 0, Fault::ZeroDivisor)
        }
        _ => None,
    }
}

// No fault if the test holds.
fn unless(test: bool, fault: Fault) -> Option<Fault>
    ensures { result ≡ unless test fault }
{
    if test { None } else { Some(fault) }
}
