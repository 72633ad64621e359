// What an instruction says, taken apart.

ghost use Rattle.std.specs.Prelude.{◌≡◌};
ghost use Rattle.ng_bpf_vm.specs.Codes.{operation_of, load_of, index_load_of, arithmetic_of, compute_of, comparison_of, branch_of, plain_of};

use crate::instruction::Insn;

/// How much of the packet a load takes: four bytes, two or one.
#[derive(Clone, Copy, Debug, PartialEq, Eq)]
pub enum Size {
    Word,
    Half,
    Byte,
}

/// The second operand of an operation: the instruction's constant, or the index register X.
#[derive(Clone, Copy, Debug, PartialEq, Eq)]
pub enum Operand {
    Constant(u32),
    Index,
}

/// The operators between the accumulator and an operand.
#[derive(Clone, Copy, Debug, PartialEq, Eq)]
pub enum Arithmetic {
    Add,
    Subtract,
    Multiply,
    Divide,
    Or,
    And,
    ShiftLeft,
    ShiftRight,
    Remainder,
    Xor,
}

/// The comparisons of the accumulator with an operand, without sign.
#[derive(Clone, Copy, Debug, PartialEq, Eq)]
pub enum Comparison {
    Same,
    Above,
    AtLeast,
    SharesBit,
}

/// An instruction, taken apart. A is the accumulator, X the index register, M the words of scratch memory.
#[derive(Clone, Copy, Debug, PartialEq, Eq)]
pub enum Operation {
    /// A = the bytes of the packet at this place.
    LoadAbsolute(Size, u32),
    /// A = the bytes of the packet at X and this many more.
    LoadIndirect(Size, u32),
    /// A = this number.
    LoadConstant(u32),
    /// A = this word of M.
    LoadMemory(u32),
    /// A = the packet's length.
    LoadLength,
    /// X = this number.
    IndexConstant(u32),
    /// X = this word of M.
    IndexMemory(u32),
    /// X = the packet's length.
    IndexLength,
    /// X = four times the low four bits of the packet's byte at this place: the length of an IPv4 header.
    IndexHeaderLength(u32),
    /// This word of M = A.
    Store(u32),
    /// This word of M = X.
    StoreIndex(u32),
    /// A = A and the operand, by the operator.
    Compute(Arithmetic, Operand),
    /// A = -A.
    Negate,
    /// Passes over this many instructions.
    Jump(u32),
    /// Passes over the first number of instructions where A compares so with the operand, else over the second.
    Branch(Comparison, Operand, u8, u8),
    /// Ends with this answer.
    ReturnConstant(u32),
    /// Ends with the answer A.
    ReturnAccumulator,
    /// X = A.
    AccumulatorToIndex,
    /// A = X.
    IndexToAccumulator,
}

impl Operation {
    /// What the instruction says, or nothing where its code is none of bpf(4)'s.
    #[tactic(auto, unfolding(crate::specs::Codes::operation_of))]
    pub fn read(insn: Insn) -> Option<Operation>
        ensures { result ≡ operation_of insn }
    {
        read_load(insn)
            .or(read_index_load(insn))
            .or(read_compute(insn))
            .or(read_branch(insn))
            .or(read_plain(insn))
    }
}

// A load into the accumulator.
fn read_load(insn: Insn) -> Option<Operation>
    ensures { result ≡ load_of insn }
{
    match insn.code {
        0x20 => Some(Operation::LoadAbsolute(Size::Word, insn.k)),
        0x28 => Some(Operation::LoadAbsolute(Size::Half, insn.k)),
        0x30 => Some(Operation::LoadAbsolute(Size::Byte, insn.k)),
        0x40 => Some(Operation::LoadIndirect(Size::Word, insn.k)),
        0x48 => Some(Operation::LoadIndirect(Size::Half, insn.k)),
        0x50 => Some(Operation::LoadIndirect(Size::Byte, insn.k)),
        0x00 => Some(Operation::LoadConstant(insn.k)),
        0x60 => Some(Operation::LoadMemory(insn.k)),
        0x80 => Some(Operation::LoadLength),
        _ => None,
    }
}

// A load into the index register.
fn read_index_load(insn: Insn) -> Option<Operation>
    ensures { result ≡ index_load_of insn }
{
    match insn.code {
        0x01 => Some(Operation::IndexConstant(insn.k)),
        0x61 => Some(Operation::IndexMemory(insn.k)),
        0x81 => Some(Operation::IndexLength),
        0xb1 => Some(Operation::IndexHeaderLength(insn.k)),
        _ => None,
    }
}

// The operator of a code that takes its operand from the instruction.
fn read_arithmetic(code: u16) -> Option<Arithmetic>
    ensures { result ≡ arithmetic_of code }
{
    match code {
        0x04 => Some(Arithmetic::Add),
        0x14 => Some(Arithmetic::Subtract),
        0x24 => Some(Arithmetic::Multiply),
        0x34 => Some(Arithmetic::Divide),
        0x44 => Some(Arithmetic::Or),
        0x54 => Some(Arithmetic::And),
        0x64 => Some(Arithmetic::ShiftLeft),
        0x74 => Some(Arithmetic::ShiftRight),
        0x94 => Some(Arithmetic::Remainder),
        0xa4 => Some(Arithmetic::Xor),
        _ => None,
    }
}

// An operator with its operand.
fn read_compute(insn: Insn) -> Option<Operation>
    ensures { result ≡ compute_of insn }
{
    if let Some(arithmetic) = read_arithmetic(insn.code) {
        return Some(Operation::Compute(arithmetic, Operand::Constant(insn.k)));
    }
    let arithmetic = read_arithmetic(insn.code.checked_sub(0x08)?)?;
    Some(Operation::Compute(arithmetic, Operand::Index))
}

// The comparison of a code that takes its operand from the instruction.
fn read_comparison(code: u16) -> Option<Comparison>
    ensures { result ≡ comparison_of code }
{
    match code {
        0x15 => Some(Comparison::Same),
        0x25 => Some(Comparison::Above),
        0x35 => Some(Comparison::AtLeast),
        0x45 => Some(Comparison::SharesBit),
        _ => None,
    }
}

// A conditional jump with its operand.
fn read_branch(insn: Insn) -> Option<Operation>
    ensures { result ≡ branch_of insn }
{
    if let Some(comparison) = read_comparison(insn.code) {
        let operand = Operand::Constant(insn.k);
        return Some(Operation::Branch(comparison, operand, insn.jt, insn.jf));
    }
    let comparison = read_comparison(insn.code.checked_sub(0x08)?)?;
    Some(Operation::Branch(comparison, Operand::Index, insn.jt, insn.jf))
}

// The other operations.
fn read_plain(insn: Insn) -> Option<Operation>
    ensures { result ≡ plain_of insn }
{
    match insn.code {
        0x02 => Some(Operation::Store(insn.k)),
        0x03 => Some(Operation::StoreIndex(insn.k)),
        0x84 => Some(Operation::Negate),
        0x05 => Some(Operation::Jump(insn.k)),
        0x06 => Some(Operation::ReturnConstant(insn.k)),
        0x16 => Some(Operation::ReturnAccumulator),
        0x07 => Some(Operation::AccumulatorToIndex),
        0x87 => Some(Operation::IndexToAccumulator),
        _ => None,
    }
}
