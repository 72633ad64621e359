// The machine's registers, and what one operation does to them.

ghost use Rattle.std.specs.Prelude.{◌≡◌, ◌+◌, ◌<◌, ◌≤◌, ◌^◌, ◌%◌, length, slice_set, IsTrue};
ghost use Rattle.ng_bpf_vm.specs.Effects.{value_at, result_of, compares, operand_value, effect, blank_registers, take_value, take_header_length, names_word, effect_of_next};
ghost use Rattle.ng_bpf_vm.specs.declared.operation.Size.TheVariants.{Word, Half, Byte};

use crate::operation::{Arithmetic, Comparison, Operand, Operation, Size};

/// What a run changes: the accumulator A, the index register X and the sixteen words of scratch memory M.
#[derive(Clone, Copy, Debug, PartialEq, Eq)]
pub struct Registers {
    pub accumulator: u32,
    pub index: u32,
    pub memory: [u32; 16],
}

/// Where an operation leads: over this many instructions, or to the end with an answer.
#[derive(Clone, Copy, Debug, PartialEq, Eq)]
pub enum Next {
    Over(u32),
    Answer(u32),
}

impl Registers {
    /// The registers before the first operation: all 0.
    pub fn new() -> Self
        ensures { result ≡ blank_registers }
    {
        Registers {
            accumulator: 0,
            index: 0,
            memory: [0; 16],
        }
    }

    /// Does what one operation says, whose word, if it names one, is one of the sixteen.
    #[tactic(auto, unfolding(crate::specs::Effects::effect))]
    pub fn step(&mut self, operation: Operation, packet: &[u8]) -> Next
        requires { IsTrue (names_word operation) }
        ensures { effect_of_next result self.new ≡ effect operation packet.now self.old }
    {
        match operation {
            Operation::LoadAbsolute(size, at) => self.take(load(packet, at as usize, size)),
            Operation::LoadIndirect(size, at) => {
                self.take(load(packet, self.index as usize + at as usize, size))
            }
            Operation::LoadConstant(value) => self.set_accumulator(value),
            Operation::LoadMemory(word) => self.set_accumulator(self.memory[word as usize]),
            Operation::LoadLength => self.set_accumulator(length_of(packet)),
            Operation::IndexConstant(value) => self.set_index(value),
            Operation::IndexMemory(word) => self.set_index(self.memory[word as usize]),
            Operation::IndexLength => self.set_index(length_of(packet)),
            Operation::IndexHeaderLength(at) => {
                self.take_header_length(load_byte(packet, at as usize))
            }
            Operation::Store(word) => self.set_memory(word, self.accumulator),
            Operation::StoreIndex(word) => self.set_memory(word, self.index),
            Operation::Compute(arithmetic, operand) => {
                self.take(compute(arithmetic, self.accumulator, self.value(operand)))
            }
            Operation::Negate => self.set_accumulator(self.accumulator.wrapping_neg()),
            Operation::Jump(over) => Next::Over(over),
            Operation::Branch(comparison, operand, holds, fails) => {
                let test = compare(comparison, self.accumulator, self.value(operand));
                Next::Over(u32::from(if test { holds } else { fails }))
            }
            Operation::ReturnConstant(answer) => Next::Answer(answer),
            Operation::ReturnAccumulator => Next::Answer(self.accumulator),
            Operation::AccumulatorToIndex => self.set_index(self.accumulator),
            Operation::IndexToAccumulator => self.set_accumulator(self.index),
        }
    }

    // What an operand is worth.
    fn value(&self, operand: Operand) -> u32
        ensures { result ≡ operand_value operand self.now.index }
    {
        match operand {
            Operand::Constant(value) => value,
            Operand::Index => self.index,
        }
    }

    // The accumulator takes the value, or the program ends with 0 where there is none.
    fn take(&mut self, value: Option<u32>) -> Next
        ensures { effect_of_next result self.new ≡ take_value value self.old }
    {
        match value {
            None => Next::Answer(0),
            Some(value) => self.set_accumulator(value),
        }
    }

    // The index register takes four times the low four bits, or the program ends with 0 where there is no byte.
    fn take_header_length(&mut self, byte: Option<u32>) -> Next
        ensures { effect_of_next result self.new ≡ take_header_length byte self.old }
    {
        match byte {
            None => Next::Answer(0),
            Some(byte) => self.set_index(4 * (byte % 16)),
        }
    }

    fn set_accumulator(&mut self, value: u32) -> Next
        ensures next { result ≡ Next.Over 0 }
        ensures after { self.new ≡ record self.old { accumulator = value } }
    {
        self.accumulator = value;
        Next::Over(0)
    }

    fn set_index(&mut self, value: u32) -> Next
        ensures next { result ≡ Next.Over 0 }
        ensures after { self.new ≡ record self.old { index = value } }
    {
        self.index = value;
        Next::Over(0)
    }

    fn set_memory(&mut self, word: u32, value: u32) -> Next
        requires { word < 16 }
        ensures next { result ≡ Next.Over 0 }
        ensures after { self.new ≡ record self.old { memory = slice_set self.old.memory word value } }
    {
        self.memory[word as usize] = value;
        Next::Over(0)
    }
}

// The packet's length, modulo 2^32.
fn length_of(packet: &[u8]) -> u32
    ensures { result ≡ length packet.now % 2 ^ 32 }
{
    (packet.len() % 0x1_0000_0000) as u32
}

// The packet's bytes from a place on, the first one the most significant, or nothing where they are not all there.
fn load(packet: &[u8], at: usize, size: Size) -> Option<u32>
    requires { at < 2 ^ 33 }
    ensures { result ≡ value_at size packet.now at }
{
    match size {
        Size::Word => load_word(packet, at),
        Size::Half => load_half(packet, at),
        Size::Byte => load_byte(packet, at),
    }
}

#[tactic(auto, unfolding(crate::specs::Effects::value_at))]
fn load_word(packet: &[u8], at: usize) -> Option<u32>
    requires { at < 2 ^ 33 }
    ensures { result ≡ value_at Word packet.now at }
{
    if at + 4 <= packet.len() {
        let high = u32::from(packet[at]) * 256 + u32::from(packet[at + 1]);
        let low = u32::from(packet[at + 2]) * 256 + u32::from(packet[at + 3]);
        Some(high * 0x1_0000 + low)
    } else {
        None
    }
}

#[tactic(auto, unfolding(crate::specs::Effects::value_at))]
fn load_half(packet: &[u8], at: usize) -> Option<u32>
    requires { at < 2 ^ 33 }
    ensures { result ≡ value_at Half packet.now at }
{
    if at + 2 <= packet.len() {
        Some(u32::from(packet[at]) * 256 + u32::from(packet[at + 1]))
    } else {
        None
    }
}

#[tactic(auto, unfolding(crate::specs::Effects::value_at))]
fn load_byte(packet: &[u8], at: usize) -> Option<u32>
    requires { at < 2 ^ 33 }
    ensures { result ≡ value_at Byte packet.now at }
{
    if at < packet.len() {
        Some(u32::from(packet[at]))
    } else {
        None
    }
}

// The accumulator and a value by the operator, or nothing for a quotient or a remainder by 0.
#[tactic(auto, unfolding(crate::specs::Effects::result_of))]
fn compute(arithmetic: Arithmetic, left: u32, right: u32) -> Option<u32>
    ensures { result ≡ result_of arithmetic left right }
{
    match arithmetic {
        Arithmetic::Add => Some(left.wrapping_add(right)),
        Arithmetic::Subtract => Some(left.wrapping_sub(right)),
        Arithmetic::Multiply => Some(left.wrapping_mul(right)),
        Arithmetic::Divide => left.checked_div(right),
        Arithmetic::Or => Some(left | right),
        Arithmetic::And => Some(left & right),
        Arithmetic::ShiftLeft => Some(left.checked_shl(right).unwrap_or(0)),
        Arithmetic::ShiftRight => Some(left.checked_shr(right).unwrap_or(0)),
        Arithmetic::Remainder => left.checked_rem(right),
        Arithmetic::Xor => Some(left ^ right),
    }
}

// Whether the accumulator compares so with a value.
#[tactic(auto, unfolding(crate::specs::Effects::compares))]
fn compare(comparison: Comparison, left: u32, right: u32) -> bool
    ensures { result ≡ compares comparison left right }
{
    match comparison {
        Comparison::Same => left == right,
        Comparison::Above => left > right,
        Comparison::AtLeast => left >= right,
        Comparison::SharesBit => left & right != 0,
    }
}
