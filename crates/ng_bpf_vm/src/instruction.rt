// An instruction as a program is written.

/// One instruction of a program, with the fields of bpf(4)'s `struct bpf_insn`.
#[derive(Clone, Copy, Debug, PartialEq, Eq)]
pub struct Insn {
    /// What the instruction does: one of the 49 codes that bpf(4) lists.
    pub code: u16,
    /// How many instructions a conditional jump passes over where its comparison holds.
    pub jt: u8,
    /// How many instructions a conditional jump passes over where its comparison does not hold.
    pub jf: u8,
    /// The constant: an operand, a place in the packet, a word's number, a jump's length or an answer.
    pub k: u32,
}
