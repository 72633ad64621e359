//! The packet filter machine of bpf(4): instructions, the test that a program is valid, and the run of a valid program
//! over a packet.
#![tactic(auto)]

mod instruction;
mod laws;
mod machine;
mod operation;
mod program;
mod validity;

pub use instruction::Insn;
pub use laws::{lone_return_answers, valid_programs_answer, valid_programs_have_no_fault};
pub use program::{BadProgram, Program, run, validate};
pub use validity::{Fault, MAX_INSNS};
