// What holds of all programs: each law is the contract of a function without work.

ghost use Rattle.std.specs.Prelude.{◌≡◌, ◌↔◌, ℕ, List, [], Some, IsSome};
ghost use Rattle.ng_bpf_vm.specs.Machine.{outcome, lone_return};
ghost use Rattle.ng_bpf_vm.specs.Validity.{IsValid, faults};
ghost use Rattle.ng_bpf_vm.specs.declared.instruction.Insn.{Insn};

/// A valid program answers on each packet: it meets no unknown code, no place outside the program, and no word outside
/// the scratch memory, and it comes to an end.
pub fn valid_programs_answer()
    ensures { (program : List Insn) (packet : List ℕ) → IsValid program → IsSome (outcome program packet) }
{}

/// A program is valid exactly if it has no fault.
pub fn valid_programs_have_no_fault()
    ensures { (program : List Insn) → IsValid program ↔ (faults program ≡ []) }
{}

/// A program of one instruction that returns a constant is valid, and answers the constant on each packet.
pub fn lone_return_answers()
    ensures valid { (k : ℕ) → IsValid (lone_return k) }
    ensures answer { (k : ℕ) (packet : List ℕ) → outcome (lone_return k) packet ≡ Some k }
{}
