// What holds of addresses whatever reads them.
ghost use Rattle.std.specs.Prelude.{◌≡◌, ℕ, List};
ghost use Rattle.ng_path.specs.declared.fault.PathFault.{PathFault};
ghost use Rattle.ng_path.specs.declared.path.Head.{Head};
ghost use Rattle.ng_path.specs.Grammar.{IsPath};
ghost use Rattle.ng_path.specs.Faults.{HasFault, IsFirstFault};
ghost use Rattle.ng_path.specs.Address.{ReadsAddress};

/// Bytes are the address of one head and one list of hooks at most.
pub fn one_path()
    ensures { (bytes : List ℕ) (a b : Head) (xs ys : List (List ℕ)) → IsPath bytes a xs → IsPath bytes b ys
        → (a ≡ b) × (xs ≡ ys) }
{}

/// Bytes that are an address have no fault.
pub fn path_or_fault()
    ensures { (bytes : List ℕ) (head : Head) (hooks : List (List ℕ)) (fault : PathFault) → IsPath bytes head hooks
        → HasFault bytes fault → ⊥ }
{}

/// Bytes have one first fault at most.
pub fn one_fault()
    ensures { (bytes : List ℕ) (a b : PathFault) → IsFirstFault bytes a → IsFirstFault bytes b → a ≡ b }
{}

/// The address that is computed from bytes (`read_address` of `specs/Address.antt`) is the one that they
/// are, as `read_path` reads it: the two agree on every list of bytes.
pub fn reads_address()
    ensures { ReadsAddress }
{}
