// Files, by name.
ghost use Rattle.std.specs.Prelude.{◌≡◌, ◌≢◌, ◌⊎◌, ℕ, Bool, true, ◌<◌, ◌≤◌, List, [], length, take, IfOk, OnOk, OnErr, IsErr};
ghost use Rattle.ng_outside.specs.Contents.{Contents, NoFile, IfHolds, HoldsNow, Grows, KeptOrBegun};
ghost use Rattle.ng_outside.specs.Count.{Rose};
ghost use Rattle.ng_outside.specs.Read.{ReadsAt};

use crate::Failed;

/// Files that are read and written by name.
///
/// An implementation may tell what a name holds; one that tells it before a call tells it after the
/// call. No call changes what another name holds. For each name there is a count of faults, which
/// never falls and stands still at 2^64 - 1; an implementation may give one counter as the count of
/// every name.
pub trait Files {
    /// What a name holds: its bytes, that there is no such file, or nothing that is told.
    ghost contents: { Self → List ℕ → Contents };

    /// Whether the writing of a name's file is ended: nothing of it is left for the system to write.
    ghost is_ended: { Self → List ℕ → Bool };

    /// A name's count of faults.
    ghost faults: { Self → List ℕ → ℕ };

    /// Reads bytes of the file `name` from the place `at`, in bytes from 0, to the start of `into`,
    /// and gives their number, which is 0 only where `at` is the file's end or past it. What files
    /// hold stays as it was. The caller offers a piece that is not empty.
    ///
    /// # Errors
    /// `Failed`, only where the count of this name's faults rose in this call. A file that is
    /// missing is such a fault.
    fn read(&mut self, name: &str, at: u64, into: &mut [u8]) -> Result<usize, Failed>
        requires { 0 < length into.old }
        ensures within { IfOk result (λ count. count ≤ length into.new) }
        ensures bytes { IfOk result (λ count.
            IfHolds (contents self.old name.now) (λ bytes. ReadsAt bytes at into.new count)) }
        ensures missing { contents self.old name.now ≡ NoFile → IsErr result }
        ensures same { contents self.new ≡ contents self.old }
        ensures counts { (other : List ℕ) → faults self.old other ≤ faults self.new other }
        ensures cause { OnErr result (Rose (faults self.old name.now) (faults self.new name.now)) };

    /// Makes the file `name` hold no bytes. Where there was none, there is one now.
    ///
    /// # Errors
    /// `Failed`, only where the count of this name's faults rose in this call. The file then holds
    /// what it held, or no bytes.
    fn fresh(&mut self, name: &str) -> Result<(), Failed>
        ensures empty { OnOk result (HoldsNow (contents self.old name.now) (contents self.new name.now) []) }
        ensures stopped { OnErr result (KeptOrBegun (contents self.old name.now) (contents self.new name.now) []) }
        ensures others { (other : List ℕ) → other ≢ name.now → contents self.new other ≡ contents self.old other }
        ensures counts { (other : List ℕ) → faults self.old other ≤ faults self.new other }
        ensures cause { OnErr result (Rose (faults self.old name.now) (faults self.new name.now)) };

    /// Takes a prefix of `bytes`, at least one byte, to the end of the file `name`, and gives its
    /// length. What the file holds grows by exactly it. The caller offers a piece that is not empty.
    ///
    /// # Errors
    /// `Failed`, only where the count of this name's faults rose in this call. Nothing was taken then.
    fn append(&mut self, name: &str, bytes: &[u8]) -> Result<usize, Failed>
        requires { 0 < length bytes.now }
        ensures some { IfOk result (λ count. 0 < count) }
        ensures within { IfOk result (λ count. count ≤ length bytes.now) }
        ensures grown { IfOk result (λ count.
            Grows (contents self.old name.now) (contents self.new name.now) (take count bytes.now)) }
        ensures same { OnErr result (contents self.new ≡ contents self.old) }
        ensures others { (other : List ℕ) → other ≢ name.now → contents self.new other ≡ contents self.old other }
        ensures counts { (other : List ℕ) → faults self.old other ≤ faults self.new other }
        ensures cause { OnErr result (Rose (faults self.old name.now) (faults self.new name.now)) };

    /// Ends the writing of the file `name`, as a caller does after its last `append`: the system tells now what it could not
    /// write. What files hold stays as it was.
    ///
    /// # Errors
    /// `Failed`, only where the count of this name's faults rose in this call.
    fn finish(&mut self, name: &str) -> Result<(), Failed>
        ensures ended { OnOk result (is_ended self.new name.now ≡ true) }
        ensures same { contents self.new ≡ contents self.old }
        ensures counts { (other : List ℕ) → faults self.old other ≤ faults self.new other }
        ensures cause { OnErr result (Rose (faults self.old name.now) (faults self.new name.now)) };
}
