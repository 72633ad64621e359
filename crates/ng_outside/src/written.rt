// A whole file is written anew.
ghost use Rattle.std.specs.Prelude.{◌≡◌, ◌≢◌, ℕ, ◌≤◌, List, true, OnOk, OnErr};
ghost use Rattle.ng_outside.specs.Contents.{HoldsNow, KeptOrBegun};
ghost use Rattle.ng_outside.specs.Count.{Rose};

use crate::{Failed, Files};

/// Makes the file `name` hold `bytes`: it is made to hold none, and then the whole piece is offered
/// first, and what is left of it again, until all of it is taken. Then its writing is ended. It takes no memory.
///
/// # Errors
/// `Failed`, only where the count of this name's faults rose in this call. The file then holds what
/// it held, or a prefix of `bytes`, which may be empty.
pub fn write_file<F: Files>(files: &mut F, name: &str, bytes: &[u8]) -> Result<(), Failed>
    ensures whole { OnOk result (HoldsNow (F.contents files.old name.now) (F.contents files.new name.now) bytes.now) }
    ensures ended { OnOk result (F.is_ended files.new name.now ≡ true) }
    ensures stopped { OnErr result (KeptOrBegun (F.contents files.old name.now) (F.contents files.new name.now) bytes.now) }
    ensures others { (other : List ℕ) → other ≢ name.now → F.contents files.new other ≡ F.contents files.old other }
    ensures counts { (other : List ℕ) → F.faults files.old other ≤ F.faults files.new other }
    ensures cause { OnErr result (Rose (F.faults files.old name.now) (F.faults files.new name.now)) }
{
    files.fresh(name)?;
    let mut rest = bytes;
    while !rest.is_empty() {
        let count = files.append(name, rest)?;
        rest = &rest[count..];
    }
    files.finish(name)
}
