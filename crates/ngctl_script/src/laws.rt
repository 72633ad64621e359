// What is true of each script.
ghost use Rattle.std.specs.Prelude.{◌≡◌, List, ℕ, None};
ghost use Rattle.ngctl_script.specs.Held.{AreCommands};
ghost use Rattle.ngctl_script.specs.Script.{commands_of, script_fault};

/// The commands of a script without fault are at most 4,096, have the numbers 1, 2 and so on, and each is the command of
/// its line, which has at most 4,096 bytes; and none is fed before one that stands in front of it.
pub fn commands_are_in_order()
    ensures { (bytes : List ℕ) → script_fault bytes ≡ None → AreCommands (commands_of bytes) }
{}
