// Words that name a port and its files.
ghost use Rattle.std.specs.Prelude.{◌≡◌, ◌==◌, List, ℕ, IfOk, MatchOption, Some, None, map, string_bytes};
ghost use Rattle.std.specs.List.{list_any};
ghost use Rattle.ng_args.specs.Names.{node_name};

use ng_base::{Name, Sequence};
use std::marker::Model;

/// The name of a file, as it was given. A contract sees it as the list of its bytes.
#[derive(Drop)]
pub struct FileName(pub String);

impl Model for FileName {
    ghost use Rattle.std.specs.Prelude.{ℕ, List, string_bytes};

    ghost Value = { List ℕ };

    ghost view = { λ name. string_bytes name.0 };
}

impl FileName {
    ghost use Rattle.std.specs.Prelude.{◌≡◌};

    /// The name as text.
    pub fn as_str(&self) -> &str
        ensures { result.now ≡ self.now }
    {
        self.0.as_str()
    }
}

/// How the word of a port is written.
#[derive(Clone, Copy)]
pub enum PortForm {
    /// `PORT=IN,OUT`: exactly one comma stands behind the first `=`.
    InAndOut,
    /// `PORT=IN`: a comma is a byte of IN.
    InAlone,
}

/// A port of the command line. A file name without bytes is no file.
#[derive(Drop)]
pub struct PortWord {
    /// The port's name, which doesn't begin with `[`.
    pub name: Name,
    /// The capture that the port receives.
    pub in_file: FileName,
    /// The capture of what leaves by the port.
    pub out_file: FileName,
}
