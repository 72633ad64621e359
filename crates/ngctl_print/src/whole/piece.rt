// A piece of a text, gathered in memory before the sink gets it.
ghost use Rattle.std.specs.Prelude.{◌≡◌, ◌++◌, ◌<◌, ◌≤◌, Some, [], length, take, IfOk, OnOk, OnErr};
ghost use Rattle.std.specs.Io.KnownBytes.{Appends, Keeps};
ghost use Rattle.ng_outside.specs.Count.{next_count, Rose};
ghost use Rattle.ngctl_print.specs.Prints.{Prints};

use crate::PrintStop;
use ng_outside::{Failed, Sink, put_all};
use std::alloc::Global;
use std::marker::Model;

// A piece of so many bytes is handed on.
const FULL: usize = 65536;

/// Lines that are gathered. It is a sink that fails where there is no memory.
#[derive(Drop)]
pub(super) struct Piece {
    bytes: Vec<u8>,
    faults: u64,
}

impl Model for Piece {
    ghost use Rattle.ngctl_print.specs.whole.Pieces.{Gathered};

    ghost Value = { Gathered };

    ghost view = { λ piece. record { bytes = piece.bytes.items; faults = piece.faults } };
}

impl Piece {
    /// Nothing is gathered.
    pub(super) fn new(alloc: Global) -> Piece
        ensures { result ≡ record { bytes = []; faults = 0 } }
    {
        Piece {
            bytes: Vec::new(alloc),
            faults: 0,
        }
    }

    /// Whether it is large enough to be handed on.
    pub(super) fn is_full(&self) -> bool {
        self.bytes.len() >= FULL
    }

    /// Puts what was gathered into a sink.
    ///
    /// # Errors
    /// `Fault` where the sink failed.
    pub(super) fn hand_on<O: Sink>(&mut self, out: &mut O) -> Result<(), PrintStop>
        ensures put { Prints (O.contents out.old) (O.contents out.new) (O.faults out.old) (O.faults out.new) result self.old.bytes }
        ensures empty { OnOk result (self.new.bytes ≡ []) }
    {
        put_all(out, &self.bytes)?;
        self.bytes.clear();
        Ok(())
    }
}

impl Sink for Piece {
    ghost contents = { λ piece. Some piece.bytes };

    ghost faults = { λ piece. piece.faults };

    /// # Errors
    /// `Failed` where there is no memory.
    fn put(&mut self, bytes: &[u8]) -> Result<usize, Failed>
        requires { 0 < length bytes.now }
        ensures ok { OnOk result (self.new.bytes ≡ self.old.bytes ++ bytes.now) }

        // What every implementation promises.
        ensures some { IfOk result (λ count. 0 < count) }
        ensures within { IfOk result (λ count. count ≤ length bytes.now) }
        ensures grown { IfOk result (λ count. Appends (Some self.old.bytes) (Some self.new.bytes) (take count bytes.now)) }
        ensures same { OnErr result (Keeps (Some self.old.bytes) (Some self.new.bytes)) }
        ensures counts { self.old.faults ≤ self.new.faults }
        ensures cause { OnErr result (Rose self.old.faults self.new.faults) }
    {
        match self.bytes.extend_from_slice(bytes) {
            Ok(()) => Ok(bytes.len()),
            Err(_) => {
                self.faults = self.faults.saturating_add(1);
                Err(Failed)
            }
        }
    }
}
