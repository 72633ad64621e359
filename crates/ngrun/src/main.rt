//! `ngrun [-w WORKERS] [-b BUDGET] [-n NAME] [-j JOURNAL] SCRIPT [PORT=IN,OUT ..]`: runs a script of ngctl(8) commands and
//! the captures that come in by the ports, prints what the commands tell and a summary, and writes the captures that leave
//! and the journal. `-g N` in place of SCRIPT and the ports runs a workload that is made of a number.
//!
//! `ngrun --replay BUDGET WORKERS NAME JOURNAL SCRIPT [PORT=IN ..]` says whether a journal is one of such a run, and prints the
//! text of that run. `ngrun --forecast HOPS NAME SCRIPT [PORT=IN ..]` tells what will leave a graph that stands still, without
//! running the packets.
//!
//! The status is 0 where all went well, 1 where a command was refused, 2 where the run stopped at its limit, 3 where the
//! journal is none of the run, 4 where nothing can be foretold, 64 where the words are wrong, 65 where a file is not in form or
//! too big, 66 where one can't be read, 74 where one or the output can't be written, and 71 where memory ran out. What went
//! wrong is told on standard error.
#![tactic(auto)]

mod program;
mod stocked;
mod tell;
mod words;

use ng_outside::{OpenGate, StdFiles, StdSink};
use program::program;
use std::env;
use std::io::ErrorKind;
use std::process::ExitCode;
use words::{behind_name, wordless};

fn main(rt: HostRuntime) -> ExitCode {
    let mut errors = StdSink::new(rt.stderr());
    let args = match env::args(&rt) {
        Ok(args) => args,
        Err(error) => return ExitCode::from(wordless(rt.alloc(), error.kind(), &mut errors)),
    };
    let Ok(args) = args.collect(rt.alloc()) else {
        return ExitCode::from(wordless(rt.alloc(), ErrorKind::OutOfMemory, &mut errors));
    };
    let words = behind_name(args);
    let mut files = StdFiles::new(rt.alloc(), &rt);
    let mut out = StdSink::new(rt.stdout());
    let status = program(
        &rt,
        rt.alloc(),
        &words,
        &mut files,
        &mut out,
        &mut errors,
        &OpenGate,
    );
    ExitCode::from(status)
}
