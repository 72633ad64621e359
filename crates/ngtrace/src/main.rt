//! `ngtrace [-b BUDGET] [-n NAME] [-j JOURNAL [-w WORKERS]] SCRIPT [PORT=IN ..]`: tells why packets were lost in the run of a
//! script of ngctl(8) commands and captures that wrote this journal, or without one in the run of no workers: each packet that
//! came in and reached nothing, and where its copies ended; and then how often what ended at each node.
//!
//! The options are those that the run had. The status is 0 where all went well, 3 where the journal is none of the run, 64
//! where the words are wrong, 65 where a file is not in form or too big, 66 where one can't be read, 74 where the output can't
//! be written, and 71 where memory ran out. What went wrong is told on standard error.
#![tactic(auto)]

mod program;
mod stocked;
mod tell;
mod words;

use ng_outside::{StdFiles, StdSink};
use program::program;
use std::env;
use std::io::ErrorKind;
use std::process::ExitCode;
use words::{behind_name, wordless};

fn main(rt: HostRuntime) -> ExitCode {
    let mut errors = StdSink::new(rt.stderr());
    let args = match env::args(&rt) {
        Ok(args) => args,
        Err(error) => return ExitCode::from(wordless(rt.alloc(), error.kind(), &mut errors)),
    };
    let Ok(args) = args.collect(rt.alloc()) else {
        return ExitCode::from(wordless(rt.alloc(), ErrorKind::OutOfMemory, &mut errors));
    };
    let words = behind_name(args);
    let mut files = StdFiles::new(rt.alloc(), &rt);
    let mut out = StdSink::new(rt.stdout());
    let status = program(rt.alloc(), &words, &mut files, &mut out, &mut errors);
    ExitCode::from(status)
}
