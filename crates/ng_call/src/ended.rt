// How a call ends.
use ng_journal::kept::Journal;
use ng_pcap::CaptureFault;
use ngctl_script::ScriptFault;
use thiserror::Error;

/// A file of the words, or the sink. Ports count from 0.
#[derive(Clone, Copy, Debug, PartialEq, Eq)]
pub enum Which {
    /// The sink.
    Sink,
    /// SCRIPT.
    Script,
    /// The IN of a port.
    Capture(u32),
    /// The OUT of a port.
    Leaving(u32),
    /// JOURNAL.
    Journal,
}

/// Why a call did not come to its end, each with its status.
#[derive(Clone, Copy, Debug, PartialEq, Eq, Error)]
pub enum Fault {
    /// The words are not in form: status 64.
    #[error("the words are not in form")]
    Usage,
    /// The script is not in form: status 65.
    #[error("the script is not in form")]
    Script(ScriptFault),
    /// The capture of a port is not in form: status 65.
    #[error("a capture is not in form")]
    Capture { port: u32, why: CaptureFault },
    /// The script has more bytes than it may have, or the captures more bytes or packets than they may have together:
    /// status 65.
    #[error("a file is too big")]
    TooBig(Which),
    /// A file was not read: status 66.
    #[error("a file was not read")]
    ReadFault(Which),
    /// A file or the sink was not written: status 74.
    #[error("a file or the output was not written")]
    WriteFault(Which),
    /// Out of memory: status 71.
    #[error("out of memory")]
    NoMemory,
}

/// How a call ended.
#[derive(Drop)]
pub struct Ended {
    /// 0, 1 where an errno was told, 2 where the run stopped at its limit, or that of the fault.
    pub status: u8,
    /// The journal of the run. It has no events where the call did not come to the run.
    pub journal: Journal,
    /// The fault, where there is one.
    pub fault: Option<Fault>,
}
