// How a replay ended.
use ng_pcap::CaptureFault;
use ngctl_script::ScriptFault;
use thiserror::Error;

/// A file of the words. Ports count from 0.
#[derive(Clone, Copy, Debug, PartialEq, Eq)]
pub enum Given {
    /// SCRIPT.
    Script,
    /// The IN of a port.
    Capture(u32),
    /// JOURNAL.
    Journal,
}

/// Why a replay did not say yes, each with its status.
#[derive(Clone, Copy, Debug, PartialEq, Eq, Error)]
pub enum ReplayFault {
    /// The words are not in form: status 64.
    #[error("the words are not in form")]
    Usage,
    /// The script is not in form: status 65.
    #[error("the script is not in form")]
    Script(ScriptFault),
    /// The capture of a port is not in form: status 65.
    #[error("a capture is not in form")]
    Capture { port: u32, why: CaptureFault },
    /// The line of this number, from 1, is the first of the journal that is not in form: status 65.
    #[error("line {0} of the journal is not in form")]
    Journal(u64),
    /// The script or the journal has more bytes than it may have, or the captures more bytes or packets than they may have
    /// together: status 65.
    #[error("a file is too big")]
    TooBig(Given),
    /// A file was not read: status 66.
    #[error("a file was not read")]
    ReadFault(Given),
    /// The text was not written: status 74.
    #[error("the output was not written")]
    WriteFault,
    /// The event of this number, from 1, is the first that is not allowed, or all are and it is the number behind the last of a
    /// journal that is not whole: status 3.
    #[error("event {at} of the journal is not allowed")]
    No { at: u64 },
    /// Out of memory: status 71.
    #[error("out of memory")]
    NoMemory,
}

/// How a replay ended.
#[derive(Clone, Copy, Debug, PartialEq, Eq)]
pub struct Replayed {
    /// 0, or that of the fault.
    pub status: u8,
    /// The fault, where there is one; with none the journal is accepted.
    pub fault: Option<ReplayFault>,
}
