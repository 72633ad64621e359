// How a forecast ends.
use ng_base::{Packet, Sequence};
use ng_machine::Place;
use ng_pcap::CaptureFault;
use ngctl_script::ScriptFault;
use thiserror::Error;

/// A file that a forecast reads. Ports count from 0.
#[derive(Clone, Copy, Debug, PartialEq, Eq)]
pub enum Source {
    /// SCRIPT.
    Script,
    /// The IN of a port.
    Capture(u32),
}

/// Why a forecast did not come to its end, each with its status.
#[derive(Clone, Copy, Debug, PartialEq, Eq, Error)]
pub enum ForecastFault {
    /// The words are not in form: status 64.
    #[error("the words are not in form")]
    Usage,
    /// The script is not in form: status 65.
    #[error("the script is not in form")]
    Script(ScriptFault),
    /// The capture of a port is not in form: status 65.
    #[error("a capture is not in form")]
    Capture { port: u32, why: CaptureFault },
    /// The script has more bytes than it may have, or the captures more bytes or packets than they may have together:
    /// status 65.
    #[error("a file is too big")]
    TooBig(Source),
    /// A file was not read: status 66.
    #[error("a file was not read")]
    ReadFault(Source),
    /// The sink was not written: status 74.
    #[error("the output was not written")]
    WriteFault,
    /// A command stands behind a mark with a number, so the graph does not stand still: the first one's number, from 1.
    /// Status 4.
    #[error("a command between packets")]
    Moving { command: u32 },
    /// The run of the commands stopped at its limit of applied items: status 4.
    #[error("the commands do not come to rest")]
    Restless,
    /// With this packet, from 1, more packets are met than may be: status 4.
    #[error("too many packets are met")]
    Wide { packet: u64 },
    /// This packet has no spread, from 1: status 4.
    #[error("a packet is not foretold")]
    Undefined { packet: u64 },
    /// With this packet, from 1, more bytes leave than may: status 4.
    #[error("too many bytes leave")]
    Big { packet: u64 },
    /// Out of memory: status 71.
    #[error("out of memory")]
    NoMemory,
}

/// Packets with the places where they leave: how often each stands there matters, and not the order. Packets share their bytes.
pub type Spread = Sequence<(Place, Packet)>;

/// How a forecast ended.
#[derive(Drop)]
pub struct Forecast {
    /// 0, or that of the fault.
    pub status: u8,
    /// Where the copies of all packets leave. It is empty where there is a fault.
    pub bag: Spread,
    /// The fault, where there is one.
    pub fault: Option<ForecastFault>,
}
