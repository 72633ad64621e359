// What the words of a command line say.
use crate::{FileName, PortWord};
use ng_base::{Name, Sequence};

/// Where the script and the captures of a run come from.
#[derive(Drop)]
pub enum Source {
    /// From files: the script's, and those of the ports.
    FromFiles {
        /// SCRIPT.
        script: FileName,
        /// The ports, in order, 64 at the most.
        ports: Sequence<PortWord>,
    },
    /// They are made, for so many packets: `-g N`, 1 to 100,000.
    Made(u32),
}

/// The words of a run.
#[derive(Drop)]
pub struct Words {
    /// The number of workers, 0 to 16; 0 unless `-w` is given.
    pub workers: u32,
    /// How many items are applied at the most, 1 to 10,000,000; 1,000,000 unless `-b` is given.
    pub budget: u64,
    /// The name of the socket that commands come from; `ngctl` unless `-n` is given.
    pub own_name: Name,
    /// The file of the journal, where `-j` is given.
    pub journal: Option<FileName>,
    /// Where the script and the captures come from.
    pub source: Source,
}

/// The words of a replay.
#[derive(Drop)]
pub struct ReplayWords {
    /// How many items the run was to apply at the most, 1 to 10,000,000.
    pub budget: u64,
    /// The number of workers of the run, 0 to 16.
    pub workers: u32,
    /// The name of the socket that commands come from.
    pub own_name: Name,
    /// The file of the journal.
    pub journal: FileName,
    /// The file of the script.
    pub script: FileName,
    /// The ports, in order, 64 at the most; nothing is written for them.
    pub ports: Sequence<PortWord>,
}

/// The words of a forecast.
#[derive(Drop)]
pub struct ForecastWords {
    /// How many nodes a packet may pass, 1 to 64.
    pub hops: u32,
    /// The name of the socket that commands come from.
    pub own_name: Name,
    /// The file of the script.
    pub script: FileName,
    /// The ports, in order, 64 at the most; nothing is written for them.
    pub ports: Sequence<PortWord>,
}
