// Why bytes are no capture.
ghost use Rattle.std.specs.Prelude.{◌≡◌};
ghost use Rattle.ng_pcap.specs.declared.fault.CaptureFault.TheVariants.{NoMemory as out_of_memory};

use thiserror::Error;

/// Why bytes are no capture: the first of these, in this order, that holds. Of several packets that
/// are too long the first one is told.
#[derive(Clone, Copy, Debug, PartialEq, Eq, Error)]
pub enum CaptureFault {
    /// There are fewer bytes than a file's head has, which is 24: so many.
    #[error("short header")]
    ShortHeader(u64),
    /// The first four bytes are no magic number of a pcap file.
    #[error("no capture")]
    NoMagic,
    /// The version isn't 2.4.
    #[error("bad version")]
    BadVersion,
    /// The packets are of this link type, and not Ethernet, which is 1.
    #[error("bad link type {0}")]
    BadLink(u32),
    /// The packet whose head stands at this place, in bytes from the file's start, has so many bytes,
    /// more than `MAX_PACKET_LEN` of ng_base.
    #[error("packet too long at byte {0}")]
    TooLong(u64, u32),
    /// Out of memory. The file's head has no fault.
    #[error("out of memory")]
    NoMemory,
}

impl From<ng_base::NoMemory> for CaptureFault {
    ghost from_gives = { λ _ fault. fault ≡ out_of_memory };

    fn from(_: ng_base::NoMemory) -> Self {
        CaptureFault::NoMemory
    }
}
