// How a file is written: in which order it has a number's bytes, and what its fractions of a second
// count.
ghost use Rattle.std.specs.Prelude.{◌≡◌, ◌≤◌, ◌<◌, ◌^◌, ◌+◌, length};

use byteorder::{BigEndian, ByteOrder, LittleEndian};
use ng_base::Stamp;

/// The bytes of a file's head.
pub const HEAD_LEN: usize = 24;

/// The bytes of the head that stands in front of each packet.
pub const PACKET_HEAD_LEN: usize = 16;

/// The link type of Ethernet (LINKTYPE_ETHERNET).
pub const ETHERNET: u32 = 1;

/// The version of the format that is known: 2.4.
pub(crate) const MAJOR: u16 = 2;

/// The part of the version behind the point.
pub(crate) const MINOR: u16 = 4;

/// The magic number of a file with microseconds.
const MICROSECOND_MAGIC: u32 = 0xa1b2_c3d4;

/// The magic number of a file with nanoseconds.
pub(crate) const NANOSECOND_MAGIC: u32 = 0xa1b2_3c4d;

/// Nanoseconds in a second.
pub const NANOS_PER_SECOND: u64 = 1_000_000_000;

/// Which of a number's bytes stands first.
#[derive(Clone, Copy, Debug, PartialEq, Eq)]
pub(crate) enum Endian {
    /// The highest.
    Big,
    /// The lowest.
    Little,
}

/// What a fraction of a second counts.
#[derive(Clone, Copy, Debug, PartialEq, Eq)]
pub(crate) enum Resolution {
    Microseconds,
    Nanoseconds,
}

/// How a file is written, as its magic number says.
#[derive(Clone, Copy, Debug, PartialEq, Eq)]
pub(crate) struct Format {
    pub(crate) endian: Endian,
    pub(crate) resolution: Resolution,
}

impl Endian {
    ghost use Rattle.ng_pcap.specs.Format.{number};

    /// The number of 16 bits that stands at `at`.
    pub(crate) fn u16_at(self, bytes: &[u8], at: usize) -> u16
        requires { at + 2 ≤ length bytes.now }
        ensures { result ≡ number self 2 at bytes.now }
    {
        match self {
            Endian::Big => BigEndian::read_u16(&bytes[at..]),
            Endian::Little => LittleEndian::read_u16(&bytes[at..]),
        }
    }

    /// The number of 32 bits that stands at `at`.
    pub(crate) fn u32_at(self, bytes: &[u8], at: usize) -> u32
        requires { at + 4 ≤ length bytes.now }
        ensures { result ≡ number self 4 at bytes.now }
    {
        match self {
            Endian::Big => BigEndian::read_u32(&bytes[at..]),
            Endian::Little => LittleEndian::read_u32(&bytes[at..]),
        }
    }
}

impl Resolution {
    ghost use Rattle.ng_pcap.specs.Format.{resolution_of, stamp_of};

    /// What the magic number says of fractions.
    fn from_magic(magic: u32) -> Option<Resolution>
        ensures { result ≡ resolution_of magic }
    {
        match magic {
            MICROSECOND_MAGIC => Some(Resolution::Microseconds),
            NANOSECOND_MAGIC => Some(Resolution::Nanoseconds),
            _ => None,
        }
    }

    /// The time that so many seconds and a fraction are. A fraction that isn't below a whole second
    /// counts as the last one that is.
    pub(crate) fn stamp(self, seconds: u32, fraction: u32) -> Stamp
        ensures { result ≡ stamp_of self seconds fraction }
    {
        let nanos = match self {
            Resolution::Microseconds => u64::from(fraction.min(999_999)) * 1_000,
            Resolution::Nanoseconds => u64::from(fraction.min(999_999_999)),
        };
        Stamp(u64::from(seconds) * NANOS_PER_SECOND + nanos)
    }
}

impl Format {
    ghost use Rattle.ng_pcap.specs.Format.{format_of};

    /// How a file is written that begins so. `None` where its first four bytes are no magic number in
    /// either order.
    pub(crate) fn from_head(head: &[u8]) -> Option<Format>
        requires { 4 ≤ length head.now }
        ensures { result ≡ format_of head.now }
    {
        if let Some(resolution) = Resolution::from_magic(Endian::Big.u32_at(head, 0)) {
            let endian = Endian::Big;
            return Some(Format { endian, resolution });
        }
        let endian = Endian::Little;
        let resolution = Resolution::from_magic(endian.u32_at(head, 0))?;
        Some(Format { endian, resolution })
    }
}
