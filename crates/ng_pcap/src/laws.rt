//! Laws of the format. Each function does nothing: its contract is the law.

ghost use Rattle.ng_pcap.specs.Laws.{HasAlwaysASpelling, HeadFaultsAreThese, IsNeverOutOfMemory, ReadsCut, ReadsWhole, ReadsWrittenBack, RefusesTooLong};

/// A head and whole packets are read as those packets, in either byte order and with either unit.
pub fn whole_packets_are_read()
    ensures { ReadsWhole }
{}

/// With a part of a packet behind them they are read as those packets, and as cut where that part
/// begins.
pub fn cut_packet_is_left_out()
    ensures { ReadsCut }
{}

/// With the head of a packet that is too long behind them they are refused, with its place and length.
pub fn long_packet_is_refused()
    ensures { RefusesTooLong }
{}

/// Each file whose head has no fault is a head and whole packets, and behind them nothing, a part of a
/// packet, or the head of a packet that is too long. So the three laws above are about each such file.
pub fn each_file_is_one_of_these()
    ensures { HasAlwaysASpelling }
{}

/// The faults of the head come exactly where they are named: `ShortHeader` with the number of bytes where
/// they are fewer than 24; `NoMagic` where the first four of 24 or more are none of the four spellings of
/// the magic number; `BadVersion` behind one of them where the two numbers of 16 bits, in the byte order
/// that it says, aren't 2 and 4; `BadLink` with the number of 32 bits at byte 20, in that order, where the
/// version is right and the number isn't 1. The head has no fault exactly where none of these is there.
pub fn head_faults_are_these()
    ensures { HeadFaultsAreThese }
{}

/// Out of memory is an answer of this program alone, and nothing that bytes are read as.
pub fn no_file_is_out_of_memory()
    ensures { IsNeverOutOfMemory }
{}

/// A head and any number of packets that are written one after the other are read back with the same
/// times and bytes, and as cut nowhere.
pub fn written_packets_are_read_back()
    ensures { ReadsWrittenBack }
{}
