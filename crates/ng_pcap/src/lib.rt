//! Captures: files of the pcap format, version 2.4, of Ethernet frames. They are read in either byte
//! order, with microseconds or nanoseconds, and written with nanoseconds.
#![tactic(auto)]

mod capture;
mod fault;
mod format;
mod laws;
mod reader;
mod writer;

pub use capture::Capture;
pub use fault::CaptureFault;
pub use format::{ETHERNET, HEAD_LEN, NANOS_PER_SECOND, PACKET_HEAD_LEN};
pub use laws::{
    cut_packet_is_left_out, each_file_is_one_of_these, head_faults_are_these,
    long_packet_is_refused, no_file_is_out_of_memory, whole_packets_are_read,
    written_packets_are_read_back,
};
pub use reader::{count_packets, read_capture};
pub use writer::{write_head, write_packet};
