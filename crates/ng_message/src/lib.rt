//! Control messages of netgraph(4) as bytes: a header of 56 bytes and then arguments, the fields that
//! arguments and answers are made of, what a node tells of itself and of its hooks, and the numbers of
//! ng_message.h.
#![tactic(auto)]

mod codec;
mod fault;
pub mod generic;
mod info;
mod laws;
mod message;
mod numbers;
mod readers;
mod writers;

pub use codec::{decode, encode};
pub use fault::MsgFault;
pub use info::{LinkInfo, NodeInfo, put_link_info, put_node_info};
pub use laws::{name_read_back, number_read_back, numbers_agree, one_header, some_header};
pub use message::{HEADER_LEN, Header, Msg};
pub use numbers::{ANSWER_FLAG, GENERIC_COOKIE, HAS_ANSWER, READ_ONLY, VERSION, is_read_only};
pub use readers::{name_at, u16_at, u32_at, u64_at};
pub use writers::{NAME_LEN, put_name, put_u16, put_u32, put_u64};
