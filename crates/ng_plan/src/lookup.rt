//! What the rules of all types of nodes look up and make: the names of hooks that types speak of, hooks and entries that
//! are found by their names or numbers, the addresses of frames, and outcomes.
mod addresses;
mod by_name;
mod filters;
mod hooks;
mod key;
mod name_map;
mod names;
mod order;
mod outcomes;
mod places;
mod sending;
mod table;

pub use addresses::{destination_of, is_broadcast, is_group, source_of};
pub use by_name::{NameTable, Named, find_named};
pub use filters::Filters;
pub use hooks::Hooks;
pub use key::{Key, address_number, same_address};
pub use name_map::NameMap;
pub use names::{
    all_hook, downstream, in_hook, is_named, known_hook, left, left2right, link_hook, link_number,
    lower, many, mixed, nomatch, one, other_hook, out_hook, right, right2left, upper,
};
pub use outcomes::{answers, fails, leave, nothing, send, send_by};
pub use places::Places;
pub use sending::{count_packet, count_packets, send_to};
pub use table::Table;
