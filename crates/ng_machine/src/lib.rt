//! The machine that applies one item after another to a graph of nodes: its types, and in `specs/` its definitions and the
//! laws that hold of every run. The module `story` has the words in which the core's contracts speak of it, and `asking` the
//! generic messages that every node knows.
#![tactic(auto)]

pub mod asking;
mod body;
mod command;
mod farewell;
mod fed;
mod hook;
mod input;
mod item;
mod laws;
mod lost;
mod outcome;
mod place;
mod plan;
pub mod story;
mod told;
mod totals;

pub use body::{Body, Door, Exit, Lane};
pub use command::{BoxedCommand, Command, What};
pub use farewell::Farewell;
pub use fed::Fed;
pub use hook::{End, Hook};
pub use input::Input;
pub use item::Item;
pub use laws::{
    absorbing_preserves, by_its_taker, cut_undoes, feeds_unless_refused, in_order, kinds_stay,
    links_are_few, once, orderly_by_test, orderly_is_lawful, packets_are_bounded, plain_is_one,
    plain_is_orderly, plain_is_there, readers_preserve, refused_leaves, retired, run_is,
    runs_are_known, runs_are_low, serial, spent_takes_nothing, states_stay_sound, stays_out,
    taken_once, whole_takes_nothing, writer_alone,
};
pub use lost::Lost;
pub use outcome::{Counts, Leaves, Outcome, Sends};
pub use place::Place;
pub use plan::{BpfWay, BridgeConfig, BridgeHost, BridgeLink, EtfWay, PatchOp, Plan, VlanWay};
pub use told::Told;
pub use totals::{PortTotals, Totals};
