//! Worked examples of the machine and of its laws: what runs and spreads give, computed from the definitions. Each function
//! does nothing, and its contract is the example. The module `counter` is a worked use of the turn between threads.
#![tactic(auto)]

pub mod counter;
mod desk_examples;
mod examples;
mod spread_examples;
mod type_examples;

pub use desk_examples::desk_example;
pub use examples::{
    again_example, allowed_example, bypass_example, dropped_example, echo_example, itself_example,
    joined_example, limits_example, names_example, past_example, questions_example,
    refusals_example, refused_example, round_example, shutdown_example, ticks_example,
    types_example, undone_example, unjoined_example,
};
pub use spread_examples::{
    bridge_spreads, hub_bag, hub_spreads, loop_spreads, tag_spreads, tee_spreads,
};
pub use type_examples::{
    aging_example, beside_example, copying_example, dealing_example, forgotten_example,
    learning_example, looping_example, no_links_example, order_example, patching_example,
    program_example, sifting_example, sizes_example, sorting_example, splitting_example,
    staying_example, tagging_example,
};
