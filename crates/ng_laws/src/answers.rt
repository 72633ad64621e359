//! What is known of each answer of a run: which command asked for it, its row in the table of control
//! messages, and the layout of its bytes. Laws alone.
mod laws;

pub use laws::{answers_have_rows, answers_were_asked, helps_were_fed};
