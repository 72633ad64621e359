//! The steps of orders and of what they leave for other nodes: each applies a taken item, all memory first, as the machine does.
mod answering;
mod asking;
mod connecting;
mod gone;
mod inside;
mod joining;
mod making;
mod messages;
mod refusal;

pub use answering::{apply_answer, apply_question};
pub use asking::Question;
pub use connecting::apply_connect;
pub use gone::{apply_gone, apply_nothing};
pub use inside::{Inside, apply_link};
pub use joining::{apply_join, apply_rebind, apply_settle, apply_undo};
pub use making::{apply_mkpeer, apply_rename};
pub use messages::apply_inside;
pub use refusal::apply_refusal;
