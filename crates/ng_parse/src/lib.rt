//! Arguments of messages as text: what a text stands for, with the first fault of one that is no form,
//! and the text of bytes.
#![tactic(auto)]

mod addresses;
mod counting;
mod fault;
mod integers;
mod laws;
mod printing;
mod reading;
mod strings;
mod texts;
mod tokens;

pub use fault::TextFault;
pub use laws::{forms_are_canonical, printed_is_form_of};
pub use texts::{to_bytes, to_text};
