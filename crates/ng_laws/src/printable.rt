//! What a run tells can be printed, and what leaves by its ports can be written as captures. Laws alone.
mod laws;

pub use laws::{
    answers_have_text, inputs_are_fit, inputs_are_of_script, inputs_are_timed, left_is_writable,
    told_is_printable,
};
