//! The words in which the core's contracts speak: the story of a core, the desks of its seats, and what each of its calls does
//! to both.
mod desk;
mod desk_laws;
mod story_laws;
mod unclosed;

pub use desk::Desk;
pub use desk_laws::{
    apply_tells, back_tells, close_tells, feed_tells, give_up_tells, jobs_stand, take_tells,
};
pub use story_laws::{
    apply_keeps_sound, back_keeps_sound, begun_is_sound, close_keeps_sound, feed_keeps_sound,
    give_up_keeps_sound, take_keeps_sound,
};
pub use unclosed::{Unclosed, refusal_to_close};
