//! The laws of answers. Each function does nothing: its contract is the law.

ghost use Rattle.ng_laws.specs.answers.Answers.{AnswersWereAsked, HelpsWereFed, AnswersHaveRows};

/// In each world of a run, an answer that is pending or was told has the cookie and the number of a
/// message that some fed command asked for, whose number is the answer's tag, or its command once it
/// is told.
pub fn answers_were_asked()
    ensures { AnswersWereAsked }
{}

/// In each world of a run, a command that help was told for is a fed `help`.
pub fn helps_were_fed()
    ensures { HelpsWereFed }
{}

/// In each world of a run that applies at most ten million items over inputs that fit, whose own node
/// and ports have names, an answer that is pending or was told is one that a fed command asked for, in
/// a row of the table of control messages; and its bytes have the layout and the length of that row's
/// answer.
pub fn answers_have_rows()
    ensures { AnswersHaveRows }
{}
