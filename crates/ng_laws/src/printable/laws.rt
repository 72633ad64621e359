//! The laws of what is printed. Each function does nothing: its contract is the law.

ghost use Rattle.ng_laws.specs.printable.Printable.{AnswersHaveText, LeftIsWritable, ToldIsPrintable};
ghost use Rattle.ng_laws.specs.printable.Scripts.{InputsAreFit, InputsAreOfScript, InputsAreTimed};

/// In each world of a run that applies at most ten million items over inputs that fit, with at most 64 ports
/// and 4,096 commands, whose own node and ports have names, and whose commands have ascending numbers, each
/// entry that was told can be printed: `ngctl_print::whole::print_told` may be called with it and the commands of
/// the inputs.
pub fn told_is_printable()
    ensures { ToldIsPrintable }
{}

/// In each world of a run that applies at most ten million items over inputs that fit, with at most 64 ports
/// and 4,096 commands, whose own node and ports have names, an answer that was told stands in a row of the
/// table of control messages, and its bytes have a text in the shape of that row's answer: none is printed
/// as nothing.
pub fn answers_have_text()
    ensures { AnswersHaveText }
{}

/// In each world of a run over inputs that fit, whose packets came before 2^32 seconds, what left by a
/// port can be written as a capture: `ngctl_print::whole::capture_text` may be called with it.
pub fn left_is_writable()
    ensures { LeftIsWritable }
{}

/// Whatever captures there are, the commands among the inputs that `ngctl_script::feed::inputs` makes of a script are
/// those of the script, in order, and their numbers ascend.
pub fn inputs_are_of_script()
    ensures { InputsAreOfScript }
{}

/// Where no packet of the captures has more than 262,144 bytes, as those of `ng_pcap::read_capture` have
/// not, and there is a port for each capture, the inputs that `ngctl_script::feed::inputs` makes of them and a script
/// fit a run: each packet comes by one of the ports, none is too long, and there are at most 4,096 commands.
pub fn inputs_are_fit()
    ensures { InputsAreFit }
{}

/// Where each packet of the captures came before 2^32 seconds, as those of `ng_pcap::read_capture` do, so
/// did each among the inputs that `ngctl_script::feed::inputs` makes of them.
pub fn inputs_are_timed()
    ensures { InputsAreTimed }
{}
