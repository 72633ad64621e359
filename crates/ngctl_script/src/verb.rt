// The commands of ngctl(8).
ghost use Rattle.std.specs.Prelude.{◌≡◌, MatchResult, Ok, Err, find, filter};
ghost use Rattle.std.specs.Str.{bytes_eq};
ghost use Rattle.ngctl_script.specs.Commands.{is_prefix, named, only, usage, verb_text, verbs};
ghost use Rattle.ngctl_script.specs.Refusals.{refusal_words};

use crate::Refusal;

/// A command of ngctl(8), by its name.
#[derive(Clone, Copy, Debug, PartialEq, Eq)]
pub enum Verb {
    /// `config path [args]`.
    Config,
    /// `connect [path] relpath hook peerhook`.
    Connect,
    /// `help [command]`.
    Help,
    /// `list [-n]`.
    List,
    /// `mkpeer [path] type hook peerhook`.
    Mkpeer,
    /// `msg path command [args]`.
    Msg,
    /// `name path name`.
    Name,
    /// `quit`.
    Quit,
    /// `rmhook [path] hook`.
    Rmhook,
    /// `show [-n] path`.
    Show,
    /// `shutdown path`.
    Shutdown,
    /// `status path`.
    Status,
    /// `types`.
    Types,
    /// `write hook byte ..`.
    Write,
}

impl Verb {
    /// Every command, in the order of their names.
    pub const ALL: [Verb; 14] = [
        Verb::Config,
        Verb::Connect,
        Verb::Help,
        Verb::List,
        Verb::Mkpeer,
        Verb::Msg,
        Verb::Name,
        Verb::Quit,
        Verb::Rmhook,
        Verb::Show,
        Verb::Shutdown,
        Verb::Status,
        Verb::Types,
        Verb::Write,
    ];

    /// The name of the command.
    pub fn text(self) -> &'static str
        ensures { result.now ≡ verb_text self }
    {
        match self {
            Verb::Config => "config",
            Verb::Connect => "connect",
            Verb::Help => "help",
            Verb::List => "list",
            Verb::Mkpeer => "mkpeer",
            Verb::Msg => "msg",
            Verb::Name => "name",
            Verb::Quit => "quit",
            Verb::Rmhook => "rmhook",
            Verb::Show => "show",
            Verb::Shutdown => "shutdown",
            Verb::Status => "status",
            Verb::Types => "types",
            Verb::Write => "write",
        }
    }

    /// The name of the command and the words behind it, those in brackets optional.
    pub fn usage(self) -> &'static str
        ensures { result.now ≡ usage self }
    {
        match self {
            Verb::Config => "config path [args]",
            Verb::Connect => "connect [path] relpath hook peerhook",
            Verb::Help => "help [command]",
            Verb::List => "list [-n]",
            Verb::Mkpeer => "mkpeer [path] type hook peerhook",
            Verb::Msg => "msg path command [args]",
            Verb::Name => "name path name",
            Verb::Quit => "quit",
            Verb::Rmhook => "rmhook [path] hook",
            Verb::Show => "show [-n] path",
            Verb::Shutdown => "shutdown path",
            Verb::Status => "status path",
            Verb::Types => "types",
            Verb::Write => "write hook byte ..",
        }
    }

    /// The command of that name, in full or by a prefix that no other command has.
    ///
    /// # Errors
    /// `Unknown` where the word is no prefix of a command's name, and `Ambiguous` where it is no name and a prefix of
    /// several.
    pub fn named(word: &[u8]) -> Result<Verb, Refusal>
        ensures { MatchResult result (λ verb. named word.now ≡ Ok verb) (λ why. named word.now ≡ Err (refusal_words why)) }
    {
        match with_text(word) {
            Some(verb) => Ok(verb),
            None => only_front(&Verb::ALL, word),
        }
    }
}

fn with_text(word: &[u8]) -> Option<Verb>
    ensures { result ≡ find (λ verb. bytes_eq (verb_text verb) word.now) verbs }
{
    Verb::ALL
        .iter()
        .copied()
        .find(|verb| verb.text().as_bytes() == word)
}

fn is_front(word: &[u8], verb: Verb) -> bool
    ensures { result ≡ is_prefix word.now verb }
{
    verb.text().as_bytes().starts_with(word)
}

/// The one of the commands that has the word as a prefix of its name.
fn only_front(verbs: &[Verb], word: &[u8]) -> Result<Verb, Refusal>
    ensures { let answer = only (filter (is_prefix word.now) verbs.now) in
        MatchResult result (λ verb. answer ≡ Ok verb) (λ why. answer ≡ Err (refusal_words why)) }
{
    let mut found = None;
    for verb in verbs {
        if is_front(word, *verb) {
            if found.is_some() {
                return Err(Refusal::Ambiguous);
            }
            found = Some(*verb);
        }
    }
    found.ok_or(Refusal::Unknown)
}
