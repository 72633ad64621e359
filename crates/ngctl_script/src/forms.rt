// The form of each command: what its words ask for.
ghost use Rattle.std.specs.Prelude.{◌≡◌, ◌∷◌, [], List, ℕ, IfOk};
ghost use Rattle.ngctl_script.specs.Forms.{asked as asked_words, config_of, connect_of, help_words, is_path, list_of, mkpeer_of, what_of};
ghost use Rattle.ngctl_script.specs.Forms.{msg_of, name_of, one_path, no_words, rmhook_of, show_of};
ghost use Rattle.ngctl_script.specs.Lines.{past_blanks};
ghost use Rattle.ngctl_script.specs.Refusals.{Asks, IsNamed, IsPathed};
ghost use Rattle.ngctl_script.specs.Words.{past_word, words_in};

use crate::bytes::write;
use crate::lines::skip_blanks;
use crate::words::{Words, few_words, next_word};
use crate::{Refusal, Verb};
use ng_base::{Bytes, Name, NoMemory, Stop};
use ng_machine::What;
use ng_path::read_path;
use std::alloc::Global;

/// What a line asks for, or why it asks for nothing, or out of memory.
pub(crate) type Form = Result<What, Stop<Refusal>>;

/// The bytes of a word.
pub(crate) fn copy(alloc: Global, word: &[u8]) -> Result<Bytes, NoMemory>
    ensures { IfOk result (λ bytes. bytes ≡ word.now) }
{
    Ok(Bytes(Vec::from_slice(alloc, word)?))
}

/// The name that a word is.
pub(crate) fn read_name(word: &[u8]) -> Result<Name, Stop<Refusal>>
    ensures { IsNamed word.now result }
{
    match Name::read(word) {
        Ok(name) => Ok(name),
        Err(_) => Err(Stop::Fault(Refusal::BadName)),
    }
}

fn is_address(word: &[u8]) -> bool
    ensures { result ≡ is_path word.now }
{
    ng_path::reads_address();
    read_path(word).is_ok()
}

/// A word that is an address, as it stands.
fn read_address(alloc: Global, word: &[u8]) -> Result<Bytes, Stop<Refusal>>
    ensures { IsPathed word.now result }
{
    if !is_address(word) {
        return Err(Stop::Fault(Refusal::BadPath));
    }
    Ok(copy(alloc, word)?)
}

/// `config path [args]`: the arguments are the rest of the line.
fn config(alloc: Global, rest: &[u8]) -> Form
    ensures { (line : List ℕ) → rest.now ≡ past_word (past_blanks line) → Asks result (config_of line (words_in rest.now)) }
{
    let Some((path, rest)) = next_word(rest) else {
        return Err(Stop::Fault(Refusal::Usage(Verb::Config)));
    };
    let path = read_address(alloc, path)?;
    let args = copy(alloc, skip_blanks(rest))?;
    Ok(What::Config { path, args })
}

/// `connect` of three words.
fn connect_to(alloc: Global, relpath: &[u8], hook: &[u8], peerhook: &[u8]) -> Form
    ensures { Asks result (connect_of (relpath.now ∷ hook.now ∷ peerhook.now ∷ [])) }
{
    let hook = read_name(hook)?;
    let peerhook = read_name(peerhook)?;
    let relpath = read_address(alloc, relpath)?;
    Ok(What::Connect {
        path: None,
        relpath,
        hook,
        peerhook,
    })
}

/// `connect` of four words.
fn connect_from(alloc: Global, path: &[u8], relpath: &[u8], hook: &[u8], peerhook: &[u8]) -> Form
    ensures { Asks result (connect_of (path.now ∷ relpath.now ∷ hook.now ∷ peerhook.now ∷ [])) }
{
    let hook = read_name(hook)?;
    let peerhook = read_name(peerhook)?;
    let path = Some(read_address(alloc, path)?);
    let relpath = read_address(alloc, relpath)?;
    Ok(What::Connect {
        path,
        relpath,
        hook,
        peerhook,
    })
}

/// `connect [path] relpath hook peerhook`.
fn connect(alloc: Global, rest: &[u8]) -> Form
    ensures { Asks result (connect_of (words_in rest.now)) }
{
    match few_words(rest) {
        Words::Three(relpath, hook, peerhook) => connect_to(alloc, relpath, hook, peerhook),
        Words::Four(path, relpath, hook, peerhook) => {
            connect_from(alloc, path, relpath, hook, peerhook)
        }
        _ => Err(Stop::Fault(Refusal::Usage(Verb::Connect))),
    }
}

/// `help` of one word, which is read as the first word of a line is.
fn help_on(alloc: Global, word: &[u8]) -> Form
    ensures { Asks result (help_words (word.now ∷ [])) }
{
    match Verb::named(word) {
        Ok(_) => Ok(What::Help {
            command: Some(copy(alloc, word)?),
        }),
        Err(why) => Err(Stop::Fault(why)),
    }
}

/// `help [command]`.
fn help(alloc: Global, rest: &[u8]) -> Form
    ensures { Asks result (help_words (words_in rest.now)) }
{
    match few_words(rest) {
        Words::Zero => Ok(What::Help { command: None }),
        Words::One(word) => help_on(alloc, word),
        _ => Err(Stop::Fault(Refusal::Usage(Verb::Help))),
    }
}

/// `list [-n]`.
fn list(rest: &[u8]) -> Form
    ensures { Asks result (list_of (words_in rest.now)) }
{
    match few_words(rest) {
        Words::Zero => Ok(What::List { named: false }),
        Words::One(word) if word == b"-n".as_slice() => Ok(What::List { named: true }),
        _ => Err(Stop::Fault(Refusal::Usage(Verb::List))),
    }
}

/// `mkpeer` of three words.
fn mkpeer_here(kind: &[u8], hook: &[u8], peerhook: &[u8]) -> Form
    ensures { Asks result (mkpeer_of (kind.now ∷ hook.now ∷ peerhook.now ∷ [])) }
{
    Ok(What::Mkpeer {
        path: None,
        kind_name: read_name(kind)?,
        hook: read_name(hook)?,
        peerhook: read_name(peerhook)?,
    })
}

/// `mkpeer` of four words.
fn mkpeer_at(alloc: Global, path: &[u8], kind: &[u8], hook: &[u8], peerhook: &[u8]) -> Form
    ensures { Asks result (mkpeer_of (path.now ∷ kind.now ∷ hook.now ∷ peerhook.now ∷ [])) }
{
    let kind_name = read_name(kind)?;
    let hook = read_name(hook)?;
    let peerhook = read_name(peerhook)?;
    let path = Some(read_address(alloc, path)?);
    Ok(What::Mkpeer {
        path,
        kind_name,
        hook,
        peerhook,
    })
}

/// `mkpeer [path] type hook peerhook`.
fn mkpeer(alloc: Global, rest: &[u8]) -> Form
    ensures { Asks result (mkpeer_of (words_in rest.now)) }
{
    match few_words(rest) {
        Words::Three(kind, hook, peerhook) => mkpeer_here(kind, hook, peerhook),
        Words::Four(path, kind, hook, peerhook) => mkpeer_at(alloc, path, kind, hook, peerhook),
        _ => Err(Stop::Fault(Refusal::Usage(Verb::Mkpeer))),
    }
}

/// `msg path command [args]`: the arguments are the rest of the line.
fn msg(alloc: Global, rest: &[u8]) -> Form
    ensures { (line : List ℕ) → rest.now ≡ past_word (past_blanks line) → Asks result (msg_of line (words_in rest.now)) }
{
    let Some((path, rest)) = next_word(rest) else {
        return Err(Stop::Fault(Refusal::Usage(Verb::Msg)));
    };
    let Some((command, rest)) = next_word(rest) else {
        return Err(Stop::Fault(Refusal::Usage(Verb::Msg)));
    };
    let path = read_address(alloc, path)?;
    let command = copy(alloc, command)?;
    let args = copy(alloc, skip_blanks(rest))?;
    Ok(What::Msg {
        path,
        command,
        args,
    })
}

/// `name` of two words.
fn name_node(alloc: Global, path: &[u8], name: &[u8]) -> Form
    ensures { Asks result (name_of (path.now ∷ name.now ∷ [])) }
{
    let name = read_name(name)?;
    let path = read_address(alloc, path)?;
    Ok(What::Name { path, name })
}

/// `name path name`.
fn name(alloc: Global, rest: &[u8]) -> Form
    ensures { Asks result (name_of (words_in rest.now)) }
{
    match few_words(rest) {
        Words::Two(path, name) => name_node(alloc, path, name),
        _ => Err(Stop::Fault(Refusal::Usage(Verb::Name))),
    }
}

/// `rmhook` of one word.
fn rmhook_here(hook: &[u8]) -> Form
    ensures { Asks result (rmhook_of (hook.now ∷ [])) }
{
    Ok(What::Rmhook {
        path: None,
        hook: read_name(hook)?,
    })
}

/// `rmhook` of two words.
fn rmhook_at(alloc: Global, path: &[u8], hook: &[u8]) -> Form
    ensures { Asks result (rmhook_of (path.now ∷ hook.now ∷ [])) }
{
    let hook = read_name(hook)?;
    let path = Some(read_address(alloc, path)?);
    Ok(What::Rmhook { path, hook })
}

/// `rmhook [path] hook`.
fn rmhook(alloc: Global, rest: &[u8]) -> Form
    ensures { Asks result (rmhook_of (words_in rest.now)) }
{
    match few_words(rest) {
        Words::One(hook) => rmhook_here(hook),
        Words::Two(path, hook) => rmhook_at(alloc, path, hook),
        _ => Err(Stop::Fault(Refusal::Usage(Verb::Rmhook))),
    }
}

/// `show [-n] path`.
fn show(alloc: Global, rest: &[u8]) -> Form
    ensures { Asks result (show_of (words_in rest.now)) }
{
    match few_words(rest) {
        Words::One(path) => Ok(What::Show {
            brief: false,
            path: read_address(alloc, path)?,
        }),
        Words::Two(flag, path) if flag == b"-n".as_slice() => Ok(What::Show {
            brief: true,
            path: read_address(alloc, path)?,
        }),
        _ => Err(Stop::Fault(Refusal::Usage(Verb::Show))),
    }
}

/// `shutdown path`.
fn shutdown(alloc: Global, rest: &[u8]) -> Form
    ensures { Asks result (one_path Verb.Shutdown (λ path. What.Shutdown path) (words_in rest.now)) }
{
    match few_words(rest) {
        Words::One(path) => Ok(What::Shutdown {
            path: read_address(alloc, path)?,
        }),
        _ => Err(Stop::Fault(Refusal::Usage(Verb::Shutdown))),
    }
}

/// `status path`.
fn status(alloc: Global, rest: &[u8]) -> Form
    ensures { Asks result (one_path Verb.Status (λ path. What.Status path) (words_in rest.now)) }
{
    match few_words(rest) {
        Words::One(path) => Ok(What::Status {
            path: read_address(alloc, path)?,
        }),
        _ => Err(Stop::Fault(Refusal::Usage(Verb::Status))),
    }
}

/// `quit`.
fn quit(rest: &[u8]) -> Form
    ensures { Asks result (no_words Verb.Quit What.Quit (words_in rest.now)) }
{
    match next_word(rest) {
        None => Ok(What::Quit),
        Some(_) => Err(Stop::Fault(Refusal::Usage(Verb::Quit))),
    }
}

/// `types`.
fn types(rest: &[u8]) -> Form
    ensures { Asks result (no_words Verb.Types What.Types (words_in rest.now)) }
{
    match next_word(rest) {
        None => Ok(What::Types),
        Some(_) => Err(Stop::Fault(Refusal::Usage(Verb::Types))),
    }
}

/// What a line asks for: the command, and what stands behind its name.
fn asked(alloc: Global, verb: Verb, rest: &[u8]) -> Form
    ensures { (line : List ℕ) → rest.now ≡ past_word (past_blanks line) → Asks result (asked_words verb line (words_in rest.now)) }
{
    match verb {
        Verb::Config => config(alloc, rest),
        Verb::Connect => connect(alloc, rest),
        Verb::Help => help(alloc, rest),
        Verb::List => list(rest),
        Verb::Mkpeer => mkpeer(alloc, rest),
        Verb::Msg => msg(alloc, rest),
        Verb::Name => name(alloc, rest),
        Verb::Quit => quit(rest),
        Verb::Rmhook => rmhook(alloc, rest),
        Verb::Show => show(alloc, rest),
        Verb::Shutdown => shutdown(alloc, rest),
        Verb::Status => status(alloc, rest),
        Verb::Types => types(rest),
        Verb::Write => write(alloc, rest),
    }
}

/// The form of a command's line.
pub(crate) fn form_of(alloc: Global, line: &[u8]) -> Form
    ensures { Asks result (what_of line.now) }
{
    let Some((first, rest)) = next_word(line) else {
        return Err(Stop::Fault(Refusal::Unknown));
    };
    match Verb::named(first) {
        Ok(verb) => asked(alloc, verb, rest),
        Err(why) => Err(Stop::Fault(why)),
    }
}
