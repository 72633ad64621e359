// Tables of scripts: what each line asks for, and which line is the first that has a fault.
mod commands;
mod scripts;

use crate::ngctl::same::same;
use ng_base::Bytes;
use ng_machine::What;
use ngctl_script::{When, read_script};
use std::alloc::{AllocError, Global};
use std::process::Abort;
use std::test::Fail;

/// One more word of a text, behind a `|`.
fn add(out: &mut Vec<u8>, word: &[u8]) -> Result<(), AllocError> {
    out.push(b'|')?;
    out.extend_from_slice(word)
}

/// The same of an address, with `~` where there is none.
fn add_address(out: &mut Vec<u8>, path: &Option<Bytes>) -> Result<(), AllocError> {
    match path {
        Some(path) => add(out, path.0.as_slice()),
        None => add(out, b"~"),
    }
}

/// The same of a flag.
fn add_flag(out: &mut Vec<u8>, flag: bool) -> Result<(), AllocError> {
    add(
        out,
        if flag {
            b"yes".as_slice()
        } else {
            b"no".as_slice()
        },
    )
}

fn add_connection(out: &mut Vec<u8>, what: &What) -> Result<(), AllocError> {
    match what {
        What::Connect {
            path,
            relpath,
            hook,
            peerhook,
        } => {
            add(out, b"connect")?;
            add_address(out, path)?;
            add(out, relpath.0.as_slice())?;
            add(out, hook.bytes())?;
            add(out, peerhook.bytes())
        }
        What::Mkpeer {
            path,
            kind_name,
            hook,
            peerhook,
        } => {
            add(out, b"mkpeer")?;
            add_address(out, path)?;
            add(out, kind_name.bytes())?;
            add(out, hook.bytes())?;
            add(out, peerhook.bytes())
        }
        What::Rmhook { path, hook } => {
            add(out, b"rmhook")?;
            add_address(out, path)?;
            add(out, hook.bytes())
        }
        _ => Ok(()),
    }
}

fn add_order(out: &mut Vec<u8>, what: &What) -> Result<(), AllocError> {
    match what {
        What::Config { path, args } => {
            add(out, b"config")?;
            add(out, path.0.as_slice())?;
            add(out, args.0.as_slice())
        }
        What::Msg {
            path,
            command,
            args,
        } => {
            add(out, b"msg")?;
            add(out, path.0.as_slice())?;
            add(out, command.0.as_slice())?;
            add(out, args.0.as_slice())
        }
        What::Name { path, name } => {
            add(out, b"name")?;
            add(out, path.0.as_slice())?;
            add(out, name.bytes())
        }
        What::Shutdown { path } => {
            add(out, b"shutdown")?;
            add(out, path.0.as_slice())
        }
        What::Status { path } => {
            add(out, b"status")?;
            add(out, path.0.as_slice())
        }
        What::Write { hook, bytes } => {
            add(out, b"write")?;
            add(out, hook.bytes())?;
            add(out, bytes.0.as_slice())
        }
        _ => Ok(()),
    }
}

fn add_question(out: &mut Vec<u8>, what: &What) -> Result<(), AllocError> {
    match what {
        What::Bad(words) => {
            add(out, b"bad")?;
            add(out, words.0.as_slice())
        }
        What::Help { command } => {
            add(out, b"help")?;
            add_address(out, command)
        }
        What::List { named } => {
            add(out, b"list")?;
            add_flag(out, *named)
        }
        What::Quit => add(out, b"quit"),
        What::Show { brief, path } => {
            add(out, b"show")?;
            add_flag(out, *brief)?;
            add(out, path.0.as_slice())
        }
        What::Types => add(out, b"types"),
        _ => Ok(()),
    }
}

/// What is asked for, as words behind `|`.
fn shown(alloc: Global, what: &What) -> Result<Vec<u8>, AllocError> {
    let mut out = Vec::new(alloc);
    add_connection(&mut out, what)?;
    add_order(&mut out, what)?;
    add_question(&mut out, what)?;
    Ok(out)
}

/// What the one command of a script asks for, as words behind `|`.
fn asked(alloc: Global, text: &[u8]) -> Result<Vec<u8>, Fail> {
    let script = read_script(alloc, text)?;
    match script.commands() {
        [(When::First, command)] if command.number == 1 => Ok(shown(alloc, &command.what)?),
        _ => Err(Fail::from("one command is wanted")),
    }
}

/// Each text of one command asks for these words behind `|`.
fn check_asked(rt: &impl Abort, alloc: Global, rows: &[(&str, &str)]) -> Result<(), Fail> {
    for (text, words) in rows {
        same(rt, &asked(alloc, text.as_bytes())?, words.as_bytes(), text);
    }
    Ok(())
}
