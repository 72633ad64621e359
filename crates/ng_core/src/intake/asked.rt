// What a command asks for.
ghost use Rattle.std.specs.Prelude.{◌≡◌, ◌++◌, replicate, IfOk, OnOk};
ghost use Rattle.ng_machine.specs.Feed.{Orders, path_field, path_or_here as address_of, request_of};
ghost use Rattle.ng_machine.specs.declared.command.What.TheVariants.{Config, Connect, Mkpeer, Name as Named, Rmhook, Show, Write};
ghost use Rattle.ng_machine.specs.declared.command.What.TheVariants.{List as Lists, Msg as Message, Shutdown, Status, Types};
ghost use Rattle.ng_core.specs.intake.Asked.{request};

use ng_base::{Bytes, Name, NoMemory};
use ng_machine::What;
use ng_message::generic::{
    CONNECT, LISTHOOKS, LISTNAMES, LISTNODES, LISTTYPES, MKPEER, NAME, NODEINFO, RMHOOK, SHUTDOWN,
    TEXT_CONFIG, TEXT_STATUS,
};
use ng_message::put_name;
use std::alloc::Global;

// The bytes of an address in a message (`NG_PATHSIZ` of ng_message.h).
const PATH_LEN: usize = 512;

/// What a command asks for.
#[derive(Drop)]
pub enum Asked {
    /// It is refused, with these words.
    Refused(Bytes),
    /// The usage of commands.
    Help,
    /// Nothing.
    Nothing,
    /// A generic order, for the node at an address.
    Order {
        /// The address.
        path: Bytes,
        /// The order's number.
        number: u32,
        /// Its name.
        name: &'static str,
        /// Its arguments, as they lie in the message.
        args: Bytes,
    },
    /// A message by its name, for the node at an address.
    Message {
        /// The address.
        path: Bytes,
        /// The message's name.
        command: Bytes,
        /// The text of its arguments.
        args: Bytes,
    },
    /// A packet, out of a hook of the own node.
    Packet {
        /// The hook.
        hook: Name,
        /// The packet's bytes.
        bytes: Bytes,
    },
}

fn again(alloc: Global, bytes: &Bytes) -> Result<Bytes, NoMemory>
    ensures { IfOk result (λ again. again ≡ bytes.now) }
{
    Ok(Bytes(Vec::from_slice(alloc, bytes.0.as_slice())?))
}

// A generic order for the node at an address.
fn order(
    alloc: Global,
    path: &[u8],
    number: u32,
    name: &'static str,
    args: Vec<u8>,
) -> Result<Asked, NoMemory>
    ensures { IfOk result (λ asked. request asked ≡ Orders path.now number name.now args.items) }
{
    Ok(Asked::Order {
        path: Bytes(Vec::from_slice(alloc, path)?),
        number,
        name,
        args: Bytes(args),
    })
}

// The address, or that of the own node where it is left out.
fn path_or_here(path: &Option<Bytes>) -> &[u8]
    ensures { result.now ≡ address_of path.now }
{
    match path {
        Some(path) => path.0.as_slice(),
        None => b".",
    }
}

// Appends so many NULs.
fn put_zeros(out: &mut Vec<u8>, count: usize) -> Result<(), NoMemory>
    ensures { OnOk result (out.new.items ≡ out.old.items ++ replicate count 0) }
{
    for _ in 0..count {
        out.push(0)?;
    }
    Ok(())
}

// Appends an address, and NULs behind it up to 512 bytes.
fn put_path(out: &mut Vec<u8>, path: &[u8]) -> Result<(), NoMemory>
    ensures { OnOk result (out.new.items ≡ out.old.items ++ path_field path.now) }
{
    out.extend_from_slice(path)?;
    put_zeros(out, PATH_LEN.saturating_sub(path.len()))
}

fn config(alloc: Global, path: &Bytes, args: &Bytes) -> Result<Asked, NoMemory>
    ensures { IfOk result (λ asked. request asked ≡ request_of (Config path.now args.now)) }
{
    let mut out = Vec::from_slice(alloc, args.0.as_slice())?;
    out.push(0)?;
    order(alloc, path.0.as_slice(), TEXT_CONFIG, "textconfig", out)
}

fn connect(
    alloc: Global,
    path: &Option<Bytes>,
    relpath: &Bytes,
    hook: &Name,
    peerhook: &Name,
) -> Result<Asked, NoMemory>
    ensures { IfOk result (λ asked. request asked ≡ request_of (Connect path.now relpath.now hook.now peerhook.now)) }
{
    let mut out = Vec::new(alloc);
    put_path(&mut out, relpath.0.as_slice())?;
    put_name(&mut out, Some(hook))?;
    put_name(&mut out, Some(peerhook))?;
    order(alloc, path_or_here(path), CONNECT, "connect", out)
}

fn mkpeer(
    alloc: Global,
    path: &Option<Bytes>,
    kind_name: &Name,
    hook: &Name,
    peerhook: &Name,
) -> Result<Asked, NoMemory>
    ensures { IfOk result (λ asked. request asked ≡ request_of (Mkpeer path.now kind_name.now hook.now peerhook.now)) }
{
    let mut out = Vec::new(alloc);
    put_name(&mut out, Some(kind_name))?;
    put_name(&mut out, Some(hook))?;
    put_name(&mut out, Some(peerhook))?;
    order(alloc, path_or_here(path), MKPEER, "mkpeer", out)
}

fn name(alloc: Global, path: &Bytes, name: &Name) -> Result<Asked, NoMemory>
    ensures { IfOk result (λ asked. request asked ≡ request_of (Named path.now name.now)) }
{
    let mut out = Vec::new(alloc);
    put_name(&mut out, Some(name))?;
    order(alloc, path.0.as_slice(), NAME, "name", out)
}

fn rmhook(alloc: Global, path: &Option<Bytes>, hook: &Name) -> Result<Asked, NoMemory>
    ensures { IfOk result (λ asked. request asked ≡ request_of (Rmhook path.now hook.now)) }
{
    let mut out = Vec::new(alloc);
    put_name(&mut out, Some(hook))?;
    order(alloc, path_or_here(path), RMHOOK, "rmhook", out)
}

fn list(alloc: Global, named: bool) -> Result<Asked, NoMemory>
    ensures { IfOk result (λ asked. request asked ≡ request_of (Lists named)) }
{
    let none = Vec::new(alloc);
    if named {
        order(alloc, b".", LISTNAMES, "listnames", none)
    } else {
        order(alloc, b".", LISTNODES, "listnodes", none)
    }
}

fn show(alloc: Global, brief: bool, path: &Bytes) -> Result<Asked, NoMemory>
    ensures { IfOk result (λ asked. request asked ≡ request_of (Show brief path.now)) }
{
    let none = Vec::new(alloc);
    if brief {
        order(alloc, path.0.as_slice(), NODEINFO, "nodeinfo", none)
    } else {
        order(alloc, path.0.as_slice(), LISTHOOKS, "listhooks", none)
    }
}

fn shutdown(alloc: Global, path: &Bytes) -> Result<Asked, NoMemory>
    ensures { IfOk result (λ asked. request asked ≡ request_of (Shutdown path.now)) }
{
    let none = Vec::new(alloc);
    order(alloc, path.0.as_slice(), SHUTDOWN, "shutdown", none)
}

fn status(alloc: Global, path: &Bytes) -> Result<Asked, NoMemory>
    ensures { IfOk result (λ asked. request asked ≡ request_of (Status path.now)) }
{
    let none = Vec::new(alloc);
    order(alloc, path.0.as_slice(), TEXT_STATUS, "textstatus", none)
}

fn types(alloc: Global) -> Result<Asked, NoMemory>
    ensures { IfOk result (λ asked. request asked ≡ request_of Types) }
{
    let none = Vec::new(alloc);
    order(alloc, b".", LISTTYPES, "listtypes", none)
}

fn message(alloc: Global, path: &Bytes, command: &Bytes, args: &Bytes) -> Result<Asked, NoMemory>
    ensures { IfOk result (λ asked. request asked ≡ request_of (Message path.now command.now args.now)) }
{
    Ok(Asked::Message {
        path: again(alloc, path)?,
        command: again(alloc, command)?,
        args: again(alloc, args)?,
    })
}

fn write(alloc: Global, hook: &Name, bytes: &Bytes) -> Result<Asked, NoMemory>
    ensures { IfOk result (λ asked. request asked ≡ request_of (Write hook.now bytes.now)) }
{
    Ok(Asked::Packet {
        hook: *hook,
        bytes: again(alloc, bytes)?,
    })
}

/// What the command asks for, as ngctl(8) sends it.
///
/// # Errors
/// `NoMemory` where memory ran out, and for nothing else.
pub fn asked_by(alloc: Global, what: &What) -> Result<Asked, NoMemory>
    ensures { IfOk result (λ asked. request asked ≡ request_of what.now) }
{
    match what {
        What::Bad(why) => Ok(Asked::Refused(again(alloc, why)?)),
        What::Config { path, args } => config(alloc, path, args),
        What::Connect {
            path,
            relpath,
            hook,
            peerhook,
        } => connect(alloc, path, relpath, hook, peerhook),
        What::Help { .. } => Ok(Asked::Help),
        What::List { named } => list(alloc, *named),
        What::Mkpeer {
            path,
            kind_name,
            hook,
            peerhook,
        } => mkpeer(alloc, path, kind_name, hook, peerhook),
        What::Msg {
            path,
            command,
            args,
        } => message(alloc, path, command, args),
        What::Name { path, name: own } => name(alloc, path, own),
        What::Quit => Ok(Asked::Nothing),
        What::Rmhook { path, hook } => rmhook(alloc, path, hook),
        What::Show { brief, path } => show(alloc, *brief, path),
        What::Shutdown { path } => shutdown(alloc, path),
        What::Status { path } => status(alloc, path),
        What::Types => types(alloc),
        What::Write { hook, bytes } => write(alloc, hook, bytes),
    }
}
