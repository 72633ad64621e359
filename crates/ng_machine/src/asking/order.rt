// Generic messages, read as orders.
ghost use Rattle.std.specs.Prelude.{◌≡◌, ◌≤◌, ◌+◌, length, take, IfOk, IfSome, IfNone, Ok, Err};
ghost use Rattle.ng_message.specs.Fields.{field_text};
ghost use Rattle.ng_machine.specs.Arguments.{read_name};
ghost use Rattle.ng_machine.specs.Errors.{einval};
ghost use Rattle.ng_machine.specs.Order.{as_order, bare, read_change, read_connect, read_mkpeer, read_named, read_order, read_question, with_names, Connect, Rename, Rmhook as RemoveHook};
ghost use Rattle.ng_machine.specs.asking.Orders.{HasPath, order_of, read_as};

use ng_base::{Errno, Name};
use ng_message::{Msg, generic, is_read_only, name_at};

/// How many bytes the address in the arguments of `connect` takes (`NG_PATHSIZ` of ng_message.h).
pub const PATH_LEN: usize = 512;

/// How many bytes a name in arguments takes.
const NAME_LEN: usize = 32;

/// What a generic message asks of a node (netgraph(4), "Standard control messages").
#[derive(Clone, Copy, Debug, PartialEq, Eq)]
pub enum Order {
    /// The node is to shut down.
    Shutdown,
    /// A node of the type of this name is made, and its hook `peerhook` joined to a new hook of this node.
    Mkpeer {
        kind_name: Name,
        ourhook: Name,
        peerhook: Name,
    },
    /// A new hook of this node is joined to a new hook of the node at the address, which stands before the first NUL
    /// and which nobody has read yet.
    Connect {
        path: [u8; PATH_LEN],
        ourhook: Name,
        peerhook: Name,
    },
    /// The node gets this name.
    Name(Name),
    /// The hook of this name is taken away.
    Rmhook(Name),
    /// Asks for the node's name, type, number and joined hooks.
    NodeInfo,
    /// Asks for the node's joined hooks and their peers.
    ListHooks,
    /// Asks for the nodes that have a name.
    ListNames,
    /// Asks for all nodes.
    ListNodes,
    /// Asks for the types of nodes.
    ListTypes,
}

/// An order without arguments.
fn bare(order: Order, args: &[u8]) -> Result<Order, Errno>
    ensures order { read_as result ≡ bare (order_of order) args.now }
    ensures same { IfOk result (λ read. read ≡ order) }
{
    if args.is_empty() {
        Ok(order)
    } else {
        Err(Errno::INVAL)
    }
}

/// The name in the 32 bytes at a place, unless what stands there is no name.
#[tactic(auto, using(crate::proofs::asking::Field::field))]
fn name_in(args: &[u8], at: usize) -> Option<Name>
    requires { at + 32 ≤ length args.now }
    ensures { result ≡ read_name args.now at }
{
    match name_at(args, at) {
        Ok(Some(name)) => Some(name),
        Ok(None) | Err(_) => None,
    }
}

/// The order of `mkpeer`: a type, our hook and the new node's hook, 32 bytes each.
fn read_mkpeer(args: &[u8]) -> Option<Order>
    ensures some { IfSome result (λ order. (read_mkpeer args.now ≡ Ok (order_of order)) × HasPath (take 512 args.now) order) }
    ensures none { IfNone result (read_mkpeer args.now ≡ Err einval) }
{
    if args.len() != 3 * NAME_LEN {
        return None;
    }
    let kind_name = name_in(args, 0)?;
    let ourhook = name_in(args, NAME_LEN)?;
    let peerhook = name_in(args, 2 * NAME_LEN)?;
    Some(Order::Mkpeer {
        kind_name,
        ourhook,
        peerhook,
    })
}

/// The first 512 bytes.
fn path_in(args: &[u8]) -> [u8; PATH_LEN]
    requires { 512 ≤ length args.now }
    ensures { result ≡ take 512 args.now }
{
    let mut path = [0; PATH_LEN];
    path.copy_from_slice(&args[..PATH_LEN]);
    path
}

/// The order of `connect`, by what its three fields hold.
fn connect_by(path: [u8; PATH_LEN], ourhook: Option<Name>, peerhook: Option<Name>) -> Option<Order>
    ensures some { IfSome result (λ order.
        (with_names (Connect (field_text path)) ourhook peerhook ≡ Ok (order_of order)) × HasPath path order) }
    ensures none { IfNone result (with_names (Connect (field_text path)) ourhook peerhook ≡ Err einval) }
{
    Some(Order::Connect {
        path,
        ourhook: ourhook?,
        peerhook: peerhook?,
    })
}

/// The order of `connect`: an address in 512 bytes, our hook and the peer's in 32 each.
fn read_connect(args: &[u8]) -> Option<Order>
    ensures some { IfSome result (λ order. (read_connect args.now ≡ Ok (order_of order)) × HasPath (take 512 args.now) order) }
    ensures none { IfNone result (read_connect args.now ≡ Err einval) }
{
    if args.len() != PATH_LEN + 2 * NAME_LEN {
        return None;
    }
    let ourhook = name_in(args, PATH_LEN);
    let peerhook = name_in(args, PATH_LEN + NAME_LEN);
    connect_by(path_in(args), ourhook, peerhook)
}

/// The order of `name`: the name that is all of the arguments.
fn read_rename(args: &[u8]) -> Option<Order>
    ensures some { IfSome result (λ order. (read_named Rename args.now ≡ Ok (order_of order)) × HasPath (take 512 args.now) order) }
    ensures none { IfNone result (read_named Rename args.now ≡ Err einval) }
{
    if args.len() != NAME_LEN {
        return None;
    }
    let name = name_in(args, 0)?;
    Some(Order::Name(name))
}

/// The order of `rmhook`: the hook whose name is all of the arguments.
fn read_rmhook(args: &[u8]) -> Option<Order>
    ensures some { IfSome result (λ order. (read_named RemoveHook args.now ≡ Ok (order_of order)) × HasPath (take 512 args.now) order) }
    ensures none { IfNone result (read_named RemoveHook args.now ≡ Err einval) }
{
    if args.len() != NAME_LEN {
        return None;
    }
    let hook = name_in(args, 0)?;
    Some(Order::Rmhook(hook))
}

/// An order that changes something, or the refusal of the number of one.
#[tactic(auto, using(crate::proofs::asking::Field::answered))]
fn read_change(number: u32, args: &[u8]) -> Result<Order, Errno>
    ensures order { read_as result ≡ read_change number args.now }
    ensures path { IfOk result (HasPath (take 512 args.now)) }
{
    match number {
        generic::SHUTDOWN => bare(Order::Shutdown, args),
        generic::MKPEER => read_mkpeer(args).ok_or(Errno::INVAL),
        generic::CONNECT => read_connect(args).ok_or(Errno::INVAL),
        generic::NAME => read_rename(args).ok_or(Errno::INVAL),
        generic::RMHOOK => read_rmhook(args).ok_or(Errno::INVAL),
        generic::TEXT_CONFIG => Err(Errno::OPNOTSUPP),
        _ => Err(Errno::INVAL),
    }
}

/// An order that asks, or the refusal of the number of one.
fn read_question(number: u32, args: &[u8]) -> Result<Order, Errno>
    ensures order { read_as result ≡ as_order (read_question number args.now) }
    ensures path { IfOk result (HasPath (take 512 args.now)) }
{
    match number {
        generic::NODEINFO => bare(Order::NodeInfo, args),
        generic::LISTHOOKS => bare(Order::ListHooks, args),
        generic::LISTNAMES => bare(Order::ListNames, args),
        generic::LISTNODES => bare(Order::ListNodes, args),
        generic::LISTTYPES => bare(Order::ListTypes, args),
        generic::TEXT_STATUS | generic::BINARY2ASCII | generic::ASCII2BINARY => {
            Err(Errno::OPNOTSUPP)
        }
        _ => Err(Errno::INVAL),
    }
}

/// What a generic message asks of a node, by its number and its arguments. Its cookie isn't looked at. It takes no
/// memory.
///
/// # Errors
/// `EOPNOTSUPP` for `textstatus`, `binary2ascii`, `ascii2binary` and `textconfig`, which no node knows here; `EINVAL` for
/// any other number that is none of the ten orders, for arguments of another length than the order's, and for a field
/// that should hold a name and holds none.
pub fn read_order(msg: &Msg) -> Result<Order, Errno>
    ensures order { read_as result ≡ read_order msg.now.header.cmd msg.now.args }
    ensures path { IfOk result (HasPath (take 512 msg.now.args)) }
{
    let number = msg.header.cmd;
    let args = msg.args.0.as_slice();
    if is_read_only(number) {
        read_question(number, args)
    } else {
        read_change(number, args)
    }
}
