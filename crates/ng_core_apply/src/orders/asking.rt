// What the questions of orders are answered, over the graph.
ghost use Rattle.std.specs.Prelude.{◌≡◌, ◌+◌, ◌<◌, ◌≤◌, ◌^◌, ◌++◌, [], ◌∷◌, length, map, filter, flat_map, is_some, if◌then◌else◌, Some, IfOk, OnOk};
ghost use Rattle.ng_base.specs.Kind.{kind_text, kinds};
ghost use Rattle.ng_machine.specs.Generic.{answer_bytes, hook_list, info_of, infos_from, is_of_kind, joined_hooks, link_of, with_count, type_info};
ghost use Rattle.ng_machine.specs.Words.{times};
ghost use Rattle.ng_machine.specs.World.{NodeRecord, World, node_in};
ghost use Rattle.ng_message.specs.Layout.{link_info_bytes, node_info_bytes};
ghost use Rattle.ng_core_apply.specs.orders.Asked.{count_of, hook_bytes, is_listed, question_of, type_bytes};
ghost use Rattle.ng_topology.specs.Topology.{IsThere, world_of};

use ng_base::{Kind, Name, NoMemory, NodeId};
use ng_machine::Hook;
use ng_message::{LinkInfo, NodeInfo, put_link_info, put_name, put_node_info, put_u32};
use ng_plan::node::Node;
use ng_topology::Graph;
use std::alloc::Global;

// How many types there are.
const KINDS: usize = 14;

/// What an order asks.
#[derive(Clone, Copy, Debug, PartialEq, Eq)]
pub enum Question {
    /// The node's name, type, number and joined hooks.
    NodeInfo,
    /// The node's joined hooks and their peers.
    ListHooks,
    /// The nodes that have a name.
    ListNames,
    /// All nodes.
    ListNodes,
    /// The types of nodes, and how many are of each.
    ListTypes,
}

// What is told of the node of that number.
fn node_info<B: Node>(graph: &Graph<B>, id: NodeId) -> Result<NodeInfo, NoMemory>
    ensures { IfOk result (λ info. info ≡ info_of id (node_in graph.now.nodes id)) }
{
    let Some(kind) = graph.kind(id) else {
        return Ok(NodeInfo {
            name: None,
            kind: None,
            id,
            hooks: 0,
        });
    };
    let hooks = u32::try_from(graph.joined(id)).map_err(|_| NoMemory)?;
    Ok(NodeInfo {
        name: graph.name(id).copied(),
        kind: Some(kind),
        id,
        hooks,
    })
}

// A hook is told of, where it is joined.
fn put_hook<B: Node>(out: &mut Vec<u8>, graph: &Graph<B>, hook: &Hook) -> Result<(), NoMemory>
    ensures { OnOk result (out.new.items ≡ out.old.items ++ (if hook.now.joined then hook_bytes graph.now.nodes hook.now else [])) }
{
    if !hook.joined {
        return Ok(());
    }
    let link = LinkInfo {
        ourhook: hook.name,
        peerhook: hook.peer.hook,
        peer: node_info(graph, hook.peer.node)?,
    };
    put_link_info(out, &link)
}

// The joined hooks are told of, in order.
fn put_hooks<B: Node>(out: &mut Vec<u8>, graph: &Graph<B>, hooks: &[Hook]) -> Result<(), NoMemory>
    ensures { OnOk result (out.new.items ≡ out.old.items ++ flat_map (hook_bytes graph.now.nodes) (filter (λ h. h.joined) hooks.now)) }
{
    for hook in hooks {
        put_hook(out, graph, hook)?;
    }
    Ok(())
}

fn list_hooks<B: Node>(alloc: Global, graph: &Graph<B>, id: NodeId) -> Result<Vec<u8>, NoMemory>
    requires { IsThere graph.now id }
    ensures { IfOk result (λ bytes. (node : NodeRecord) → node_in graph.now.nodes id ≡ Some node
        → bytes.items ≡ hook_list (world_of graph.now.nodes) id node) }
{
    let info = node_info(graph, id)?;
    let mut out = Vec::new(alloc);
    put_node_info(&mut out, &info)?;
    put_hooks(&mut out, graph, graph.hooks(id))?;
    Ok(out)
}

// Whether the node of that number is there, and has a name where only those are listed.
fn is_in_list<B: Node>(graph: &Graph<B>, id: NodeId, named: bool) -> bool
    ensures { result ≡ is_listed named (node_in graph.now.nodes id) }
{
    if named {
        graph.name(id).is_some()
    } else {
        graph.kind(id).is_some()
    }
}

// What is told of the node of that number, where it is listed.
fn add_info<B: Node>(
    infos: &mut Vec<NodeInfo>,
    graph: &Graph<B>,
    id: NodeId,
    named: bool,
) -> Result<(), NoMemory>
    ensures list { OnOk result (map node_info_bytes infos.new.items ≡ map node_info_bytes infos.old.items
        ++ infos_from id.0 (λ r. is_listed named (Some r)) (node_in graph.now.nodes id ∷ [])) }
    ensures few { OnOk result (length infos.new.items ≤ length infos.old.items + 1) }
{
    if is_in_list(graph, id, named) {
        infos.push(node_info(graph, id)?)?;
    }
    Ok(())
}

// What is told of the nodes of the numbers below `end`, or of those that have a name.
fn infos<B: Node>(
    alloc: Global,
    graph: &Graph<B>,
    end: u32,
    named: bool,
) -> Result<Vec<NodeInfo>, NoMemory>
    requires { length graph.now.nodes ≤ end }
    ensures list { IfOk result (λ infos. map node_info_bytes infos.items ≡ infos_from 0 (λ r. is_listed named (Some r)) graph.now.nodes) }
    ensures few { IfOk result (λ infos. length infos.items ≤ end) }
{
    let mut infos = Vec::new(alloc);
    for n in 0..end {
        add_info(&mut infos, graph, NodeId(n), named)?;
    }
    Ok(infos)
}

fn put_infos(out: &mut Vec<u8>, infos: &[NodeInfo]) -> Result<(), NoMemory>
    ensures { OnOk result (out.new.items ≡ out.old.items ++ flat_map node_info_bytes infos.now) }
{
    for info in infos {
        put_node_info(out, info)?;
    }
    Ok(())
}

// How many nodes are told of, and then each.
#[tactic(auto, using(crate::proofs::orders::Lists::counted))]
fn name_list(alloc: Global, infos: &[NodeInfo]) -> Result<Vec<u8>, NoMemory>
    requires { length infos.now < 2 ^ 32 }
    ensures { IfOk result (λ bytes. bytes.items ≡ with_count (map node_info_bytes infos.now)) }
{
    let mut out = Vec::new(alloc);
    put_u32(&mut out, infos.len() as u32)?;
    put_infos(&mut out, infos)?;
    Ok(out)
}

fn list_nodes<B: Node>(
    alloc: Global,
    graph: &Graph<B>,
    end: u32,
    named: bool,
) -> Result<Vec<u8>, NoMemory>
    requires { length graph.now.nodes ≤ end }
    ensures { IfOk result (λ bytes. bytes.items ≡ with_count (infos_from 0 (λ r. is_listed named (Some r)) graph.now.nodes)) }
{
    let infos = infos(alloc, graph, end, named)?;
    name_list(alloc, &infos)
}

// The node of that number is counted with its type, where it is there.
fn count_node<B: Node>(counts: &mut [u32; KINDS], graph: &Graph<B>, id: NodeId)
    requires { (kind : Kind) → count_of counts.old kind + 1 < 2 ^ 32 }
    ensures { (kind : Kind) → count_of counts.new kind
        ≡ count_of counts.old kind + (if is_of_kind kind (node_in graph.now.nodes id) then 1 else 0) }
{
    let Some(kind) = graph.kind(id) else {
        return;
    };
    counts[usize::from(kind.number())] += 1;
}

// How many nodes are of each type, by the types' numbers. The numbers of nodes are below `end`.
fn count_kinds<B: Node>(graph: &Graph<B>, end: u32) -> [u32; KINDS]
    requires { length graph.now.nodes ≤ end }
    ensures { (kind : Kind) → count_of result kind ≡ times (is_of_kind kind) graph.now.nodes }
{
    let mut counts = [0u32; KINDS];
    for n in 0..end {
        count_node(&mut counts, graph, NodeId(n));
    }
    counts
}

// The name of a type, as the fields of names hold it.
fn kind_name(kind: Kind) -> Name
    ensures { result ≡ kind_text kind }
{
    match Name::read(kind.text().as_bytes()) {
        Ok(name) => name,
        Err(_) => unreachable!(),
    }
}

// A type is told of, with how many nodes are of it.
fn put_type(out: &mut Vec<u8>, counts: &[u32; KINDS], kind: Kind) -> Result<(), NoMemory>
    ensures { OnOk result (out.new.items ≡ out.old.items ++ type_bytes counts.now kind) }
{
    put_name(out, Some(&kind_name(kind)))?;
    put_u32(out, counts[usize::from(kind.number())])
}

// Types are told of, one after another.
fn put_types(out: &mut Vec<u8>, counts: &[u32; KINDS], kinds: &[Kind]) -> Result<(), NoMemory>
    ensures { OnOk result (out.new.items ≡ out.old.items ++ flat_map (type_bytes counts.now) kinds.now) }
{
    for kind in kinds {
        put_type(out, counts, *kind)?;
    }
    Ok(())
}

fn list_types<B: Node>(alloc: Global, graph: &Graph<B>, end: u32) -> Result<Vec<u8>, NoMemory>
    requires { length graph.now.nodes ≤ end }
    ensures { IfOk result (λ bytes. bytes.items ≡ with_count (map (type_info (world_of graph.now.nodes)) kinds)) }
{
    let counts = count_kinds(graph, end);
    let mut out = Vec::new(alloc);
    put_u32(&mut out, KINDS as u32)?;
    put_types(&mut out, &counts, &Kind::ALL)?;
    Ok(out)
}

/// The bytes that a node, which is there, answers to a question. The numbers of nodes are below `end`.
///
/// # Errors
/// `NoMemory` where memory ran out, and for nothing else.
pub fn answer_of<B: Node>(
    alloc: Global,
    graph: &Graph<B>,
    id: NodeId,
    end: u32,
    question: Question,
) -> Result<Vec<u8>, NoMemory>
    requires there { IsThere graph.now id }
    requires end { length graph.now.nodes ≤ end }
    ensures { IfOk result (λ bytes. (node : NodeRecord) → node_in graph.now.nodes id ≡ Some node
        → bytes.items ≡ answer_bytes (world_of graph.now.nodes) id node (question_of question)) }
{
    match question {
        Question::NodeInfo => {
            let mut out = Vec::new(alloc);
            put_node_info(&mut out, &node_info(graph, id)?)?;
            Ok(out)
        }
        Question::ListHooks => list_hooks(alloc, graph, id),
        Question::ListNames => list_nodes(alloc, graph, end, true),
        Question::ListNodes => list_nodes(alloc, graph, end, false),
        Question::ListTypes => list_types(alloc, graph, end),
    }
}
