// A core for an example, and a run of it.
ghost use Rattle.std.specs.Prelude.{◌≡◌, ◌<◌, ◌≤◌, ◌∷◌, ◌++◌, [], All, map, length, true, IfOk, OnOk};
ghost use Rattle.std.specs.List.{list_all};
ghost use Rattle.ng_base.specs.declared.kind.Kind.TheVariants as kind;
ghost use Rattle.ng_call_tests.specs.chosen.Fit.{fits_input};
ghost use Rattle.ng_call_tests.specs.chosen.Stock.{stocked};
ghost use Rattle.ng_machine.specs.State.{blank_of, kind_of};
ghost use Rattle.ng_base.specs.Names.{are_different};

use crate::chosen::accounts::are_accounted;
use crate::chosen::fitting::all_fit;
use ng_base::{Name, NoMemory};
use ng_core::Core;
use ng_journal::kept::Journal;
use ng_machine::{Input, Totals};
use ng_plain_types::edge::{blank_ether, blank_socket};
use ng_plain_types::simple::{blank_echo, blank_hole, blank_hub};
use ng_plan::node::Node;
use ng_replay::judge::{Verdict, judge};
use ng_switch_types::bridge::blank_bridge;
use ng_workers::pool::{Move, chosen, plain};
use std::alloc::Global;
use std::test::Fail;

/// What a run came to: the places of moves that were skipped, the counts, its journal, and whether each item is accounted for.
#[derive(Drop)]
pub(super) struct Summary {
    pub(super) skipped: Vec<u32>,
    pub(super) totals: Totals,
    pub(super) ended: bool,
    pub(super) accounted: bool,
    pub(super) journal: Journal,
}

fn socket(alloc: Global) -> Result<Box<dyn Node + Send>, Fail>
    ensures { IfOk result (λ b. state b ≡ blank_of kind.Socket) }
{
    Ok(Box::new(alloc, blank_socket(alloc)?)?)
}

fn ether(alloc: Global) -> Result<Box<dyn Node + Send>, Fail>
    ensures { IfOk result (λ b. state b ≡ blank_of kind.Ether) }
{
    Ok(Box::new(alloc, blank_ether(alloc)?)?)
}

fn hub(alloc: Global) -> Result<Box<dyn Node + Send>, Fail>
    ensures { IfOk result (λ b. state b ≡ blank_of kind.Hub) }
{
    Ok(Box::new(alloc, blank_hub(alloc)?)?)
}

fn hole(alloc: Global) -> Result<Box<dyn Node + Send>, Fail>
    ensures { IfOk result (λ b. state b ≡ blank_of kind.Hole) }
{
    Ok(Box::new(alloc, blank_hole(alloc)?)?)
}

fn bridge(alloc: Global) -> Result<Box<dyn Node + Send>, Fail>
    ensures { IfOk result (λ b. state b ≡ blank_of kind.Bridge) }
{
    Ok(Box::new(alloc, blank_bridge(alloc)?)?)
}

fn echo(alloc: Global) -> Result<Box<dyn Node + Send>, Fail>
    ensures { IfOk result (λ b. state b ≡ blank_of kind.Echo) }
{
    Ok(Box::new(alloc, blank_echo(alloc)?)?)
}

// One box more, which is blank.
fn put<B: Node>(stock: &mut Vec<B>, node: B) -> Result<(), Fail>
    requires all { All (λ b. B.state b ≡ blank_of (kind_of (B.state b))) stock.old.items }
    requires blank { B.state node ≡ blank_of (kind_of (B.state node)) }
    ensures all { OnOk result (All (λ b. B.state b ≡ blank_of (kind_of (B.state b))) stock.new.items) }
    ensures kinds { OnOk result (map (λ b. kind_of (B.state b)) stock.new.items ≡ map (λ b. kind_of (B.state b)) stock.old.items ++ kind_of (B.state node) ∷ []) }
{
    let Ok(()) = stock.push(node) else {
        return Err(NoMemory)?;
    };
    Ok(())
}

/// A socket, two ethers, three hubs, two holes, a bridge and an echo.
pub(super) fn boxes(alloc: Global) -> Result<Vec<Box<dyn Node + Send>>, Fail>
    ensures blank { IfOk result (λ stock. All (λ b. state b ≡ blank_of (kind_of (state b))) stock.items) }
    ensures kinds { IfOk result (λ stock. map (λ b. kind_of (state b)) stock.items ≡ stocked) }
{
    let mut stock: Vec<Box<dyn Node + Send>> = Vec::new(alloc);
    put(&mut stock, socket(alloc)?)?;
    put(&mut stock, ether(alloc)?)?;
    put(&mut stock, ether(alloc)?)?;
    put(&mut stock, hub(alloc)?)?;
    put(&mut stock, hub(alloc)?)?;
    put(&mut stock, hub(alloc)?)?;
    put(&mut stock, hole(alloc)?)?;
    put(&mut stock, hole(alloc)?)?;
    put(&mut stock, bridge(alloc)?)?;
    put(&mut stock, echo(alloc)?)?;
    Ok(stock)
}

/// Names of so many ports, at most two.
pub(super) fn ports(alloc: Global, count: usize) -> Result<Vec<Name>, Fail> {
    let mut ports = Vec::new(alloc);
    if count > 0 {
        ports.push(Name::read(b"em0")?)?;
    }
    if count > 1 {
        ports.push(Name::read(b"em1")?)?;
    }
    Ok(ports)
}

// Whether there are at most two ports, and all names are different.
fn may_begin(own: &Name, ports: &[Name]) -> bool
    ensures few { result ≡ true → length ports.now ≤ 2 }
    ensures names { result ≡ true → are_different (own.now ∷ ports.now) ≡ true }
{
    match ports {
        [] => true,
        [a] => *a != *own,
        [a, b] => *a != *own && *b != *own && *b != *a,
        _ => false,
    }
}

// Whether the inputs may be fed to a core of so many ports, and there aren't too many moves.
fn may_run(inputs: &[Input], ports: usize, moves: &[Move]) -> bool
    ensures fits { result ≡ true → list_all (fits_input ports) inputs.now ≡ true }
    ensures few { result ≡ true → length inputs.now ≤ 4096 }
    ensures moves { result ≡ true → length moves.now ≤ 4096 }
{
    inputs.len() <= 4096 && moves.len() <= 4096 && all_fit(inputs, ports)
}

/// Makes the moves by a new core of so many seats, and ends the run plainly over the inputs that are left.
pub(super) fn play<B: Node>(
    alloc: Global,
    ports: Vec<Name>,
    stock: Vec<B>,
    seats: u32,
    inputs: Vec<Input>,
    moves: &[Move],
) -> Result<Summary, Fail>
    requires blank { All (λ b. B.state b ≡ blank_of (kind_of (B.state b))) stock.items }
    requires kinds { map (λ b. kind_of (B.state b)) stock.items ≡ stocked }
    requires seats { 0 < seats }
{
    let own = Name::read(b"ngctl")?;
    if !may_begin(&own, &ports) {
        return Err(NoMemory)?;
    }
    if !may_run(&inputs, ports.len(), moves) {
        return Err(NoMemory)?;
    }
    let mut core = Core::new(alloc, own, ports, stock, 1000, seats)?;
    let chosen = chosen(alloc, &mut core, seats, inputs, moves)?;
    plain(alloc, &mut core, chosen.left)?;
    let totals = core.totals();
    let accounted = are_accounted(alloc, core.journal(), &totals)?;
    Ok(Summary {
        skipped: chosen.skipped,
        totals,
        ended: core.ended(),
        accounted,
        journal: core.into_journal(),
    })
}

/// What is said of a journal, by a new core of so many seats that applies at most `budget` items, and these inputs.
pub(super) fn judged<B: Node>(
    alloc: Global,
    ports: Vec<Name>,
    stock: Vec<B>,
    limits: (u64, u32),
    inputs: Vec<Input>,
    journal: &Journal,
) -> Result<Verdict, Fail>
    requires blank { All (λ b. B.state b ≡ blank_of (kind_of (B.state b))) stock.items }
    requires kinds { map (λ b. kind_of (B.state b)) stock.items ≡ stocked }
    requires budget { limits.0 ≤ 1000 }
    requires seats { 0 < limits.1 }
{
    let own = Name::read(b"ngctl")?;
    if !may_begin(&own, &ports) {
        return Err(NoMemory)?;
    }
    if !may_run(&inputs, ports.len(), &[]) {
        return Err(NoMemory)?;
    }
    let (budget, seats) = limits;
    let mut core = Core::new(alloc, own, ports, stock, budget, seats)?;
    Ok(judge(alloc, &mut core, seats, inputs, journal)?)
}
