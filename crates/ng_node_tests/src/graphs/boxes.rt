// The boxes that each example has.
ghost use Rattle.std.specs.Prelude.{◌≡◌, ◌+◌, ◌≤◌, All, length, IfOk, OnOk};
ghost use Rattle.ng_base.specs.declared.kind.Kind.TheVariants as kind;
ghost use Rattle.ng_machine.specs.State.{blank_of, kind_of};

use ng_base::NoMemory;
use ng_plain_types::edge::{blank_ether, blank_socket};
use ng_plain_types::simple::{blank_hole, blank_hub};
use ng_plan::node::Node;
use std::alloc::Global;
use std::test::Fail;

fn socket(alloc: Global) -> Result<Box<dyn Node + Send>, Fail>
    ensures { IfOk result (λ b. state b ≡ blank_of kind.Socket) }
{
    Ok(Box::new(alloc, blank_socket(alloc)?)?)
}

fn ether(alloc: Global) -> Result<Box<dyn Node + Send>, Fail>
    ensures { IfOk result (λ b. state b ≡ blank_of kind.Ether) }
{
    Ok(Box::new(alloc, blank_ether(alloc)?)?)
}

fn hub(alloc: Global) -> Result<Box<dyn Node + Send>, Fail>
    ensures { IfOk result (λ b. state b ≡ blank_of kind.Hub) }
{
    Ok(Box::new(alloc, blank_hub(alloc)?)?)
}

fn hole(alloc: Global) -> Result<Box<dyn Node + Send>, Fail>
    ensures { IfOk result (λ b. state b ≡ blank_of kind.Hole) }
{
    Ok(Box::new(alloc, blank_hole(alloc)?)?)
}

// One box more, which is blank.
fn put<B: Node>(stock: &mut Vec<B>, node: B) -> Result<(), Fail>
    requires all { All (λ b. B.state b ≡ blank_of (kind_of (B.state b))) stock.old.items }
    requires blank { B.state node ≡ blank_of (kind_of (B.state node)) }
    ensures all { OnOk result (All (λ b. B.state b ≡ blank_of (kind_of (B.state b))) stock.new.items) }
    ensures more { OnOk result (length stock.new.items ≡ length stock.old.items + 1) }
{
    let Ok(()) = stock.push(node) else {
        return Err(NoMemory)?;
    };
    Ok(())
}

/// A socket, an ether, three hubs and two holes.
pub(super) fn boxes(alloc: Global) -> Result<Vec<Box<dyn Node + Send>>, Fail>
    ensures blank { IfOk result (λ stock. All (λ b. state b ≡ blank_of (kind_of (state b))) stock.items) }
    ensures few { IfOk result (λ stock. length stock.items ≤ 1000) }
{
    let mut stock: Vec<Box<dyn Node + Send>> = Vec::new(alloc);
    put(&mut stock, socket(alloc)?)?;
    put(&mut stock, ether(alloc)?)?;
    put(&mut stock, hub(alloc)?)?;
    put(&mut stock, hub(alloc)?)?;
    put(&mut stock, hub(alloc)?)?;
    put(&mut stock, hole(alloc)?)?;
    put(&mut stock, hole(alloc)?)?;
    Ok(stock)
}
