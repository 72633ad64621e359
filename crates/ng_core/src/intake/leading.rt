// Where an address leads.
ghost use Rattle.std.specs.Prelude.{◌≡◌};
ghost use Rattle.ng_machine.specs.World.{World};
ghost use Rattle.ng_path.specs.Address.{read_address};
ghost use Rattle.ng_core.specs.intake.Decided.{led};

use ng_base::NodeId;
use ng_path::{read_path, reads_address};
use ng_plan::node::Node;
use ng_topology::Graph;

/// The node that commands come from.
pub const OWN_NODE: NodeId = NodeId(1);

/// Why an address leads to no node.
#[derive(Clone, Copy, Debug, PartialEq, Eq)]
pub enum Astray {
    /// It is no address.
    BadPath,
    /// No node is there.
    Nowhere,
}

/// The node that these bytes lead to from the own node.
///
/// # Errors
/// `BadPath` where they are no address, else `Nowhere` where no node is there.
pub fn find<B: Node>(graph: &Graph<B>, address: &[u8]) -> Result<NodeId, Astray>
    ensures { (w : World) → w.nodes ≡ graph.now.nodes → result ≡ led w (read_address address.now) }
{
    reads_address();
    let Ok(path) = read_path(address) else {
        return Err(Astray::BadPath);
    };
    match graph.walk(OWN_NODE, &path) {
        Some(id) => Ok(id),
        None => Err(Astray::Nowhere),
    }
}
