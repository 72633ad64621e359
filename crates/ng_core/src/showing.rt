// What a core shows.
ghost use Rattle.std.specs.Prelude.{◌≡◌, ◌<◌, ◌==◌, length};
ghost use Rattle.ng_machine.specs.Change.{port_at};
ghost use Rattle.ng_machine.specs.Totals.{port_totals_of, totals_of};
ghost use Rattle.ng_machine.specs.LowRun.{IsModest};
ghost use Rattle.ng_core.specs.CoreStory.{setting_of, story};
ghost use Rattle.ng_core.specs.Lawful.{IsLawful};
ghost use Rattle.ng_machine.specs.story.SoundStory.{IsSoundStory};
ghost use Rattle.ng_machine.specs.story.Story.{run_state_of, world_of};
ghost use Rattle.ng_core_state.specs.Stands.{Stands};

use crate::Core;
use crate::counting::{count_hooks, count_nodes};
use ng_base::{Packet, Stamp};
use ng_core_state::State;
use ng_journal::kept::Journal;
use ng_machine::{PortTotals, Told, Totals};
use ng_plan::node::Node;

// Nodes have numbers below it.
const MAX_NODES: usize = 1 << 24;

impl<B: Node> Core<B> {
    /// The journal. It is orderly over every list of inputs that begins with those fed and ends as `close` was told; and where
    /// `close` has ended the core nothing is pending. So each accepted item is applied once, dropped or pending, each lane's items
    /// are in order, a writer is alone on its node, and nothing is applied to a node that is gone. The core has a seat, and the
    /// inputs that it was fed fit.
    pub fn journal(&self) -> &Journal
        ensures journal { result.now.items ≡ self.now.journal }
        ensures sound { IsSoundStory (story self.now) }
        ensures laws { IsLawful (story self.now) }
        ensures modest { IsModest (setting_of self.now) }
        ensures seats { 0 < self.now.seats }
    {
        &self.parts.journal
    }

    /// The journal, taken out.
    pub fn into_journal(self) -> Journal
        ensures { result.items ≡ self.journal }
    {
        let parts = Box::into_inner(self.parts);
        parts.journal
    }

    /// How many inputs were fed.
    pub fn fed(&self) -> u64
        ensures { result ≡ (world_of (story self.now)).fed }
    {
        self.parts.state.pending.tally.fed
    }

    /// Whether nothing is pending.
    pub fn is_quiet(&self) -> bool
        ensures { result ≡ (length (world_of (story self.now)).pending == 0) }
    {
        self.parts.state.pending.tally.pending == 0
    }

    /// What is kept of the world, to be looked at: the graph, what waits at each node, the counts, what was told and what
    /// left.
    pub fn state(&self) -> &State<B>
        ensures { Stands result.now (run_state_of (story self.now)) }
    {
        &self.parts.state
    }

    /// What was told, in order.
    pub fn told(&self) -> &[Told]
        ensures { result.now ≡ (world_of (story self.now)).told }
    {
        &self.parts.state.told
    }

    /// The packets that left by the wire of a port, in order, with their times.
    pub fn leaving(&self, port: u32) -> &[(Stamp, Packet)]
        requires { port < length self.now.ports }
        ensures { result.now ≡ (port_at (world_of (story self.now)) port).leaving }
    {
        &self.parts.state.ports[port as usize].leaving
    }

    /// The counts of a port.
    pub fn port(&self, port: u32) -> PortTotals
        requires { port < length self.now.ports }
        ensures { result ≡ port_totals_of (port_at (world_of (story self.now)) port) }
    {
        let port = &self.parts.state.ports[port as usize];
        PortTotals {
            fed: port.fed,
            left: port.leaving.len() as u64,
            up: port.up,
        }
    }

    /// The counts of the run, for its summary.
    pub fn totals(&self) -> Totals
        ensures { result ≡ totals_of (world_of (story self.now)) }
    {
        let state = &self.parts.state;
        let tally = &state.pending.tally;
        let end = state.pending.queues.len().min(MAX_NODES) as u32;
        Totals {
            applied: tally.done,
            refused: tally.refused,
            node_gone: tally.node_gone,
            hook_gone: tally.hook_gone,
            budget: tally.budget,
            no_peer: tally.lost.no_peer,
            peer_gone: tally.lost.node_gone,
            full: tally.lost.full,
            spool: tally.lost.spool,
            nodes: count_nodes(&state.graph, end),
            hooks: count_hooks(&state.graph, end),
        }
    }
}
