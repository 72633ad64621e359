// Items are accepted, and packets are sent.
ghost use Rattle.std.specs.Prelude.{◌≡◌, ◌==◌, ℕ, ◌+◌, ◌-◌, ◌<◌, ◌≤◌, slice_set, length, Some, IfOk, OnOk};
ghost use Rattle.ng_machine.specs.Body.{is_frame};
ghost use Rattle.ng_machine.specs.Change.{accept, arrival, change_all, lose, most_frames, post, send_joined};
ghost use Rattle.ng_machine.specs.Effect.{counts_unless, is_fine};
ghost use Rattle.ng_machine.specs.Run.{RunState};
ghost use Rattle.ng_machine.specs.World.{NodeRecord, hook_at, kind_at, node_at, node_in};
ghost use Rattle.ng_queue.specs.pending.Holds.{IsOutIn, done_from, in_world};
ghost use Rattle.ng_queue.specs.pending.Room.{HasRoom, Spends, Uses};
ghost use Rattle.ng_queue.specs.Queues.{spare_at};
ghost use Rattle.ng_queue.specs.tally.Tally.{HasNumbers};
ghost use Rattle.ng_queue.specs.tie.TieLaws.{one};
ghost use Rattle.ng_base.specs.declared.ids.NodeId.{NodeId as NodeNumber};
ghost use Rattle.ng_base.specs.declared.ids.Stamp.{Stamp as TheStamp};
ghost use Rattle.ng_core_state.specs.Room.{goes_on, goes_to};
ghost use Rattle.ng_core_state.specs.Stands.{IsStanding, MayLeave, Stands};

use crate::State;
use ng_base::{Cause, Errno, Kind, Name, NoMemory, NodeId, Packet, Stamp};
use ng_machine::{Body, Door, Hook, Item};
use ng_plan::node::Node;

fn arrival(hook: Hook, packet: Packet) -> Body
    ensures { result ≡ arrival hook packet }
{
    Body::Frame {
        door: Door::Hook(hook.peer.hook),
        link: Some(hook.link),
        packet,
    }
}

impl<B: Node> State<B> {
    /// An item is accepted at a node that is there: it gets the next number and its mode, and stands last.
    pub fn accept(&mut self, to: NodeId, kind: Kind, body: Body, tag: Option<u32>, stamp: Stamp)
        requires there { (a : RunState) × Stands self.old a × ((node : NodeRecord) × (node_at a.world to ≡ Some node)) }
        requires room { 0 < spare_at self.old.pending.queues.spares to.0 }
        requires numbers { HasNumbers 1 self.old.pending.tally }
        ensures stands { (a : RunState) (node : NodeRecord) → Stands self.old a → node_at a.world to ≡ Some node
            → kind_at node ≡ kind → Stands self.new (in_world a (accept a.world to kind body tag stamp)) }
        ensures spares { self.new.pending.queues.spares ≡ slice_set self.old.pending.queues.spares to.0 (spare_at self.old.pending.queues.spares to.0 - 1) }
        ensures graph { self.new.graph ≡ self.old.graph }
        ensures lists { length self.new.pending.queues.lists ≡ length self.old.pending.queues.lists }
        ensures numbers { (k : ℕ) → HasNumbers (k + 1) self.old.pending.tally → HasNumbers k self.new.pending.tally }
        ensures frames { self.new.pending.tally.frames ≡ self.old.pending.tally.frames + one (is_frame body) }
    {
        self.pending.accept(to, kind, body, tag, stamp);
    }

    // A packet is lost for this cause.
    fn lose(&mut self, cause: Cause)
        requires { HasNumbers 1 self.old.pending.tally }
        ensures stands { (a : RunState) → Stands self.old a → Stands self.new (in_world a (lose cause a.world)) }
        ensures graph { self.new.graph ≡ self.old.graph }
        ensures queues { self.new.pending.queues ≡ self.old.pending.queues }
        ensures numbers { (k : ℕ) → HasNumbers (k + 1) self.old.pending.tally → HasNumbers k self.new.pending.tally }
        ensures frames { self.new.pending.tally.frames ≡ self.old.pending.tally.frames }
    {
        self.pending.lose(cause);
    }

    // Room that was made for an item at a node is given back, where the node has a queue.
    fn forgo(&mut self, to: NodeId)
        ensures stands { (a : RunState) → Stands self.old a → Stands self.new a }
        ensures used { Uses (λ n. one (to.0 == n)) self.old.pending self.new.pending }
        ensures spares { Spends (λ n. one (to.0 == n)) self.old.pending self.new.pending }
        ensures graph { self.new.graph ≡ self.old.graph }
        ensures lists { self.new.pending.queues.lists ≡ self.old.pending.queues.lists }
        ensures tally { self.new.pending.tally ≡ self.old.pending.tally }
    {
        if (to.0 as usize) < self.pending.queues.len() {
            self.pending.narrow(to);
        }
    }

    // A packet that is sent to a node is lost for this cause: the room that was made for it there is given back.
    fn lose_sent(&mut self, to: NodeId, cause: Cause)
        requires { HasNumbers 1 self.old.pending.tally }
        ensures stands { (a : RunState) → Stands self.old a → Stands self.new (in_world a (lose cause a.world)) }
        ensures used { Uses (λ n. one (to.0 == n)) self.old.pending self.new.pending }
        ensures spares { Spends (λ n. one (to.0 == n)) self.old.pending self.new.pending }
        ensures graph { self.new.graph ≡ self.old.graph }
        ensures lists { length self.new.pending.queues.lists ≡ length self.old.pending.queues.lists }
        ensures numbers { (k : ℕ) → HasNumbers (k + 1) self.old.pending.tally → HasNumbers k self.new.pending.tally }
        ensures frames { self.new.pending.tally.frames ≡ self.old.pending.tally.frames }
    {
        self.forgo(to);
        self.lose(cause);
    }

    // A packet is sent out of a hook: the first cause that holds loses it, or it waits at the peer.
    fn send(&mut self, hook: Hook, packet: Packet, stamp: Stamp)
        requires standing { IsStanding self.old }
        requires room { self.old.pending.tally.frames < most_frames → HasRoom (λ n. one (goes_to (Some hook) n)) self.old.pending }
        requires numbers { HasNumbers 1 self.old.pending.tally }
        ensures spares { Spends (λ n. one (goes_to (Some hook) n)) self.old.pending self.new.pending }
        ensures used { Uses (λ n. one (goes_to (Some hook) n)) self.old.pending self.new.pending }
        ensures stands { (a : RunState) → Stands self.old a → Stands self.new (in_world a (send_joined a.world hook hook.joined packet stamp)) }
        ensures graph { self.new.graph ≡ self.old.graph }
        ensures lists { length self.new.pending.queues.lists ≡ length self.old.pending.queues.lists }
        ensures numbers { (k : ℕ) → HasNumbers (k + 1) self.old.pending.tally → HasNumbers k self.new.pending.tally }
        ensures frames { (c : ℕ) → most_frames ≤ self.old.pending.tally.frames + (one (goes_on self.old.graph.nodes (Some hook)) + c)
            → most_frames ≤ self.new.pending.tally.frames + c }
    {
        if !hook.joined {
            self.lose_sent(hook.peer.node, Cause::NoPeer);
            return;
        }
        let Some(kind) = self.graph.kind(hook.peer.node) else {
            self.lose_sent(hook.peer.node, Cause::NodeGone);
            return;
        };
        if self.pending.is_full() {
            self.lose_sent(hook.peer.node, Cause::Full);
            return;
        }
        self.accept(hook.peer.node, kind, arrival(hook, packet), None, stamp);
    }

    /// A packet is sent out of a hook of the node, where that is there. The hook is looked for near a place among the node's
    /// hooks first.
    pub fn post(&mut self, from: NodeId, hook: &Name, near: usize, packet: Packet, stamp: Stamp)
        requires standing { IsStanding self.old }
        requires room { self.old.pending.tally.frames < most_frames → HasRoom (λ n. one (goes_to (hook_at (node_in self.old.graph.nodes from) hook.now) n)) self.old.pending }
        requires numbers { HasNumbers 1 self.old.pending.tally }
        ensures spares { Spends (λ n. one (goes_to (hook_at (node_in self.old.graph.nodes from) hook.now) n)) self.old.pending self.new.pending }
        ensures used { Uses (λ n. one (goes_to (hook_at (node_in self.old.graph.nodes from) hook.now) n)) self.old.pending self.new.pending }
        ensures stands { (a : RunState) → Stands self.old a → Stands self.new (in_world a (post a.world from hook.now packet stamp)) }
        ensures graph { self.new.graph ≡ self.old.graph }
        ensures lists { length self.new.pending.queues.lists ≡ length self.old.pending.queues.lists }
        ensures numbers { (k : ℕ) → HasNumbers (k + 1) self.old.pending.tally → HasNumbers k self.new.pending.tally }
        ensures frames { (c : ℕ) → most_frames ≤ self.old.pending.tally.frames + (one (goes_on self.old.graph.nodes (hook_at (node_in self.old.graph.nodes from) hook.now)) + c)
            → most_frames ≤ self.new.pending.tally.frames + c }
    {
        match self.graph.peer_near(from, hook, near) {
            Some(hook) => {
                let hook = *hook;
                self.send(hook, packet, stamp);
            }
            None => self.lose(Cause::NoPeer),
        }
    }

    /// A taken item is done: it is no longer pending, and no longer taken.
    pub fn finish(&mut self, item: &Item)
        requires out { (a : RunState) × Stands self.old a × IsOutIn a item.now }
        requires leaves { MayLeave self.old.graph item.now }
        requires numbers { HasNumbers 1 self.old.pending.tally }
        ensures stands { (a : RunState) → Stands self.old a → IsOutIn a item.now → Stands self.new (done_from a item.now) }
        ensures graph { self.new.graph ≡ self.old.graph }
        ensures spares { self.new.pending.queues.spares ≡ self.old.pending.queues.spares }
        ensures lists { length self.new.pending.queues.lists ≡ length self.old.pending.queues.lists }
        ensures numbers { (k : ℕ) → HasNumbers (k + 1) self.old.pending.tally → HasNumbers k self.new.pending.tally }
        ensures frames { self.old.pending.tally.frames ≤ self.new.pending.tally.frames + 1 }
    {
        self.pending.finish(item);
    }

    /// A refusal of a packet is counted.
    pub fn count_refused(&mut self, errno: Errno)
        requires { HasNumbers 1 self.old.pending.tally }
        ensures stands { (a : RunState) (at : NodeNumber) (stamp : TheStamp) → Stands self.old a
            → Stands self.new (in_world a (change_all at stamp a.world (counts_unless (is_fine errno)))) }
        ensures graph { self.new.graph ≡ self.old.graph }
        ensures queues { self.new.pending.queues ≡ self.old.pending.queues }
        ensures numbers { (k : ℕ) → HasNumbers (k + 1) self.old.pending.tally → HasNumbers k self.new.pending.tally }
        ensures frames { self.new.pending.tally.frames ≡ self.old.pending.tally.frames }
    {
        if errno.0 != 0 {
            self.pending.refuse();
        }
    }

    /// Makes room for one packet more that is sent out of a hook of the node, which is looked for near a place first. Whether such
    /// a packet goes on: the hook is joined, and its peer's node is there.
    ///
    /// # Errors
    /// `NoMemory` where memory ran out, and for nothing else; nothing but room changed.
    pub fn widen_for(&mut self, from: NodeId, name: &Name, near: usize) -> Result<bool, NoMemory>
        ensures stands { (a : RunState) → Stands self.old a → Stands self.new a }
        ensures room { OnOk result ((n : ℕ) → n < length self.old.pending.queues.lists
            → spare_at self.old.pending.queues.spares n + one (goes_to (hook_at (node_in self.old.graph.nodes from) name.now) n) ≤ spare_at self.new.pending.queues.spares n) }
        ensures goes_on { IfOk result (λ goes. goes ≡ goes_on self.old.graph.nodes (hook_at (node_in self.old.graph.nodes from) name.now)) }
        ensures lists { self.new.pending.queues.lists ≡ self.old.pending.queues.lists }
        ensures graph { self.new.graph ≡ self.old.graph }
        ensures tally { self.new.pending.tally ≡ self.old.pending.tally }
    {
        let Some(hook) = self.graph.peer_near(from, name, near) else {
            return Ok(false);
        };
        let to = hook.peer.node;
        let goes = hook.joined && self.graph.kind(to).is_some();
        if (to.0 as usize) < self.pending.queues.len() {
            self.pending.widen(to)?;
        }
        Ok(goes)
    }
}
