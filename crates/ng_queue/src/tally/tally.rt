// The numbers of a world.
ghost use Rattle.std.specs.Prelude.{◌≡◌, ◌<◌, ◌^◌, ◌∷◌, [], if◌then◌else◌};
ghost use Rattle.ng_base.specs.declared.cause.Cause.TheVariants.{Spool};
ghost use Rattle.ng_queue.specs.tally.Tally.{HasNumbers, HasCounted, Counts, accepted, applied, done_with, without_hook, without_node, stopped, lost_by, refused_one, may_leave, left_with, fed_one, with_command, with_time};

use ng_base::{Cause, Packet, Stamp};
use ng_machine::{Body, Item, Lost};

// As many bytes may leave, with 16 for each packet.
const MOST_SPOOL: u64 = 536_870_912;

/// What a world counts, and what is counted of its pending items.
#[derive(Clone, Copy, Debug, PartialEq, Eq)]
pub struct Tally {
    /// Items that were applied, and not dropped.
    pub done: u64,
    /// Items that were dropped because their node was removed.
    pub node_gone: u64,
    /// Items that were dropped because their hook was removed or had another link.
    pub hook_gone: u64,
    /// Items that were dropped at the limit of applied items.
    pub budget: u64,
    /// Packets that were lost, by cause.
    pub lost: Lost,
    /// Packets that a node refused.
    pub refused: u64,
    /// Bytes that left, with 16 for each packet.
    pub spool: u64,
    /// Inputs that were fed.
    pub fed: u64,
    /// Apply events.
    pub applies: u64,
    /// The number of the next item.
    pub next_item: u64,
    /// The greatest time of the packets fed.
    pub clock: Stamp,
    /// The number of the last command.
    pub command: u32,
    /// Pending items.
    pub pending: u64,
    /// Packets among them.
    pub frames: u64,
    /// Ticks among them.
    pub ticks: u64,
    /// Those among them that a command waits for.
    pub tagged: u64,
}

impl Tally {
    /// An item is accepted.
    pub fn accept(&mut self, item: &Item)
        requires { HasNumbers 1 self.old }
        ensures { self.new ≡ accepted self.old item.now }
    {
        self.next_item += 1;
        self.pending += 1;
        if item.body.is_frame() {
            self.frames += 1;
        }
        if matches!(&item.body, Body::Tick(_)) {
            self.ticks += 1;
        }
        if item.tag.is_some() {
            self.tagged += 1;
        }
    }

    // An item is applied, and is no longer pending.
    fn apply(&mut self, item: &Item)
        requires numbers { HasNumbers 1 self.old }
        requires counted { Counts self.old item.now }
        ensures { self.new ≡ applied self.old item.now }
    {
        self.applies += 1;
        self.pending -= 1;
        if item.body.is_frame() {
            self.frames -= 1;
        }
        if matches!(&item.body, Body::Tick(_)) {
            self.ticks -= 1;
        }
        if item.tag.is_some() {
            self.tagged -= 1;
        }
    }

    /// A pending item is applied and done.
    pub fn finish(&mut self, item: &Item)
        requires numbers { HasNumbers 1 self.old }
        requires counted { Counts self.old item.now }
        ensures { self.new ≡ done_with self.old item.now }
    {
        self.apply(item);
        self.done += 1;
    }

    /// A pending item is applied and dropped, since its hook is gone.
    pub fn drop_for_hook(&mut self, item: &Item)
        requires numbers { HasNumbers 1 self.old }
        requires counted { Counts self.old item.now }
        ensures { self.new ≡ without_hook self.old item.now }
    {
        self.apply(item);
        self.hook_gone += 1;
    }

    // A pending item is dropped with its node.
    fn drop_with_node(&mut self, item: &Item)
        requires numbers { HasNumbers 0 self.old }
        requires counted { HasCounted self.old (item.now ∷ []) }
        ensures { self.new ≡ without_node self.old (item.now ∷ []) }
    {
        self.node_gone += 1;
        self.pending -= 1;
        if item.body.is_frame() {
            self.frames -= 1;
        }
        if matches!(&item.body, Body::Tick(_)) {
            self.ticks -= 1;
        }
        if item.tag.is_some() {
            self.tagged -= 1;
        }
    }

    /// Pending items are dropped with their node, all that it has.
    pub fn drop_for_node(&mut self, items: &[Item])
        requires numbers { HasNumbers 0 self.old }
        requires counted { HasCounted self.old items.now }
        ensures { self.new ≡ without_node self.old items.now }
    {
        for item in items {
            self.drop_with_node(item);
        }
    }

    /// All pending items are dropped, at the limit of applied items.
    pub fn stop(&mut self)
        requires { HasNumbers 0 self.old }
        ensures { self.new ≡ stopped self.old }
    {
        self.budget += self.pending;
        self.pending = 0;
        self.frames = 0;
        self.ticks = 0;
        self.tagged = 0;
    }

    /// A packet is lost, for one of the causes that packets are lost for.
    pub fn lose(&mut self, cause: Cause)
        requires { HasNumbers 1 self.old }
        ensures { self.new ≡ lost_by self.old cause }
    {
        match cause {
            Cause::NoPeer => self.lost.no_peer += 1,
            Cause::NodeGone => self.lost.node_gone += 1,
            Cause::Full => self.lost.full += 1,
            Cause::Spool => self.lost.spool += 1,
            Cause::HookGone | Cause::Budget => {}
        }
    }

    /// A packet is refused.
    pub fn refuse(&mut self)
        requires { HasNumbers 1 self.old }
        ensures { self.new ≡ refused_one self.old }
    {
        self.refused += 1;
    }

    /// A packet leaves, where there is room: whether it does. Else it is lost.
    pub fn leave(&mut self, packet: &Packet) -> bool
        requires { HasNumbers 1 self.old }
        ensures answer { result ≡ may_leave self.old packet.now }
        ensures after { self.new ≡ (if result then left_with self.old packet.now else lost_by self.old Spool) }
    {
        let bytes = packet.bytes().len() as u64;
        if bytes > MOST_SPOOL || self.spool + 16 + bytes > MOST_SPOOL {
            self.lose(Cause::Spool);
            return false;
        }
        self.spool += 16 + bytes;
        true
    }

    /// An input is fed.
    pub fn feed(&mut self)
        requires { self.old.fed < 2 ^ 63 }
        ensures { self.new ≡ fed_one self.old }
    {
        self.fed += 1;
    }

    /// A command of this number is fed.
    pub fn begin_command(&mut self, number: u32)
        ensures { self.new ≡ with_command self.old number }
    {
        self.command = number;
    }

    /// A packet of this time is fed.
    pub fn pass_time(&mut self, stamp: Stamp)
        ensures { self.new ≡ with_time self.old stamp }
    {
        if stamp.0 > self.clock.0 {
            self.clock = stamp;
        }
    }
}
