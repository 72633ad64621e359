// The blank nodes that are left.
ghost use Rattle.std.specs.Prelude.{◌≡◌, ◌+◌, All, map, length, true, false, if◌then◌else◌, IfOk, IfSome, IfNone, OnSome, OnOk, OnErr, IsOk, Ok, Err};
ghost use Rattle.std.specs.List.{position_from};
ghost use Rattle.ng_base.specs.Kind.{same_kind};
ghost use Rattle.ng_machine.specs.Errors.{enfile};
ghost use Rattle.ng_machine.specs.Rules.{accepts_hook, may_of};
ghost use Rattle.ng_machine.specs.State.{kind_of, blank_of, add_hook};
ghost use Rattle.ng_machine.specs.Stock.{has_kind, without_kind};
ghost use Rattle.ng_topology.specs.FirstOfKind.{IsFirstOf};

use ng_base::{Errno, Kind, Name, NoMemory};
use ng_plan::node::Node;
use std::alloc::Global;
use std::marker::Model;

/// Blank nodes, in the order in which they were handed in. A contract sees their kinds.
#[derive(Drop)]
pub struct Stock<B: Node> {
    boxes: Vec<B>,
}

impl<B: Node> Model for Stock<B> {
    ghost use Rattle.std.specs.Prelude.{◌≡◌, List, All, map};
    ghost use Rattle.ng_base.specs.declared.kind.Kind.{Kind};
    ghost use Rattle.ng_machine.specs.State.{kind_of, blank_of};

    ghost Value = { List Kind };

    ghost view = { λ s. map (λ b. kind_of (B.state b)) s.boxes.items };

    ghost invariant = { λ s. All (λ b. B.state b ≡ blank_of (kind_of (B.state b))) s.boxes.items };
}

fn position_of<B: Node>(boxes: &[B], kind: Kind) -> Option<usize>
    ensures { result ≡ position_from (λ b. same_kind (kind_of (B.state b)) kind) 0 boxes.now }
{
    boxes
        .iter()
        .position(|node| node.kind().number() == kind.number())
}

fn place_of<B: Node>(boxes: &[B], kind: Kind) -> Option<usize>
    ensures some { IfSome result (IsFirstOf (λ b. kind_of (B.state b)) boxes.now kind) }
    ensures none { IfNone result (has_kind (map (λ b. kind_of (B.state b)) boxes.now) kind ≡ false) }
{
    position_of(boxes, kind)
}

impl<B: Node> Stock<B> {
    /// The nodes that were handed in, each blank.
    pub fn new(boxes: Vec<B>) -> Self
        requires { All (λ b. B.state b ≡ blank_of (kind_of (B.state b))) boxes.items }
        ensures { result ≡ map (λ b. kind_of (B.state b)) boxes.items }
    {
        Stock { boxes }
    }

    /// Whether a node of the kind is left and takes a hook of that name.
    ///
    /// # Errors
    /// `ENFILE` where none is left, else `EINVAL` where the kind doesn't take the name.
    pub fn may(&self, kind: Kind, hook: &Name) -> Result<(), Errno>
        ensures { result ≡ (if has_kind self.now kind then may_of kind hook.now else Err enfile) }
    {
        match place_of(&self.boxes, kind) {
            Some(place) => self.boxes[place].may(hook),
            None => Err(Errno::NFILE),
        }
    }

    /// Whether a node of the kind is left.
    pub fn has(&self, kind: Kind) -> bool
        ensures { result ≡ has_kind self.now kind }
    {
        place_of(&self.boxes, kind).is_some()
    }

    /// Takes the first node of the kind out, or none where none is left.
    pub fn take(&mut self, kind: Kind) -> Option<B>
        ensures some { IfSome result (λ b. B.state b ≡ blank_of kind) }
        ensures found { OnSome result (has_kind self.old kind ≡ true) }
        ensures rest { OnSome result (self.new ≡ without_kind self.old kind) }
        ensures fewer { OnSome result (length self.new + 1 ≡ length self.old) }
        ensures none { IfNone result (has_kind self.old kind ≡ false) }
        ensures same { IfNone result (self.new ≡ self.old) }
    {
        let Some(place) = place_of(&self.boxes, kind) else {
            return None;
        };
        Some(self.boxes.remove(place))
    }

    /// Takes the first node of the kind out, with one hook. One of the kind is left, and the kind takes the
    /// name.
    ///
    /// # Errors
    /// `NoMemory` where memory ran out, and for nothing else; the nodes are then as before.
    pub fn take_with_hook(&mut self, alloc: Global, kind: Kind, hook: &Name) -> Result<B, NoMemory>
        requires left { has_kind self.old kind ≡ true }
        requires takes { accepts_hook kind hook.now ≡ true }
        ensures node { IfOk result (λ node. B.state node ≡ add_hook (blank_of kind) hook.now) }
        ensures rest { OnOk result (self.new ≡ without_kind self.old kind) }
        ensures fewer { OnOk result (length self.new + 1 ≡ length self.old) }
        ensures err { OnErr result (self.new ≡ self.old) }
    {
        let Some(place) = place_of(&self.boxes, kind) else {
            unreachable!()
        };
        self.boxes[place].newhook(alloc, hook)?;
        Ok(self.boxes.remove(place))
    }
}
