// The core, and what is known of one.
ghost use Rattle.std.specs.Prelude.{◌≡◌, ◌&&◌, true};

use ng_base::{Kind, Name};
use ng_core_state::State;
use ng_journal::kept::Journal;
use ng_machine::Input;
use ng_machine::story::Desk;
use ng_plan::node::Node;
use ng_turn::Desked;
use std::marker::Model;

/// What a core is made of.
#[derive(Drop)]
pub(crate) struct Parts<B: Node> {
    pub(crate) own: Name,
    pub(crate) ports: Vec<Name>,
    pub(crate) stock: Vec<Kind>,
    pub(crate) budget: u64,
    pub(crate) seats: u32,
    pub(crate) inputs: Vec<Input>,
    pub(crate) journal: Journal,
    pub(crate) gave_up: Vec<bool>,
    pub(crate) closed: Option<u64>,
    pub(crate) state: State<B>,
}

/// The core. A contract sees its story: what it began with and was fed, its journal, who gave up, and how it was closed.
///
/// Its type keeps that the journal is orderly over every list of inputs that begins with those fed, and that the world, as it
/// is kept, is that of the journal's run. It stands in a place of its own, so that who hands it on moves a pointer.
#[derive(Drop)]
pub struct Core<B: Node> {
    pub(crate) parts: Box<Parts<B>>,
}

impl<B: Node> Model for Core<B> {
    ghost use Rattle.ng_core.specs.CoreStory.{CoreStory};
    ghost use Rattle.ng_core.specs.Kept.{story_in, IsKept};

    ghost Value = { CoreStory };

    ghost view = { λ c. story_in c.parts.value };

    ghost invariant = { λ c. IsKept c.parts.value };
}

/// A desk is what only its seat's holding of the core may change.
impl<B: Node> Desked for Core<B> {
    type Desk = Desk;

    ghost use Rattle.ng_machine.specs.story.Desks.{story_desk, no_desk};
    ghost use Rattle.ng_core.specs.CoreStory.{story};

    ghost desk = { λ c seat. story_desk (story c) seat };

    ghost blank = { no_desk };
}
