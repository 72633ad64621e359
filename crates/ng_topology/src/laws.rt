// What follows from the definitions alone: what a call does to the graph is what the machine's change does to its world.
ghost use Rattle.ng_topology.specs.OfWorld.{SetsAre, MakesAre, RetiresAre, LinksAre, LendsAre, GivesAre, SproutsAre};
ghost use Rattle.ng_topology.specs.Soundness.{SoundnessStays};

/// A node that is changed is the change `Sets` of the machine.
pub fn sets_are()
    ensures { SetsAre }
{}

/// A node that is made is the change `Makes` of the machine.
pub fn makes_are()
    ensures { MakesAre }
{}

/// A node that is removed is the change `Retires` of the machine.
pub fn retires_are()
    ensures { RetiresAre }
{}

/// A number of a link that is used is the note `Links` of the machine.
pub fn links_are()
    ensures { LinksAre }
{}

/// A box that is lent changes nothing of the machine's world.
pub fn lends_are()
    ensures { LendsAre }
{}

/// A box that comes home is the change `Sets` of the machine, to what the box keeps.
pub fn gives_are()
    ensures { GivesAre }
{}

/// A node that is made at the other end of a hook is the list of changes of the machine's order to make one.
pub fn sprouts_are()
    ensures { SproutsAre }
{}

/// What `Graph::soundness` says of a graph stays so, whatever call changes it.
pub fn soundness_stays()
    ensures { SoundnessStays }
{}
