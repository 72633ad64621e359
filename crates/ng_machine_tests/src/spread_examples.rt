//! Worked examples of spreads, by computation: each function does nothing, and its contract is what is computed.

ghost use Rattle.ng_machine_tests.specs.SpreadExamples.{HubSpreads, BridgeSpreads, TeeSpreads, TagSpreads, LoopSpreads, HubBag};

/// 1. A hub between three ports, with room for three visits and for two.
pub fn hub_spreads()
    ensures { HubSpreads }
{}

/// 2. A bridge and a one2many aren't followed; without any node a packet goes up.
pub fn bridge_spreads()
    ensures { BridgeSpreads }
{}

/// 3. A tee, with a copy for the reader.
pub fn tee_spreads()
    ensures { TeeSpreads }
{}

/// 4. A vlan node takes a tag away, and puts one in.
pub fn tag_spreads()
    ensures { TagSpreads }
{}

/// 5. Two hubs that are joined twice.
pub fn loop_spreads()
    ensures { LoopSpreads }
{}

/// 6. By two seats the same leaves, and the premises of `same_bag` hold.
pub fn hub_bag()
    ensures { HubBag }
{}
