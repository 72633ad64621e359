//! The laws of a graph that stays as it is: what leaves it depends on its packets alone. Each function does nothing: its
//! contract is the law.

ghost use Rattle.ng_laws.specs.still_graph.Bag.{Fuel, Still, OneStep, PlacesArePorts, SameBag, PacketsDecide};

/// A spread that is defined for a number of visits is the same for every greater one.
pub fn fuel()
    ensures { Fuel }
{}

/// While packets and ticks alone are fed, no node is made or removed, and each keeps what a packet's way goes by: so each spread
/// stays.
pub fn still()
    ensures { Still }
{}

/// An applied packet leaves in its place what leaves of it and the packets that are sent on, whose spreads are defined for one
/// visit less; together they are its spread.
pub fn one_step()
    ensures { OneStep }
{}

/// A spread's wires and hosts are those of ports that are there.
pub fn places_are_ports()
    ensures { PlacesArePorts }
{}

/// Where nothing is lost for want of room, and nothing is left pending, the copies of the packets left where their spreads say: so
/// what left depends on the packets, and on no other part of the journal.
pub fn same_bag()
    ensures { SameBag }
{}

/// Where the same packets are pending and fed, two journals that lose nothing leave the same.
pub fn packets_decide()
    ensures { PacketsDecide }
{}
