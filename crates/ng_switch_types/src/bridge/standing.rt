// How the source of a frame stands.
ghost use Rattle.std.specs.Prelude.{◌≡◌, map};
ghost use Rattle.ng_machine.specs.kinds.Bridge.{host_way, standing};
ghost use Rattle.ng_switch_types.specs.bridge.Standing.{standing_of};

use crate::bridge::hosts::Hosts;
use ng_plan::BridgeConfig;

/// The most hosts of a bridge.
const MAX_HOSTS: usize = 4_096;

/// How an address stands that a frame came from.
pub enum Standing {
    /// It is known on the link of arrival.
    Known,
    /// It is known on another link, too short a time ago for it to move.
    Looped,
    /// It is to be learned.
    News,
    /// It is unknown, and no further host is learned.
    Crowded,
}

/// How an address stands that a frame by the link of this number came from.
pub fn standing_on(config: &BridgeConfig, hosts: &Hosts, number: u8, addr: &[u8; 6]) -> Standing
    ensures { standing_of result ≡ standing config.now (map host_way hosts.now) number addr.now }
{
    match hosts.find(addr) {
        Some(host) => {
            let way = host.way();
            if way.link == number {
                Standing::Known
            } else if u32::from(way.age) < config.min_stable_age {
                Standing::Looped
            } else {
                Standing::News
            }
        }
        None => {
            if hosts.len() < MAX_HOSTS {
                Standing::News
            } else {
                Standing::Crowded
            }
        }
    }
}
