// The addresses of a frame (IEEE 802.3).
ghost use Rattle.std.specs.Prelude.{◌≡◌, ◌≤◌, length};
ghost use Rattle.ng_machine.specs.kinds.Bridge.{destination_of, is_broadcast};
ghost use Rattle.ng_machine.specs.kinds.Macset.{is_group, source_of};

/// The station or the group that a frame is for: its first six bytes.
pub fn destination_of(frame: &[u8]) -> [u8; 6]
    requires { 6 ≤ length frame.now }
    ensures { result ≡ destination_of frame.now }
{
    [frame[0], frame[1], frame[2], frame[3], frame[4], frame[5]]
}

/// The station that a frame comes from: the six bytes behind its destination.
pub fn source_of(frame: &[u8]) -> [u8; 6]
    requires { 12 ≤ length frame.now }
    ensures { result ≡ source_of frame.now }
{
    [frame[6], frame[7], frame[8], frame[9], frame[10], frame[11]]
}

/// Whether an address is that of a group of stations: the lowest bit of its first byte.
pub fn is_group(address: &[u8; 6]) -> bool
    ensures { result ≡ is_group address.now }
{
    address[0] % 2 == 1
}

/// Whether an address is that of all stations.
pub fn is_broadcast(address: &[u8; 6]) -> bool
    ensures { result ≡ is_broadcast address.now }
{
    *address == [0xff; 6]
}
