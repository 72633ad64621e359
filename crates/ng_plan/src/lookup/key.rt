// The numbers by which entries of a plan are found.
ghost use Rattle.std.specs.Prelude.{◌≡◌, ◌<◌, ◌^◌, ℕ};
ghost use Rattle.byteorder.specs.Endian.{big_number};

use byteorder::{BigEndian, ByteOrder};
use ng_machine::{BridgeHost, EtfWay, VlanWay};

/// An entry that is found by a number.
pub trait Key: Copy {
    /// The number.
    ghost key_of: { Self → ℕ };

    /// The number.
    fn key(&self) -> u64
        ensures { result ≡ key_of self.now };
}

/// A filter of a vlan node by the number of its VLAN.
impl Key for VlanWay {
    ghost key_of = { λ filter. filter.vlan };

    fn key(&self) -> u64 {
        u64::from(self.vlan)
    }
}

/// A filter of an etf node by its ethertype.
impl Key for EtfWay {
    ghost key_of = { λ filter. filter.ethertype };

    fn key(&self) -> u64 {
        u64::from(self.ethertype)
    }
}

/// A host of a bridge by its address as a number, the first byte the highest.
impl Key for BridgeHost {
    ghost key_of = { λ host. big_number 6 host.addr };

    fn key(&self) -> u64 {
        address_number(&self.addr)
    }
}

/// An address by itself as a number, the first byte the highest.
impl Key for [u8; 6] {
    ghost key_of = { λ address. big_number 6 address };

    fn key(&self) -> u64 {
        address_number(self)
    }
}

/// An address as a number below 2^48, the first byte the highest.
pub fn address_number(address: &[u8; 6]) -> u64
    ensures value { result ≡ big_number 6 address.now }
    ensures bound { result < 2 ^ 48 }
{
    BigEndian::read_u48(address)
}

/// Two addresses of one number are the same. A fact that is proved, and nothing is done.
pub fn same_address(one: &[u8; 6], other: &[u8; 6])
    requires { big_number 6 one.now ≡ big_number 6 other.now }
    ensures { one.now ≡ other.now }
{
    prove!(address_number(one) == address_number(other));
}
