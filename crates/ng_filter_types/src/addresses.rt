// The set of addresses of a macset.
ghost use Rattle.std.specs.Prelude.{◌≡◌, ◌<◌, ◌++◌, [], true, false, not, length, nat_le, flat_map, IfOk, OnOk, OnErr, MatchOption};
ghost use Rattle.std.specs.List.{filter};
ghost use Rattle.std.specs.Str.{bytes_eq};
ghost use Rattle.byteorder.specs.Endian.{big_number};
ghost use Rattle.ng_machine.specs.kinds.Macset.{addresses_bytes, has_address, most_addresses, put_address};
ghost use Rattle.ng_sorted.specs.Order.{IsInOrder};
ghost use Rattle.ng_filter_types.specs.Addresses.{IsFree};

use ng_base::{Bytes, NoMemory, Sequence};
use ng_message::put_u32;
use ng_plan::lookup::{address_number, same_address};
use std::alloc::Global;
use std::marker::Model;

/// The most addresses of a macset.
const MAX_ADDRESSES: usize = 4_096;

/// Ethernet addresses (IEEE 802), in order of their numbers, the first byte the highest. A contract sees them as a list.
#[derive(Drop)]
pub struct Addresses {
    list: Vec<[u8; 6]>,
}

impl Model for Addresses {
    ghost use Rattle.std.specs.Prelude.{ℕ, List};
    ghost use Rattle.ng_filter_types.specs.Addresses.{AreAddresses};

    ghost Value = { List (List ℕ) };

    ghost view = { λ s. s.list.items };

    ghost invariant = { λ s. AreAddresses s.list.items };
}

/// The place for an address, where it isn't there. It takes a time of the logarithm of their number.
fn free_place(addresses: &[[u8; 6]], address: &[u8; 6]) -> Option<usize>
    requires { IsInOrder (big_number 6) addresses.now }
    ensures { MatchOption result
        (has_address addresses.now address.now ≡ true)
        (λ place. IsFree addresses.now address.now place) }
{
    match addresses.binary_search_by_key(&address_number(address), |other| address_number(other)) {
        Ok(place) => {
            same_address(&addresses[place], address);
            None
        }
        Err(place) => Some(place),
    }
}

/// Leaves an address out.
fn leave_out(addresses: &mut Vec<[u8; 6]>, address: &[u8; 6])
    ensures { addresses.new.items ≡ filter (λ other. not (bytes_eq other address.now)) addresses.old.items }
{
    addresses.retain(|other| *other != *address);
}

fn put_addresses(out: &mut Vec<u8>, addresses: &[[u8; 6]]) -> Result<(), NoMemory>
    ensures { OnOk result (out.new.items ≡ out.old.items ++ flat_map (λ address. address) addresses.now) }
{
    for address in addresses {
        out.extend_from_slice(address)?;
    }
    Ok(())
}

impl Addresses {
    /// No addresses. It takes no memory.
    pub fn new(alloc: Global) -> Addresses
        ensures { result ≡ [] }
    {
        Addresses {
            list: Vec::new(alloc),
        }
    }

    /// Whether an address is there.
    pub fn has(&self, address: &[u8; 6]) -> bool
        ensures { result ≡ has_address self.now address.now }
    {
        match free_place(&self.list, address) {
            Some(_) => false,
            None => true,
        }
    }

    /// Whether there is no room for one more.
    pub fn is_full(&self) -> bool
        ensures { result ≡ nat_le most_addresses (length self.now) }
    {
        self.list.len() >= MAX_ADDRESSES
    }

    /// Adds an address in its place.
    ///
    /// # Errors
    /// `NoMemory` where memory ran out, and for nothing else; the addresses are then as before.
    #[tactic(auto, using(crate::proofs::AddressLists::inserted, crate::proofs::AddressLists::put_free))]
    pub fn add(&mut self, address: [u8; 6]) -> Result<(), NoMemory>
        requires fresh { has_address self.old address ≡ false }
        requires room { nat_le most_addresses (length self.old) ≡ false }
        ensures ok { OnOk result (self.new ≡ put_address address self.old) }
        ensures err { OnErr result (self.new ≡ self.old) }
    {
        let Some(place) = free_place(&self.list, &address) else {
            unreachable!()
        };
        self.list.insert(place, address)?;
        Ok(())
    }

    /// Takes an address out.
    #[tactic(auto, using(crate::proofs::AddressLists::sifted))]
    pub fn cut(&mut self, address: &[u8; 6])
        ensures { self.new ≡ filter (λ other. not (bytes_eq other address.now)) self.old }
    {
        leave_out(&mut self.list, address);
    }

    /// A copy of the addresses, as a plan holds them.
    ///
    /// # Errors
    /// `NoMemory` where memory ran out, and for nothing else.
    pub fn copy(&self, alloc: Global) -> Result<Sequence<[u8; 6]>, NoMemory>
        ensures { IfOk result (λ addresses. addresses ≡ self.now) }
    {
        Ok(Sequence::from_vec(Vec::from_slice(alloc, &self.list)?))
    }

    /// The addresses as `gettable` is answered: how many, and each.
    ///
    /// # Errors
    /// `NoMemory` where memory ran out, and for nothing else.
    #[tactic(auto, using(crate::proofs::AddressLists::few))]
    pub fn bytes(&self, alloc: Global) -> Result<Bytes, NoMemory>
        ensures { IfOk result (λ bytes. bytes ≡ addresses_bytes self.now) }
    {
        let mut out = Vec::new(alloc);
        put_u32(&mut out, self.list.len() as u32)?;
        put_addresses(&mut out, &self.list)?;
        Ok(Bytes(out))
    }
}
