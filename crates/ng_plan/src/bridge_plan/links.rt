// The links of a bridge.
ghost use Rattle.std.specs.Prelude.{◌≡◌, if◌then◌else◌, Some, None};
ghost use Rattle.std.specs.List.{find, list_any};
ghost use Rattle.std.specs.Option.{option_copied};
ghost use Rattle.ng_machine.specs.kinds.Bridge.{is_link_of, link_hook, mute_of};

use crate::lookup::{NameTable, link_hook};
use ng_base::Name;
use ng_machine::BridgeLink;
use std::alloc::Global;

/// For how many seconds more the link of a hook is mute.
pub fn mute_of(links: &NameTable<BridgeLink>, hook: &Name) -> u32
    ensures { result ≡ mute_of links.now hook.now }
{
    match links.find(hook) {
        Some(link) => link.mute,
        None => 0,
    }
}

/// The link of this name, which need not be one that a hook may have.
fn link_named<'a>(links: &'a [BridgeLink], name: &[u8]) -> Option<&'a BridgeLink>
    ensures { option_copied result ≡ find (is_link_of name.now) links.now }
{
    links.iter().find(|link| link.hook.bytes() == name)
}

/// The hook of this name, where a link has it.
fn hook_named(links: &[BridgeLink], name: &[u8]) -> Option<Name>
    ensures { result ≡ (if list_any (is_link_of name.now) links.now then Some name.now else None) }
{
    match link_named(links, name) {
        Some(link) => Some(link.hook),
        None => None,
    }
}

/// The hook of the link of this number, where it is there. Above 32, which no bridge has, the links are gone through.
pub fn hook_of_link(links: &NameTable<BridgeLink>, number: u8) -> Option<Name>
    ensures { result ≡ (if list_any (is_link_of (link_hook number)) links.now then Some (link_hook number) else None) }
{
    if number <= 32 {
        let hook = link_hook(number);
        return if links.has(&hook) { Some(hook) } else { None };
    }
    let mut name = *b"link00";
    name[4] = b'0' + number / 10;
    name[5] = b'0' + number % 10;
    hook_named(links.as_slice(), &name)
}
