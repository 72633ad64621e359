// The arguments of a vlan node's messages.
ghost use Rattle.std.specs.Prelude.{◌≡◌, ◌≤◌, ◌<◌, false, true, length, MatchOption};
ghost use Rattle.ng_base.specs.Name.{is_name};
ghost use Rattle.ng_machine.specs.Arguments.{number_at, read_name};
ghost use Rattle.ng_machine.specs.kinds.Vlan.{filter_in};

use ng_base::Name;
use ng_machine::VlanWay;
use ng_message::{HAS_ANSWER, NAME_LEN, READ_ONLY, name_at, u16_at};

/// `NGM_VLAN_ADD_FILTER`.
pub const ADD_FILTER: u32 = 1;

/// `NGM_VLAN_DEL_FILTER`.
pub const DELETE_FILTER: u32 = 2;

/// `NGM_VLAN_GET_TABLE`.
pub const GET_TABLE: u32 = READ_ONLY + HAS_ANSWER + 3;

/// Sets the tag protocol identifier of tags.
pub const SET_TAG_TYPE: u32 = 4;

/// Asks for the tag protocol identifier of tags.
pub const GET_TAG_TYPE: u32 = READ_ONLY + HAS_ANSWER + 5;

/// The bytes of a filter: its hook, number, priority and drop indicator.
pub const FILTER_LEN: usize = 36;

/// The name in the 32 bytes at the start, unless what stands there is no name.
pub fn hook_in(args: &[u8]) -> Option<Name>
    requires { 32 ≤ length args.now }
    ensures { result ≡ read_name args.now 0 }
{
    match name_at(args, 0) {
        Ok(Some(hook)) => Some(hook),
        Ok(None) | Err(_) => None,
    }
}

/// The byte at a place.
fn byte_at(args: &[u8], at: usize) -> u8
    requires { at < length args.now }
    ensures { result ≡ number_at 1 args.now at }
{
    args[at]
}

/// The filter in the arguments of `addfilter`, unless what should be a hook's name is none.
#[tactic(auto, using(crate::proofs::vlan::Refusals::was_read, crate::proofs::vlan::Refusals::was_not_read))]
pub fn filter_in(args: &[u8]) -> Option<VlanWay>
    requires { length args.now ≡ 36 }
    ensures { MatchOption result
        (is_name (filter_in args.now).hook ≡ false)
        (λ filter. (filter ≡ filter_in args.now) × (is_name filter.hook ≡ true)) }
{
    let hook = hook_in(args)?;
    Some(VlanWay {
        vlan: u16_at(args, NAME_LEN),
        hook,
        pcp: byte_at(args, NAME_LEN + 2),
        cfi: byte_at(args, NAME_LEN + 3),
    })
}
