// The filter in the arguments of an etf's message.
ghost use Rattle.std.specs.Prelude.{◌≡◌, ◌≤◌, false, true, length, MatchOption};
ghost use Rattle.ng_base.specs.Name.{is_name};
ghost use Rattle.ng_machine.specs.Arguments.{read_name};
ghost use Rattle.ng_machine.specs.kinds.Etf.{etf_filter_in};

use ng_base::Name;
use ng_machine::EtfWay;
use ng_message::{NAME_LEN, name_at, u16_at};

/// The name in the 32 bytes at the start, unless what stands there is no name.
fn hook_in(args: &[u8]) -> Option<Name>
    requires { 32 ≤ length args.now }
    ensures { result ≡ read_name args.now 0 }
{
    match name_at(args, 0) {
        Ok(Some(hook)) => Some(hook),
        Ok(None) | Err(_) => None,
    }
}

/// The filter in the arguments of `setfilter`, unless what should be a hook's name is none.
#[tactic(auto, using(crate::proofs::Refusals::was_read, crate::proofs::Refusals::was_not_read))]
pub fn filter_in(args: &[u8]) -> Option<EtfWay>
    requires { length args.now ≡ 34 }
    ensures { MatchOption result
        (is_name (etf_filter_in args.now).hook ≡ false)
        (λ filter. (filter ≡ etf_filter_in args.now) × (is_name filter.hook ≡ true)) }
{
    let hook = hook_in(args)?;
    Some(EtfWay {
        ethertype: u16_at(args, NAME_LEN),
        hook,
    })
}
