// The operations of a patch node.
ghost use Rattle.std.specs.Prelude.{◌≡◌, true};
ghost use Rattle.std.specs.List.{list_all};
ghost use Rattle.ng_machine.specs.kinds.Patch.{is_op};

use ng_base::Sequence;
use ng_machine::PatchOp;
use std::marker::Model;

/// The operations of a patch node, each of which can be done: on 1, 2, 4 or 8 bytes, by one of the eleven modes, and
/// not as a division by 0. A contract sees them as a list.
#[derive(Drop)]
pub struct Operations {
    list: Sequence<PatchOp>,
}

impl Model for Operations {
    ghost use Rattle.std.specs.Prelude.{◌≡◌, List, true};
    ghost use Rattle.std.specs.List.{list_all};
    ghost use Rattle.ng_machine.specs.kinds.Patch.{is_op};
    ghost use Rattle.ng_machine.specs.declared.plan.PatchOp.{PatchOp};

    ghost Value = { List PatchOp };

    ghost view = { λ o. o.list };

    ghost invariant = { λ o. list_all is_op o.list ≡ true };
}

impl Operations {
    /// These operations, each of which can be done.
    pub fn new(list: Sequence<PatchOp>) -> Operations
        requires { list_all is_op list ≡ true }
        ensures { result ≡ list }
    {
        Operations { list }
    }

    /// The operations, in order.
    pub fn as_slice(&self) -> &[PatchOp]
        ensures same { result.now ≡ self.now }
        ensures right { list_all is_op self.now ≡ true }
    {
        self.list.as_slice()
    }
}
