//! How an item is applied. The function does nothing: its contract is the law.
ghost use Rattle.ng_core_state.specs.step.Applied.{ItemsAreApplied};

/// An item that is applied is done and makes its changes, or is dropped since its hook is gone.
pub fn items_are_applied()
    ensures { ItemsAreApplied }
{}
