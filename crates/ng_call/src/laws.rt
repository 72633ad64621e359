//! Laws of what a call reads. Each function does nothing: its contract is the law.

ghost use Rattle.ng_call.specs.MadeInForm.{MadeIsInForm};

/// A script and captures that are made of at most 100,000 packets are in form.
pub fn made_is_in_form()
    ensures { MadeIsInForm }
{}
