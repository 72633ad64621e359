// Laws of the layout. Each function does nothing: its contract is the law.
ghost use Rattle.ng_shape.specs.Laws.{CanonicalIsLayout, FittingIsCanonical, FittingIsGivenBack};

/// The bytes of a value that fits its shape are canonical.
pub fn fitting_is_canonical()
    ensures { FittingIsCanonical }
{}

/// The bytes of a value that fits its shape give the value back.
pub fn fitting_is_given_back()
    ensures { FittingIsGivenBack }
{}

/// Canonical bytes are the bytes of the value that they give, and it fits.
pub fn canonical_is_layout()
    ensures { CanonicalIsLayout }
{}
