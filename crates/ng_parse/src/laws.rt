// Laws of texts. Each function does nothing: its contract is the law.
ghost use Rattle.ng_parse.specs.Texts.{FormsAreCanonical, PrintedIsFormOf};

/// What a text is a form of is canonical.
pub fn forms_are_canonical()
    ensures { FormsAreCanonical }
{}

/// The text of canonical bytes is a form of exactly these bytes.
pub fn printed_is_form_of()
    ensures { PrintedIsFormOf }
{}
