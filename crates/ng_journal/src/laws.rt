// Laws of journals as files. Each function does nothing: its contract is the law.
ghost use Rattle.ng_journal.specs.Laws.{ReadWasWritten, WrittenIsRead};

/// A journal that is written is read back, event by event.
pub fn written_is_read()
    ensures { WrittenIsRead }
{}

/// A file that is read as a journal is the one that is written for it: each journal has one file.
pub fn read_was_written()
    ensures { ReadWasWritten }
{}
