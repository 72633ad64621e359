//! What keeps a story sound. Each function does nothing: its contract is the law.

ghost use Rattle.ng_machine.specs.story.StoryLaws.{BegunIsSound, FeedKeepsSound, TakeKeepsSound, BackKeepsSound, ApplyKeepsSound, CloseKeepsSound, GiveUpKeepsSound};

/// A core that was just made has a sound story.
pub fn begun_is_sound()
    ensures { BegunIsSound }
{}

/// An input that nothing refuses may be fed.
pub fn feed_keeps_sound()
    ensures { FeedKeepsSound }
{}

/// A seat that has nothing may take the least item that may be taken, below the limit.
pub fn take_keeps_sound()
    ensures { TakeKeepsSound }
{}

/// What a seat has taken may be put back.
pub fn back_keeps_sound()
    ensures { BackKeepsSound }
{}

/// What a seat has taken may be applied.
pub fn apply_keeps_sound()
    ensures { ApplyKeepsSound }
{}

/// Where nothing refuses it, a core may be closed; then nothing is pending.
pub fn close_keeps_sound()
    ensures { CloseKeepsSound }
{}

/// A seat may give up at any time.
pub fn give_up_keeps_sound()
    ensures { GiveUpKeepsSound }
{}
