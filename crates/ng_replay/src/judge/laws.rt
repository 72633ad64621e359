// Laws of verdicts. Each function does nothing: its contract is the law.
ghost use Rattle.ng_replay.specs.Accepted.{RunsAreAccepted};
ghost use Rattle.ng_replay.specs.judge.Laws.{OneVerdict};

/// A journal gets one verdict.
pub fn one_verdict()
    ensures { OneVerdict }
{}

/// The journal of each run is accepted by the replay of that run, and what the replay then writes is the text of the run.
pub fn runs_are_accepted()
    ensures { RunsAreAccepted }
{}
