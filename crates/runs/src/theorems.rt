// The theorems about runs, named by the contract of a function, so that the check asks for their proofs.
ghost use Rattle.runs.specs.Example.{Example};
ghost use Rattle.runs.specs.Promised.{RunLaw, NoneLaw, MoreLaw};

/// What holds after every run, how runs come about, and an example of one.
pub fn runs_keep_their_promises()
    ensures promised { RunLaw }
    ensures none { NoneLaw }
    ensures more { MoreLaw }
    ensures example { Example }
{}
