ghost use Rattle.roll.specs.Life.{WholeLife};
ghost use Rattle.roll.specs.Teeth.{BlankLawful, BothAccepted, UnsealedFails, UncountedFails, TwiceFails, MiserlyFails, SilentFails};

// The whole life of every pile is as the law says.
pub fn whole_life()
    ensures life { WholeLife }
{}

// The law of a life can be met, and fails of what is wrong.
pub fn teeth()
    ensures lawful { BlankLawful }
    ensures accepted { BothAccepted }
    ensures unsealed { UnsealedFails }
    ensures uncounted { UncountedFails }
    ensures twice { TwiceFails }
    ensures miserly { MiserlyFails }
    ensures silent { SilentFails }
{}
