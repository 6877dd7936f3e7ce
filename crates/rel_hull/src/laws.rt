// The law of the round, as the contract of a call that does nothing when it runs.
ghost use Rattle.rel_hull.specs.Round.{OneRoundLaw};

/// Different points of a simple ring have just one round.
pub fn one_round()
    ensures { OneRoundLaw }
{}
