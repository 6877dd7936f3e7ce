// Laws of tables and of visibility graphs, each as the contract of a call that does nothing when it runs.
ghost use Rattle.std.specs.Prelude.{◌≡◌};
ghost use Rattle.pair_cut.specs.Pairs.{OneSightsLaw, most_paired};
ghost use Rattle.pair_cut.specs.declared.table.TheConstants.{MAX_PAIRED};

/// Which number the limit of vertices is.
pub fn limit_in_numbers()
    ensures { MAX_PAIRED ≡ most_paired }
{}

/// A ring has one list of the pairs of vertices that see each other, in order.
pub fn one_sights()
    ensures { OneSightsLaw }
{}
