// The laws of the comb, each as the contract of a call that does nothing when it runs.
ghost use Rattle.std.specs.Prelude.{ℕ, ◌≡◌, ◌+◌, ◌*◌, ◌<◌, ◌≤◌, length};
ghost use Rattle.plane.specs.Point.{IsInBounds, whole};
ghost use Rattle.plane.specs.declared.limits.TheConstants.{MAX_CORNERS};
ghost use Rattle.rings.specs.Inside.{IsIn};
ghost use Rattle.rings.specs.Orientation.{IsCounterclockwise};
ghost use Rattle.rings.specs.Ring.{vertex};
ghost use Rattle.rings.specs.Simple.{IsSimple};
ghost use Rattle.geo_gen.specs.Comb.{comb_goal, comb_list, comb_start, most_teeth};
ghost use Rattle.geo_gen.specs.declared.combs.TheConstants.{MAX_TEETH};

/// Which number the limit of teeth is.
pub fn limit_in_numbers()
    ensures { MAX_TEETH ≡ most_teeth }
{}

/// The law of the comb: it is a polygon that the program accepts, it runs counterclockwise, and the ends of the path that is asked
/// for are in it.
pub fn comb_ring(k: u32)
    requires some { 1 ≤ k }
    requires few { k ≤ MAX_TEETH }
    ensures simple { IsSimple (comb_list k) }
    ensures counterclockwise { IsCounterclockwise (comb_list k) }
    ensures count { length (comb_list k) ≡ 2 * k + 2 }
    ensures size { (3 ≤ length (comb_list k)) × (length (comb_list k) ≤ MAX_CORNERS) }
    ensures bounds { (i : ℕ) → i < length (comb_list k) → IsInBounds (vertex (comb_list k) i) }
    ensures start { IsIn (comb_list k) (whole comb_start) }
    ensures goal { IsIn (comb_list k) (whole (comb_goal k)) }
{}
