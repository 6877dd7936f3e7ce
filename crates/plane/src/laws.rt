// The limits in numbers, as the contract of a call that does nothing when it runs.
ghost use Rattle.std.specs.Prelude.{◌≡◌};
ghost use Rattle.plane.specs.Limits.{greatest_coordinate, longest_chain, most_corners, most_hull_points, most_script_bytes};
ghost use Rattle.plane.specs.declared.limits.TheConstants.{MAX_CHAIN, MAX_COORDINATE, MAX_CORNERS, MAX_HULL, MAX_SCRIPT};

/// Which number each limit is.
pub fn limits_in_numbers()
    ensures coordinate { MAX_COORDINATE ≡ greatest_coordinate }
    ensures corners { MAX_CORNERS ≡ most_corners }
    ensures chain { MAX_CHAIN ≡ longest_chain }
    ensures hull { MAX_HULL ≡ most_hull_points }
    ensures script { MAX_SCRIPT ≡ most_script_bytes }
{}
