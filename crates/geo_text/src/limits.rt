ghost use Rattle.std.specs.Prelude.{◌≡◌, ◌+◌, ◌<◌, ◌^◌, [], ◌∷◌};
ghost use Rattle.geo_text.specs.Limits.{IsLimited, limits_of};
ghost use Rattle.geo_text.specs.Reading.{range_fault, unless};

use crate::command::Bad;
use crate::coordinates::point;
use crate::version::Version;
use exact_plane::Pt;
use plane::{MAX_CHAIN, MAX_COORDINATE, MAX_CORNERS};

// What version 1 takes. Version 2 takes what the plane does.
const NARROW_COORDINATE: u64 = 1_000_000;

const NARROW_CORNERS: usize = 4096;

const NARROW_CHAIN: usize = 4096;

/// What a script takes: the greatest size of a coordinate, the most vertices of a polygon, and the most points of a chain that
/// is to be judged.
#[derive(Clone, Copy)]
pub struct Limits {
    pub coordinate: u64,
    pub corners: usize,
    pub chain: usize,
}

impl Limits {
    /// The limits of a version.
    pub fn of(version: Version) -> Limits
        ensures { result ≡ limits_of version }
    {
        match version {
            Version::One => Limits {
                coordinate: NARROW_COORDINATE,
                corners: NARROW_CORNERS,
                chain: NARROW_CHAIN,
            },
            Version::Two => Limits {
                coordinate: MAX_COORDINATE,
                corners: MAX_CORNERS,
                chain: MAX_CHAIN,
            },
        }
    }

    /// The point with these coordinates, or the refusal of the first that passes the limit. `place` is that of x, and y has the
    /// next.
    pub fn point(&self, place: u32, x: i64, y: i64) -> Result<Pt, Bad>
        requires limited { IsLimited self.now }
        requires few { place + 1 < 2 ^ 32 }
        ensures { result ≡ unless (range_fault self.now.coordinate place (x ∷ y ∷ [])) (record { x = x; y = y }) }
    {
        if x.unsigned_abs() > self.coordinate {
            return Err(Bad::Range(place));
        }
        if y.unsigned_abs() > self.coordinate {
            return Err(Bad::Range(place + 1));
        }
        Ok(point(x, y))
    }
}
