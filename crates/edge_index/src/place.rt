// Points, ways and edges by their coordinates, as numbers that are read once.
ghost use Rattle.std.specs.Prelude.{◌<◌, ◌^◌, unsigned_abs};
ghost use Rattle.plane.specs.Point.{IsInLimit};

use exact_plane::BoundingBox;

// The coordinates of a point.
#[derive(Clone, Copy)]
pub(crate) struct Place {
    pub x: i64,
    pub y: i64,
    ghost x_fits: { IsInLimit x },
    ghost y_fits: { IsInLimit y },
}

// So far across and upward.
#[derive(Clone, Copy)]
pub(crate) struct Stretch {
    pub across: i64,
    pub up: i64,
    ghost across_fits: { unsigned_abs across < 2 ^ 24 },
    ghost up_fits: { unsigned_abs up < 2 ^ 24 },
}

/// An edge by numbers: its ends and the box round it; how far it goes, and how far right of that way, through the origin, it is.
#[derive(Clone, Copy)]
pub struct Probe {
    pub(crate) from: Place,
    pub(crate) to: Place,
    pub(crate) bounds: BoundingBox,
    pub(crate) way: Stretch,
    pub(crate) here: i64,
    ghost here_fits: { unsigned_abs here < 2 ^ 49 },
}
