ghost use Rattle.std.specs.Prelude.{◌<◌, ◌^◌, unsigned_abs};

/// The points between two columns and two rows, those on them included.
#[derive(Clone, Copy)]
pub struct BoundingBox {
    /// The least x.
    pub west: i32,
    /// The greatest x.
    pub east: i32,
    /// The least y.
    pub south: i32,
    /// The greatest y.
    pub north: i32,
    ghost west_fits: { unsigned_abs west < 2 ^ 31 },
    ghost east_fits: { unsigned_abs east < 2 ^ 31 },
    ghost south_fits: { unsigned_abs south < 2 ^ 31 },
    ghost north_fits: { unsigned_abs north < 2 ^ 31 },
}
