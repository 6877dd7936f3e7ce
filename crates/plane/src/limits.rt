/// The greatest size of a coordinate that is taken from outside.
pub const MAX_COORDINATE: u64 = 8_388_607;

/// The most vertices of a polygon.
pub const MAX_CORNERS: usize = 16_384;

/// The most points of a chain that is to be judged.
pub const MAX_CHAIN: usize = 16_384;

/// The most points that a relative hull is asked of.
pub const MAX_HULL: usize = 64;

/// The most bytes of a script.
pub const MAX_SCRIPT: usize = 8_388_608;
