// The slab of a set of points; `slabs` has its calls.
ghost use Rattle.std.specs.Prelude.{◌<◌, ◌≤◌, ◌^◌, unsigned_abs};

// The points between two lines that go one way, by how far right of the way through the origin they are. Of two slabs the way of
// that with the greater weight is kept.
#[derive(Clone, Copy)]
pub(crate) struct Slab {
    pub across: i64,
    pub up: i64,
    pub weight: i64,
    pub least: i64,
    pub greatest: i64,
    ghost across_fits: { unsigned_abs across < 2 ^ 12 },
    ghost up_fits: { unsigned_abs up < 2 ^ 12 },
    ghost least_fits: { unsigned_abs least ≤ 2 ^ 37 },
    ghost greatest_fits: { unsigned_abs greatest ≤ 2 ^ 37 },
}
