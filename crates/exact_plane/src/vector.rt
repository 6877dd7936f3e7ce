// From one point to another.
ghost use Rattle.std.specs.Prelude.{◌≡◌, ◌*ℤ◌, ◌-ℤ◌, ◌<◌, ◌^◌, unsigned_abs};

#[derive(Clone, Copy)]
pub(crate) struct Vector {
    pub x: i64,
    pub y: i64,
    ghost x_is_small: { unsigned_abs x < 2 ^ 24 },
    ghost y_is_small: { unsigned_abs y < 2 ^ 24 },
}

impl Vector {
    // Twice the signed area between the two, positive where `other` is to the left.
    pub fn cross(self, other: Vector) -> i64
        ensures value { result ≡ (self.x *ℤ other.y) -ℤ (self.y *ℤ other.x) }
        ensures small { unsigned_abs result < 2 ^ 49 }
    {
        self.x * other.y - self.y * other.x
    }
}
