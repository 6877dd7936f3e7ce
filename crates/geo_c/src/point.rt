use std::marker::Model;

/// A point with whole-number coordinates: x to the right, y upward. In C it is a struct of two `int64_t`.
#[repr(C)]
#[derive(Clone, Copy)]
pub struct GeoPoint {
    pub x: i64,
    pub y: i64,
}

impl Model for GeoPoint {
    ghost use Rattle.plane.specs.Point.{Point};

    ghost Value = { Point };

    ghost view = { λ p. record { x = p.x; y = p.y } };

    ghost inverse = { λ p. record { x = p.x; y = p.y } };
}
