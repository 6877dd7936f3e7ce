// Sums of products in 128 bits, of the parts of rational points and of coordinates.
ghost use Rattle.std.specs.Ordering.{int_cmp};
ghost use Rattle.std.specs.Prelude.{◌≡◌, ◌+ℤ◌, ◌-ℤ◌, ◌*ℤ◌, ◌<◌, ◌^◌, unsigned_abs};

use crate::vector::Vector;
use std::cmp::Ordering;

// The sum of a coordinate and a difference of coordinates by their weights.
pub fn weighted_sum(coordinate: i128, weight: i128, difference: i128, share: i128) -> i128
    requires coordinate { unsigned_abs coordinate < 2 ^ 23 }
    requires weight { unsigned_abs weight < 2 ^ 49 }
    requires difference { unsigned_abs difference < 2 ^ 24 }
    requires share { unsigned_abs share < 2 ^ 49 }
    ensures value { result ≡ (coordinate *ℤ weight) +ℤ (difference *ℤ share) }
    ensures small { unsigned_abs result < 2 ^ 74 }
{
    coordinate * weight + difference * share
}

// How far a part of a rational point with this weight is past a coordinate, times the weight.
pub fn offset(part: i128, coordinate: i128, weight: i128) -> i128
    requires part { unsigned_abs part < 2 ^ 75 }
    requires coordinate { unsigned_abs coordinate < 2 ^ 23 }
    requires weight { unsigned_abs weight < 2 ^ 50 }
    ensures value { result ≡ part -ℤ (coordinate *ℤ weight) }
    ensures small { unsigned_abs result < 2 ^ 76 }
{
    part - coordinate * weight
}

// The cross product of a way and such offsets.
pub fn cross_offsets(way: Vector, x: i128, y: i128) -> i128
    requires x { unsigned_abs x < 2 ^ 76 }
    requires y { unsigned_abs y < 2 ^ 76 }
    ensures value { result ≡ (way.x *ℤ y) -ℤ (way.y *ℤ x) }
    ensures small { unsigned_abs result < 2 ^ 101 }
{
    way.x as i128 * y - way.y as i128 * x
}

// A part of a rational point with the weight of another.
#[tactic(auto, using(crate::proofs::WideProducts::part_product))]
pub fn scaled(part: i128, weight: i128) -> i128
    requires part { unsigned_abs part < 2 ^ 75 }
    requires weight { unsigned_abs weight < 2 ^ 50 }
    ensures value { result ≡ part *ℤ weight }
    ensures small { unsigned_abs result < 2 ^ 125 }
{
    part * weight
}

/// Compares the parts of two rational points by what they are without their weights. It takes no step.
pub fn compare(part: i128, weight: i128, other: i128, other_weight: i128) -> Ordering
    requires part { unsigned_abs part < 2 ^ 75 }
    requires weight { unsigned_abs weight < 2 ^ 50 }
    requires other { unsigned_abs other < 2 ^ 75 }
    requires other_weight { unsigned_abs other_weight < 2 ^ 50 }
    ensures { result ≡ int_cmp (part *ℤ other_weight) (other *ℤ weight) }
{
    scaled(part, other_weight).cmp(&scaled(other, weight))
}
