// Laws of rings, each as the contract of a call that does nothing when it runs.
ghost use Rattle.std.specs.Prelude.{◌≡◌, ◌+ℤ◌, ◌↔◌, pos, List, ◌∷◌, ◌++◌};
ghost use Rattle.plane.specs.Point.{IsPoint, Point, Triple};
ghost use Rattle.rings.specs.Across.{CrossesRight, Misses};
ghost use Rattle.rings.specs.Edge.{Edge, edges_of};
ghost use Rattle.rings.specs.Inside.{IsIn, winding};

/// The law of crossing parity, for every list of points: two rational points are in a ring together, where the segment
/// between them meets no edge.
pub fn crossing_parity()
    ensures { (ring : List Point) (p q : Triple) → IsPoint p → IsPoint q → Misses p q (edges_of ring) → IsIn ring p ↔ IsIn ring q }
{}

/// Its signed form: where the segment crosses one edge from left to right and meets no other, the winding number falls
/// by 1.
pub fn winding_across()
    ensures { (ring : List Point) (before after : List Edge) (e : Edge) (p q : Triple) → edges_of ring ≡ before ++ e ∷ after →
        IsPoint p → IsPoint q → Misses p q before → Misses p q after → CrossesRight p q e →
        winding (edges_of ring) p ≡ winding (edges_of ring) q +ℤ pos 1 }
{}
