ghost use Rattle.std.specs.Prelude.{◌≡◌};

use exact_plane::Pt;
use std::marker::Model;

/// A list of points.
#[derive(Drop)]
pub struct Points {
    points: Vec<Pt>,
}

impl Model for Points {
    ghost use Rattle.std.specs.Prelude.{List};
    ghost use Rattle.plane.specs.Point.{Point};

    ghost Value = { List Point };

    ghost view = { λ p. p.points.items };
}

impl Points {
    /// These points, of which there may be none.
    pub fn of(points: Vec<Pt>) -> Points
        ensures { result ≡ points.items }
    {
        Points { points }
    }

    pub fn as_slice(&self) -> &[Pt]
        ensures { result.now ≡ self.now }
    {
        &self.points
    }

    pub fn into_vec(self) -> Vec<Pt>
        ensures { result.items ≡ self }
    {
        self.points
    }
}
