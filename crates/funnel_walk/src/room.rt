// Room for the funnel of a walk.
ghost use Rattle.std.specs.Prelude.{◌≡◌, ◌<◌, ◌^◌, IfOk};

use crate::funnel::Funnel;
use exact_plane::Memory;
use std::alloc::Global;
use std::marker::Model;

/// Room for the funnel of a sleeve.
#[derive(Drop)]
pub struct FunnelBox {
    pub(crate) funnel: Funnel,
}

impl Model for FunnelBox {
    ghost use Rattle.std.specs.Prelude.{ℕ, ◌-◌, ◌≤◌};

    // The number of diagonals that it has room for.
    ghost Value = { ℕ };

    ghost view = { λ room. room.funnel.names.capacity - 4 };

    ghost invariant = { λ room. 4 ≤ room.funnel.names.capacity };
}

impl FunnelBox {
    /// Room for a sleeve of `d` diagonals.
    pub fn with_room(alloc: Global, d: usize) -> Result<FunnelBox, Memory>
        requires { d < 2 ^ 31 }
        ensures { IfOk result (λ room. room ≡ d) }
    {
        Ok(FunnelBox {
            funnel: Funnel::with_room(alloc, d + 4)?,
        })
    }
}
