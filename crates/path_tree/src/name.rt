// The names of corners and of the start.
ghost use Rattle.std.specs.Prelude.{◌≡◌, ◌≢◌};
ghost use Rattle.exact_plane.specs.declared.turns.Spot.TheVariants.{Corner, Start};

use exact_plane::Spot;

/// The name of corner `i` among `n` corners; that of the start where `i` is `n`.
pub fn spot(i: u32, n: u32) -> Spot
    ensures corner { i ≢ n → result ≡ Corner i }
    ensures start { i ≡ n → result ≡ Start }
{
    if i == n { Spot::Start } else { Spot::Corner(i) }
}
