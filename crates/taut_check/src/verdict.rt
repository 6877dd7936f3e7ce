ghost use Rattle.std.specs.Prelude.{◌≡◌, ◌+◌, ◌*◌, ◌-◌, ◌≤◌, ◌<◌, ◌^◌, ◌↔◌, ℕ, IfOk, IfSome, length};
ghost use Rattle.plane.specs.declared.limits.TheConstants.{MAX_CHAIN};
ghost use Rattle.rings.specs.Chain.{IsBentChain, IsTaut, point_at};
ghost use Rattle.taut_check.specs.Found.{IsFoundAt, IsSeenAt};
ghost use Rattle.taut_check.specs.Sound.{AreSoundBefore};
ghost use Rattle.taut_check.specs.Verdict.{IsVerdict};

use crate::bend::{has_no_turn, is_inner, is_on_wrong_side, reflex_vertex};
use crate::chain::{is_leaving, is_repeat, point};
use crate::sight::{Segments, Sight};
use exact_plane::{Memory, Pt, Steps};
use ring_check::Ring;
use std::alloc::Global;
use std::sync::ledger::Ledger;

/// What a list of points is: a taut chain, or the first rule that it breaks, with the place of the point. Places count
/// from 0. The least place comes first, and at one place the rule that stands first here.
#[derive(Clone, Copy, Debug, PartialEq, Eq)]
pub enum Verdict {
    /// No rule is broken.
    Taut,
    /// There is no point.
    Empty,
    /// The point is the same as the next.
    Repeat(u32),
    /// The point is not in the ring, or does not see the next.
    Leaves(u32),
    /// The point is an inner one, and no reflex vertex.
    NotReflex(u32),
    /// The point is an inner one, on one line with the points beside it.
    Straight(u32),
    /// The point is an inner one, and a ring neighbour of it is outside the closed cone between the rays to the points
    /// beside it.
    WrongSide(u32),
}

/// The verdict on a list of points. For n vertices, n below 2 to the power d, it takes at most 2560 n n + 3000 n (d + 2) + 2 n + 8
/// steps a point. No command calls it: the command `check` calls `check_from` with a sight test of O(n) steps.
pub fn check<L: Ledger>(
    alloc: Global,
    ring: &Ring,
    chain: &[Pt],
    steps: &mut Steps<L>,
) -> Result<Verdict, Memory>
    requires { length chain.now ≤ MAX_CHAIN }
    ensures verdict { IfOk result (IsVerdict ring.now.corners chain.now) }
    ensures taut { IfOk result (λ verdict. (verdict ≡ Verdict.Taut)
        ↔ IsTaut ring.now.corners (point_at chain.now 0) (point_at chain.now (length chain.now - 1)) chain.now) }
    ensures steps { (d : ℕ) → let n = length ring.now.corners in n < 2 ^ d
        → steps.new ≤ steps.old + (2560 * (n * n) + 3000 * (n * (d + 2)) + 2 * n + 8) * length chain.now }
{
    check_from(alloc, ring, &Segments { ring }, chain, 0, steps)
}

/// The same for a list that breaks no rule at a place before `first`, by what tells which points see each other. It takes at most 2 n + 8
/// steps a point, and those of a question to it.
pub fn check_from<S: Sight, L: Ledger>(
    alloc: Global,
    ring: &Ring,
    sight: &S,
    chain: &[Pt],
    first: usize,
    steps: &mut Steps<L>,
) -> Result<Verdict, Memory>
    requires most { length chain.now ≤ MAX_CHAIN }
    requires of { S.is_of sight.now ring.now.corners }
    requires within { first ≤ length chain.now }
    requires sound { AreSoundBefore ring.now.corners chain.now first }
    ensures verdict { IfOk result (IsVerdict ring.now.corners chain.now) }
    ensures taut { IfOk result (λ verdict. (verdict ≡ Verdict.Taut)
        ↔ IsTaut ring.now.corners (point_at chain.now 0) (point_at chain.now (length chain.now - 1)) chain.now) }
    ensures steps { (most : ℕ) → S.asks sight.now most
        → steps.new ≤ steps.old + (most + 2 * length ring.now.corners + 8) * length chain.now }
{
    // What holds of every ring is told with its length: that it is simple, so that no other chain is taut.
    let _length = ring.len();
    verdict_from(alloc, ring, sight, chain, first, steps)
}

// The same, where a list that breaks no rule is a chain with a bend at each inner point.
fn verdict_from<S: Sight, L: Ledger>(
    alloc: Global,
    ring: &Ring,
    sight: &S,
    chain: &[Pt],
    first: usize,
    steps: &mut Steps<L>,
) -> Result<Verdict, Memory>
    requires most { length chain.now ≤ MAX_CHAIN }
    requires of { S.is_of sight.now ring.now.corners }
    requires within { first ≤ length chain.now }
    requires sound { AreSoundBefore ring.now.corners chain.now first }
    ensures verdict { IfOk result (IsVerdict ring.now.corners chain.now) }
    ensures bent { IfOk result (λ verdict. (verdict ≡ Verdict.Taut) ↔ IsBentChain ring.now.corners chain.now) }
    ensures steps { (most : ℕ) → S.asks sight.now most
        → steps.new ≤ steps.old + (most + 2 * length ring.now.corners + 8) * length chain.now }
{
    if chain.is_empty() {
        return Ok(Verdict::Empty);
    }
    for k in first..chain.len() {
        if let Some(verdict) = verdict_at(alloc, ring, sight, chain, k, steps)? {
            return Ok(verdict);
        }
    }
    Ok(Verdict::Taut)
}

// The first rule that is broken at place `k`, if one is.
fn verdict_at<S: Sight, L: Ledger>(
    alloc: Global,
    ring: &Ring,
    sight: &S,
    chain: &[Pt],
    k: usize,
    steps: &mut Steps<L>,
) -> Result<Option<Verdict>, Memory>
    requires of { S.is_of sight.now ring.now.corners }
    requires most { length chain.now ≤ MAX_CHAIN }
    requires place { k < length chain.now }
    requires seen { IsSeenAt ring.now.corners chain.now k }
    ensures found { IfOk result (IsFoundAt ring.now.corners chain.now k) }
    ensures steps { (most : ℕ) → S.asks sight.now most → steps.new ≤ steps.old + (most + 2 * length ring.now.corners + 8) }
{
    let place = k as u32;
    if is_repeat(chain, k, steps) {
        return Ok(Some(Verdict::Repeat(place)));
    }
    if is_leaving(alloc, sight, chain, k, steps)? {
        return Ok(Some(Verdict::Leaves(place)));
    }
    if !is_inner(chain, k) {
        return Ok(None);
    }
    let Some(i) = reflex_vertex(ring, &point(chain, k), steps) else {
        return Ok(Some(Verdict::NotReflex(place)));
    };
    if has_no_turn(chain, k, steps) {
        return Ok(Some(Verdict::Straight(place)));
    }
    if is_on_wrong_side(ring, i, chain, k, steps) {
        return Ok(Some(Verdict::WrongSide(place)));
    }
    Ok(None)
}
