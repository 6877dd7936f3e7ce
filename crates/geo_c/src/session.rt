//! The calls on a handle.
ghost use Rattle.std.specs.Prelude.{◌≡◌, ◌≢◌, ◌+◌, ◌<◌, ◌≤◌, ◌↔◌, ◌⊎◌, ℕ, List, ◌++◌, None, OnErr, false, length};
ghost use Rattle.plane.specs.declared.limits.TheConstants.{MAX_CORNERS, MAX_SCRIPT};
ghost use Rattle.geo_text.specs.Records.{AreWhole};
ghost use Rattle.geo_session.specs.Output.{IsOutput};
ghost use Rattle.geo_script.specs.Dialog.{AnswersPiece, AnswersSome, IsTalkOf};
ghost use Rattle.geo_c.specs.Filled.{filled_by};
ghost use Rattle.geo_c.specs.Held.{last_reply, talk_of};
ghost use Rattle.geo_c.specs.Told.{ArePointsGiven, IsPlaceGiven, TellsPathResult, TellsPlace, TellsReach};
ghost use Rattle.geo_c.specs.declared.status.TheConstants.{MEMORY, OK, TOO_LONG, WORD};

use crate::fill::fill_points;
use crate::handle::GeoSession;
use crate::point::GeoPoint;
use crate::status::{MEMORY, OK, TOO_LONG, place_of, status_of};
use exact_plane::{Memory, Pt, Steps};
use geo_script::Stop;
use geo_text::Bad;
use std::alloc::Global;
use std::marker::Brand;
use std::sync::ledger::{Blank, Ledger};

/// Answers the records of the next piece of the script, in the place of those of the piece before. The handle keeps the text of
/// the answers, and `needed` is its length. The last reply to a record in numbers stays.
#[unsafe(no_mangle)]
pub extern "C" fn geo_session_answer(
    alloc: Global,
    session: &mut GeoSession,
    piece: &[u8],
    needed: &mut usize,
) -> u8
    ensures ok { result ≡ OK → AnswersPiece (talk_of session.old.held) piece.now (talk_of session.new.held) }
    // The answers to the first piece are those to the script that it is.
    ensures whole { (talk_of session.old.held).begun ≡ false → result ≡ OK → IsOutput piece.now (talk_of session.new.held).text }
    // Where the pieces before end at the end of a record, the answers to all pieces are those to the script that they are together.
    ensures together { result ≡ OK → (earlier text : List ℕ) → IsTalkOf earlier text (talk_of session.old.held) → AreWhole earlier
        → IsTalkOf (earlier ++ piece.now) (text ++ (talk_of session.new.held).text) (talk_of session.new.held) }
    ensures too_long { (result ≡ TOO_LONG) ↔ (MAX_SCRIPT < length piece.now) }
    ensures same { result ≡ TOO_LONG → (session.new.held ≡ session.old.held) × (needed.new ≡ needed.old) }
    ensures memory { result ≡ MEMORY → AnswersSome (talk_of session.old.held) piece.now (talk_of session.new.held) }
    ensures reply { last_reply session.new.held ≡ last_reply session.old.held }
    ensures needed { result ≢ TOO_LONG → needed.new ≡ length (talk_of session.new.held).text }
    ensures only { (result ≡ OK) ⊎ (result ≡ TOO_LONG) ⊎ (result ≡ MEMORY) }
{
    let status = match session.answer::<Brand>(alloc, piece, Blank::new(1)) {
        Ok(()) => OK,
        Err(Stop::TooLong) => return TOO_LONG,
        Err(Stop::Memory) => MEMORY,
    };
    *needed = session.text_length(alloc);
    status
}

/// Copies the front of the text of the last answers, as much as fits.
#[unsafe(no_mangle)]
pub extern "C" fn geo_session_text(alloc: Global, session: &mut GeoSession, out: &mut [u8])
    ensures text { out.new ≡ filled_by (talk_of session.old.held).text out.old }
    ensures same { session.new.held ≡ session.old.held }
{
    session.copy_text(alloc, out);
}

/// Where a point lies in the polygon.
#[unsafe(no_mangle)]
pub extern "C" fn geo_session_inside(
    alloc: Global,
    session: &mut GeoSession,
    x: i64,
    y: i64,
    place: &mut u8,
) -> u8
    ensures answer { TellsPlace (talk_of session.old.held) (record { x = x; y = y }) (IsPlaceGiven result place.old place.new) }
    ensures same { session.new.held ≡ session.old.held }
{
    match session.inside::<Brand>(alloc, x, y, Blank::new(1)) {
        Ok(position) => {
            *place = place_of(position);
            OK
        }
        Err(bad) => status_of(&bad),
    }
}

/// What the version of the script tells of the path from one point to another.
#[unsafe(no_mangle)]
pub extern "C" fn geo_session_path(
    alloc: Global,
    session: &mut GeoSession,
    from_x: i64,
    from_y: i64,
    to_x: i64,
    to_y: i64,
    points: &mut [GeoPoint],
    needed: &mut usize,
) -> u8
    ensures answer { result ≢ MEMORY → TellsPathResult (talk_of session.old.held) (record { x = from_x; y = from_y }) (record { x = to_x; y = to_y })
        (ArePointsGiven result needed.old needed.new points.old points.new) }
    ensures few { result ≡ OK → needed.new ≤ MAX_CORNERS + 2 }
    ensures memory { result ≡ MEMORY → (points.new ≡ points.old) × (needed.new ≡ needed.old) }
    ensures same { session.new.held ≡ session.old.held }
{
    let ends = Ends {
        from: (from_x, from_y),
        to: (to_x, to_y),
    };
    path::<Brand>(alloc, session, ends, points, needed, Blank::new(1))
}

// The two points that a path joins.
#[derive(Clone, Copy)]
struct Ends {
    from: (i64, i64),
    to: (i64, i64),
}

fn path<L: Ledger>(
    alloc: Global,
    session: &mut GeoSession,
    ends: Ends,
    points: &mut [GeoPoint],
    needed: &mut usize,
    blank: Blank,
) -> u8
    requires name { blank.name ≡ L.name }
    requires parts { blank.parts ≡ L.parts }
    requires countable { 0 < blank.parts }
    ensures answer { result ≢ MEMORY → TellsPathResult (talk_of session.old.held) (record { x = ends.from.0; y = ends.from.1 }) (record { x = ends.to.0; y = ends.to.1 })
        (ArePointsGiven result needed.old needed.new points.old points.new) }
    ensures few { result ≡ OK → needed.new ≤ MAX_CORNERS + 2 }
    ensures memory { result ≡ MEMORY → (points.new ≡ points.old) × (needed.new ≡ needed.old) }
    ensures same { session.new.held ≡ session.old.held }
{
    let mut steps = Steps::<L>::new(blank);
    match session.path(alloc, ends.from, ends.to, &mut steps) {
        Ok(found) => give(found, points, needed, &mut steps),
        Err(Memory) => MEMORY,
    }
}

/// What the version of the script tells of the path from the source of the tree to a point.
#[unsafe(no_mangle)]
pub extern "C" fn geo_session_reach(
    alloc: Global,
    session: &mut GeoSession,
    to_x: i64,
    to_y: i64,
    points: &mut [GeoPoint],
    needed: &mut usize,
) -> u8
    ensures answer { result ≢ MEMORY → TellsReach (talk_of session.old.held) (record { x = to_x; y = to_y })
        (ArePointsGiven result needed.old needed.new points.old points.new) }
    ensures few { result ≡ OK → needed.new ≤ MAX_CORNERS + 3 }
    ensures memory { result ≡ MEMORY → (points.new ≡ points.old) × (needed.new ≡ needed.old) }
    ensures same { session.new.held ≡ session.old.held }
{
    let goal = (to_x, to_y);
    reach::<Brand>(alloc, session, goal, points, needed, Blank::new(1))
}

fn reach<L: Ledger>(
    alloc: Global,
    session: &mut GeoSession,
    goal: (i64, i64),
    points: &mut [GeoPoint],
    needed: &mut usize,
    blank: Blank,
) -> u8
    requires name { blank.name ≡ L.name }
    requires parts { blank.parts ≡ L.parts }
    requires countable { 0 < blank.parts }
    ensures answer { result ≢ MEMORY → TellsReach (talk_of session.old.held) (record { x = goal.0; y = goal.1 })
        (ArePointsGiven result needed.old needed.new points.old points.new) }
    ensures few { result ≡ OK → needed.new ≤ MAX_CORNERS + 3 }
    ensures memory { result ≡ MEMORY → (points.new ≡ points.old) × (needed.new ≡ needed.old) }
    ensures same { session.new.held ≡ session.old.held }
{
    let mut steps = Steps::<L>::new(blank);
    match session.reach(alloc, goal.0, goal.1, &mut steps) {
        Ok(found) => give(found, points, needed, &mut steps),
        Err(Memory) => MEMORY,
    }
}

// The status of an answer, whose points are copied, as many as fit.
fn give<L: Ledger>(
    found: Result<Vec<Pt>, Bad>,
    points: &mut [GeoPoint],
    needed: &mut usize,
    steps: &mut Steps<L>,
) -> u8
    ensures given { ArePointsGiven result needed.old needed.new points.old points.new found }
    ensures refused { OnErr found (WORD ≤ result) }
    ensures not_memory { result ≢ MEMORY }
{
    match found {
        Ok(found) => {
            fill_points(points, &found, steps);
            *needed = found.len();
            OK
        }
        Err(bad) => status_of(&bad),
    }
}

/// Frees what the handle owns. It owns nothing then, and stands for a script of which no piece was handed in yet.
#[unsafe(no_mangle)]
pub extern "C" fn geo_session_clear(alloc: Global, session: &mut GeoSession)
    ensures { session.new.held ≡ None }
{
    session.clear(alloc);
}
