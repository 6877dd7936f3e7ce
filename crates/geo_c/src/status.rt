//! How a call ends.
ghost use Rattle.std.specs.Prelude.{◌≡◌, ◌≢◌, ◌≤◌};
ghost use Rattle.geo_c.specs.Status.{place_of, reply_status, status_of, with_place};
ghost use Rattle.geo_c.specs.declared.status.TheConstants.{INDEX, MEMORY, WORD};

use geo_reply::Reply;
use geo_text::Bad;
use inside_test::Position;

/// All is answered.
pub(crate) const OK: u8 = 0;

/// A script or a piece has more than `MAX_SCRIPT` bytes. Nothing has changed.
pub(crate) const TOO_LONG: u8 = 3;

/// Memory was wanted.
pub(crate) const MEMORY: u8 = 5;

/// The number is that of no word.
pub(crate) const WORD: u8 = 10;

/// The count of fields is wrong for the word; for a list of points, it is odd.
pub(crate) const FIELDS: u8 = 11;

/// A list has fewer points than its word takes.
pub(crate) const FEW: u8 = 12;

/// A list has more points than its word takes.
pub(crate) const MANY: u8 = 13;

/// Two edges of the polygon meet where they must not.
pub(crate) const CLASH: u8 = 14;

/// A field is no number. No record in numbers gets this.
pub(crate) const NUMBER: u8 = 15;

/// No polygon was accepted yet.
pub(crate) const NO_POLYGON: u8 = 16;

/// There is a polygon, and no tree in it yet.
pub(crate) const NO_TREE: u8 = 17;

/// The polygon has more vertices than the word takes.
pub(crate) const LARGE: u8 = 18;

// The next three have a number added, where it is below 10.

/// And the number of the point, counted from 1: it is the first that is not in the polygon.
pub(crate) const OUTSIDE: u8 = 20;

/// And the place of the coordinate, counted from 1: it is the first that passes the limit.
pub(crate) const RANGE: u8 = 30;

/// And the place of the field, counted from 1: it is the first that is the number of no vertex.
pub(crate) const INDEX: u8 = 40;

/// The status of a reply.
pub(crate) fn reply_status(reply: &Reply) -> u8
    ensures status { result ≡ reply_status reply.now }
    ensures not_memory { result ≢ MEMORY }
{
    match reply {
        Reply::Refused(bad) => status_of(bad),
        _ => OK,
    }
}

/// The status of a refusal.
pub(crate) fn status_of(bad: &Bad) -> u8
    ensures refusal { result ≡ status_of bad.now }
    ensures refused { WORD ≤ result }
{
    match bad {
        Bad::Word => WORD,
        Bad::Fields => FIELDS,
        Bad::Few => FEW,
        Bad::Many => MANY,
        Bad::Number(_) => NUMBER,
        Bad::Range(place) => with_place(RANGE, *place),
        Bad::Clash(_, _) => CLASH,
        Bad::NoPolygon => NO_POLYGON,
        Bad::Outside(number) => with_place(OUTSIDE, *number),
        Bad::NoTree => NO_TREE,
        Bad::Index(place) => with_place(INDEX, *place),
        Bad::Large => LARGE,
    }
}

// A status that has a place in its last digit, where it is one digit.
fn with_place(status: u8, place: u32) -> u8
    requires least { WORD ≤ status }
    requires most { status ≤ INDEX }
    ensures placed { result ≡ with_place status place }
    ensures refused { WORD ≤ result }
{
    if place < 10 {
        status + place as u8
    } else {
        status
    }
}

/// The number of a place.
pub(crate) fn place_of(position: Position) -> u8
    ensures { result ≡ place_of position }
{
    match position {
        Position::Outside => 0,
        Position::Inside => 1,
        Position::Edge => 2,
    }
}
