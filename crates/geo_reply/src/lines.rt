// The lines of replies. Want of memory may leave the front of a line, which `put_reply` takes away.
ghost use Rattle.std.specs.Prelude.{◌≡◌, ◌+◌, ◌*◌, ◌≤◌, ◌<◌, ◌^◌, ◌++◌, codes, flat_map, length, take, vec_capacity, OnOk, OnErr};
ghost use Rattle.geo_text.specs.Texts.{index_text, pt_text};
ghost use Rattle.geo_text.specs.declared.ending.TheConstants.{ROOM};
ghost use Rattle.geo_reply.specs.ReplyText.{before_text, broken_text, count_text, from_text, froms_text, lines_text, numbers_text};
ghost use Rattle.geo_reply.specs.ReplyText.{place_text, points_text, reply_text, sight_text, verdict_text};
ghost use Rattle.geo_reply.specs.Written.{WritesSteps, refused_steps};

use crate::items::put_items;
use crate::reply::{Before, Reply};
use exact_plane::{Memory, Pt, Steps};
use geo_text::{Ending, put_bad, put_index, put_line_end, put_pt, put_word};
use inside_test::Position;
use std::sync::ledger::Ledger;
use taut_check::Verdict;

/// Appends the lines of a reply. It takes at most 64 steps for each point of a path, of a side of a hull or of a kernel, and 128 for
/// each part of a view. If memory is refused, it keeps the bytes of `out`, and a path takes no step: the room for its whole line is
/// reserved before its first point is read.
pub fn put_reply<L: Ledger>(
    out: &mut Vec<u8>,
    reply: &Reply,
    steps: &mut Steps<L>,
) -> Result<(), Memory>
    ensures ok { OnOk result (out.new.items ≡ out.old.items ++ reply_text reply.now) }
    ensures same { OnErr result (out.new.items ≡ out.old.items) }
    ensures steps { WritesSteps reply.now steps.old steps.new }
    ensures memory { OnErr result (steps.new ≤ steps.old + refused_steps reply.now) }
{
    let start = out.len();
    let put = put_lines(out, reply, steps);
    if put.is_err() {
        out.truncate(start);
    }
    put
}

// The same, but want of memory may leave the front of the lines.
fn put_lines<L: Ledger>(
    out: &mut Vec<u8>,
    reply: &Reply,
    steps: &mut Steps<L>,
) -> Result<(), Memory>
    ensures ok { OnOk result (out.new.items ≡ out.old.items ++ reply_text reply.now) }
    ensures front { OnErr result (take (length out.old.items) out.new.items ≡ out.old.items) }
    ensures steps { WritesSteps reply.now steps.old steps.new }
    ensures memory { OnErr result (steps.new ≤ steps.old + refused_steps reply.now) }
{
    match reply {
        Reply::Number(word, number) => put_count(out, word.text(), *number),
        Reply::Refused(bad) => put_bad(out, bad),
        Reply::Place(position) => put_place(out, *position),
        Reply::Verdict(verdict) => put_verdict(out, *verdict),
        Reply::Path(points) => put_path(out, points.as_slice(), steps),
        Reply::Tree(befores) => put_tree(out, befores.as_slice()),
        Reply::View(parts) => put_items(out, "see", parts.as_slice(), steps),
        Reply::Kernel(corners) => put_items(out, "kernel", corners.as_slice(), steps),
        Reply::Hull(sides) => put_items(out, "hull", sides.as_slice(), steps),
        Reply::Round(numbers) => put_numbers(out, "round", numbers.as_slice()),
        Reply::Guards(numbers) => put_numbers(out, "guards", numbers.as_slice()),
        Reply::Sights(pairs) => put_sights(out, pairs.as_slice()),
    }
}

// Appends the word for where a point is.
fn put_place(out: &mut Vec<u8>, position: Position) -> Result<(), Memory>
    ensures ok { OnOk result (out.new.items ≡ out.old.items ++ place_text position) }
    ensures front { OnErr result (take (length out.old.items) out.new.items ≡ out.old.items) }
{
    match position {
        Position::Inside => put_word(out, "inside\n"),
        Position::Edge => put_word(out, "edge\n"),
        Position::Outside => put_word(out, "outside\n"),
    }
}

// Appends the line of a verdict.
fn put_verdict(out: &mut Vec<u8>, verdict: Verdict) -> Result<(), Memory>
    ensures ok { OnOk result (out.new.items ≡ out.old.items ++ verdict_text verdict) }
    ensures front { OnErr result (take (length out.old.items) out.new.items ≡ out.old.items) }
{
    match verdict {
        Verdict::Taut => put_word(out, "taut\n"),
        Verdict::Empty => Ok(()),
        Verdict::Repeat(k) => put_broken(out, "repeat", k),
        Verdict::Leaves(k) => put_broken(out, "leaves", k),
        Verdict::NotReflex(k) => put_broken(out, "not_reflex", k),
        Verdict::Straight(k) => put_broken(out, "straight", k),
        Verdict::WrongSide(k) => put_broken(out, "wrong_side", k),
    }
}

// Appends the line that names a broken rule and the place of the point.
fn put_broken(out: &mut Vec<u8>, rule: &str, place: u32) -> Result<(), Memory>
    requires { length rule.now ≤ 16 }
    ensures ok { OnOk result (out.new.items ≡ out.old.items ++ broken_text rule.now place) }
    ensures front { OnErr result (take (length out.old.items) out.new.items ≡ out.old.items) }
{
    let mut line = Ending::new();
    line.put_word("\n");
    line.put_index(place);
    line.put_word(rule);
    line.put_word("not,");
    line.append_to(out)
}

// Appends the line of a word and a number.
pub(crate) fn put_count(out: &mut Vec<u8>, word: &str, count: u64) -> Result<(), Memory>
    requires { length word.now ≤ 16 }
    ensures ok { OnOk result (out.new.items ≡ out.old.items ++ count_text word.now count) }
    ensures front { OnErr result (take (length out.old.items) out.new.items ≡ out.old.items) }
{
    let mut line = Ending::new();
    line.put_word("\n");
    line.put_wide(count);
    line.put_word(word);
    line.append_to(out)
}

// Appends the line of a word and some numbers.
fn put_numbers(out: &mut Vec<u8>, word: &str, numbers: &[u32]) -> Result<(), Memory>
    requires { length numbers.now < 2 ^ 32 }
    ensures ok { OnOk result (out.new.items ≡ out.old.items ++ numbers_text word.now numbers.now) }
    ensures front { OnErr result (take (length out.old.items) out.new.items ≡ out.old.items) }
{
    put_word(out, word)?;
    put_index(out, numbers.len() as u32)?;
    for number in numbers {
        put_index(out, *number)?;
    }
    put_line_end(out)
}

// Appends the line of a path. It takes at most 64 steps a point, and none if memory is refused.
fn put_path<L: Ledger>(out: &mut Vec<u8>, points: &[Pt], steps: &mut Steps<L>) -> Result<(), Memory>
    requires { length points.now < 2 ^ 32 }
    ensures ok { OnOk result (out.new.items ≡ out.old.items ++ points_text (codes "path") points.now) }
    ensures front { OnErr result (take (length out.old.items) out.new.items ≡ out.old.items) }
    ensures steps { steps.new ≤ steps.old + 64 * length points.now }
    ensures memory { OnErr result (steps.new ≡ steps.old) }
{
    // The word takes 4 bytes, the count at most 11, each point at most 18 and the end of the line 1.
    out.reserve(18 * points.len() + 16)?;
    put_word(out, "path")?;
    put_points(out, points, steps)
}

// Appends how many points there are, each of them, and the end of the line. It succeeds if `out` has room for 18 bytes a point and
// 12 more.
pub(crate) fn put_points<L: Ledger>(
    out: &mut Vec<u8>,
    points: &[Pt],
    steps: &mut Steps<L>,
) -> Result<(), Memory>
    requires { length points.now < 2 ^ 32 }
    ensures ok { OnOk result (out.new.items ≡ out.old.items ++ (index_text (length points.now) ++ flat_map pt_text points.now ++ codes "\n")) }
    ensures front { OnErr result (take (length out.old.items) out.new.items ≡ out.old.items) }
    ensures steps { steps.new ≤ steps.old + 64 * length points.now }
    ensures full { OnErr result (vec_capacity out.old < length out.old.items + (12 + 18 * length points.now)) }
{
    put_index(out, points.len() as u32)?;
    for point in points {
        put_pt(out, point, steps)?;
    }
    put_line_end(out)
}

// Appends the lines of a tree.
fn put_tree(out: &mut Vec<u8>, befores: &[Before]) -> Result<(), Memory>
    requires { length befores.now < 2 ^ 32 }
    ensures ok { OnOk result (out.new.items ≡ out.old.items ++ (count_text (codes "tree") (length befores.now) ++ froms_text 0 befores.now)) }
    ensures front { OnErr result (take (length out.old.items) out.new.items ≡ out.old.items) }
{
    let count = befores.len() as u32;
    put_count(out, "tree", befores.len() as u64)?;
    for i in 0..count {
        put_from(out, i, befores[i as usize])?;
    }
    Ok(())
}

// Appends the line that tells what comes before vertex `i`.
fn put_from(out: &mut Vec<u8>, i: u32, before: Before) -> Result<(), Memory>
    ensures ok { OnOk result (out.new.items ≡ out.old.items ++ from_text i before) }
    ensures front { OnErr result (take (length out.old.items) out.new.items ≡ out.old.items) }
{
    let mut line = Ending::new();
    line.put_word("\n");
    put_before(&mut line, before);
    line.put_index(i);
    line.put_word("from");
    line.append_to(out)
}

// Puts what comes before a vertex before the end of the line.
fn put_before(line: &mut Ending, before: Before)
    requires { 11 + length line.old ≤ ROOM }
    ensures text { line.new ≡ before_text before ++ line.old }
    ensures longer { length line.new ≤ 11 + length line.old }
{
    match before {
        Before::Nothing => line.put_word(",-"),
        Before::Source => line.put_word(",s"),
        Before::Vertex(j) => line.put_index(j),
    }
}

// Appends the lines of the pairs of vertices that see each other.
fn put_sights(out: &mut Vec<u8>, pairs: &[(u32, u32)]) -> Result<(), Memory>
    requires { length pairs.now < 2 ^ 32 }
    ensures ok { OnOk result (out.new.items ≡ out.old.items ++ lines_text (codes "sights") sight_text pairs.now) }
    ensures front { OnErr result (take (length out.old.items) out.new.items ≡ out.old.items) }
{
    put_count(out, "sights", pairs.len() as u64)?;
    for pair in pairs {
        put_sight(out, *pair)?;
    }
    Ok(())
}

// Appends the line of one.
fn put_sight(out: &mut Vec<u8>, pair: (u32, u32)) -> Result<(), Memory>
    ensures ok { OnOk result (out.new.items ≡ out.old.items ++ sight_text pair) }
    ensures front { OnErr result (take (length out.old.items) out.new.items ≡ out.old.items) }
{
    let mut line = Ending::new();
    line.put_word("\n");
    line.put_index(pair.1);
    line.put_index(pair.0);
    line.put_word("sight");
    line.append_to(out)
}
