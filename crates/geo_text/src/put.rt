// What is written to an answer. After want of memory the answer is as it was.
ghost use Rattle.std.specs.Prelude.{◌≡◌, ◌+◌, ◌<◌, ◌≤◌, ◌++◌, codes, length, OnOk, OnErr, vec_capacity};
ghost use Rattle.geo_text.specs.Texts.{bad_text, hom_text, index_text, pt_text};

use crate::command::Bad;
use crate::ending::Ending;
use exact_plane::{Hom, Memory, Pt, Steps};
use std::sync::ledger::Ledger;

/// Appends a word. Returns `Memory` only if `out` lacks room for it.
pub fn put_word(out: &mut Vec<u8>, word: &str) -> Result<(), Memory>
    ensures ok { OnOk result (out.new.items ≡ out.old.items ++ word.now) }
    ensures err { OnErr result (out.new.items ≡ out.old.items) }
    ensures capacity { vec_capacity out.old ≤ vec_capacity out.new }
    ensures full { OnErr result (vec_capacity out.old < length out.old.items + length word.now) }
{
    out.extend_from_slice(word.as_bytes())?;
    Ok(())
}

/// Appends a comma and a number, which take at most 11 bytes. Returns `Memory` only if `out` lacks room for these.
pub fn put_index(out: &mut Vec<u8>, index: u32) -> Result<(), Memory>
    ensures ok { OnOk result (out.new.items ≡ out.old.items ++ index_text index) }
    ensures err { OnErr result (out.new.items ≡ out.old.items) }
    ensures capacity { vec_capacity out.old ≤ vec_capacity out.new }
    ensures longer { OnOk result (length out.new.items ≤ length out.old.items + 11) }
    ensures full { OnErr result (vec_capacity out.old < length out.old.items + 11) }
{
    let mut text = Ending::new();
    text.put_index(index);
    text.append_to(out)
}

/// Appends a comma, x, a comma and y, which take at most 18 bytes. It takes 64 steps. Returns `Memory` only if `out` lacks room
/// for these bytes.
pub fn put_pt<L: Ledger>(out: &mut Vec<u8>, p: &Pt, steps: &mut Steps<L>) -> Result<(), Memory>
    ensures ok { OnOk result (out.new.items ≡ out.old.items ++ pt_text p.now) }
    ensures err { OnErr result (out.new.items ≡ out.old.items) }
    ensures steps { steps.new ≡ steps.old + 64 }
    ensures capacity { vec_capacity out.old ≤ vec_capacity out.new }
    ensures longer { OnOk result (length out.new.items ≤ length out.old.items + 18) }
    ensures full { OnErr result (vec_capacity out.old < length out.old.items + 18) }
{
    let mut text = Ending::new();
    text.put_pt(p, steps);
    text.append_to(out)
}

/// Appends a comma, X / W, a comma and Y / W, each as a fraction in lowest terms. It takes 64 steps.
pub fn put_hom<L: Ledger>(out: &mut Vec<u8>, p: &Hom, steps: &mut Steps<L>) -> Result<(), Memory>
    ensures ok { OnOk result (out.new.items ≡ out.old.items ++ hom_text p.now) }
    ensures err { OnErr result (out.new.items ≡ out.old.items) }
    ensures steps { steps.new ≡ steps.old + 64 }
{
    let mut text = Ending::new();
    text.put_hom(p, steps);
    text.append_to(out)
}

/// Appends the end of a line. Returns `Memory` only if `out` lacks room for it.
pub fn put_line_end(out: &mut Vec<u8>) -> Result<(), Memory>
    ensures ok { OnOk result (out.new.items ≡ out.old.items ++ codes "\n") }
    ensures err { OnErr result (out.new.items ≡ out.old.items) }
    ensures capacity { vec_capacity out.old ≤ vec_capacity out.new }
    ensures full { OnErr result (vec_capacity out.old < length out.old.items + 1) }
{
    out.push(b'\n')?;
    Ok(())
}

/// Appends the whole line of a refusal.
pub fn put_bad(out: &mut Vec<u8>, bad: &Bad) -> Result<(), Memory>
    ensures ok { OnOk result (out.new.items ≡ out.old.items ++ bad_text bad.now) }
    ensures err { OnErr result (out.new.items ≡ out.old.items) }
{
    match bad {
        Bad::Word => put_word(out, "bad,word\n"),
        Bad::Fields => put_word(out, "bad,fields\n"),
        Bad::Few => put_word(out, "bad,few\n"),
        Bad::Many => put_word(out, "bad,many\n"),
        Bad::Number(place) => put_with(out, "bad,number", *place),
        Bad::Range(place) => put_with(out, "bad,range", *place),
        Bad::Clash(i, j) => put_clash(out, *i, *j),
        Bad::NoPolygon => put_word(out, "bad,no_polygon\n"),
        Bad::Outside(point) => put_with(out, "bad,outside", *point),
        Bad::NoTree => put_word(out, "bad,no_tree\n"),
        Bad::Index(place) => put_with(out, "bad,index", *place),
        Bad::Large => put_word(out, "bad,large\n"),
    }
}

// Appends the line of a word and a number.
fn put_with(out: &mut Vec<u8>, word: &str, index: u32) -> Result<(), Memory>
    requires { length word.now ≤ 16 }
    ensures ok { OnOk result (out.new.items ≡ out.old.items ++ (word.now ++ index_text index ++ codes "\n")) }
    ensures err { OnErr result (out.new.items ≡ out.old.items) }
{
    let mut line = Ending::new();
    line.put_word("\n");
    line.put_index(index);
    line.put_word(word);
    line.append_to(out)
}

// Appends the line of two edges that clash.
fn put_clash(out: &mut Vec<u8>, i: u32, j: u32) -> Result<(), Memory>
    ensures ok { OnOk result (out.new.items ≡ out.old.items ++ (codes "bad,clash" ++ index_text i ++ index_text j ++ codes "\n")) }
    ensures err { OnErr result (out.new.items ≡ out.old.items) }
{
    let mut line = Ending::new();
    line.put_word("\n");
    line.put_index(j);
    line.put_index(i);
    line.put_word("bad,clash");
    line.append_to(out)
}
