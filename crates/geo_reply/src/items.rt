// Replies that have a line for each item.
ghost use Rattle.std.specs.List.{sum_by};
ghost use Rattle.std.specs.Prelude.{◌≡◌, ◌+◌, ◌≤◌, ◌++◌, List, ℕ, length, take, OnOk, OnErr};
ghost use Rattle.geo_reply.specs.ReplyText.{corner_text, lines_text, part_text, side_text};
ghost use Rattle.geo_reply.specs.Written.{corner_steps, part_steps, side_steps};

use crate::lines::{put_count, put_points};
use crate::reply::Side;
use exact_plane::{Hom, Memory, Steps};
use geo_text::Ending;
use see_cone::Part;
use std::sync::ledger::Ledger;

// What has a line of its own.
pub(crate) trait Item {
    ghost line: { Self → List ℕ };

    // How many steps the line takes at most.
    ghost line_steps: { Self → ℕ };

    // Appends the line.
    fn put<L: Ledger>(&self, out: &mut Vec<u8>, steps: &mut Steps<L>) -> Result<(), Memory>
        ensures ok { OnOk result (out.new.items ≡ out.old.items ++ line self.now) }
        ensures front { OnErr result (take (length out.old.items) out.new.items ≡ out.old.items) }
        ensures steps { steps.new ≤ steps.old + line_steps self.now };
}

// Appends a line with a word and how many items there are, and then the line of each.
pub(crate) fn put_items<T: Item, L: Ledger>(
    out: &mut Vec<u8>,
    word: &str,
    items: &[T],
    steps: &mut Steps<L>,
) -> Result<(), Memory>
    requires { length word.now ≤ 16 }
    ensures ok { OnOk result (out.new.items ≡ out.old.items ++ lines_text word.now T.line items.now) }
    ensures front { OnErr result (take (length out.old.items) out.new.items ≡ out.old.items) }
    ensures steps { steps.new ≤ steps.old + sum_by T.line_steps items.now }
{
    put_count(out, word, items.len() as u64)?;
    for item in items {
        item.put(out, steps)?;
    }
    Ok(())
}

// A part takes 128 steps.
impl Item for Part {
    ghost line = { part_text };

    ghost line_steps = { part_steps };

    fn put<L: Ledger>(&self, out: &mut Vec<u8>, steps: &mut Steps<L>) -> Result<(), Memory> {
        let mut front = Ending::new();
        front.put_hom(&self.first, steps);
        front.put_index(self.edge);
        front.put_word("part");
        front.append_to(out)?;
        let mut line = Ending::new();
        line.put_word("\n");
        line.put_hom(&self.last, steps);
        line.append_to(out)
    }
}

// A corner of a kernel takes 64 steps.
impl Item for Hom {
    ghost line = { corner_text };

    ghost line_steps = { corner_steps };

    fn put<L: Ledger>(&self, out: &mut Vec<u8>, steps: &mut Steps<L>) -> Result<(), Memory> {
        let mut line = Ending::new();
        line.put_word("\n");
        line.put_hom(self, steps);
        line.put_word("corner");
        line.append_to(out)
    }
}

// A side takes at most 64 steps for each point of its path.
impl Item for Side {
    ghost line = { side_text };

    ghost line_steps = { side_steps };

    fn put<L: Ledger>(&self, out: &mut Vec<u8>, steps: &mut Steps<L>) -> Result<(), Memory> {
        let mut front = Ending::new();
        front.put_index(self.end);
        front.put_index(self.start);
        front.put_word("side");
        front.append_to(out)?;
        put_points(out, self.path.as_slice(), steps)
    }
}
