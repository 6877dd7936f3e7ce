// Pieces with their answers.
ghost use Rattle.std.specs.Prelude.{◌≡◌, ◌<◌};

mod table;

use crate::runs::parts;
use exact_plane::{Memory, Steps};
use geo_script::{Dialog, Stop};
use std::alloc::Global;
use std::marker::Brand;
use std::process::Abort;
use std::sync::ledger::{Blank, Ledger};
use std::test::Fail;
use table::PIECES;

#[test]
fn pieces(rt: HostRuntime) -> Result<(), Fail> {
    assert!(rt; PIECES.split("\n# ").skip(1).count() == 40);
    all_pieces::<Brand>(&rt, rt.alloc(), Blank::new(1))?;
    Ok(())
}

// The pieces of the table, and then one of the greatest length and one of a byte more, with a counter over a ledger that nobody else
// counts in.
fn all_pieces<N: Ledger>(rt: &impl Abort, alloc: Global, blank: Blank) -> Result<(), Memory>
    requires name { blank.name ≡ N.name }
    requires parts { blank.parts ≡ N.parts }
    requires countable { 0 < blank.parts }
{
    let mut steps = Steps::<N>::new(blank);
    let mut dialog = Dialog::new(alloc);
    each_answered(rt, alloc, &mut dialog, &mut steps)?;
    dialog = Dialog::new(alloc);
    longest_and_longer(rt, alloc, &mut dialog, &mut steps)
}

fn each_answered<N: Ledger>(
    rt: &impl Abort,
    alloc: Global,
    dialog: &mut Dialog,
    steps: &mut Steps<N>,
) -> Result<(), Memory> {
    for row in PIECES.split("\n# ").skip(1) {
        let (name, piece, want) = parts(row).unwrap_or((row, "", "no answers"));
        if name == "a new script" {
            *dialog = Dialog::new(alloc);
        }
        answered(dialog, alloc, piece.as_bytes(), steps)?;
        assert!(rt; dialog.text() == want.as_bytes(), "{piece}");
    }
    Ok(())
}

// The piece is answered to its end.
fn answered<N: Ledger>(
    dialog: &mut Dialog,
    alloc: Global,
    piece: &[u8],
    steps: &mut Steps<N>,
) -> Result<(), Memory> {
    dialog.answer(alloc, piece, steps).or(Err(Memory))
}

fn longest_and_longer<N: Ledger>(
    rt: &impl Abort,
    alloc: Global,
    dialog: &mut Dialog,
    steps: &mut Steps<N>,
) -> Result<(), Memory> {
    answered(dialog, alloc, b"kernel\n", steps)?;
    let longer = line_feeds(dialog, alloc, 8_388_609, steps)?;
    assert!(rt; longer == Err(Stop::TooLong));
    assert!(rt; dialog.text() == b"bad,no_polygon\n".as_slice());
    let longest = line_feeds(dialog, alloc, 8_388_608, steps)?;
    assert!(rt; longest == Ok(()) && dialog.text().is_empty());
    Ok(())
}

// How a piece of so many line feeds is answered.
fn line_feeds<N: Ledger>(
    dialog: &mut Dialog,
    alloc: Global,
    count: usize,
    steps: &mut Steps<N>,
) -> Result<Result<(), Stop>, Memory> {
    let piece = vec![in alloc; b'\n'; count]?;
    Ok(dialog.answer(alloc, &piece, steps))
}
