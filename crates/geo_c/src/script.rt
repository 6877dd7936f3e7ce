//! The answers to a whole script.
ghost use Rattle.std.specs.Prelude.{◌≡◌, ◌<◌, ◌↔◌, ◌⊎◌, Err, OnOk, length};
ghost use Rattle.plane.specs.declared.limits.TheConstants.{MAX_SCRIPT};
ghost use Rattle.geo_c.specs.Output.{GivesFirst, GivesOutput};
ghost use Rattle.geo_c.specs.declared.status.TheConstants.{MEMORY, OK, TOO_LONG};

use crate::fill::fill;
use crate::status::{MEMORY, OK, TOO_LONG};
use exact_plane::Steps;
use geo_script::{Dialog, Stop};
use std::alloc::Global;
use std::marker::Brand;
use std::sync::ledger::{Blank, Ledger};

/// Answers a whole script. `out` takes the front of the text, as much as fits, and is as before after that; `needed` is the
/// length of the text.
#[unsafe(no_mangle)]
pub extern "C" fn geo_answer_script(
    alloc: Global,
    script: &[u8],
    out: &mut [u8],
    needed: &mut usize,
) -> u8
    ensures ok { result ≡ OK → GivesOutput script.now needed.new out.old out.new }
    ensures too_long { (result ≡ TOO_LONG) ↔ (MAX_SCRIPT < length script.now) }
    ensures same { result ≡ TOO_LONG → (out.new ≡ out.old) × (needed.new ≡ needed.old) }
    ensures memory { result ≡ MEMORY → GivesFirst script.now needed.new out.old out.new }
    ensures only { (result ≡ OK) ⊎ (result ≡ TOO_LONG) ⊎ (result ≡ MEMORY) }
{
    match answer_whole::<Brand>(alloc, script, out, needed, Blank::new(1)) {
        Ok(()) => OK,
        Err(Stop::TooLong) => TOO_LONG,
        Err(Stop::Memory) => MEMORY,
    }
}

fn answer_whole<L: Ledger>(
    alloc: Global,
    script: &[u8],
    out: &mut [u8],
    needed: &mut usize,
    blank: Blank,
) -> Result<(), Stop>
    requires name { blank.name ≡ L.name }
    requires parts { blank.parts ≡ L.parts }
    requires countable { 0 < blank.parts }
    ensures ok { OnOk result (GivesOutput script.now needed.new out.old out.new) }
    ensures too_long { (result ≡ Err Stop.TooLong) ↔ (MAX_SCRIPT < length script.now) }
    ensures same { result ≡ Err Stop.TooLong → (out.new ≡ out.old) × (needed.new ≡ needed.old) }
    ensures memory { result ≡ Err Stop.Memory → GivesFirst script.now needed.new out.old out.new }
{
    let mut steps = Steps::<L>::new(blank);
    let mut dialog = Dialog::new(alloc);
    let end = dialog.answer(alloc, script, &mut steps);
    if let Err(Stop::TooLong) = end {
        return end;
    }
    fill(out, dialog.text());
    *needed = dialog.text().len();
    end
}
