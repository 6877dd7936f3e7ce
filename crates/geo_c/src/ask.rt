//! The calls that ask records in numbers, and copy what the replies hold.
ghost use Rattle.std.specs.Prelude.{◌≡◌, ◌≢◌};
ghost use Rattle.geo_script.specs.AskedTalk.{IsReadingReply, asked_in, asked_talk};
ghost use Rattle.geo_c.specs.Contents.{counts_of, fractions_of, numbers_of, points_of};
ghost use Rattle.geo_c.specs.Filled.{filled_by};
ghost use Rattle.geo_c.specs.Held.{last_reply, talk_of};
ghost use Rattle.geo_c.specs.Status.{reply_status};
ghost use Rattle.geo_c.specs.declared.status.TheConstants.{MEMORY};

use crate::counts::GeoCounts;
use crate::fractions::GeoFraction;
use crate::handle::GeoSession;
use crate::point::GeoPoint;
use crate::status::MEMORY;
use exact_plane::Memory;
use std::alloc::Global;
use std::marker::Brand;
use std::sync::ledger::Blank;

/// Asks one record in numbers: that of its word, and those of its fields. The handle keeps the reply until the next record is asked
/// in numbers, and `counts` says how much it holds. The text of the last answers stays.
#[unsafe(no_mangle)]
pub extern "C" fn geo_session_ask(
    alloc: Global,
    session: &mut GeoSession,
    word: u8,
    fields: &[i64],
    counts: &mut GeoCounts,
) -> u8
    ensures reply { result ≢ MEMORY → let talk = talk_of session.old.held in
        IsReadingReply talk.state (asked_in talk word fields.now) (last_reply session.new.held) }
    ensures talk { result ≢ MEMORY → let talk = talk_of session.old.held in
        talk_of session.new.held ≡ asked_talk talk (asked_in talk word fields.now) (last_reply session.new.held) }
    ensures status { result ≢ MEMORY → result ≡ reply_status (last_reply session.new.held) }
    ensures counts { result ≢ MEMORY → counts.new ≡ counts_of (last_reply session.new.held) }
    ensures same_talk { result ≡ MEMORY → talk_of session.new.held ≡ talk_of session.old.held }
    ensures same_reply { result ≡ MEMORY → last_reply session.new.held ≡ last_reply session.old.held }
    ensures same_counts { result ≡ MEMORY → counts.new ≡ counts.old }
{
    match session.ask::<Brand>(alloc, word, fields, Blank::new(1)) {
        Ok((status, told)) => {
            *counts = told;
            status
        }
        Err(Memory) => MEMORY,
    }
}

/// Copies the first numbers of the last reply, as many as fit.
#[unsafe(no_mangle)]
pub extern "C" fn geo_session_numbers(alloc: Global, session: &mut GeoSession, out: &mut [u32])
    ensures numbers { out.new ≡ filled_by (numbers_of (last_reply session.old.held)) out.old }
    ensures same { session.new.held ≡ session.old.held }
{
    session.copy_numbers(alloc, out);
}

/// Copies the first points of the last reply, as many as fit.
#[unsafe(no_mangle)]
pub extern "C" fn geo_session_points(alloc: Global, session: &mut GeoSession, out: &mut [GeoPoint])
    ensures points { out.new ≡ filled_by (points_of (last_reply session.old.held)) out.old }
    ensures same { session.new.held ≡ session.old.held }
{
    session.copy_points::<Brand>(alloc, out, Blank::new(1));
}

/// Copies the first fractions of the last reply, as many as fit.
#[unsafe(no_mangle)]
pub extern "C" fn geo_session_fractions(
    alloc: Global,
    session: &mut GeoSession,
    out: &mut [GeoFraction],
)
    ensures fractions { out.new ≡ filled_by (fractions_of (last_reply session.old.held)) out.old }
    ensures same { session.new.held ≡ session.old.held }
{
    session.copy_fractions::<Brand>(alloc, out, Blank::new(1));
}
