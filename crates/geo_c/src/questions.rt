//! What the exports ask a handle, with a counter of steps that nobody else counts in.
ghost use Rattle.std.specs.Prelude.{◌≡◌, ◌≢◌, ◌+◌, ◌<◌, ◌≤◌, ◌↔◌, ℕ, List, [], ◌∷◌, ◌++◌, Err, IfOk, OnErr, OnOk, false, length};
ghost use Rattle.plane.specs.declared.limits.TheConstants.{MAX_CORNERS, MAX_SCRIPT};
ghost use Rattle.geo_text.specs.Records.{AreWhole};
ghost use Rattle.geo_session.specs.Output.{IsOutput};
ghost use Rattle.geo_session.specs.Path.{path_of};
ghost use Rattle.geo_session.specs.Reply.{IsFound};
ghost use Rattle.geo_script.specs.Asked.{IsAskedWithin};
ghost use Rattle.geo_script.specs.AskedTalk.{IsReadingReply, asked_in, asked_talk};
ghost use Rattle.geo_script.specs.Dialog.{AnswersPiece, AnswersSome, IsTalkOf};
ghost use Rattle.geo_c.specs.Contents.{counts_of, fractions_of, numbers_of, points_of};
ghost use Rattle.geo_c.specs.Filled.{filled_by};
ghost use Rattle.geo_c.specs.Held.{last_reply, talk_of};
ghost use Rattle.geo_c.specs.Status.{reply_status};
ghost use Rattle.geo_c.specs.declared.status.TheConstants.{MEMORY};

use crate::counts::GeoCounts;
use crate::fill::{fill, fill_reply_fractions, fill_reply_points};
use crate::fractions::GeoFraction;
use crate::handle::GeoSession;
use crate::numbers::fill_numbers;
use crate::point::GeoPoint;
use exact_plane::{Memory, Pt, Steps};
use geo_reply::Reply;
use geo_script::{Dialog, Stop};
use geo_text::{Bad, Command};
use inside_test::Position;
use plane::MAX_SCRIPT;
use std::alloc::Global;
use std::sync::ledger::{Blank, Ledger};

impl GeoSession {
    /// As `Dialog::answer`. Where there is no memory for a new dialog, no record is answered.
    pub(crate) fn answer<L: Ledger>(
        &mut self,
        alloc: Global,
        piece: &[u8],
        blank: Blank,
    ) -> Result<(), Stop>
        requires name { blank.name ≡ L.name }
        requires parts { blank.parts ≡ L.parts }
        requires countable { 0 < blank.parts }
        ensures ok { OnOk result (AnswersPiece (talk_of self.old.held) piece.now (talk_of self.new.held)) }
        ensures whole { (talk_of self.old.held).begun ≡ false → OnOk result (IsOutput piece.now (talk_of self.new.held).text) }
        ensures together { OnOk result ((earlier text : List ℕ) → IsTalkOf earlier text (talk_of self.old.held) → AreWhole earlier
            → IsTalkOf (earlier ++ piece.now) (text ++ (talk_of self.new.held).text) (talk_of self.new.held)) }
        ensures too_long { (result ≡ Err Stop.TooLong) ↔ (MAX_SCRIPT < length piece.now) }
        ensures same { result ≡ Err Stop.TooLong → self.new.held ≡ self.old.held }
        ensures memory { result ≡ Err Stop.Memory → AnswersSome (talk_of self.old.held) piece.now (talk_of self.new.held) }
        ensures reply { last_reply self.new.held ≡ last_reply self.old.held }
    {
        if piece.len() > MAX_SCRIPT {
            return Err(Stop::TooLong);
        }
        let Ok(mut desk) = self.take_or_new(alloc) else {
            return Err(Stop::Memory);
        };
        let mut steps = Steps::<L>::new(blank);
        let end = desk.dialog.answer(alloc, piece, &mut steps);
        self.put(desk);
        end
    }

    /// As `Dialog::ask`. The handle keeps the reply: its status, and how much it holds. After want of memory the talk and the last
    /// reply are as before.
    pub(crate) fn ask<L: Ledger>(
        &mut self,
        alloc: Global,
        word: u8,
        fields: &[i64],
        blank: Blank,
    ) -> Result<(u8, GeoCounts), Memory>
        requires name { blank.name ≡ L.name }
        requires parts { blank.parts ≡ L.parts }
        requires countable { 0 < blank.parts }
        ensures reply { OnOk result (let talk = talk_of self.old.held in
            IsReadingReply talk.state (asked_in talk word fields.now) (last_reply self.new.held)) }
        ensures talk { OnOk result (let talk = talk_of self.old.held in
            talk_of self.new.held ≡ asked_talk talk (asked_in talk word fields.now) (last_reply self.new.held)) }
        ensures status { IfOk result (λ told. told.0 ≡ reply_status (last_reply self.new.held)) }
        ensures counts { IfOk result (λ told. told.1 ≡ counts_of (last_reply self.new.held)) }
        ensures not_memory { IfOk result (λ told. told.0 ≢ MEMORY) }
        ensures same_talk { OnErr result (talk_of self.new.held ≡ talk_of self.old.held) }
        ensures same_reply { OnErr result (last_reply self.new.held ≡ last_reply self.old.held) }
    {
        let Ok(mut desk) = self.take_or_new(alloc) else {
            return Err(Memory);
        };
        let mut steps = Steps::<L>::new(blank);
        let told = desk.ask(alloc, word, fields, &mut steps);
        self.put(desk);
        told
    }

    /// Copies the first numbers of the last reply, as many as fit.
    pub(crate) fn copy_numbers(&mut self, alloc: Global, out: &mut [u32])
        ensures numbers { out.new ≡ filled_by (numbers_of (last_reply self.old.held)) out.old }
        ensures same { self.new.held ≡ self.old.held }
    {
        if let Some(desk) = self.take(alloc) {
            fill_numbers(out, &desk.reply);
            self.put(desk);
        }
    }

    /// Copies the first points of the last reply, as many as fit.
    pub(crate) fn copy_points<L: Ledger>(
        &mut self,
        alloc: Global,
        out: &mut [GeoPoint],
        blank: Blank,
    )
        requires name { blank.name ≡ L.name }
        requires parts { blank.parts ≡ L.parts }
        requires countable { 0 < blank.parts }
        ensures points { out.new ≡ filled_by (points_of (last_reply self.old.held)) out.old }
        ensures same { self.new.held ≡ self.old.held }
    {
        if let Some(desk) = self.take(alloc) {
            let mut steps = Steps::<L>::new(blank);
            fill_reply_points(out, &desk.reply, &mut steps);
            self.put(desk);
        }
    }

    /// Copies the first fractions of the last reply, as many as fit.
    pub(crate) fn copy_fractions<L: Ledger>(
        &mut self,
        alloc: Global,
        out: &mut [GeoFraction],
        blank: Blank,
    )
        requires name { blank.name ≡ L.name }
        requires parts { blank.parts ≡ L.parts }
        requires countable { 0 < blank.parts }
        ensures fractions { out.new ≡ filled_by (fractions_of (last_reply self.old.held)) out.old }
        ensures same { self.new.held ≡ self.old.held }
    {
        if let Some(desk) = self.take(alloc) {
            let mut steps = Steps::<L>::new(blank);
            fill_reply_fractions(out, &desk.reply, &mut steps);
            self.put(desk);
        }
    }

    /// The length of the text of the last answers.
    pub(crate) fn text_length(&mut self, alloc: Global) -> usize
        ensures length { result ≡ length (talk_of self.old.held).text }
        ensures same { self.new.held ≡ self.old.held }
    {
        let Some(desk) = self.take(alloc) else {
            return 0;
        };
        let length = desk.dialog.text().len();
        self.put(desk);
        length
    }

    /// Copies the front of the text of the last answers, as much as fits.
    pub(crate) fn copy_text(&mut self, alloc: Global, out: &mut [u8])
        ensures text { out.new ≡ filled_by (talk_of self.old.held).text out.old }
        ensures same { self.new.held ≡ self.old.held }
    {
        if let Some(desk) = self.take(alloc) {
            fill(out, desk.dialog.text());
            self.put(desk);
        }
    }

    /// As `Dialog::inside`.
    pub(crate) fn inside<L: Ledger>(
        &mut self,
        alloc: Global,
        x: i64,
        y: i64,
        blank: Blank,
    ) -> Result<Position, Bad>
        requires name { blank.name ≡ L.name }
        requires parts { blank.parts ≡ L.parts }
        requires countable { 0 < blank.parts }
        ensures answer { IsAskedWithin (talk_of self.old.held).state.version (x ∷ y ∷ [])
            (IsFound (talk_of self.old.held).state (Command.Inside (record { x = x; y = y })) Reply.Place) result }
        ensures same { self.new.held ≡ self.old.held }
    {
        let mut steps = Steps::<L>::new(blank);
        self.place(alloc, x, y, &mut steps)
    }

    /// The same, for a counter of steps that stands.
    pub(crate) fn place<L: Ledger>(
        &mut self,
        alloc: Global,
        x: i64,
        y: i64,
        steps: &mut Steps<L>,
    ) -> Result<Position, Bad>
        ensures answer { IsAskedWithin (talk_of self.old.held).state.version (x ∷ y ∷ [])
            (IsFound (talk_of self.old.held).state (Command.Inside (record { x = x; y = y })) Reply.Place) result }
        ensures same { self.new.held ≡ self.old.held }
    {
        let Some(desk) = self.take(alloc) else {
            return Dialog::new(alloc).inside(x, y, steps);
        };
        let found = desk.dialog.inside(x, y, steps);
        self.put(desk);
        found
    }

    /// As `Dialog::path`.
    pub(crate) fn path<L: Ledger>(
        &mut self,
        alloc: Global,
        from: (i64, i64),
        to: (i64, i64),
        steps: &mut Steps<L>,
    ) -> Result<Result<Vec<Pt>, Bad>, Memory>
        ensures answer { IfOk result (IsAskedWithin (talk_of self.old.held).state.version (from.0 ∷ from.1 ∷ to.0 ∷ to.1 ∷ [])
            (IsFound (talk_of self.old.held).state (Command.Path (record { x = from.0; y = from.1 }) (record { x = to.0; y = to.1 })) path_of)) }
        ensures few { IfOk result (λ found. IfOk found (λ points. length points.items ≤ MAX_CORNERS + 2)) }
        ensures same { self.new.held ≡ self.old.held }
    {
        let Some(desk) = self.take(alloc) else {
            return Dialog::new(alloc).path(alloc, from, to, steps);
        };
        let found = desk.dialog.path(alloc, from, to, steps);
        self.put(desk);
        found
    }

    /// As `Dialog::reach`.
    pub(crate) fn reach<L: Ledger>(
        &mut self,
        alloc: Global,
        x: i64,
        y: i64,
        steps: &mut Steps<L>,
    ) -> Result<Result<Vec<Pt>, Bad>, Memory>
        ensures answer { IfOk result (IsAskedWithin (talk_of self.old.held).state.version (x ∷ y ∷ [])
            (IsFound (talk_of self.old.held).state (Command.Reach (record { x = x; y = y })) path_of)) }
        ensures few { IfOk result (λ found. IfOk found (λ points. length points.items ≤ MAX_CORNERS + 3)) }
        ensures same { self.new.held ≡ self.old.held }
    {
        let Some(desk) = self.take(alloc) else {
            return Dialog::new(alloc).reach(alloc, x, y, steps);
        };
        let found = desk.dialog.reach(alloc, x, y, steps);
        self.put(desk);
        found
    }
}
