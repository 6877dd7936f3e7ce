ghost use Rattle.std.specs.Prelude.{◌≡◌, ◌↔◌, ◌+◌, ◌*◌, ◌<◌, ◌≤◌, ℕ, List, [], ◌∷◌, ◌++◌, Err, IfOk, OnErr, OnOk, false, if◌then◌else◌, length};
ghost use Rattle.plane.specs.declared.limits.TheConstants.{MAX_CORNERS, MAX_SCRIPT};
ghost use Rattle.geo_text.specs.Limits.{limits_of};
ghost use Rattle.geo_text.specs.Records.{AreWhole};
ghost use Rattle.geo_text.specs.Version.{by_version};
ghost use Rattle.shared_seq.specs.Digits.{binary_digits};
ghost use Rattle.geo_session.specs.Output.{IsOutput};
ghost use Rattle.geo_session.specs.Paced.{inside_steps};
ghost use Rattle.geo_session.specs.Path.{path_of};
ghost use Rattle.geo_session.specs.Reply.{IsFound};
ghost use Rattle.geo_session.specs.State.{size_of};
ghost use Rattle.geo_script.specs.Asked.{IsAskedWithin};
ghost use Rattle.geo_script.specs.AskedTalk.{IsReadingReply, asked_in, asked_talk};
ghost use Rattle.geo_script.specs.Dialog.{AnswersPiece, AnswersSome, IsTalkOf, first_talk, records_in};
ghost use Rattle.geo_script.specs.RecordSteps.{IsReadingPaced, unprepared};
ghost use Rattle.geo_script.specs.declared.dialog.Stop.TheVariants.{Memory as OutOfMemory};

use crate::next::{answer_next, reply};
use crate::numbers::command;
use exact_plane::{Memory, Pt, Steps};
use geo_reply::Reply;
use geo_session::Session;
use geo_text::{Bad, Command, Limits, Script};
use inside_test::Position;
use plane::MAX_SCRIPT;
use std::alloc::Global;
use std::marker::Model;
use std::sync::ledger::Ledger;

/// A script that is handed in piece by piece, and the answers to its last piece. The first piece that has a record says of which
/// version the script is, and a byte order mark is dropped at the front of the first piece that has a byte.
#[derive(Drop)]
pub struct Dialog {
    session: Session,
    begun: bool,
    known: bool,
    text: Vec<u8>,
}

/// Why a piece was not answered to its end.
#[derive(Clone, Copy, Debug, PartialEq, Eq)]
pub enum Stop {
    /// The piece has more than `MAX_SCRIPT` bytes. Nothing has changed.
    TooLong,
    /// Memory was wanted. Some first records of the piece are answered, and the text is their answers, each whole.
    Memory,
}

impl Model for Dialog {
    ghost use Rattle.geo_script.specs.Dialog.{Talk};

    ghost Value = { Talk };

    ghost view = { λ d. record { begun = d.begun; known = d.known; state = d.session.state; text = d.text.items } };

    ghost use Rattle.std.specs.Prelude.{◌≡◌, false};
    ghost use Rattle.geo_session.specs.State.{first_state};

    ghost invariant = { λ d. (d.begun ≡ false → d.known ≡ false) × (d.known ≡ false → d.session.state ≡ first_state) };
}

impl Dialog {
    /// A script of which no piece was handed in yet. It takes no memory, and keeps the allocator.
    pub fn new(alloc: Global) -> Dialog
        ensures first { result ≡ first_talk }
        ensures nothing { IsTalkOf [] [] result }
    {
        Dialog {
            session: Session::new(),
            begun: false,
            known: false,
            text: Vec::new(alloc),
        }
    }

    /// Answers the records of the next piece, in the place of those of the piece before.
    pub fn answer<L: Ledger>(
        &mut self,
        alloc: Global,
        piece: &[u8],
        steps: &mut Steps<L>,
    ) -> Result<(), Stop>
        ensures ok { OnOk result (AnswersPiece self.old piece.now self.new) }
        // The answers to the first piece are those to the script that it is.
        ensures whole { self.old.begun ≡ false → OnOk result (IsOutput piece.now self.new.text) }
        // Where the pieces before end at the end of a record, the answers to all pieces are those to the script that they are together.
        ensures together { OnOk result ((earlier text : List ℕ) → IsTalkOf earlier text self.old → AreWhole earlier
            → IsTalkOf (earlier ++ piece.now) (text ++ self.new.text) self.new) }
        ensures too_long { (result ≡ Err Stop.TooLong) ↔ (MAX_SCRIPT < length piece.now) }
        ensures same { result ≡ Err Stop.TooLong → self.new ≡ self.old }
        ensures memory { result ≡ Err Stop.Memory → AnswersSome self.old piece.now self.new }
    {
        if piece.len() > MAX_SCRIPT {
            return Err(Stop::TooLong);
        }
        let mut script = self.next_part(alloc, piece);
        self.text.clear();
        'records: while answer_next(alloc, &mut script, &mut self.session, &mut self.text, steps)? {
            self.begun = true;
            self.known = true;
        }
        self.begun |= !piece.is_empty();
        Ok(())
    }

    // The next part of the script, which is the first one where none had a byte yet.
    fn next_part<'a>(&self, alloc: Global, piece: &'a [u8]) -> Script<'a>
        ensures { result ≡ record {
          left = records_in self.now piece.now;
          next = if self.now.known then 1 else 0;
          version = self.now.state.version;
          failed = false;
        } }
    {
        if self.begun {
            Script::resume(alloc, piece, self.known, self.session.version())
        } else {
            Script::open(alloc, piece)
        }
    }

    /// The answers to the last piece.
    pub fn text(&self) -> &[u8]
        ensures { result.now ≡ self.now.text }
    {
        &self.text
    }

    /// The reply to a record in numbers, which are that of its word (`Word`) and those of its fields: to the command that they are, or
    /// the first refusal of a record with these fields. It is a record of the script as any other. The first record of a script says
    /// of which version it is: 2 where it is `Two`, which takes no field, and else 1; a later `Two` is no word. The text is that of
    /// the last piece still. After want of memory all is as before. A refused record takes no steps, and a command at most `most_steps`,
    /// in which the table of all pairs counts as not made yet, also if memory is refused.
    pub fn ask<L: Ledger>(
        &mut self,
        alloc: Global,
        word: u8,
        fields: &[i64],
        steps: &mut Steps<L>,
    ) -> Result<Reply, Memory>
        ensures reply { IfOk result (IsReadingReply self.old.state (asked_in self.old word fields.now)) }
        ensures talk { IfOk result (λ reply. self.new ≡ asked_talk self.old (asked_in self.old word fields.now) reply) }
        ensures same { OnErr result (self.new ≡ self.old) }
        ensures steps { IsReadingPaced (unprepared self.old.state) (asked_in self.old word fields.now) steps.old steps.new }
    {
        let reading = command(alloc, self.session.version(), self.known, word, fields)?;
        let reply = reply(alloc, &mut self.session, reading, steps)?;
        self.begun = true;
        self.known = true;
        Ok(reply)
    }

    /// Returns where a point lies in the polygon, or the refusal that an `inside` with these numbers gets. With n vertices it takes at
    /// most 1280 n + 65 steps.
    pub fn inside<L: Ledger>(&self, x: i64, y: i64, steps: &mut Steps<L>) -> Result<Position, Bad>
        ensures answer { IsAskedWithin self.now.state.version (x ∷ y ∷ [])
            (IsFound self.now.state (Command.Inside (record { x = x; y = y })) Reply.Place) result }
        ensures steps { steps.new ≤ steps.old + inside_steps (size_of self.now.state.kept) }
    {
        let point = self.limits().point(1, x, y)?;
        self.session.place(&point, steps)
    }

    /// Returns what the version of the script tells of the path from one point to another, or the refusal that a `path` with these
    /// numbers gets. With n vertices it takes at most 10 n steps in version 1 and 30 n in version 2.
    pub fn path<L: Ledger>(
        &self,
        alloc: Global,
        from: (i64, i64),
        to: (i64, i64),
        steps: &mut Steps<L>,
    ) -> Result<Result<Vec<Pt>, Bad>, Memory>
        ensures answer { IfOk result (IsAskedWithin self.now.state.version (from.0 ∷ from.1 ∷ to.0 ∷ to.1 ∷ [])
            (IsFound self.now.state (Command.Path (record { x = from.0; y = from.1 }) (record { x = to.0; y = to.1 })) path_of)) }
        ensures few { IfOk result (λ found. IfOk found (λ points. length points.items ≤ MAX_CORNERS + 2)) }
        ensures steps { steps.new ≤ steps.old + by_version self.now.state.version 10 30 * size_of self.now.state.kept }
    {
        let limits = self.limits();
        let s = match limits.point(1, from.0, from.1) {
            Ok(s) => s,
            Err(bad) => return Ok(Err(bad)),
        };
        let t = match limits.point(3, to.0, to.1) {
            Ok(t) => t,
            Err(bad) => return Ok(Err(bad)),
        };
        self.session.path(alloc, &s, &t, steps)
    }

    /// Returns what the version of the script tells of the path from the source of the tree to a point, or the refusal that a `reach`
    /// with these numbers gets. With n vertices and b binary digits of n it takes at most 3 n + 24 b b steps in version 1 and
    /// 23 n + 24 b b in version 2.
    pub fn reach<L: Ledger>(
        &self,
        alloc: Global,
        x: i64,
        y: i64,
        steps: &mut Steps<L>,
    ) -> Result<Result<Vec<Pt>, Bad>, Memory>
        ensures answer { IfOk result (IsAskedWithin self.now.state.version (x ∷ y ∷ [])
            (IsFound self.now.state (Command.Reach (record { x = x; y = y })) path_of)) }
        ensures few { IfOk result (λ found. IfOk found (λ points. length points.items ≤ MAX_CORNERS + 3)) }
        ensures steps { let n = size_of self.now.state.kept in let b = binary_digits n in
            steps.new ≤ steps.old + (by_version self.now.state.version 3 23 * n + 24 * (b * b)) }
    {
        match self.limits().point(1, x, y) {
            Ok(point) => self.session.reach(alloc, &point, steps),
            Err(bad) => Ok(Err(bad)),
        }
    }

    // What the version of the script takes.
    fn limits(&self) -> Limits
        ensures { result ≡ limits_of self.now.state.version }
    {
        Limits::of(self.session.version())
    }
}

impl From<Memory> for Stop {
    ghost from_gives = { λ _ stop. stop ≡ OutOfMemory };

    fn from(_: Memory) -> Stop {
        Stop::Memory
    }
}
