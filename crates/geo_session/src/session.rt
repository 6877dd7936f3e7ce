// What a run holds between two records.
ghost use Rattle.std.specs.Prelude.{◌≡◌, ◌+◌, ◌-◌, ◌*◌, ◌≤◌, length, IfOk, OnOk, OnErr};
ghost use Rattle.plane.specs.declared.limits.TheConstants.{MAX_CORNERS};
ghost use Rattle.geo_text.specs.Reading.{IsWellSized};
ghost use Rattle.geo_text.specs.Version.{by_version};
ghost use Rattle.shared_seq.specs.Digits.{binary_digits};
ghost use Rattle.geo_session.specs.Answer.{AppendsAnswer};
ghost use Rattle.geo_session.specs.Paced.{IsPaced, TakesSteps, TakesWritingSteps, inside_steps};
ghost use Rattle.geo_session.specs.Path.{path_of};
ghost use Rattle.geo_session.specs.Prepared.{IsPreparedAfter, first_seen};
ghost use Rattle.geo_session.specs.Reply.{IsFound, IsReply, state_after};
ghost use Rattle.geo_session.specs.State.{size_of};

use crate::ask::{ask, commit};
use crate::held::Held;
use exact_plane::{Memory, Pt, Steps};
use geo_reply::{Reply, put_reply};
use geo_text::{Bad, Command, Version};
use inside_test::Position;
use std::alloc::Global;
use std::marker::Model;
use std::sync::ledger::Ledger;

/// The version of the script, the polygon that was accepted last, the last tree in it, and the table of all pairs, if one was made.
#[derive(Drop)]
pub struct Session {
    two: bool,
    held: Option<Held>,
}

impl Model for Session {
    ghost use Rattle.geo_session.specs.Prepared.{Seen};

    ghost Value = { Seen };

    ghost use Rattle.geo_text.specs.Version.{version_of};
    ghost use Rattle.geo_session.specs.Held.{kept_of, prepared_of};

    ghost view = { λ s. record { state = record { version = version_of s.two; kept = kept_of s.held }; prepared = prepared_of s.held } };
}

impl Session {
    /// A script of version 1, with no polygon yet.
    pub fn new() -> Session
        ensures { result ≡ first_seen }
    {
        Session {
            two: false,
            held: None,
        }
    }

    /// The version of the script.
    pub fn version(&self) -> Version
        ensures { result ≡ self.now.state.version }
    {
        Version::of(self.two)
    }

    /// The taut chain from one point to another, or why there is none. It takes all its memory before the walk: where memory
    /// is refused, the steps are those of finding the two points among the triangles.
    pub fn chain<L: Ledger>(
        &self,
        alloc: Global,
        s: &Pt,
        t: &Pt,
        steps: &mut Steps<L>,
    ) -> Result<Result<Vec<Pt>, Bad>, Memory>
        ensures answer { IfOk result (IsFound (record { version = Version.One; kept = self.now.state.kept }) (Command.Path s.now t.now) path_of) }
        ensures few { IfOk result (λ found. IfOk found (λ points. length points.items ≤ MAX_CORNERS + 1)) }
        ensures steps { steps.new ≤ steps.old + 12 * size_of self.now.state.kept }
        ensures memory { OnErr result (steps.new ≤ steps.old + 6 * (size_of self.now.state.kept - 2)) }
    {
        match &self.held {
            Some(held) => held.path(alloc, Version::One, s, t, steps),
            None => Ok(Err(Bad::NoPolygon)),
        }
    }

    /// Returns where a point lies in the polygon, or the refusal if there is none. With n vertices it takes at most 1280 n + 65 steps.
    pub fn place<L: Ledger>(&self, point: &Pt, steps: &mut Steps<L>) -> Result<Position, Bad>
        ensures answer { IsFound self.now.state (Command.Inside point.now) Reply.Place result }
        ensures steps { steps.new ≤ steps.old + inside_steps (size_of self.now.state.kept) }
    {
        match &self.held {
            Some(held) => Ok(held.place(point, steps)),
            None => Err(Bad::NoPolygon),
        }
    }

    /// What the version of the script tells of the path from one point to another, or why there is none.
    pub fn path<L: Ledger>(
        &self,
        alloc: Global,
        s: &Pt,
        t: &Pt,
        steps: &mut Steps<L>,
    ) -> Result<Result<Vec<Pt>, Bad>, Memory>
        ensures answer { IfOk result (IsFound self.now.state (Command.Path s.now t.now) path_of) }
        ensures few { IfOk result (λ found. IfOk found (λ points. length points.items ≤ MAX_CORNERS + by_version self.now.state.version 1 2)) }
        ensures steps { steps.new ≤ steps.old + by_version self.now.state.version 10 30 * size_of self.now.state.kept }
    {
        match &self.held {
            Some(held) => held.path(alloc, self.version(), s, t, steps),
            None => Ok(Err(Bad::NoPolygon)),
        }
    }

    /// What the version of the script tells of the path from the source of the tree to a point, or why there is none.
    pub fn reach<L: Ledger>(
        &self,
        alloc: Global,
        t: &Pt,
        steps: &mut Steps<L>,
    ) -> Result<Result<Vec<Pt>, Bad>, Memory>
        ensures answer { IfOk result (IsFound self.now.state (Command.Reach t.now) path_of) }
        ensures few { IfOk result (λ found. IfOk found (λ points. length points.items ≤ MAX_CORNERS + 3)) }
        ensures steps { let n = size_of self.now.state.kept in let b = binary_digits n in
            steps.new ≤ steps.old + (by_version self.now.state.version 3 23 * n + 24 * (b * b)) }
    {
        match &self.held {
            Some(held) => held.reach(alloc, self.version(), t, steps),
            None => Ok(Err(Bad::NoPolygon)),
        }
    }

    /// The reply to a command, which takes the new state. After want of memory the session is as before.
    pub fn ask<L: Ledger>(
        &mut self,
        alloc: Global,
        command: Command,
        steps: &mut Steps<L>,
    ) -> Result<Reply, Memory>
        requires { IsWellSized command }
        ensures reply { IfOk result (IsReply self.old.state command) }
        ensures state { IfOk result (λ reply. self.new.state ≡ state_after self.old.state command reply) }
        ensures prepared { OnOk result (IsPreparedAfter self.old.state.kept command self.old.prepared self.new.prepared) }
        ensures same_session { OnErr result (self.new ≡ self.old) }
        ensures paced { IsPaced self.old command steps.old steps.new }
    {
        let asked = ask(alloc, self.version(), &self.held, command, steps)?;
        commit(&mut self.two, &mut self.held, asked.change);
        Ok(asked.reply)
    }

    /// Appends the command's answer and takes the new state. After want of memory the session and `out` are as before. With n the number of
    /// vertices and b that of its binary digits, a path takes at most 16 n steps in version 1 and 36 n in version 2, a tree 3 n + 200 n b b,
    /// and a path from its source 3 n + 24 b b and 26 n + 24 b b. The first record that asks for pairs of vertices makes a table in
    /// 200 n n b b steps; then a path between two takes none and 20 n. Each point of a path takes 64 more, but none if memory is refused.
    /// All others are in `most_steps`.
    pub fn answer<L: Ledger>(
        &mut self,
        alloc: Global,
        command: Command,
        out: &mut Vec<u8>,
        steps: &mut Steps<L>,
    ) -> Result<(), Memory>
        requires { IsWellSized command }
        ensures ok { OnOk result (AppendsAnswer self.old.state command out.old.items out.new.items self.new.state) }
        ensures prepared { OnOk result (IsPreparedAfter self.old.state.kept command self.old.prepared self.new.prepared) }
        ensures same_session { OnErr result (self.new ≡ self.old) }
        ensures same_out { OnErr result (out.new.items ≡ out.old.items) }
        ensures steps { TakesWritingSteps self.old command result out.old.items out.new.items steps.old steps.new }
        // Also where memory is refused.
        ensures within { TakesSteps self.old command steps.old steps.new }
    {
        let asked = ask(alloc, self.version(), &self.held, command, steps)?;
        put_reply(out, &asked.reply, steps)?;
        commit(&mut self.two, &mut self.held, asked.change);
        Ok(())
    }
}
