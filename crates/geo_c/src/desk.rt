//! What a handle owns.
ghost use Rattle.std.specs.Prelude.{◌≡◌, ◌≢◌, IfOk, OnErr, OnOk};
ghost use Rattle.geo_script.specs.AskedTalk.{IsReadingReply, asked_in, asked_talk};
ghost use Rattle.geo_script.specs.Dialog.{first_talk};
ghost use Rattle.geo_c.specs.Contents.{counts_of};
ghost use Rattle.geo_c.specs.Status.{reply_status};
ghost use Rattle.geo_c.specs.declared.status.TheConstants.{MEMORY};

use crate::counts::{GeoCounts, counts_of};
use crate::status::reply_status;
use exact_plane::{Memory, Steps};
use geo_reply::Reply;
use geo_script::Dialog;
use geo_text::Bad;
use std::alloc::Global;
use std::sync::ledger::Ledger;

/// A script that is handed in piece by piece, and the reply to the last record that was asked in numbers. Before the first one it
/// is that there is no polygon.
#[derive(Drop)]
pub struct Desk {
    pub dialog: Dialog,
    pub reply: Reply,
}

impl Desk {
    /// A script of which nothing was said yet. It takes no memory.
    pub(crate) fn new(alloc: Global) -> Desk
        ensures { result ≡ record { dialog = first_talk; reply = Reply.Refused Bad.NoPolygon } }
    {
        Desk {
            dialog: Dialog::new(alloc),
            reply: Reply::Refused(Bad::NoPolygon),
        }
    }

    /// As `Dialog::ask`. It keeps the reply, and gives back its status and how much it holds.
    pub(crate) fn ask<L: Ledger>(
        &mut self,
        alloc: Global,
        word: u8,
        fields: &[i64],
        steps: &mut Steps<L>,
    ) -> Result<(u8, GeoCounts), Memory>
        ensures reply { OnOk result (IsReadingReply self.old.dialog.state (asked_in self.old.dialog word fields.now) self.new.reply) }
        ensures talk { OnOk result (self.new.dialog ≡ asked_talk self.old.dialog (asked_in self.old.dialog word fields.now) self.new.reply) }
        ensures status { IfOk result (λ told. told.0 ≡ reply_status self.new.reply) }
        ensures counts { IfOk result (λ told. told.1 ≡ counts_of self.new.reply) }
        ensures not_memory { IfOk result (λ told. told.0 ≢ MEMORY) }
        ensures same { OnErr result (self.new ≡ self.old) }
    {
        self.reply = self.dialog.ask(alloc, word, fields, steps)?;
        Ok((reply_status(&self.reply), counts_of(&self.reply)))
    }
}
