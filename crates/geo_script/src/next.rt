// The answer to the next record of a script, and the reply to one that was read.
ghost use Rattle.std.specs.Prelude.{◌≡◌, ◌⊎◌, [], Ok, IfOk, OnOk, OnErr, true, false};
ghost use Rattle.geo_text.specs.Reading.{IsWellSized};
ghost use Rattle.geo_session.specs.Answer.{AppendsReadingAnswer};
ghost use Rattle.geo_script.specs.Answered.{AnswersRecord, TakesNext};
ghost use Rattle.geo_script.specs.AskedTalk.{IsReadingReply, state_after_reading};
ghost use Rattle.geo_script.specs.RecordSteps.{IsReadingPaced, TakesReadingSteps, TakesRecordSteps};

use exact_plane::{Memory, Steps};
use geo_reply::Reply;
use geo_session::Session;
use geo_text::{Bad, Command, Script, put_bad};
use std::alloc::Global;
use std::sync::ledger::Ledger;

/// Reads the next record of a script and appends its answer, and says whether there was one. After want of memory the session
/// and `out` are as before. Where the record could not be read, no later one can; where its answer wanted memory, the script has
/// those after it left. The steps are those that the command of the record may take.
pub fn answer_next<L: Ledger>(
    alloc: Global,
    script: &mut Script,
    session: &mut Session,
    out: &mut Vec<u8>,
    steps: &mut Steps<L>,
) -> Result<bool, Memory>
    ensures answered { result ≡ Ok true → AnswersRecord script.old script.new session.old.state session.new.state out.old.items out.new.items }
    ensures none_left { result ≡ Ok false → script.old.left ≡ [] }
    ensures same_script { result ≡ Ok false → script.new ≡ script.old }
    ensures same { result ≡ Ok false → (session.new ≡ session.old) × (out.new.items ≡ out.old.items) }
    ensures same_session { OnErr result (session.new ≡ session.old) }
    ensures same_out { OnErr result (out.new.items ≡ out.old.items) }
    ensures script_after { OnErr result ((script.new.failed ≡ true) ⊎ TakesNext script.old script.new) }
    ensures paced { TakesRecordSteps script.old script.new session.old steps.old steps.new }
{
    let Some(reading) = script.next_command()? else {
        return Ok(false);
    };
    answer(alloc, session, reading, out, steps)?;
    Ok(true)
}

// Appends the answer to a record that was read.
fn answer<L: Ledger>(
    alloc: Global,
    session: &mut Session,
    reading: Result<Command, Bad>,
    out: &mut Vec<u8>,
    steps: &mut Steps<L>,
) -> Result<(), Memory>
    requires { IfOk reading IsWellSized }
    ensures ok { OnOk result (AppendsReadingAnswer session.old.state reading out.old.items out.new.items session.new.state) }
    ensures same_session { OnErr result (session.new ≡ session.old) }
    ensures same_out { OnErr result (out.new.items ≡ out.old.items) }
    ensures paced { TakesReadingSteps session.old reading steps.old steps.new }
{
    match reading {
        Ok(command) => session.answer(alloc, command, out, steps),
        Err(bad) => put_bad(out, &bad),
    }
}

// The reply to a record that was read.
pub(crate) fn reply<L: Ledger>(
    alloc: Global,
    session: &mut Session,
    reading: Result<Command, Bad>,
    steps: &mut Steps<L>,
) -> Result<Reply, Memory>
    requires { IfOk reading IsWellSized }
    ensures reply { IfOk result (IsReadingReply session.old.state reading) }
    ensures state { IfOk result (λ reply. session.new.state ≡ state_after_reading session.old.state reading reply) }
    ensures same_session { OnErr result (session.new ≡ session.old) }
    ensures paced { IsReadingPaced session.old reading steps.old steps.new }
{
    match reading {
        Ok(command) => session.ask(alloc, command, steps),
        Err(bad) => Ok(Reply::Refused(bad)),
    }
}
