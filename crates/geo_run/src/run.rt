ghost use Rattle.std.specs.Prelude.{◌≡◌, ◌<◌, ◌≤◌, ◌⊎◌, ℕ, Err, IsOk, IfSome, OnOk, OnErr, length, map, string_bytes};
ghost use Rattle.plane.specs.declared.limits.TheConstants.{MAX_SCRIPT};
ghost use Rattle.geo_io.specs.Counts.{Rose};
ghost use Rattle.geo_io.specs.Transfers.{GivesAtMost, GivesMoreThan};
ghost use Rattle.geo_gen.specs.declared.combs.TheConstants.{MAX_TEETH};
ghost use Rattle.geo_run.specs.Comb.{WritesComb, WritesCombFront};
ghost use Rattle.geo_run.specs.Fault.{fault_of, exit_status_of, words_fault};
ghost use Rattle.geo_run.specs.Run.{AfterReading, WritesFirst, WritesFirstAndFront, WritesOutput};
ghost use Rattle.geo_words.specs.Words.{AsksComb, AsksScript, IsTaken};
ghost use Rattle.geo_run.specs.declared.run.RunFault.TheVariants.{WriteFault, Memory as OutOfMemory};

use crate::comb_run::comb_line;
use exact_plane::{Memory, Steps};
use geo_io::{Failed, ReadEnd, Sink, Source, read_all, write_all};
use geo_script::answer_next;
use geo_session::Session;
use geo_text::Script;
use geo_words::{Asked, WordsFault, read_words};
use plane::MAX_SCRIPT;
use std::alloc::Global;
use std::marker::Brand;
use std::sync::ledger::{Blank, Ledger};

/// Why a run stopped before its end.
#[derive(Clone, Copy, Debug, PartialEq, Eq)]
pub enum RunFault {
    /// The words of the command line aren't taken. Nothing is read or written.
    Usage,
    /// The source failed. Nothing is written.
    ReadFault,
    /// The source gave more than `MAX_SCRIPT` bytes. Nothing is written.
    TooLong,
    /// The sink failed. The answers to some first records were written, and maybe the front of one more.
    WriteFault,
    /// Memory was wanted. The answers to some first records were written, each whole, or nothing.
    Memory,
}

impl RunFault {
    /// The status that the program ends with.
    pub fn status(self) -> u8
        ensures { result ≡ exit_status_of self }
    {
        match self {
            RunFault::Usage => 1,
            RunFault::ReadFault => 2,
            RunFault::TooLong => 3,
            RunFault::WriteFault => 4,
            RunFault::Memory => 5,
        }
    }
}

/// Without words it reads the whole script, then answers one record after another. The answer to a record is written whole
/// before the next is answered. With `--comb K` it reads nothing, and writes one line on the comb of K.
pub fn geo_main<S: Source, K: Sink>(
    alloc: Global,
    words: &[String],
    source: &mut S,
    sink: &mut K,
) -> Result<(), RunFault>
    // The headline: whatever the script, the defined output is written, and only these faults stop it.
    ensures ok { AsksScript (map string_bytes words.now) → OnOk result (AfterReading (S.left source.old) (S.left source.new) (λ bytes. WritesOutput bytes (K.taken sink.old) (K.taken sink.new))) }
    ensures comb { (k : ℕ) → AsksComb (map string_bytes words.now) k → OnOk result (WritesComb k (K.taken sink.old) (K.taken sink.new)) }
    ensures counts { OnOk result ((S.faults source.new ≡ S.faults source.old) × (K.faults sink.new ≡ K.faults sink.old)) }

    ensures usage { result ≡ Err RunFault.Usage → ¬ IsTaken (map string_bytes words.now) }
    ensures refused { ¬ IsTaken (map string_bytes words.now) → (result ≡ Err RunFault.Usage) ⊎ (result ≡ Err RunFault.Memory) }
    ensures untouched { ¬ IsTaken (map string_bytes words.now) → (source.new ≡ source.old) × (sink.new ≡ sink.old) }
    ensures unread { (k : ℕ) → AsksComb (map string_bytes words.now) k → source.new ≡ source.old }

    ensures read_fault { result ≡ Err RunFault.ReadFault → AsksScript (map string_bytes words.now) × Rose (S.faults source.old) (S.faults source.new)
        × GivesAtMost MAX_SCRIPT (S.left source.old) (S.left source.new) × (sink.new ≡ sink.old) }
    ensures too_long { result ≡ Err RunFault.TooLong → AsksScript (map string_bytes words.now) × GivesMoreThan MAX_SCRIPT (S.left source.old) (S.left source.new)
        × (S.faults source.new ≡ S.faults source.old) × (sink.new ≡ sink.old) }
    ensures write_fault { result ≡ Err RunFault.WriteFault → Rose (K.faults sink.old) (K.faults sink.new) }
    ensures script_write_fault { AsksScript (map string_bytes words.now) → result ≡ Err RunFault.WriteFault
        → AfterReading (S.left source.old) (S.left source.new) (λ bytes. WritesFirstAndFront bytes (K.taken sink.old) (K.taken sink.new)) }
    ensures comb_write_fault { (k : ℕ) → AsksComb (map string_bytes words.now) k → result ≡ Err RunFault.WriteFault
        → WritesCombFront k (K.taken sink.old) (K.taken sink.new) }
    ensures memory { result ≡ Err RunFault.Memory → (sink.new ≡ sink.old)
        ⊎ (AsksScript (map string_bytes words.now) × AfterReading (S.left source.old) (S.left source.new) (λ bytes. WritesFirst bytes (K.taken sink.old) (K.taken sink.new))) }

    // Where the bytes are known and no fault comes, the length alone decides, want of memory aside.
    ensures complete { AsksScript (map string_bytes words.now) → ¬ (Rose (S.faults source.old) (S.faults source.new)) → ¬ (Rose (K.faults sink.old) (K.faults sink.new)) →
        IfSome (S.left source.old) (λ bytes. length bytes ≤ MAX_SCRIPT → IsOk result ⊎ (result ≡ Err RunFault.Memory)) }
    ensures long { AsksScript (map string_bytes words.now) → ¬ (Rose (S.faults source.old) (S.faults source.new)) →
        IfSome (S.left source.old) (λ bytes. MAX_SCRIPT < length bytes → (result ≡ Err RunFault.TooLong) ⊎ (result ≡ Err RunFault.Memory)) }
    ensures comb_complete { (k : ℕ) → AsksComb (map string_bytes words.now) k → ¬ (Rose (K.faults sink.old) (K.faults sink.new)) →
        IsOk result ⊎ (result ≡ Err RunFault.Memory) }
{
    match read_words(alloc, words)? {
        Asked::Script => {
            let bytes = read_all(alloc, source, MAX_SCRIPT)?;
            run_script::<K, Brand>(alloc, &bytes, sink, Blank::new(1))
        }
        Asked::Comb(k) => write_comb::<K, Brand>(alloc, k, sink, Blank::new(1)),
    }
}

// Answers the records of a script in turn, and writes the answer to each as soon as it is read, with a new counter of steps: `answer_next`
// bounds the steps of each record.
fn run_script<K: Sink, L: Ledger>(
    alloc: Global,
    bytes: &[u8],
    sink: &mut K,
    blank: Blank,
) -> Result<(), RunFault>
    requires name { blank.name ≡ L.name }
    requires parts { blank.parts ≡ L.parts }
    requires countable { 0 < blank.parts }

    ensures ok { OnOk result (WritesOutput bytes.now (K.taken sink.old) (K.taken sink.new)) }
    ensures counts { OnOk result (K.faults sink.new ≡ K.faults sink.old) }
    ensures write_fault { result ≡ Err RunFault.WriteFault → Rose (K.faults sink.old) (K.faults sink.new)
        × WritesFirstAndFront bytes.now (K.taken sink.old) (K.taken sink.new) }
    ensures memory { result ≡ Err RunFault.Memory → WritesFirst bytes.now (K.taken sink.old) (K.taken sink.new) }
    ensures only { OnErr result ((result ≡ Err RunFault.WriteFault) ⊎ (result ≡ Err RunFault.Memory)) }
{
    let mut steps = Steps::<L>::new(blank);
    let mut script = Script::open(alloc, bytes);
    let mut session = Session::new();
    let mut out = Vec::new(alloc);
    'records: while answer_next(alloc, &mut script, &mut session, &mut out, &mut steps)? {
        write_all(sink, &out)?;
        out.clear();
    }
    Ok(())
}

// Writes the line of the comb of `k` teeth.
fn write_comb<K: Sink, L: Ledger>(
    alloc: Global,
    k: u32,
    sink: &mut K,
    blank: Blank,
) -> Result<(), RunFault>
    requires some { 1 ≤ k }
    requires few { k ≤ MAX_TEETH }
    requires name { blank.name ≡ L.name }
    requires parts { blank.parts ≡ L.parts }
    requires countable { 0 < blank.parts }
    ensures ok { OnOk result (WritesComb k (K.taken sink.old) (K.taken sink.new)) }
    ensures counts { OnOk result (K.faults sink.new ≡ K.faults sink.old) }
    ensures write_fault { result ≡ Err RunFault.WriteFault → Rose (K.faults sink.old) (K.faults sink.new)
        × WritesCombFront k (K.taken sink.old) (K.taken sink.new) }
    ensures memory { result ≡ Err RunFault.Memory → sink.new ≡ sink.old }
    ensures only { OnErr result ((result ≡ Err RunFault.WriteFault) ⊎ (result ≡ Err RunFault.Memory)) }
{
    let mut steps = Steps::<L>::new(blank);
    let line = comb_line(alloc, k, &mut steps)?;
    write_all(sink, &line)?;
    Ok(())
}

impl From<ReadEnd> for RunFault {
    ghost from_gives = { λ end fault. fault ≡ fault_of end };

    fn from(end: ReadEnd) -> RunFault {
        match end {
            ReadEnd::Fault => RunFault::ReadFault,
            ReadEnd::TooLong => RunFault::TooLong,
            ReadEnd::Memory => RunFault::Memory,
        }
    }
}

impl From<WordsFault> for RunFault {
    ghost from_gives = { λ refusal fault. fault ≡ words_fault refusal };

    fn from(refusal: WordsFault) -> RunFault {
        match refusal {
            WordsFault::Usage => RunFault::Usage,
            WordsFault::Memory => RunFault::Memory,
        }
    }
}

impl From<Memory> for RunFault {
    ghost from_gives = { λ _ fault. fault ≡ OutOfMemory };

    fn from(_: Memory) -> RunFault {
        RunFault::Memory
    }
}

impl From<Failed> for RunFault {
    ghost from_gives = { λ _ fault. fault ≡ WriteFault };

    fn from(_: Failed) -> RunFault {
        RunFault::WriteFault
    }
}
