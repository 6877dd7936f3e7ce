//! What is left of the contract of `geo_main` over a source or a sink that never fails.
ghost use Rattle.std.specs.Io.KnownBytes.{IsAtEnd};
ghost use Rattle.std.specs.Prelude.{◌≡◌, ◌≢◌, ◌<◌, ◌≤◌, ◌⊎◌, ℕ, Err, IsOk, IfSome, OnOk, Some, length, map, string_bytes};
ghost use Rattle.plane.specs.declared.limits.TheConstants.{MAX_SCRIPT};
ghost use Rattle.geo_io.specs.Counts.{Rose};
ghost use Rattle.geo_io.specs.Transfers.{GivesAtMost, GivesMoreThan};
ghost use Rattle.geo_run.specs.Comb.{WritesComb, WritesCombFront};
ghost use Rattle.geo_run.specs.Run.{ReadsAll, WritesFirst, WritesFirstAndFront, WritesOutput};
ghost use Rattle.geo_words.specs.Words.{AsksComb, AsksScript, IsTaken};

use crate::run::{RunFault, geo_main};
use geo_io::{Sink, Source, SureSink, SureSource};
use std::alloc::Global;

/// A run whose reads never fail: it answers no `ReadFault`.
pub fn sure_source_main<K: Sink>(
    alloc: Global,
    words: &[String],
    source: &mut SureSource,
    sink: &mut K,
) -> Result<(), RunFault>
    ensures no_read_fault { result ≢ Err RunFault.ReadFault }

    ensures ok { AsksScript (map string_bytes words.now) → OnOk result (ReadsAll source.old source.new × WritesOutput source.old (K.taken sink.old) (K.taken sink.new)) }
    ensures comb { (k : ℕ) → AsksComb (map string_bytes words.now) k → OnOk result (WritesComb k (K.taken sink.old) (K.taken sink.new)) }
    ensures counts { OnOk result (K.faults sink.new ≡ K.faults sink.old) }

    ensures usage { result ≡ Err RunFault.Usage → ¬ IsTaken (map string_bytes words.now) }
    ensures refused { ¬ IsTaken (map string_bytes words.now) → (result ≡ Err RunFault.Usage) ⊎ (result ≡ Err RunFault.Memory) }
    ensures untouched { ¬ IsTaken (map string_bytes words.now) → (source.new ≡ source.old) × (sink.new ≡ sink.old) }
    ensures unread { (k : ℕ) → AsksComb (map string_bytes words.now) k → source.new ≡ source.old }

    ensures too_long { result ≡ Err RunFault.TooLong → AsksScript (map string_bytes words.now) × (MAX_SCRIPT < length source.old)
        × GivesMoreThan MAX_SCRIPT (Some source.old) (Some source.new) × (sink.new ≡ sink.old) }
    ensures write_fault { result ≡ Err RunFault.WriteFault → Rose (K.faults sink.old) (K.faults sink.new) }
    ensures script_write_fault { AsksScript (map string_bytes words.now) → result ≡ Err RunFault.WriteFault
        → ReadsAll source.old source.new × WritesFirstAndFront source.old (K.taken sink.old) (K.taken sink.new) }
    ensures comb_write_fault { (k : ℕ) → AsksComb (map string_bytes words.now) k → result ≡ Err RunFault.WriteFault
        → WritesCombFront k (K.taken sink.old) (K.taken sink.new) }
    ensures memory { result ≡ Err RunFault.Memory → (sink.new ≡ sink.old)
        ⊎ (AsksScript (map string_bytes words.now) × ReadsAll source.old source.new × WritesFirst source.old (K.taken sink.old) (K.taken sink.new)) }

    ensures complete { AsksScript (map string_bytes words.now) → length source.old ≤ MAX_SCRIPT → ¬ (Rose (K.faults sink.old) (K.faults sink.new)) →
        IsOk result ⊎ (result ≡ Err RunFault.Memory) }
    ensures long { AsksScript (map string_bytes words.now) → MAX_SCRIPT < length source.old → (result ≡ Err RunFault.TooLong) ⊎ (result ≡ Err RunFault.Memory) }
    ensures comb_complete { (k : ℕ) → AsksComb (map string_bytes words.now) k → ¬ (Rose (K.faults sink.old) (K.faults sink.new)) →
        IsOk result ⊎ (result ≡ Err RunFault.Memory) }
{
    geo_main(alloc, words, source, sink)
}

/// A run whose writes never fail: it answers no `WriteFault`.
pub fn sure_sink_main<S: Source>(
    alloc: Global,
    words: &[String],
    source: &mut S,
    sink: &mut SureSink,
) -> Result<(), RunFault>
    ensures no_write_fault { result ≢ Err RunFault.WriteFault }

    // Nothing is left in a source that tells its bytes.
    ensures end { AsksScript (map string_bytes words.now) → OnOk result (IsAtEnd (S.left source.new)) }
    ensures counts { OnOk result (S.faults source.new ≡ S.faults source.old) }

    ensures usage { result ≡ Err RunFault.Usage → ¬ IsTaken (map string_bytes words.now) }
    ensures refused { ¬ IsTaken (map string_bytes words.now) → (result ≡ Err RunFault.Usage) ⊎ (result ≡ Err RunFault.Memory) }
    ensures untouched { ¬ IsTaken (map string_bytes words.now) → source.new ≡ source.old }
    ensures unread { (k : ℕ) → AsksComb (map string_bytes words.now) k → source.new ≡ source.old }

    ensures read_fault { result ≡ Err RunFault.ReadFault → AsksScript (map string_bytes words.now) × Rose (S.faults source.old) (S.faults source.new)
        × GivesAtMost MAX_SCRIPT (S.left source.old) (S.left source.new) }
    ensures too_long { result ≡ Err RunFault.TooLong → AsksScript (map string_bytes words.now) × GivesMoreThan MAX_SCRIPT (S.left source.old) (S.left source.new)
        × (S.faults source.new ≡ S.faults source.old) }

    ensures complete { AsksScript (map string_bytes words.now) → ¬ (Rose (S.faults source.old) (S.faults source.new)) →
        IfSome (S.left source.old) (λ bytes. length bytes ≤ MAX_SCRIPT → IsOk result ⊎ (result ≡ Err RunFault.Memory)) }
    ensures long { AsksScript (map string_bytes words.now) → ¬ (Rose (S.faults source.old) (S.faults source.new)) →
        IfSome (S.left source.old) (λ bytes. MAX_SCRIPT < length bytes → (result ≡ Err RunFault.TooLong) ⊎ (result ≡ Err RunFault.Memory)) }
    ensures comb_complete { (k : ℕ) → AsksComb (map string_bytes words.now) k → IsOk result ⊎ (result ≡ Err RunFault.Memory) }
{
    geo_main(alloc, words, source, sink)
}
