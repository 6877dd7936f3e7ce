ghost use Rattle.std.specs.Io.KnownBytes.{Appends};
ghost use Rattle.std.specs.Prelude.{◌≡◌, ◌≤◌, ◌<◌, ℕ, List, [], None, Option, length, take, IsOk, IfOk, OnOk, OnErr};
ghost use Rattle.geo_io.specs.Counts.{Rose};
ghost use Rattle.geo_io.specs.Transfers.{AppendsFront};

use crate::Failed;

/// Where the answers go.
pub trait Sink {
    /// The bytes that were taken, where the sink tells them.
    ghost taken: { Self → Option (List ℕ) } = { λ _. None };

    /// How often it has failed.
    ghost faults: { Self → ℕ };

    /// Takes the first bytes of `from`, at least one, and says how many.
    fn write_some(&mut self, from: &[u8]) -> Result<usize, Failed>
        requires { 0 < length from.now }
        ensures least { IfOk result (λ count. 0 < count) }
        ensures bound { IfOk result (λ count. count ≤ length from.now) }
        ensures takes { IfOk result (λ count. Appends (taken self.old) (taken self.new) (take count from.now)) }
        ensures counts { OnOk result (faults self.new ≡ faults self.old) }
        ensures failed { OnErr result (Rose (faults self.old) (faults self.new)) }
        ensures front { OnErr result (AppendsFront (taken self.old) (taken self.new) from.now) };
}

/// Hands over all bytes in order. An empty slice makes no call.
pub fn write_all<K: Sink>(sink: &mut K, bytes: &[u8]) -> Result<(), Failed>
    ensures all { OnOk result (Appends (K.taken sink.old) (K.taken sink.new) bytes.now) }
    ensures counts { OnOk result (K.faults sink.new ≡ K.faults sink.old) }
    ensures failed { OnErr result (Rose (K.faults sink.old) (K.faults sink.new)) }
    ensures front { OnErr result (AppendsFront (K.taken sink.old) (K.taken sink.new) bytes.now) }
    ensures empty { bytes.now ≡ [] → IsOk result }
    ensures untouched { bytes.now ≡ [] → sink.new ≡ sink.old }
{
    let mut rest = bytes;
    while !rest.is_empty() {
        let count = sink.write_some(rest)?;
        rest = &rest[count..];
    }
    Ok(())
}
