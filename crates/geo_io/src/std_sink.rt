ghost use Rattle.std.specs.Io.KnownBytes.{Appends};
ghost use Rattle.std.specs.Prelude.{◌≡◌, ◌≤◌, ◌<◌, length, take, IfOk, IfSome, IfNone, OnOk, OnErr};
ghost use Rattle.geo_io.specs.Counts.{Rose, next_count};
ghost use Rattle.geo_io.specs.Transfers.{AppendsFront};

use crate::Failed;
use crate::sink::Sink;
use std::io::Write;
use std::marker::Model;

/// A writer as a sink, which it flushes at each call. Each error of the writer is a fault, and so is a write that takes
/// nothing. The count of faults stays at the greatest `u64` once it is there.
#[derive(Drop)]
pub struct StdSink<W: Write> {
    inner: W,
    faults: u64,
}

impl<W: Write> Model for StdSink<W> {
    ghost use Rattle.geo_io.specs.Counted.{Counted};

    ghost Value = { Counted W };

    ghost view = { λ s. record { inner = s.inner; faults = s.faults } };
}

impl<W: Write> StdSink<W> {
    /// The writer with no fault yet.
    pub fn new(inner: W) -> StdSink<W>
        ensures { result ≡ record { inner = inner; faults = 0 } }
    {
        StdSink { inner, faults: 0 }
    }

    /// The writer.
    pub fn get_ref(&self) -> &W
        ensures { result.now ≡ self.now.inner }
    {
        &self.inner
    }

    /// How many writes have failed.
    pub fn faults(&self) -> u64
        ensures { result ≡ self.now.faults }
    {
        self.faults
    }
}

impl<W: Write> Sink for StdSink<W> {
    ghost taken = { λ s. W.contents s.inner };

    ghost faults = { λ s. s.faults };

    fn write_some(&mut self, from: &[u8]) -> Result<usize, Failed>
        requires { 0 < length from.now }
        ensures least { IfOk result (λ count. 0 < count) }
        ensures bound { IfOk result (λ count. count ≤ length from.now) }
        ensures takes { IfOk result (λ count.
            Appends (W.contents self.old.inner) (W.contents self.new.inner) (take count from.now)) }
        ensures counts { OnOk result (self.new.faults ≡ self.old.faults) }
        ensures failed { OnErr result (Rose self.old.faults self.new.faults) }
        ensures front { OnErr result
            (AppendsFront (W.contents self.old.inner) (W.contents self.new.inner) from.now) }
        ensures raised { OnErr result (self.new.faults ≡ next_count self.old.faults) }
    {
        match write_and_flush(&mut self.inner, from) {
            Some(count) => Ok(count),
            None => {
                self.faults = self.faults.saturating_add(1);
                Err(Failed)
            }
        }
    }
}

// How many bytes a writer took and passed on, if it failed at neither and took some.
fn write_and_flush<W: Write>(writer: &mut W, from: &[u8]) -> Option<usize>
    ensures some { IfSome result (λ count. (0 < count) × (count ≤ length from.now)) }
    ensures takes { IfSome result (λ count.
        Appends (W.contents writer.old) (W.contents writer.new) (take count from.now)) }
    ensures front { IfNone result
        (AppendsFront (W.contents writer.old) (W.contents writer.new) from.now) }
{
    let count = writer.write(from).ok()?;
    writer.flush().ok()?;
    (count > 0).then_some(count)
}
