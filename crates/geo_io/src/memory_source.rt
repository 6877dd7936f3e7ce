ghost use Rattle.std.specs.Io.KnownBytes.{Consumes, IsAtEnd, Keeps};
ghost use Rattle.std.specs.Prelude.{◌≡◌, ◌≤◌, ◌<◌, ◌↔◌, Ok, Some, length, take, min, Contains, IfOk, IsErr, OnOk, OnErr};
ghost use Rattle.geo_io.specs.Counts.{Rose, next_count};

use crate::Failed;
use crate::source::Source;
use crate::sure_source::SureSource;
use std::marker::Model;

/// A source of given bytes, which fails at given calls. Its counts of calls and of faults stay at the greatest `u64`
/// once they are there.
#[derive(Drop)]
pub struct MemorySource {
    bytes: SureSource,
    piece: usize,
    failing: Vec<u64>,
    calls: u64,
    faults: u64,
}

impl Model for MemorySource {
    ghost use Rattle.std.specs.Prelude.{◌≤◌};
    ghost use Rattle.geo_io.specs.InMemory.{SourceInMemory};

    ghost Value = { SourceInMemory };

    ghost view = { λ s. record {
      left = s.bytes;
      piece = s.piece;
      failing = s.failing.items;
      calls = s.calls;
      faults = s.faults;
    } };

    ghost invariant = { λ s. 1 ≤ s.piece };
}

impl MemorySource {
    /// All of `bytes` are left. Each call gives at most `piece` of them. Calls are numbered from 1, and those whose
    /// numbers are in `failing` fail.
    pub fn new(bytes: Vec<u8>, piece: usize, failing: Vec<u64>) -> MemorySource
        requires { 1 ≤ piece }
        ensures { result ≡ record {
          left = bytes.items;
          piece = piece;
          failing = failing.items;
          calls = 0;
          faults = 0;
        } }
    {
        MemorySource {
            bytes: SureSource::new(bytes),
            piece,
            failing,
            calls: 0,
            faults: 0,
        }
    }

    /// The bytes that are left.
    pub fn left(&self) -> &[u8]
        ensures { result.now ≡ self.now.left }
    {
        self.bytes.left()
    }
}

impl Source for MemorySource {
    ghost left = { λ s. Some s.left };

    ghost faults = { λ s. s.faults };

    fn read_some(&mut self, into: &mut [u8]) -> Result<usize, Failed>
        requires { 0 < length into.old }
        ensures bound { IfOk result (λ count. count ≤ length into.new) }
        ensures gives { IfOk result (λ count.
            Consumes (Some self.old.left) (Some self.new.left) (take count into.new)) }
        ensures end { result ≡ Ok 0 → IsAtEnd (Some self.new.left) }
        ensures counts { OnOk result (self.new.faults ≡ self.old.faults) }
        ensures failed { OnErr result (Rose self.old.faults self.new.faults) }
        ensures kept { OnErr result (Keeps (Some self.old.left) (Some self.new.left)) }

        // It fails exactly at the calls that it was told to.
        ensures fails { IsErr result ↔ Contains self.old.failing self.new.calls }
        ensures raised { OnErr result (self.new.faults ≡ next_count self.old.faults) }
        ensures call { self.new.calls ≡ next_count self.old.calls }
        ensures piece { IfOk result (λ count.
            count ≡ min (length self.old.left) (min self.old.piece (length into.old))) }
        ensures setup { (self.new.piece ≡ self.old.piece) × (self.new.failing ≡ self.old.failing) }
    {
        self.calls = self.calls.saturating_add(1);
        if self.failing.contains(&self.calls) {
            self.faults = self.faults.saturating_add(1);
            return Err(Failed);
        }
        let most = self.piece.min(into.len());
        self.bytes.read_some(&mut into[..most])
    }
}
