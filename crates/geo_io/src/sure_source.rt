ghost use Rattle.std.specs.Io.KnownBytes.{Consumes};
ghost use Rattle.std.specs.Prelude.{◌≡◌, ◌<◌, Ok, Some, length, take, min, IfOk};

use crate::Failed;
use crate::source::Source;
use std::marker::Model;

/// A source of given bytes that never fails.
#[derive(Drop)]
pub struct SureSource {
    bytes: Vec<u8>,
    given: usize,
}

impl Model for SureSource {
    ghost use Rattle.std.specs.Prelude.{◌≤◌, ℕ, List, drop, vec_len};

    // the bytes that are left
    ghost Value = { List ℕ };

    ghost view = { λ s. drop s.given s.bytes.items };

    ghost invariant = { λ s. s.given ≤ vec_len s.bytes };
}

impl SureSource {
    /// All of `bytes` are left.
    pub fn new(bytes: Vec<u8>) -> SureSource
        ensures { result ≡ bytes.items }
    {
        SureSource { bytes, given: 0 }
    }

    /// The bytes that are left.
    pub fn left(&self) -> &[u8]
        ensures { result.now ≡ self.now }
    {
        &self.bytes[self.given..]
    }
}

impl Source for SureSource {
    ghost left = { λ s. Some s };

    ghost faults = { λ _. 0 };

    fn read_some(&mut self, into: &mut [u8]) -> Result<usize, Failed>
        requires { 0 < length into.old }
        ensures gives { IfOk result (λ count. Consumes (Some self.old) (Some self.new) (take count into.new)) }
        ensures same_length { length into.new ≡ length into.old }

        // It gives as many bytes as are left and fit.
        ensures sure { result ≡ Ok (min (length self.old) (length into.old)) }
    {
        let left = &self.bytes[self.given..];
        let count = left.len().min(into.len());
        into[..count].copy_from_slice(&left[..count]);
        self.given += count;
        Ok(count)
    }
}
