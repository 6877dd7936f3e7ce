ghost use Rattle.std.specs.Io.KnownBytes.{Consumes, IsAtEnd, Keeps};
ghost use Rattle.std.specs.Prelude.{◌≡◌, ◌≤◌, ◌<◌, ◌+◌, ◌^◌, ◌⊎◌, ℕ, List, None, Ok, Err, Option, length, take, vec_len, IfOk, IfSome, OnOk};
ghost use Rattle.std.specs.Prelude.{OnErr};
ghost use Rattle.plane.specs.declared.limits.TheConstants.{MAX_SCRIPT};
ghost use Rattle.geo_io.specs.Counts.{Rose};
ghost use Rattle.geo_io.specs.Transfers.{GivesFront, GivesMoreThan, GivesAtMost};
ghost use Rattle.geo_io.specs.declared.source.ReadEnd.TheVariants.{Fault, Memory};

use crate::Failed;
use std::alloc::{AllocError, Global};

/// Where the bytes of a script come from.
pub trait Source {
    /// The bytes that are left, where the source tells them.
    ghost left: { Self → Option (List ℕ) } = { λ _. None };

    /// How often it has failed.
    ghost faults: { Self → ℕ };

    /// Puts the next bytes at the front of `into` and says how many. `Ok(0)` is the end.
    fn read_some(&mut self, into: &mut [u8]) -> Result<usize, Failed>
        requires { 0 < length into.old }
        ensures bound { IfOk result (λ count. count ≤ length into.new) }
        ensures gives { IfOk result (λ count. Consumes (left self.old) (left self.new) (take count into.new)) }
        ensures end { result ≡ Ok 0 → IsAtEnd (left self.new) }
        ensures counts { OnOk result (faults self.new ≡ faults self.old) }
        ensures failed { OnErr result (Rose (faults self.old) (faults self.new)) }
        ensures kept { OnErr result (Keeps (left self.old) (left self.new)) };
}

/// Why `read_all` gave no bytes. Those that were read by then are dropped.
#[derive(Clone, Copy, Debug, PartialEq, Eq)]
pub enum ReadEnd {
    /// A read failed.
    Fault,
    /// The source gave more bytes than the limit.
    TooLong,
    /// Memory was wanted.
    Memory,
}

impl From<Failed> for ReadEnd {
    ghost from_gives = { λ _ end. end ≡ Fault };

    fn from(_: Failed) -> ReadEnd {
        ReadEnd::Fault
    }
}

impl From<AllocError> for ReadEnd {
    ghost from_gives = { λ _ end. end ≡ Memory };

    fn from(_: AllocError) -> ReadEnd {
        ReadEnd::Memory
    }
}

// How many bytes a read asks for.
const PIECE: usize = 65536;

/// Reads a source to its end. No read follows once more than `limit` bytes were given.
pub fn read_all<S: Source>(alloc: Global, source: &mut S, limit: usize) -> Result<Vec<u8>, ReadEnd>
    requires { limit ≤ MAX_SCRIPT }

    // The bytes are all that were left.
    ensures all { IfOk result (λ bytes. Consumes (S.left source.old) (S.left source.new) bytes.items) }
    ensures end { OnOk result (IsAtEnd (S.left source.new)) }
    ensures within { IfOk result (λ bytes. vec_len bytes ≤ limit) }
    ensures counts { OnOk result (S.faults source.new ≡ S.faults source.old) }

    // What was given before a refusal is gone from the source. No read fails once more than the limit was given.
    ensures front { OnErr result (GivesFront (S.left source.old) (S.left source.new)) }
    ensures fault { result ≡ Err ReadEnd.Fault → Rose (S.faults source.old) (S.faults source.new) }
    ensures fault_within { result ≡ Err ReadEnd.Fault → GivesAtMost limit (S.left source.old) (S.left source.new) }
    ensures memory { result ≡ Err ReadEnd.Memory → S.faults source.new ≡ S.faults source.old }

    // `TooLong` comes exactly where more than the limit was given and no read failed.
    ensures too_long { result ≡ Err ReadEnd.TooLong →
        GivesMoreThan limit (S.left source.old) (S.left source.new) }
    ensures no_fault { result ≡ Err ReadEnd.TooLong → S.faults source.new ≡ S.faults source.old }
    ensures long { IfSome (S.left source.old) (λ bytes. limit < length bytes →
        ¬ (Rose (S.faults source.old) (S.faults source.new)) →
        (result ≡ Err ReadEnd.TooLong) ⊎ (result ≡ Err ReadEnd.Memory)) }

    // The read that went past the limit was the last, and it asked for at most 2^16 bytes.
    ensures stops { result ≡ Err ReadEnd.TooLong →
        GivesAtMost (limit + 2 ^ 16) (S.left source.old) (S.left source.new) }
{
    let mut piece = zeros(alloc, PIECE)?;
    let mut bytes = Vec::new(alloc);
    while bytes.len() <= limit {
        let count = source.read_some(&mut piece)?;
        if count == 0 {
            return Ok(bytes);
        }
        bytes.extend_from_slice(&piece[..count])?;
    }
    Err(ReadEnd::TooLong)
}

// Its clause says the length alone, so that no proof writes out the list.
fn zeros(alloc: Global, count: usize) -> Result<Vec<u8>, AllocError>
    ensures { IfOk result (λ zeros. vec_len zeros ≡ count) }
{
    vec![in alloc; 0u8; count]
}
