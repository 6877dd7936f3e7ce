ghost use Rattle.std.specs.Io.KnownBytes.{Appends};
ghost use Rattle.std.specs.Prelude.{◌≡◌, ◌-◌, ◌≤◌, ◌<◌, ◌↔◌, ◌⊎◌, [], Some, length, take, min, Contains, IfOk, IsErr, OnOk, OnErr};
ghost use Rattle.geo_io.specs.Counts.{Rose, next_count};
ghost use Rattle.geo_io.specs.Transfers.{AppendsFront};

use crate::Failed;
use crate::sink::Sink;
use exact_plane::Memory;
use std::alloc::Global;
use std::marker::Model;

/// A sink that keeps what it takes, and fails at given calls or where it has no room left. Its counts of calls and of
/// faults stay at the greatest `u64` once they are there.
#[derive(Drop)]
pub struct MemorySink {
    taken: Vec<u8>,
    room: usize,
    piece: usize,
    failing: Vec<u64>,
    calls: u64,
    faults: u64,
}

impl Model for MemorySink {
    ghost use Rattle.std.specs.Prelude.{◌≤◌, vec_len, vec_capacity};
    ghost use Rattle.geo_io.specs.InMemory.{SinkInMemory};

    ghost Value = { SinkInMemory };

    ghost view = { λ s. record {
      taken = s.taken.items;
      room = s.room;
      piece = s.piece;
      failing = s.failing.items;
      calls = s.calls;
      faults = s.faults;
    } };

    ghost invariant = { λ s. (vec_len s.taken ≤ s.room) × (s.room ≤ vec_capacity s.taken) × (1 ≤ s.piece) };
}

impl MemorySink {
    /// Nothing is taken yet. Each call takes at most `piece` bytes, and all calls at most `room`. Calls are numbered
    /// from 1, and those whose numbers are in `failing` fail.
    pub fn with_room(
        alloc: Global,
        room: usize,
        piece: usize,
        failing: Vec<u64>,
    ) -> Result<MemorySink, Memory>
        requires { 1 ≤ piece }
        ensures { IfOk result (λ sink. sink ≡ record {
          taken = [];
          room = room;
          piece = piece;
          failing = failing.items;
          calls = 0;
          faults = 0;
        }) }
    {
        Ok(MemorySink {
            taken: Vec::with_capacity(alloc, room)?,
            room,
            piece,
            failing,
            calls: 0,
            faults: 0,
        })
    }

    /// The bytes that were taken.
    pub fn taken(&self) -> &[u8]
        ensures { result.now ≡ self.now.taken }
    {
        &self.taken
    }
}

impl Sink for MemorySink {
    ghost taken = { λ s. Some s.taken };

    ghost faults = { λ s. s.faults };

    fn write_some(&mut self, from: &[u8]) -> Result<usize, Failed>
        requires { 0 < length from.now }
        ensures least { IfOk result (λ count. 0 < count) }
        ensures bound { IfOk result (λ count. count ≤ length from.now) }
        ensures takes { IfOk result (λ count.
            Appends (Some self.old.taken) (Some self.new.taken) (take count from.now)) }
        ensures counts { OnOk result (self.new.faults ≡ self.old.faults) }
        ensures failed { OnErr result (Rose self.old.faults self.new.faults) }
        ensures front { OnErr result (AppendsFront (Some self.old.taken) (Some self.new.taken) from.now) }

        // It fails exactly at the calls that it was told to and where it has no room left, and then it takes nothing.
        ensures fails { IsErr result
            ↔ (Contains self.old.failing self.new.calls ⊎ (self.old.room ≤ length self.old.taken)) }
        ensures kept { OnErr result (self.new.taken ≡ self.old.taken) }
        ensures raised { OnErr result (self.new.faults ≡ next_count self.old.faults) }
        ensures call { self.new.calls ≡ next_count self.old.calls }
        ensures piece { IfOk result (λ count.
            count ≡ min (self.old.room - length self.old.taken) (min self.old.piece (length from.now))) }
        ensures within { length self.new.taken ≤ self.old.room }
        ensures setup { (self.new.room ≡ self.old.room)
            × (self.new.piece ≡ self.old.piece) × (self.new.failing ≡ self.old.failing) }
    {
        self.calls = self.calls.saturating_add(1);
        let room_left = self.room - self.taken.len();
        if room_left == 0 || self.failing.contains(&self.calls) {
            self.faults = self.faults.saturating_add(1);
            return Err(Failed);
        }
        let count = room_left.min(self.piece.min(from.len()));
        self.taken.extend_from_slice(&from[..count]).unwrap();
        Ok(count)
    }
}
