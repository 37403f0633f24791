ghost use Rattle.std.specs.Prelude.{◌≡◌, ◌<◌, ◌↔◌, ◌⊎◌, [], Some, length, IfOk, IsErr, OnErr};
ghost use Rattle.std.specs.Io.{WritesAtMost};
ghost use Rattle.std.specs.Io.KnownBytes.{WriteAppends};
ghost use Rattle.sh_io.specs.Causes.{HasCause};
ghost use Rattle.sh_io.specs.Memory.{IsListed, IsFull, write_count, after_write, after_failed_write};

use crate::{Failed, Sink};
use sh_base::Mem;
use std::alloc::Global;
use std::marker::Model;

/// A sink into memory with room for so many bytes, which takes at most so many a call and fails at
/// the listed calls, and where a piece that isn't empty meets a full room. Calls are numbered from 1,
/// and the last number is 2^64 - 1.
#[derive(Debug, Drop)]
pub struct MemSink {
    bytes: Vec<u8>,
    room: u64,
    per_call: u64,
    failing: Vec<u64>,
    calls: u64,
    faults: u64,
}

impl Model for MemSink {
    ghost use Rattle.std.specs.Prelude.{◌≡◌, ◌<◌, ◌≤◌, length, vec_capacity};
    ghost use Rattle.sh_io.specs.Memory.{SinkState};

    ghost Value = { SinkState };

    ghost view = { λ s. record {
      bytes = s.bytes.items;
      room = s.room;
      per_call = s.per_call;
      calls = record { count = s.calls; faults = s.faults; failing = s.failing.items };
    } };

    ghost invariant = { λ s. (0 < s.per_call) × (length s.bytes.items ≤ s.room) × (s.room ≤ vec_capacity s.bytes) };
}

/// An empty sink with room for `room` bytes, which takes at most `per_call` bytes a call and fails
/// at the listed calls. The room is reserved here, so no write takes memory.
pub fn mem_sink(alloc: Global, room: u64, per_call: u64, failing: Vec<u64>) -> Result<MemSink, Mem>
    requires { 0 < per_call }
    ensures { IfOk result (λ sink. sink ≡ record {
      bytes = [];
      room = room;
      per_call = per_call;
      calls = record { count = 0; faults = 0; failing = failing.items };
    }) }
{
    Ok(MemSink {
        bytes: Vec::with_capacity(alloc, room as usize)?,
        room,
        per_call,
        failing,
        calls: 0,
        faults: 0,
    })
}

impl MemSink {
    /// The bytes that were taken.
    pub fn bytes(&self) -> &[u8]
        ensures { result.now ≡ self.now.bytes }
    {
        self.bytes.as_slice()
    }
}

impl Sink for MemSink {
    ghost written = { λ s. Some s.bytes };

    ghost faults = { λ s. s.calls.faults };

    fn write(&mut self, piece: &[u8]) -> Result<usize, Failed>
        ensures bound { WritesAtMost result piece.now }
        ensures some { IfOk result (λ n. 0 < length piece.now → 0 < n) }
        ensures bytes { WriteAppends (Some self.old.bytes) (Some self.new.bytes) result piece.now }
        ensures cause { HasCause self.old.calls.faults self.new.calls.faults result }
        ensures fails { IsErr result ↔ (IsListed self.old.calls ⊎ IsFull self.old piece.now) }
        ensures count { IfOk result (λ n. n ≡ write_count self.old (length piece.now)) }
        ensures ok { IfOk result (λ n. self.new ≡ after_write self.old piece.now n) }
        ensures err { OnErr result (self.new ≡ after_failed_write self.old) }
    {
        self.calls = self.calls.saturating_add(1);
        let room = self.room as usize - self.bytes.len();
        if self.failing.contains(&self.calls) || (room == 0 && !piece.is_empty()) {
            self.faults = self.faults.saturating_add(1);
            return Err(Failed);
        }
        let count = piece.len().min(room).min(self.per_call as usize);
        self.bytes.extend_from_slice(&piece[..count]).unwrap();
        Ok(count)
    }
}
