ghost use Rattle.std.specs.Prelude.{◌≡◌, ◌<◌, ◌↔◌, Some, length, IfOk, IsErr, OnErr};
ghost use Rattle.std.specs.Io.{ReadsAtMost};
ghost use Rattle.std.specs.Io.KnownBytes.{ReadConsumes};
ghost use Rattle.sh_io.specs.Causes.{HasCause};
ghost use Rattle.sh_io.specs.Memory.{IsListed, read_count, after_read, after_failed_read};

use crate::{Failed, Source};
use std::marker::Model;

/// A source over bytes in memory, which gives at most so many a call and fails at the listed calls.
/// Calls are numbered from 1, and the last number is 2^64 - 1.
#[derive(Debug, Drop)]
pub struct MemSource {
    bytes: Vec<u8>,
    position: usize,
    per_call: u64,
    failing: Vec<u64>,
    calls: u64,
    faults: u64,
}

impl Model for MemSource {
    ghost use Rattle.std.specs.Prelude.{◌<◌, ◌≤◌, drop, length};
    ghost use Rattle.sh_io.specs.Memory.{SourceState};

    ghost Value = { SourceState };

    ghost view = { λ s. record {
      rest = drop s.position s.bytes.items;
      per_call = s.per_call;
      calls = record { count = s.calls; faults = s.faults; failing = s.failing.items };
    } };

    ghost invariant = { λ s. (0 < s.per_call) × (s.position ≤ length s.bytes.items) };
}

/// A source over these bytes that gives at most `per_call` bytes a call and fails at the listed
/// calls, the first being number 1. It takes no memory.
pub fn mem_source(bytes: Vec<u8>, per_call: u64, failing: Vec<u64>) -> MemSource
    requires { 0 < per_call }
    ensures rest { result.rest ≡ bytes.items }
    ensures per_call { result.per_call ≡ per_call }
    ensures calls { result.calls ≡ record { count = 0; faults = 0; failing = failing.items } }
{
    MemSource {
        bytes,
        position: 0,
        per_call,
        failing,
        calls: 0,
        faults: 0,
    }
}

impl Source for MemSource {
    ghost left = { λ s. Some s.rest };

    ghost faults = { λ s. s.calls.faults };

    fn read(&mut self, buf: &mut [u8]) -> Result<usize, Failed>
        ensures bound { ReadsAtMost result buf.new }
        ensures bytes { ReadConsumes (Some self.old.rest) (Some self.new.rest) result buf.new }
        ensures cause { HasCause self.old.calls.faults self.new.calls.faults result }
        ensures fails { IsErr result ↔ IsListed self.old.calls }
        ensures count { IfOk result (λ n. n ≡ read_count self.old (length buf.old)) }
        ensures ok { IfOk result (λ n. self.new ≡ after_read self.old n) }
        ensures err { OnErr result (self.new ≡ after_failed_read self.old) }
    {
        self.calls = self.calls.saturating_add(1);
        if self.failing.contains(&self.calls) {
            self.faults = self.faults.saturating_add(1);
            return Err(Failed);
        }
        let rest = &self.bytes[self.position..];
        let count = rest.len().min(buf.len()).min(self.per_call as usize);
        buf[..count].copy_from_slice(&rest[..count]);
        self.position += count;
        Ok(count)
    }
}
