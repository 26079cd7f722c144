ghost use Rattle.std.specs.Prelude.{◌≡◌, ℕ, ◌<◌, ◌≤◌, [], ◌∷◌, ◌++◌, take, Some, length, is_some, is_err, IfOk, OnOk, OnErr};
ghost use Rattle.std.specs.Io.KnownBytes.{append_known};
ghost use Rattle.sm_stream.specs.Causes.{HasCause};
ghost use Rattle.sm_stream.specs.Memory.{write_fails, taken, sink_written, sink_failed};

use crate::memory_source::is_named;
use crate::stream::Sink;
use sm_base::{Failed, NoMemory};
use std::alloc::Global;
use std::marker::Model;

/// Bytes held in memory, up to a room that is taken when the sink is made. Calls may be told to
/// fail.
#[derive(Drop)]
pub struct MemSink {
    bytes: Vec<u8>,
    room: usize,
    piece: u32,
    calls: u64,
    failing: Vec<u64>,
    faults: u64,
}

impl Model for MemSink {
    ghost use Rattle.std.specs.Prelude.{ℕ, ◌<◌, ◌≤◌, length, vec_capacity};
    ghost use Rattle.sm_stream.specs.Memory.{MemorySink};

    ghost Value = { MemorySink };

    ghost view = { λ s. record {
      bytes = s.bytes.items;
      room = s.room;
      piece = s.piece;
      calls = s.calls;
      failing = s.failing.items;
      faults = s.faults;
    } };

    ghost invariant = { λ s. (length s.bytes.items ≤ s.room) × (s.room ≤ vec_capacity s.bytes) × (0 < s.piece) };
}

impl MemSink {
    /// An empty sink for at most `room` bytes, that takes at most `piece` of them in one call, at
    /// least one.
    pub fn new(alloc: Global, room: u64, piece: u32) -> Result<MemSink, NoMemory>
        requires { 0 < piece }
        ensures { IfOk result (λ s. s ≡ record { bytes = []; room = room; piece = piece; calls = 0; failing = []; faults = 0 }) }
    {
        let room = room as usize;
        Ok(MemSink {
            bytes: Vec::with_capacity(alloc, room)?,
            room,
            piece,
            calls: 0,
            failing: Vec::new(alloc),
            faults: 0,
        })
    }

    /// Lets one more call of `write` fail. Calls are numbered from 1 up to 2^64 - 1, where the
    /// number stays.
    pub fn fail_at(&mut self, call: u64) -> Result<(), NoMemory>
        ensures ok { OnOk result (self.new ≡ record self.old { failing = self.old.failing ++ call ∷ [] }) }
        ensures err { OnErr result (self.new ≡ self.old) }
    {
        self.failing.push(call)?;
        Ok(())
    }

    /// The bytes held.
    pub fn bytes(&self) -> &[u8]
        ensures { result.now ≡ self.now.bytes }
    {
        &self.bytes
    }
}

impl Sink for MemSink {
    ghost held = { λ s. Some s.bytes };

    ghost fault_count = { λ s. s.faults };

    fn write(&mut self, bytes: &[u8]) -> Result<usize, Failed>
        ensures bound { IfOk result (λ n. n ≤ length bytes.now) }
        ensures some { IfOk result (λ n. 0 < length bytes.now → 0 < n) }
        ensures added { IfOk result (λ n. ⟦<MemSink as Sink>⟧.held self.new ≡ append_known (⟦<MemSink as Sink>⟧.held self.old) (take n bytes.now)) }
        ensures err { OnErr result (⟦<MemSink as Sink>⟧.held self.new ≡ ⟦<MemSink as Sink>⟧.held self.old) }
        ensures told { is_some (⟦<MemSink as Sink>⟧.held self.new) ≡ is_some (⟦<MemSink as Sink>⟧.held self.old) }
        ensures cause { HasCause self.old.faults self.new.faults result }

        // It fails exactly where it was told to or no room is left, and else takes all that the
        // pieces and the room allow.
        ensures fails { is_err result ≡ write_fails self.old bytes.now }
        ensures taken { IfOk result (λ n. n ≡ taken self.old bytes.now) }
        ensures after { IfOk result (λ n. self.new ≡ sink_written self.old bytes.now n) }
        ensures failed { OnErr result (self.new ≡ sink_failed self.old) }
    {
        self.calls = self.calls.saturating_add(1);
        let full = !bytes.is_empty() && self.bytes.len() == self.room;
        if is_named(self.calls, &self.failing) || full {
            self.faults = self.faults.saturating_add(1);
            return Err(Failed);
        }
        let n = bytes
            .len()
            .min(self.piece as usize)
            .min(self.room - self.bytes.len());
        self.bytes.extend_from_slice(&bytes[..n]).unwrap();
        Ok(n)
    }

    fn faults(&self) -> u64 {
        self.faults
    }
}
