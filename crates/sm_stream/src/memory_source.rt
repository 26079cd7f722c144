ghost use Rattle.std.specs.Prelude.{◌≡◌, ℕ, ◌<◌, ◌≤◌, [], ◌∷◌, ◌++◌, take, Some, length, is_some, is_err, IfOk, OnOk, OnErr};
ghost use Rattle.std.specs.Io.KnownBytes.{prepend_known, IsAtEnd};
ghost use Rattle.sm_stream.specs.Causes.{HasCause};
ghost use Rattle.sm_stream.specs.Memory.{is_named, read_fails, given, source_read, source_failed};

use crate::stream::Source;
use sm_base::{Failed, NoMemory};
use std::alloc::Global;
use std::marker::Model;

/// Bytes in memory, given in pieces of at most so many. Calls may be told to fail.
#[derive(Drop)]
pub struct MemSource {
    bytes: Vec<u8>,
    at: usize,
    piece: u32,
    calls: u64,
    failing: Vec<u64>,
    faults: u64,
}

impl Model for MemSource {
    ghost use Rattle.std.specs.Prelude.{ℕ, ◌<◌, ◌≤◌, drop, length};
    ghost use Rattle.sm_stream.specs.Memory.{MemorySource};

    ghost Value = { MemorySource };

    ghost view = { λ s. record {
      bytes = drop s.at s.bytes.items;
      piece = s.piece;
      calls = s.calls;
      failing = s.failing.items;
      faults = s.faults;
    } };

    ghost invariant = { λ s. (s.at ≤ length s.bytes.items) × (0 < s.piece) };
}

impl MemSource {
    /// A source of these bytes that gives at most `piece` of them in one call, at least one.
    pub fn new(alloc: Global, bytes: Vec<u8>, piece: u32) -> MemSource
        requires { 0 < piece }
        ensures { result ≡ record { bytes = bytes.items; piece = piece; calls = 0; failing = []; faults = 0 } }
    {
        MemSource {
            bytes,
            at: 0,
            piece,
            calls: 0,
            failing: Vec::new(alloc),
            faults: 0,
        }
    }

    /// Lets one more call of `read` fail. Calls are numbered from 1 up to 2^64 - 1, where the
    /// number stays.
    pub fn fail_at(&mut self, call: u64) -> Result<(), NoMemory>
        ensures ok { OnOk result (self.new ≡ record self.old { failing = self.old.failing ++ call ∷ [] }) }
        ensures err { OnErr result (self.new ≡ self.old) }
    {
        self.failing.push(call)?;
        Ok(())
    }
}

impl Source for MemSource {
    ghost left = { λ s. Some s.bytes };

    ghost fault_count = { λ s. s.faults };

    fn read(&mut self, into: &mut [u8]) -> Result<usize, Failed>
        ensures bound { IfOk result (λ n. n ≤ length into.new) }
        ensures taken { IfOk result (λ n. ⟦<MemSource as Source>⟧.left self.old ≡ prepend_known (take n into.new) (⟦<MemSource as Source>⟧.left self.new)) }
        ensures at_end { IfOk result (λ n. n ≡ 0 → 0 < length into.new → IsAtEnd (⟦<MemSource as Source>⟧.left self.new)) }
        ensures err { OnErr result (⟦<MemSource as Source>⟧.left self.new ≡ ⟦<MemSource as Source>⟧.left self.old) }
        ensures told { is_some (⟦<MemSource as Source>⟧.left self.new) ≡ is_some (⟦<MemSource as Source>⟧.left self.old) }
        ensures cause { HasCause self.old.faults self.new.faults result }

        // It fails exactly where it was told to, and else gives all that the two pieces allow.
        ensures fails { is_err result ≡ read_fails self.old }
        ensures given { IfOk result (λ n. n ≡ given self.old (length into.old)) }
        ensures after { IfOk result (λ n. self.new ≡ source_read self.old n) }
        ensures failed { OnErr result (self.new ≡ source_failed self.old) }
    {
        self.calls = self.calls.saturating_add(1);
        if is_named(self.calls, &self.failing) {
            self.faults = self.faults.saturating_add(1);
            return Err(Failed);
        }
        let n = into
            .len()
            .min(self.piece as usize)
            .min(self.bytes.len() - self.at);
        into[..n].copy_from_slice(&self.bytes[self.at..self.at + n]);
        self.at += n;
        Ok(n)
    }

    fn faults(&self) -> u64 {
        self.faults
    }
}

/// Whether a call is among those that were told to fail.
pub(crate) fn is_named(call: u64, failing: &[u64]) -> bool
    ensures { result ≡ is_named call failing.now }
{
    failing.iter().any(|named| *named == call)
}
