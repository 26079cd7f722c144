ghost use Rattle.std.specs.Prelude.{◌≡◌, ℕ, ◌+◌, ◌-◌, ◌^◌, ◌<◌, ◌≤◌, List, take, drop, Some, None, Ok, length, min, is_some, IfOk, OnErr};
ghost use Rattle.std.specs.Io.KnownBytes.{prepend_known, append_known, IsAtEnd};
ghost use Rattle.sm_stream.specs.Causes.{HasCause};

use crate::stream::{Sink, Source};
use sm_base::Failed;
use std::marker::Model;

/// Bytes in memory, given as they are asked for. It never fails.
#[derive(Drop)]
pub struct SureSource {
    bytes: Vec<u8>,
    at: usize,
}

impl Model for SureSource {
    ghost use Rattle.std.specs.Prelude.{ℕ, ◌≤◌, List, drop, length};

    ghost Value = { List ℕ };

    ghost view = { λ s. drop s.at s.bytes.items };

    ghost invariant = { λ s. s.at ≤ length s.bytes.items };
}

impl SureSource {
    /// A source of these bytes.
    pub fn new(bytes: Vec<u8>) -> SureSource
        ensures { result ≡ bytes.items }
    {
        SureSource { bytes, at: 0 }
    }
}

impl Source for SureSource {
    ghost left = { λ s. Some s };

    ghost fault_count = { λ _. 0 };

    fn read(&mut self, into: &mut [u8]) -> Result<usize, Failed>
        ensures bound { IfOk result (λ n. n ≤ length into.new) }
        ensures taken { IfOk result (λ n. ⟦<SureSource as Source>⟧.left self.old ≡ prepend_known (take n into.new) (⟦<SureSource as Source>⟧.left self.new)) }
        ensures at_end { IfOk result (λ n. n ≡ 0 → 0 < length into.new → IsAtEnd (⟦<SureSource as Source>⟧.left self.new)) }
        ensures err { OnErr result (⟦<SureSource as Source>⟧.left self.new ≡ ⟦<SureSource as Source>⟧.left self.old) }
        ensures told { is_some (⟦<SureSource as Source>⟧.left self.new) ≡ is_some (⟦<SureSource as Source>⟧.left self.old) }
        ensures cause { HasCause 0 0 result }

        // It never fails, and fills the piece as far as there are bytes.
        ensures gives { result ≡ Ok (min (length into.old) (length self.old)) }
    {
        let n = into.len().min(self.bytes.len() - self.at);
        into[..n].copy_from_slice(&self.bytes[self.at..self.at + n]);
        self.at += n;
        Ok(n)
    }

    fn faults(&self) -> u64 {
        0
    }
}

/// Takes every byte, and keeps only how many came. It never fails.
#[derive(Drop)]
pub struct SureSink {
    count: u64,
}

impl Model for SureSink {
    ghost use Rattle.std.specs.Prelude.{ℕ};

    ghost Value = { ℕ };

    ghost view = { λ s. s.count };
}

impl SureSink {
    /// A sink to which nothing came yet.
    pub fn new() -> SureSink
        ensures { result ≡ 0 }
    {
        SureSink { count: 0 }
    }

    /// How many bytes came, up to 2^64 - 1, where the number stays.
    pub fn count(&self) -> u64
        ensures { result ≡ self.now }
    {
        self.count
    }
}

impl Sink for SureSink {
    ghost held = { λ _. None };

    ghost fault_count = { λ _. 0 };

    fn write(&mut self, bytes: &[u8]) -> Result<usize, Failed>
        ensures bound { IfOk result (λ n. n ≤ length bytes.now) }
        ensures some { IfOk result (λ n. 0 < length bytes.now → 0 < n) }
        ensures added { IfOk result (λ n. ⟦<SureSink as Sink>⟧.held self.new ≡ append_known (⟦<SureSink as Sink>⟧.held self.old) (take n bytes.now)) }
        ensures err { OnErr result (⟦<SureSink as Sink>⟧.held self.new ≡ ⟦<SureSink as Sink>⟧.held self.old) }
        ensures told { is_some (⟦<SureSink as Sink>⟧.held self.new) ≡ is_some (⟦<SureSink as Sink>⟧.held self.old) }
        ensures cause { HasCause 0 0 result }

        // It never fails, and takes the whole piece.
        ensures takes { result ≡ Ok (length bytes.now) }
        ensures after { self.new ≡ min (self.old + length bytes.now) (2 ^ 64 - 1) }
    {
        self.count = self.count.saturating_add(bytes.len() as u64);
        Ok(bytes.len())
    }

    fn faults(&self) -> u64 {
        0
    }
}
