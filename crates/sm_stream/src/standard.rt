ghost use Rattle.std.specs.Prelude.{◌≡◌, ℕ, ◌<◌, ◌≤◌, None, length, take, is_err, is_some, IfOk, OnErr};
ghost use Rattle.std.specs.Io.KnownBytes.{prepend_known, append_known, IsAtEnd, ReadConsumes, WriteAppends};
ghost use Rattle.sm_stream.specs.Causes.{HasCause, count_after};

use crate::stream::{Sink, Source};
use sm_base::Failed;
use std::io::{Read, Write};

/// A reader of std as a source, which tells nothing of its bytes.
#[derive(Drop)]
pub struct StdSource<R: Read + Drop> {
    inner: R,
    faults: u64,
}

impl<R: Read + Drop> StdSource<R> {
    /// A source over this reader, which has not failed yet.
    pub fn new(inner: R) -> StdSource<R>
        ensures { ⟦<StdSource<R> as Source>⟧.fault_count result ≡ 0 }
    {
        StdSource { inner, faults: 0 }
    }
}

impl<R: Read + Drop> Source for StdSource<R> {
    ghost left = { λ _. None };

    ghost fault_count = { λ s. s.faults };

    fn read(&mut self, into: &mut [u8]) -> Result<usize, Failed>
        ensures bound { IfOk result (λ n. n ≤ length into.new) }
        ensures taken { IfOk result (λ n. ⟦<StdSource<R> as Source>⟧.left self.old ≡ prepend_known (take n into.new) (⟦<StdSource<R> as Source>⟧.left self.new)) }
        ensures at_end { IfOk result (λ n. n ≡ 0 → 0 < length into.new → IsAtEnd (⟦<StdSource<R> as Source>⟧.left self.new)) }
        ensures err { OnErr result (⟦<StdSource<R> as Source>⟧.left self.new ≡ ⟦<StdSource<R> as Source>⟧.left self.old) }
        ensures told { is_some (⟦<StdSource<R> as Source>⟧.left self.new) ≡ is_some (⟦<StdSource<R> as Source>⟧.left self.old) }
        ensures cause { HasCause (⟦<StdSource<R> as Source>⟧.fault_count self.old) (⟦<StdSource<R> as Source>⟧.fault_count self.new) result }

        // The bytes are the reader's, and the count goes up at each failure and at no other time.
        ensures bytes { ReadConsumes (R.remaining self.old.inner) (R.remaining self.new.inner) result into.new }
        ensures count { ⟦<StdSource<R> as Source>⟧.fault_count self.new ≡ count_after (is_err result) (⟦<StdSource<R> as Source>⟧.fault_count self.old) }
    {
        match self.inner.read(into) {
            Ok(n) => Ok(n),
            Err(_) => {
                self.faults = self.faults.saturating_add(1);
                Err(Failed)
            }
        }
    }

    fn faults(&self) -> u64 {
        self.faults
    }
}

/// A writer of std as a sink, which tells nothing of its bytes.
#[derive(Drop)]
pub struct StdSink<W: Write + Drop> {
    inner: W,
    faults: u64,
}

impl<W: Write + Drop> StdSink<W> {
    /// A sink over this writer, which has not failed yet.
    pub fn new(inner: W) -> StdSink<W>
        ensures { ⟦<StdSink<W> as Sink>⟧.fault_count result ≡ 0 }
    {
        StdSink { inner, faults: 0 }
    }
}

impl<W: Write + Drop> Sink for StdSink<W> {
    ghost held = { λ _. None };

    ghost fault_count = { λ s. s.faults };

    fn write(&mut self, bytes: &[u8]) -> Result<usize, Failed>
        ensures bound { IfOk result (λ n. n ≤ length bytes.now) }
        ensures some { IfOk result (λ n. 0 < length bytes.now → 0 < n) }
        ensures added { IfOk result (λ n. ⟦<StdSink<W> as Sink>⟧.held self.new ≡ append_known (⟦<StdSink<W> as Sink>⟧.held self.old) (take n bytes.now)) }
        ensures err { OnErr result (⟦<StdSink<W> as Sink>⟧.held self.new ≡ ⟦<StdSink<W> as Sink>⟧.held self.old) }
        ensures told { is_some (⟦<StdSink<W> as Sink>⟧.held self.new) ≡ is_some (⟦<StdSink<W> as Sink>⟧.held self.old) }
        ensures cause { HasCause (⟦<StdSink<W> as Sink>⟧.fault_count self.old) (⟦<StdSink<W> as Sink>⟧.fault_count self.new) result }

        // The bytes go to the writer, and the count goes up at each failure and at no other time.
        ensures bytes { WriteAppends (W.contents self.old.inner) (W.contents self.new.inner) result bytes.now }
        ensures count { ⟦<StdSink<W> as Sink>⟧.fault_count self.new ≡ count_after (is_err result) (⟦<StdSink<W> as Sink>⟧.fault_count self.old) }
    {
        if bytes.is_empty() {
            return Ok(0);
        }
        match self.inner.write(bytes) {
            Ok(n) if n > 0 => Ok(n),
            _ => {
                self.faults = self.faults.saturating_add(1);
                Err(Failed)
            }
        }
    }

    fn faults(&self) -> u64 {
        self.faults
    }
}
