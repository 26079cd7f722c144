ghost use Rattle.std.specs.Prelude.{◌≡◌, ℕ, ◌<◌, ◌≤◌, List, length, take, Option, is_some, IfOk, OnErr};
ghost use Rattle.std.specs.Io.KnownBytes.{prepend_known, append_known, IsAtEnd};
ghost use Rattle.sm_stream.specs.Causes.{HasCause};

use sm_base::Failed;

/// Bytes that come in pieces.
pub trait Source {
    // the bytes that are left, where the source tells them
    ghost left: { Self → Option (List ℕ) };
    // how often it has failed; a count that stands at its last value counts as one that rose
    ghost fault_count: { Self → ℕ };

    /// Puts the next bytes into the front of a piece, takes them off what is left, and answers
    /// how many they are. No byte for a piece that is not empty is the end of the input.
    /// A call that fails leaves what is left as it was.
    fn read(&mut self, into: &mut [u8]) -> Result<usize, Failed>
        ensures bound { IfOk result (λ n. n ≤ length into.new) }
        ensures taken { IfOk result (λ n. left self.old ≡ prepend_known (take n into.new) (left self.new)) }
        ensures at_end { IfOk result (λ n. n ≡ 0 → 0 < length into.new → IsAtEnd (left self.new)) }
        ensures err { OnErr result (left self.new ≡ left self.old) }
        ensures told { is_some (left self.new) ≡ is_some (left self.old) }
        ensures cause { HasCause (fault_count self.old) (fault_count self.new) result };

    /// How often it has failed, up to 2^64 - 1, where the count stays.
    fn faults(&self) -> u64
        ensures { result ≡ fault_count self.now };
}

/// Where bytes go.
pub trait Sink {
    // the bytes held, where the sink tells them
    ghost held: { Self → Option (List ℕ) };
    // how often it has failed; a count that stands at its last value counts as one that rose
    ghost fault_count: { Self → ℕ };

    /// Adds bytes of the front of a piece behind those held, and answers how many they are: at
    /// least one where the piece has any. A call that fails leaves what is held as it was.
    fn write(&mut self, bytes: &[u8]) -> Result<usize, Failed>
        ensures bound { IfOk result (λ n. n ≤ length bytes.now) }
        ensures some { IfOk result (λ n. 0 < length bytes.now → 0 < n) }
        ensures added { IfOk result (λ n. held self.new ≡ append_known (held self.old) (take n bytes.now)) }
        ensures err { OnErr result (held self.new ≡ held self.old) }
        ensures told { is_some (held self.new) ≡ is_some (held self.old) }
        ensures cause { HasCause (fault_count self.old) (fault_count self.new) result };

    /// How often it has failed, up to 2^64 - 1, where the count stays.
    fn faults(&self) -> u64
        ensures { result ≡ fault_count self.now };
}
