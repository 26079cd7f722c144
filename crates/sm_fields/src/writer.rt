ghost use Rattle.std.specs.Prelude.{◌≡◌, ◌≤◌, true, [], ◌++◌, length, OnOk, OnErr};
ghost use Rattle.sm_fields.specs.Format.{bits8, bits32, bits64};
ghost use Rattle.sm_fields.specs.Grammar.{digits, identity_digits, truth_digits, with_length};

use sm_base::{Ident, NoMemory};
use std::alloc::Global;
use std::marker::Model;

/// Writes fields one behind the other. After `NoMemory` it holds what it held before the call.
#[derive(Debug, Drop)]
pub struct Writer {
    bytes: Vec<u8>,
}

impl Model for Writer {
    ghost use Rattle.std.specs.Prelude.{List, ℕ};

    ghost Value = { List ℕ };

    ghost view = { λ w. w.bytes.items };
}

impl Writer {
    /// A writer that has written nothing.
    pub fn new(alloc: Global) -> Writer
        ensures { result ≡ [] }
    {
        Writer {
            bytes: Vec::new(alloc),
        }
    }

    /// A number of one byte.
    #[tactic(auto, unfolding(crate::specs::Grammar::digits))]
    pub fn u8(&mut self, value: u8) -> Result<(), NoMemory>
        ensures ok { OnOk result (self.new ≡ self.old ++ digits bits8 value) }
        ensures err { OnErr result (self.new ≡ self.old) }
    {
        self.bytes.push(value)?;
        Ok(())
    }

    /// A number of four bytes.
    #[tactic(auto, unfolding(crate::specs::Grammar::digits))]
    pub fn u32(&mut self, value: u32) -> Result<(), NoMemory>
        ensures ok { OnOk result (self.new ≡ self.old ++ digits bits32 value) }
        ensures err { OnErr result (self.new ≡ self.old) }
    {
        self.bytes.extend_from_slice(&value.to_be_bytes())?;
        Ok(())
    }

    /// A number of eight bytes.
    #[tactic(auto, unfolding(crate::specs::Grammar::digits))]
    pub fn u64(&mut self, value: u64) -> Result<(), NoMemory>
        ensures ok { OnOk result (self.new ≡ self.old ++ digits bits64 value) }
        ensures err { OnErr result (self.new ≡ self.old) }
    {
        self.bytes.extend_from_slice(&value.to_be_bytes())?;
        Ok(())
    }

    /// A text of at most `max` bytes.
    pub fn text(&mut self, max: u8, bytes: &[u8]) -> Result<(), NoMemory>
        requires { length bytes.now ≤ max }
        ensures ok { OnOk result (self.new ≡ self.old ++ with_length bytes.now) }
        ensures err { OnErr result (self.new ≡ self.old) }
    {
        self.bytes.reserve(1 + bytes.len())?;
        self.bytes.push(bytes.len() as u8)?;
        self.bytes.extend_from_slice(bytes)?;
        Ok(())
    }

    /// A number of at most `max`, in four bytes.
    pub fn count(&mut self, max: u32, value: u32) -> Result<(), NoMemory>
        requires { value ≤ max }
        ensures ok { OnOk result (self.new ≡ self.old ++ digits bits32 value) }
        ensures err { OnErr result (self.new ≡ self.old) }
    {
        prove!(value <= max);
        self.u32(value)
    }

    // Both parts of an identity, or none.
    #[tactic(auto, unfolding(crate::specs::Grammar::digits))]
    pub(crate) fn identity(&mut self, ident: Ident) -> Result<(), NoMemory>
        ensures ok { OnOk result (self.new ≡ self.old ++ identity_digits ident) }
        ensures err { OnErr result (self.new ≡ self.old) }
    {
        self.bytes.reserve(12)?;
        self.bytes.extend_from_slice(&ident.origin.to_be_bytes())?;
        self.bytes.extend_from_slice(&ident.seq.to_be_bytes())?;
        Ok(())
    }

    // The byte that says that an identity stands, and that identity, or nothing of it.
    #[tactic(auto, unfolding(crate::specs::Grammar::digits))]
    pub(crate) fn some_identity(&mut self, ident: Ident) -> Result<(), NoMemory>
        ensures ok { OnOk result (self.new ≡ self.old ++ (truth_digits true ++ identity_digits ident)) }
        ensures err { OnErr result (self.new ≡ self.old) }
    {
        self.bytes.reserve(13)?;
        self.bytes.push(1)?;
        self.bytes.extend_from_slice(&ident.origin.to_be_bytes())?;
        self.bytes.extend_from_slice(&ident.seq.to_be_bytes())?;
        Ok(())
    }

    /// The bytes written.
    pub fn end(self) -> Vec<u8>
        ensures { result.items ≡ self }
    {
        self.bytes
    }
}
