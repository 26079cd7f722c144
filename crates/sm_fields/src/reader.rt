ghost use Rattle.std.specs.Prelude.{◌≡◌, ◌+◌, ◌-◌, ◌^◌, ◌<◌, ◌↔◌, [], length, IsOk, IfOk, IfErr};
ghost use Rattle.sm_fields.specs.Format.{bits8, bits32, bits64, number, text as text_of, count as count_of};
ghost use Rattle.sm_fields.specs.Grammar.{BeginsWithNone};
ghost use Rattle.sm_fields.specs.Place.{Takes};
ghost use Rattle.sm_fields.specs.Reads.{Reads};

use crate::fault::FieldFault;
use std::marker::Model;

/// Reads fields one behind the other. A field that does not stand there is not read: the reader stays
/// where it was.
#[derive(Drop)]
pub struct Reader<'a> {
    at: u32,
    rest: &'a [u8],
}

impl<'a> Model for Reader<'a> {
    ghost use Rattle.std.specs.Prelude.{◌+◌, ◌^◌, ◌<◌, length};
    ghost use Rattle.sm_fields.specs.Place.{Place, IsBytes};

    ghost Value = { Place };

    ghost view = { λ r. record { at = r.at; rest = r.rest.now } };

    ghost invariant = { (λ r. (r.at + length r.rest.now < 2 ^ 32) × IsBytes r.rest.now) };
}

impl<'a> Reader<'a> {
    /// A reader of these bytes, fewer than `2^32 - 1`, that stands at the first.
    pub fn new(bytes: &'a [u8]) -> Reader<'a>
        requires { length bytes.now < 2 ^ 32 - 1 }
        ensures { result ≡ record { at = 0; rest = bytes.now } }
    {
        Reader { at: 0, rest: bytes }
    }

    /// A number of one byte.
    pub fn u8(&mut self) -> Result<u8, FieldFault>
        ensures read { Reads (λ n. n) (number bits8) self.old result self.new }
        ensures found { IfOk result (λ n. Takes (number bits8) self.old n self.new) }
        ensures none { IfErr result (λ _. BeginsWithNone (number bits8) self.old.rest) }
        ensures fault { IfErr result (λ fault. (fault.at ≡ self.old.at) × (self.new ≡ self.old)) }
    {
        if self.rest.is_empty() {
            return Err(FieldFault { at: self.at });
        }
        let (front, rest) = self.rest.split_at(1);
        self.rest = rest;
        self.at += 1;
        Ok(front[0])
    }

    /// A number of four bytes.
    pub fn u32(&mut self) -> Result<u32, FieldFault>
        ensures read { Reads (λ n. n) (number bits32) self.old result self.new }
        ensures found { IfOk result (λ n. Takes (number bits32) self.old n self.new) }
        ensures none { IfErr result (λ _. BeginsWithNone (number bits32) self.old.rest) }
        ensures fault { IfErr result (λ fault. (fault.at ≡ self.old.at) × (self.new ≡ self.old)) }
    {
        if self.rest.len() < 4 {
            return Err(FieldFault { at: self.at });
        }
        let (front, rest) = self.rest.split_at(4);
        self.rest = rest;
        self.at += 4;
        Ok(u32::from_be_bytes([front[0], front[1], front[2], front[3]]))
    }

    /// A number of eight bytes.
    pub fn u64(&mut self) -> Result<u64, FieldFault>
        ensures read { Reads (λ n. n) (number bits64) self.old result self.new }
        ensures found { IfOk result (λ n. Takes (number bits64) self.old n self.new) }
        ensures none { IfErr result (λ _. BeginsWithNone (number bits64) self.old.rest) }
        ensures fault { IfErr result (λ fault. (fault.at ≡ self.old.at) × (self.new ≡ self.old)) }
    {
        if self.rest.len() < 8 {
            return Err(FieldFault { at: self.at });
        }
        let (front, rest) = self.rest.split_at(8);
        self.rest = rest;
        self.at += 8;
        Ok(u64::from_be_bytes([
            front[0], front[1], front[2], front[3], front[4], front[5], front[6], front[7],
        ]))
    }

    /// A text of at most `max` bytes.
    pub fn text(&mut self, max: u8) -> Result<&'a [u8], FieldFault>
        ensures read { Reads (λ t. t.now) (text_of max) self.old result self.new }
        ensures found { IfOk result (λ t. Takes (text_of max) self.old t.now self.new) }
        ensures none { IfErr result (λ _. BeginsWithNone (text_of max) self.old.rest) }
        ensures fault { IfErr result (λ fault. (fault.at ≡ self.old.at) × (self.new ≡ self.old)) }
    {
        let fault = FieldFault { at: self.at };
        let Some((len, rest)) = self.rest.split_first() else {
            return Err(fault);
        };
        let len = *len;
        if len > max || (len as usize) > rest.len() {
            return Err(fault);
        }
        let (text, rest) = rest.split_at(len as usize);
        self.rest = rest;
        self.at += 1 + len as u32;
        Ok(text)
    }

    /// A number of at most `max`, in four bytes.
    pub fn count(&mut self, max: u32) -> Result<u32, FieldFault>
        ensures read { Reads (λ n. n) (count_of max) self.old result self.new }
        ensures found { IfOk result (λ n. Takes (count_of max) self.old n self.new) }
        ensures none { IfErr result (λ _. BeginsWithNone (count_of max) self.old.rest) }
        ensures fault { IfErr result (λ fault. (fault.at ≡ self.old.at) × (self.new ≡ self.old)) }
    {
        let fault = FieldFault { at: self.at };
        if self.rest.len() < 4 {
            return Err(fault);
        }
        let (front, rest) = self.rest.split_at(4);
        let value = u32::from_be_bytes([front[0], front[1], front[2], front[3]]);
        if value > max {
            return Err(fault);
        }
        self.rest = rest;
        self.at += 4;
        Ok(value)
    }

    /// That no byte is left; the first one that is left is the fault.
    pub fn end(&self) -> Result<(), FieldFault>
        ensures ok { IsOk result ↔ (self.now.rest ≡ []) }
        ensures fault { IfErr result (λ fault. fault.at ≡ self.now.at) }
    {
        match self.rest.len() {
            0 => Ok(()),
            _ => Err(FieldFault { at: self.at }),
        }
    }
}

impl FieldFault {
    /// The fault of the field that starts where the reader stands: for a value that breaks a condition of
    /// its record.
    pub fn here(reader: &Reader) -> FieldFault
        ensures { result.at ≡ reader.now.at }
    {
        FieldFault { at: reader.at }
    }
}
