ghost use Rattle.std.specs.Prelude.{◌≡◌, ◌==◌, ◌^◌, ◌<◌, ◌++◌, true, length, IfOk, OnOk, OnErr};
ghost use Rattle.sm_fields.specs.Format.{bits8, bits32, number, such_that, truth as truth_of, identity as identity_of, option as option_of, word as word_of, head as head_of};
ghost use Rattle.sm_fields.specs.Grammar.{digits, truth_digits, identity_digits, option_digits};
ghost use Rattle.sm_fields.specs.Reads.{Gives, at_byte};

use crate::fault::FieldFault;
use crate::reader::Reader;
use crate::writer::Writer;
use sm_base::{Ident, NoMemory};
use std::alloc::Global;

/// A truth value; also the byte that says whether an option's value stands behind it.
pub fn read_truth(reader: &mut Reader) -> Result<bool, FieldFault>
    ensures { Gives at_byte (λ b. b) truth_of reader.old result reader.new }
{
    let here = FieldFault::here(reader);
    let value = reader.u8()?;
    if value > 1 {
        return Err(here);
    }
    Ok(value == 1)
}

/// The identity of a snapshot.
pub fn read_identity(reader: &mut Reader) -> Result<Ident, FieldFault>
    ensures { Gives at_byte (λ i. i) identity_of reader.old result reader.new }
{
    let origin = reader.u32()?;
    let seq = reader.u64()?;
    Ok(Ident { origin, seq })
}

/// An identity, or that none stands.
pub fn read_optional_identity(reader: &mut Reader) -> Result<Option<Ident>, FieldFault>
    ensures { Gives at_byte (λ i. i) (option_of identity_of) reader.old result reader.new }
{
    if read_truth(reader)? {
        Ok(Some(read_identity(reader)?))
    } else {
        Ok(None)
    }
}

/// One byte, which must be this one.
fn read_byte(reader: &mut Reader, byte: u8) -> Result<u8, FieldFault>
    ensures { Gives at_byte (λ n. n) (such_that (number bits8) (λ n. n == byte)) reader.old result reader.new }
{
    let here = FieldFault::here(reader);
    let value = reader.u8()?;
    if value != byte {
        return Err(here);
    }
    Ok(value)
}

/// These bytes.
pub fn read_word(reader: &mut Reader, word: &[u8]) -> Result<(), FieldFault>
    ensures { Gives at_byte (λ _. true) (word_of word.now) reader.old result reader.new }
{
    for byte in word {
        read_byte(reader, *byte)?;
    }
    Ok(())
}

/// The head of a record: its magic word, and the number of bytes behind the head, which must be this.
pub fn read_head(reader: &mut Reader, magic: &[u8], behind: u32) -> Result<(), FieldFault>
    ensures { Gives at_byte (λ _. true) (head_of magic.now behind) reader.old result reader.new }
{
    read_word(reader, magic)?;
    let here = FieldFault::here(reader);
    if reader.u32()? != behind {
        return Err(here);
    }
    Ok(())
}

/// A truth value; also the byte that says whether an option's value stands behind it.
#[tactic(auto, unfolding(crate::specs::Grammar::digits))]
pub fn write_truth(writer: &mut Writer, value: bool) -> Result<(), NoMemory>
    ensures ok { OnOk result (writer.new ≡ writer.old ++ truth_digits value) }
    ensures err { OnErr result (writer.new ≡ writer.old) }
{
    if value { writer.u8(1) } else { writer.u8(0) }
}

/// The identity of a snapshot.
pub fn write_identity(writer: &mut Writer, ident: Ident) -> Result<(), NoMemory>
    ensures ok { OnOk result (writer.new ≡ writer.old ++ identity_digits ident) }
    ensures err { OnErr result (writer.new ≡ writer.old) }
{
    writer.identity(ident)
}

/// An identity, or that none stands.
pub fn write_optional_identity(writer: &mut Writer, ident: Option<Ident>) -> Result<(), NoMemory>
    ensures ok { OnOk result (writer.new ≡ writer.old ++ option_digits identity_digits ident) }
    ensures err { OnErr result (writer.new ≡ writer.old) }
{
    match ident {
        None => write_truth(writer, false),
        Some(ident) => writer.some_identity(ident),
    }
}

/// A record: its magic word, the number of bytes behind, and these.
#[tactic(auto, unfolding(crate::specs::Grammar::digits))]
pub fn framed(alloc: Global, magic: &[u8], body: &[u8]) -> Result<Vec<u8>, NoMemory>
    requires { length body.now < 2 ^ 32 }
    ensures { IfOk result (λ bytes. bytes.items ≡ magic.now ++ (digits bits32 (length body.now) ++ body.now)) }
{
    let mut bytes = Vec::from_slice(alloc, magic)?;
    bytes.extend_from_slice(&(body.len() as u32).to_be_bytes())?;
    bytes.extend_from_slice(body)?;
    Ok(bytes)
}
