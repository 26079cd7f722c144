//! The fields of a root and of a snapshot, but for maps and identities.

ghost use Rattle.std.specs.Prelude.{◌≡◌, ◌&&◌, nat_le, IfOk};
ghost use Rattle.sm_base.specs.Name.{is_snapshot_name};
ghost use Rattle.sm_fields.specs.Format.{bits32, bits64, number, text, such_that};
ghost use Rattle.sm_fields.specs.Reads.{Gives, at_byte};
ghost use Rattle.sm_root.specs.Answer.{bad_byte};
ghost use Rattle.sm_root.specs.Layout.{kind as kind_format, label as label_format, sizes as sizes_format, words as words_format};

use crate::fault::RootFault;
use crate::head::Head;
use sm_base::limits::{LAST_NUMBER, MOST_LOGICAL, MOST_PHYSICAL};
use sm_base::{Ident, Kind, Label, NameFault, SnapName, VolNo};
use sm_fields::{FieldFault, Reader};
use std::alloc::Global;

/// The sizes and numbers at the front of a root.
#[derive(Debug, Drop)]
pub struct Sizes {
    pub number: VolNo,
    pub kind: Kind,
    pub family: u64,
    pub logical: u32,
    pub physical: u32,
    pub next: u64,
}

#[tactic(auto, unfolding(crate::specs::Layout::kind))]
fn read_kind(reader: &mut Reader) -> Result<Kind, FieldFault>
    ensures { Gives at_byte (λ k. k) kind_format reader.old result reader.new }
{
    let here = FieldFault::here(reader);
    match reader.u8()? {
        0 => Ok(Kind::Rw),
        1 => Ok(Kind::Dp),
        _ => Err(here),
    }
}

/// A number of four bytes, from `least` to `most`.
fn read_within(reader: &mut Reader, least: u32, most: u32) -> Result<u32, FieldFault>
    ensures { Gives at_byte (λ n. n) (such_that (number bits32) (λ n. nat_le least n && nat_le n most)) reader.old result reader.new }
{
    let here = FieldFault::here(reader);
    let value = reader.u32()?;
    if value < least || value > most {
        return Err(here);
    }
    Ok(value)
}

/// The number of a client's next snapshot.
fn read_next(reader: &mut Reader) -> Result<u64, FieldFault>
    ensures { Gives at_byte (λ n. n) (such_that (number bits64) (λ n. nat_le 1 n && nat_le n LAST_NUMBER)) reader.old result reader.new }
{
    let here = FieldFault::here(reader);
    let value = reader.u64()?;
    if value < 1 || value > LAST_NUMBER {
        return Err(here);
    }
    Ok(value)
}

#[tactic(auto, unfolding(crate::specs::Layout::sizes))]
pub fn read_sizes(reader: &mut Reader) -> Result<Sizes, FieldFault>
    ensures { Gives at_byte (λ s. s) sizes_format reader.old result reader.new }
{
    let number = VolNo(reader.u32()?);
    let kind = read_kind(reader)?;
    let family = reader.u64()?;
    let logical = read_within(reader, 1, MOST_LOGICAL)?;
    let physical = read_within(reader, logical, MOST_PHYSICAL)?;
    let next = read_next(reader)?;
    Ok(Sizes {
        number,
        kind,
        family,
        logical,
        physical,
        next,
    })
}

fn read_name(alloc: Global, reader: &mut Reader) -> Result<SnapName, RootFault>
    ensures { Gives bad_byte (λ n. n) (such_that (text 64) is_snapshot_name) reader.old result reader.new }
{
    let here = FieldFault::here(reader);
    let text = reader.text(64)?;
    match SnapName::read(alloc, text) {
        Ok(name) => Ok(name),
        Err(NameFault::BadName) => Err(RootFault::Bad { at: here.at }),
        Err(NameFault::NoMemory) => Err(RootFault::NoMemory),
    }
}

#[tactic(auto, unfolding(crate::specs::Layout::label))]
fn read_label(alloc: Global, reader: &mut Reader) -> Result<Option<Label>, RootFault>
    ensures { Gives bad_byte (λ l. l) label_format reader.old result reader.new }
{
    let here = FieldFault::here(reader);
    let text = reader.text(31)?;
    if text.is_empty() {
        return Ok(None);
    }
    match Label::read(alloc, text) {
        Ok(label) => Ok(Some(label)),
        Err(NameFault::BadName) => Err(RootFault::Bad { at: here.at }),
        Err(NameFault::NoMemory) => Err(RootFault::NoMemory),
    }
}

#[tactic(auto, unfolding(crate::specs::Layout::words))]
/// What stands of a snapshot of this identity before its map.
pub fn read_words(alloc: Global, reader: &mut Reader, ident: Ident) -> Result<Head, RootFault>
    ensures reads { Gives bad_byte (λ h. h) (words_format ident) reader.old result reader.new }
    ensures ident { IfOk result (λ h. h.ident ≡ ident) }
{
    let name = read_name(alloc, reader)?;
    let label = read_label(alloc, reader)?;
    let time = reader.u64()?;
    let made = reader.u32()?;
    Ok(Head {
        ident,
        name,
        label,
        time,
        made,
    })
}
