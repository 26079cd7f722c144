//! Volumes with their paths and disks.

ghost use Rattle.std.specs.Prelude.{◌≡◌, ◌&&◌, ◌-◌, ◌++◌, ◌∷◌, [], not, IfOk};
ghost use Rattle.std.specs.List.{list_any};
ghost use Rattle.std.specs.Str.{bytes_eq};
ghost use Rattle.sm_base.specs.Name.{is_part};
ghost use Rattle.sm_fields.specs.Format.{text, such_that, in_turn};
ghost use Rattle.sm_fields.specs.Reads.{Gives, at_byte};
ghost use Rattle.sm_register.specs.Answer.{bad_byte};
ghost use Rattle.sm_catroot.specs.Layout.{path as path_format, placed as placed_format, volumes as volumes_format, volume_list as list_format};

use crate::placed::Placed;
use sm_base::limits::MOST_VOLUMES;
use sm_base::{DiskNo, NameFault, Path, Path1};
use sm_fields::{FieldFault, Reader};
use sm_register::DecodeFault;
use std::alloc::Global;

/// A part of a path.
pub fn read_part(alloc: Global, reader: &mut Reader) -> Result<Path1, DecodeFault>
    ensures { Gives bad_byte (λ n. n) (such_that (text 64) is_part) reader.old result reader.new }
{
    let here = FieldFault::here(reader);
    let text = reader.text(64)?;
    match Path1::read(alloc, text) {
        Ok(name) => Ok(name),
        Err(NameFault::BadName) => Err(DecodeFault::Bad { at: here.at }),
        Err(NameFault::NoMemory) => Err(DecodeFault::NoMemory),
    }
}

/// Two parts with a `:` between them, as a path.
fn join(alloc: Global, first: &Path1, second: &Path1) -> Result<Path, DecodeFault>
    ensures joined { IfOk result (λ path. path ≡ first.now ++ 58 ∷ second.now) }
    ensures only { (at : _) → result ≡ Err (DecodeFault.Bad at) → ⊥ }
{
    let mut text = Vec::from_slice(alloc, first.text())?;
    text.push(b':')?;
    text.extend_from_slice(second.text())?;
    match Path::read(alloc, &text) {
        Ok(path) => Ok(path),
        Err(NameFault::NoMemory) => Err(DecodeFault::NoMemory),
        Err(NameFault::BadName) => unreachable!(),
    }
}

#[tactic(auto, unfolding(crate::specs::Layout::path))]
fn read_path(alloc: Global, reader: &mut Reader) -> Result<Path, DecodeFault>
    ensures { Gives bad_byte (λ p. p) path_format reader.old result reader.new }
{
    let first = read_part(alloc, reader)?;
    let second = read_part(alloc, reader)?;
    join(alloc, &first, &second)
}

fn is_taken(volumes: &[Placed], path: &Path) -> bool
    ensures { result ≡ list_any (λ v. bytes_eq v.path path.now) volumes.now }
{
    volumes
        .iter()
        .any(|placed| placed.path.text() == path.text())
}

/// A path that no volume before has.
fn read_fresh(alloc: Global, reader: &mut Reader, before: &[Placed]) -> Result<Path, DecodeFault>
    ensures { Gives bad_byte (λ p. p) (such_that path_format (λ p. not (list_any (λ v. bytes_eq v.path p) before.now))) reader.old result reader.new }
{
    let here = FieldFault::here(reader);
    let path = read_path(alloc, reader)?;
    if is_taken(before, &path) {
        return Err(DecodeFault::Bad { at: here.at });
    }
    Ok(path)
}

#[tactic(auto, unfolding(crate::specs::Layout::placed))]
fn read_placed(alloc: Global, reader: &mut Reader, before: &[Placed]) -> Result<Placed, DecodeFault>
    ensures { Gives bad_byte (λ v. v) (placed_format before.now) reader.old result reader.new }
{
    let path = read_fresh(alloc, reader, before)?;
    let disk = DiskNo(reader.u32()?);
    Ok(Placed { path, disk })
}

/// So many volumes.
#[tactic(auto, unfolding(crate::specs::Layout::volumes))]
fn read_volumes(alloc: Global, reader: &mut Reader, count: u32) -> Result<Vec<Placed>, DecodeFault>
    ensures { Gives bad_byte (λ v. v.items) (volumes_format count) reader.old result reader.new }
{
    let mut volumes = Vec::new(alloc);
    for _ in 0..count {
        let placed = read_placed(alloc, reader, &volumes)?;
        volumes.push(placed)?;
    }
    Ok(volumes)
}

/// How many volumes, and these.
#[tactic(auto, unfolding(crate::specs::Layout::volume_list))]
pub fn read_volume_list(alloc: Global, reader: &mut Reader) -> Result<Vec<Placed>, DecodeFault>
    ensures { Gives bad_byte (λ l. l.items) list_format reader.old result reader.new }
{
    let count = reader.count(MOST_VOLUMES as u32)?;
    read_volumes(alloc, reader, count)
}
