//! A root read from its record.

ghost use Rattle.std.specs.Prelude.{◌≡◌, ◌-◌, ◌^◌, ◌<◌, ℕ, List, Ok, Err, IfOk, IfErr, IfSome, length};
ghost use Rattle.sm_fields.specs.Grammar.{FirstFault};
ghost use Rattle.sm_fields.specs.Reading.{whole};
ghost use Rattle.sm_fields.specs.Reads.{Gives, Tells};
ghost use Rattle.sm_root.specs.declared.root.Root.{Root};
ghost use Rattle.sm_root.specs.Answer.{bad_byte, OrNoMemory};
ghost use Rattle.sm_root.specs.ByTable.{images_by_table, body_by_table, record_by_table};
ghost use Rattle.sm_root.specs.Condition.{IsRoot};
ghost use Rattle.sm_root.specs.Layout.{root_record};
ghost use Rattle.sm_root.specs.Spelling.{spelling};

use crate::fault::RootFault;
use crate::maps::read_map;
use crate::parts::{Sizes, read_sizes};
use crate::root::Root;
use crate::snapshots::read_snapshots;
use crate::{MAGIC, RECORD_SNAPSHOTS};
use sm_fields::{Reader, read_head};
use std::alloc::Global;

/// The maps and the snapshots behind the sizes, with a table that has a place for each number.
#[tactic(auto, unfolding(crate::specs::ByTable::images_by_table))]
fn read_images(
    alloc: Global,
    reader: &mut Reader,
    sizes: Sizes,
    table: &mut [u32],
) -> Result<Root, RootFault>
    ensures { Gives bad_byte (λ r. r) (images_by_table table.old sizes) reader.old result reader.new }
{
    let stable = read_map(alloc, reader, sizes.logical, table)?;
    let count = reader.count(RECORD_SNAPSHOTS)?;
    let snapshots = read_snapshots(alloc, reader, count, sizes.logical, table)?;
    Ok(Root {
        number: sizes.number,
        kind: sizes.kind,
        family: sizes.family,
        logical: sizes.logical,
        physical: sizes.physical,
        next: sizes.next,
        stable,
        snapshots,
    })
}

#[tactic(auto, unfolding(crate::specs::ByTable::body_by_table))]
fn read_body(alloc: Global, reader: &mut Reader) -> Result<Root, RootFault>
    ensures { Gives bad_byte (λ r. r) body_by_table reader.old result reader.new }
{
    let sizes = read_sizes(reader)?;
    let mut table = vec![in alloc; 0u32; sizes.physical as usize + 1]?;
    read_images(alloc, reader, sizes, &mut table)
}

/// A record that fills the bytes.
#[tactic(auto, unfolding(crate::specs::ByTable::record_by_table))]
fn read_record(alloc: Global, bytes: &[u8]) -> Result<Root, RootFault>
    requires { length bytes.now < 2 ^ 32 - 1 }
    ensures { Tells bad_byte (λ r. r) result (whole (record_by_table (length bytes.now)) bytes.now) }
{
    let behind = (bytes.len() as u32).saturating_sub(12);
    let mut reader = Reader::new(bytes);
    read_head(&mut reader, &MAGIC, behind)?;
    let root = read_body(alloc, &mut reader)?;
    reader.end()?;
    Ok(root)
}

/// The root that the bytes spell, all of them, fewer than `2^32 - 1`.
///
/// A magic word that differs is a fault at its first byte that differs, also where the bytes end
/// before it; a stated length that is not the number of the bytes behind it is a fault at its first
/// byte.
pub fn decode(alloc: Global, bytes: &[u8]) -> Result<Root, RootFault>
    requires { length bytes.now < 2 ^ 32 - 1 }

    // What is read is a root, and spelled so.
    ensures found { IfOk result (λ r. IsRoot r × (bytes.now ≡ spelling r)) }

    // What is spelled so is read, unless memory runs out.
    ensures only { (r : Root) → IsRoot r → bytes.now ≡ spelling r → OrNoMemory result (Ok r) }

    // A fault is the first, and the first fault is told, unless memory runs out.
    ensures first { IfErr result (λ e. IfSome (bad_byte e) (FirstFault (root_record (length bytes.now)) bytes.now)) }
    ensures fault { (at : ℕ) → FirstFault (root_record (length bytes.now)) bytes.now at → OrNoMemory result (Err (RootFault.Bad at)) }
{
    read_record(alloc, bytes)
}
