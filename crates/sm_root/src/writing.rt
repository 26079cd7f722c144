//! A root written as its record.

ghost use Rattle.std.specs.Prelude.{◌≡◌, ◌++◌, OnOk, IfOk, length, ◌≤◌};
ghost use Rattle.std.specs.List.{flat_map};
ghost use Rattle.sm_root.specs.Condition.{IsRoot};
ghost use Rattle.sm_root.specs.Spelling.{map_bytes, head_of, words_digits, snapshot_bytes, sizes_of, sizes_digits, body_bytes, spelling};

use crate::root::{Root, RootSnapshot};
use crate::{MAGIC, RECORD_SNAPSHOTS};
use sm_base::{Kind, NoMemory};
use sm_fields::{Writer, framed, write_identity};
use std::alloc::Global;

#[tactic(auto, unfolding(crate::specs::Spelling::sizes_digits))]
fn write_sizes(writer: &mut Writer, root: &Root) -> Result<(), NoMemory>
    ensures { OnOk result (writer.new ≡ writer.old ++ sizes_digits (sizes_of root.now)) }
{
    writer.u32(root.number.0)?;
    writer.u8(match root.kind {
        Kind::Rw => 0,
        Kind::Dp => 1,
    })?;
    writer.u64(root.family)?;
    writer.u32(root.logical)?;
    writer.u32(root.physical)?;
    writer.u64(root.next)
}

#[tactic(auto, unfolding(crate::specs::Spelling::map_bytes))]
fn write_map(writer: &mut Writer, numbers: &[u32]) -> Result<(), NoMemory>
    ensures { OnOk result (writer.new ≡ writer.old ++ map_bytes numbers.now) }
{
    for number in numbers {
        writer.u32(*number)?;
    }
    Ok(())
}

#[tactic(auto, unfolding(crate::specs::Spelling::words_digits))]
fn write_words(writer: &mut Writer, snapshot: &RootSnapshot) -> Result<(), NoMemory>
    ensures { OnOk result (writer.new ≡ writer.old ++ words_digits (head_of snapshot.now)) }
{
    writer.text(64, snapshot.name.text())?;
    match &snapshot.label {
        None => writer.text(31, b"")?,
        Some(label) => writer.text(31, label.text())?,
    }
    writer.u64(snapshot.time)?;
    writer.u32(snapshot.made)
}

#[tactic(auto, unfolding(crate::specs::Spelling::snapshot_bytes))]
fn write_snapshot(writer: &mut Writer, snapshot: &RootSnapshot) -> Result<(), NoMemory>
    ensures { OnOk result (writer.new ≡ writer.old ++ snapshot_bytes snapshot.now) }
{
    write_identity(writer, snapshot.ident)?;
    write_words(writer, snapshot)?;
    write_map(writer, snapshot.map.as_slice())
}

fn write_snapshots(writer: &mut Writer, snapshots: &[RootSnapshot]) -> Result<(), NoMemory>
    ensures { OnOk result (writer.new ≡ writer.old ++ flat_map snapshot_bytes snapshots.now) }
{
    for snapshot in snapshots {
        write_snapshot(writer, snapshot)?;
    }
    Ok(())
}

#[tactic(auto, unfolding(crate::specs::Spelling::body_bytes))]
fn write_body(writer: &mut Writer, root: &Root) -> Result<(), NoMemory>
    requires { length root.now.snapshots ≤ RECORD_SNAPSHOTS }
    ensures { OnOk result (writer.new ≡ writer.old ++ body_bytes root.now) }
{
    write_sizes(writer, root)?;
    write_map(writer, root.stable.as_slice())?;
    let snapshots = root.snapshots.as_slice();
    writer.count(RECORD_SNAPSHOTS, snapshots.len() as u32)?;
    write_snapshots(writer, snapshots)
}

/// The one spelling of a root, at most 4,225,204 bytes.
pub fn encode(alloc: Global, root: &Root) -> Result<Vec<u8>, NoMemory>
    requires { IsRoot root.now }
    ensures spelled { IfOk result (λ bytes. bytes.items ≡ spelling root.now) }
    ensures short { IfOk result (λ bytes. length bytes.items ≤ 4225204) }
{
    let mut writer = Writer::new(alloc);
    write_body(&mut writer, root)?;
    framed(alloc, &MAGIC, &writer.end())
}
