// Blocks and snapshots with their bytes.
ghost use Rattle.std.specs.Prelude.{◌≡◌, IfOk};

use sm_base::{Ident, Kind, Label, NoMemory, SnapName};
use sm_model::copy_label;
use std::alloc::Global;
use std::marker::Model;

/// A block's bytes and the number that it lies at, 0 for a hole.
#[derive(Debug, Drop)]
pub struct PlainBlock {
    pub tag: u32,
    pub bytes: Vec<u8>,
}

impl Model for PlainBlock {
    ghost use Rattle.sm_defs.specs.Image.{Block};

    ghost Value = { Block };

    ghost view = { λ b. record { tag = b.tag; bytes = b.bytes.items } };
}

/// A snapshot with its whole image.
#[derive(Debug, Drop)]
pub struct PlainSnapshot {
    pub ident: Ident,
    pub name: SnapName,
    pub label: Option<Label>,
    pub time: u64,
    /// The number of the relationship that made it, 0 for a client.
    pub maker: u32,
    pub image: Vec<PlainBlock>,
}

impl Model for PlainSnapshot {
    ghost use Rattle.sm_defs.specs.Volume.{Snapshot};

    ghost Value = { Snapshot };

    ghost view = { λ s. record { ident = s.ident; name = s.name; label = s.label; time = s.time; maker = s.maker; image = s.image.items } };
}

/// What a volume shows to a transfer from it.
#[derive(Debug, Drop)]
pub struct PlainSource {
    pub number: u32,
    pub kind: Kind,
    pub snapshots: Vec<PlainSnapshot>,
}

impl Model for PlainSource {
    ghost use Rattle.sm_defs.specs.Legs.{Source};

    ghost Value = { Source };

    ghost view = { λ s. record { number = s.number; kind = s.kind; snapshots = s.snapshots.items } };
}

/// What a transfer sends, oldest first; where reserved, the last is still to be made.
#[derive(Debug, Drop)]
pub struct PlainLegs {
    pub idents: Vec<Ident>,
    pub reserved: bool,
}

impl Model for PlainLegs {
    ghost use Rattle.sm_defs.specs.Legs.{Legs};

    ghost Value = { Legs };

    ghost view = { λ l. record { idents = l.idents.items; reserved = l.reserved } };
}

/// The base of a vault on both sides; both images are empty where there is none.
#[derive(Debug, Drop)]
pub struct PlainBases {
    pub at_source: Vec<PlainBlock>,
    pub at_destination: Vec<PlainBlock>,
}

impl Model for PlainBases {
    ghost use Rattle.sm_defs.specs.Missing.{Bases};

    ghost Value = { Bases };

    ghost view = { λ b. record { at_source = b.at_source.items; at_destination = b.at_destination.items } };
}

impl PlainBlock {
    /// The same block.
    pub fn copy(&self, alloc: Global) -> Result<PlainBlock, NoMemory>
        ensures { IfOk result (λ block. block ≡ self.now) }
    {
        Ok(PlainBlock {
            tag: self.tag,
            bytes: Vec::from_slice(alloc, &self.bytes)?,
        })
    }
}

impl PlainSnapshot {
    /// The same snapshot.
    pub fn copy(&self, alloc: Global) -> Result<PlainSnapshot, NoMemory>
        ensures { IfOk result (λ snapshot. snapshot ≡ self.now) }
    {
        Ok(PlainSnapshot {
            ident: self.ident,
            name: self.name.copy(alloc)?,
            label: copy_label(alloc, &self.label)?,
            time: self.time,
            maker: self.maker,
            image: copy_image(alloc, &self.image)?,
        })
    }
}

/// The same snapshots.
pub fn copy_snapshots(
    alloc: Global,
    snapshots: &[PlainSnapshot],
) -> Result<Vec<PlainSnapshot>, NoMemory>
    ensures { IfOk result (λ copy. copy.items ≡ snapshots.now) }
{
    let mut copy = Vec::new(alloc);
    for snapshot in snapshots {
        copy.push(snapshot.copy(alloc)?)?;
    }
    Ok(copy)
}

/// The same image.
pub fn copy_image(alloc: Global, image: &[PlainBlock]) -> Result<Vec<PlainBlock>, NoMemory>
    ensures { IfOk result (λ copy. copy.items ≡ image.now) }
{
    let mut copy = Vec::new(alloc);
    for block in image {
        copy.push(block.copy(alloc)?)?;
    }
    Ok(copy)
}
