ghost use Rattle.std.specs.Prelude.{◌≡◌, IfOk};

use crate::legs::Legs;
use sm_base::{Ident, NoMemory, Reason, RelNo, TransferKind, VolNo};
use std::alloc::Global;

/// How one volume follows another. Each of its two halves may be missing, never both.
#[derive(Debug, Drop)]
pub struct Relation {
    /// Given once, from 1.
    pub number: RelNo,
    pub source: VolNo,
    pub destination: VolNo,
    /// The policy, by its place in the order of creation, from 0.
    pub policy: u32,
    /// Whether the source knows of it.
    pub source_half: bool,
    /// Whether the destination knows of it.
    pub destination_half: bool,
    /// Whether a further transfer may not start.
    pub quiesced: bool,
    /// The newest snapshot that both volumes have by this relationship.
    pub base: Option<Ident>,
    pub transfer: Option<Standing>,
}

/// A transfer that has not ended.
#[derive(Debug, Drop)]
pub struct Standing {
    /// Given once, from 1.
    pub number: u64,
    /// Which command started it.
    pub kind: TransferKind,
    /// Whether its last leg is the snapshot that it makes itself.
    pub reserved: bool,
    /// So many blocks of the first leg lie on the destination's medium.
    pub checkpoint: u32,
    pub legs: Legs,
    /// Why it does not run; none while it does. No disk keeps it.
    pub stopped: Option<Reason>,
}

impl Standing {
    /// An equal transfer.
    pub fn copy(&self, alloc: Global) -> Result<Standing, NoMemory>
        ensures { IfOk result (λ standing. standing ≡ self.now) }
    {
        Ok(Standing {
            number: self.number,
            kind: self.kind,
            reserved: self.reserved,
            checkpoint: self.checkpoint,
            legs: self.legs.copy(alloc)?,
            stopped: self.stopped,
        })
    }
}

fn copy_standing(alloc: Global, transfer: &Option<Standing>) -> Result<Option<Standing>, NoMemory>
    ensures { IfOk result (λ copy. copy ≡ transfer.now) }
{
    match transfer {
        None => Ok(None),
        Some(transfer) => Ok(Some(transfer.copy(alloc)?)),
    }
}

impl Relation {
    /// An equal relationship.
    pub fn copy(&self, alloc: Global) -> Result<Relation, NoMemory>
        ensures { IfOk result (λ relation. relation ≡ self.now) }
    {
        Ok(Relation {
            number: self.number,
            source: self.source,
            destination: self.destination,
            policy: self.policy,
            source_half: self.source_half,
            destination_half: self.destination_half,
            quiesced: self.quiesced,
            base: self.base,
            transfer: copy_standing(alloc, &self.transfer)?,
        })
    }
}
