ghost use Rattle.std.specs.Prelude.{◌≡◌, IfOk};

use crate::faults::NoMemory;
use crate::names::{Label, Path, Path1, SnapName};
use crate::numbers::{DiskNo, Ident, RelNo};
use std::alloc::Global;

/// Why a transfer does not run.
#[derive(Clone, Copy, Debug, PartialEq, Eq)]
pub enum Reason {
    /// A snapshot of the destination that a relationship needs would have to go, or is not on the source.
    HeldDownstream { ident: Ident, relation: RelNo },
    /// The source may not be written, so that the transfer's own snapshot cannot be made.
    SourceReadOnly,
    /// A volume has its full number of snapshots.
    SnapFull,
    /// The destination of a mirror has block numbers of another family than the source.
    OtherLayout,
    /// The leg needs more blocks than the vault has free; both in blocks.
    NoSpace { need: u32, free: u32 },
    /// An administrator aborted it.
    Aborted,
    /// The node was restarted.
    Restart,
}

/// What there are too many of.
#[derive(Clone, Copy, Debug, PartialEq, Eq)]
pub enum What {
    Volumes,
    Policies,
    Relations,
    Transfers,
}

/// Why an event is not done. A refused event changes nothing, but that a device's failure takes the
/// node down.
#[derive(Debug, Drop)]
pub enum Refusal {
    /// No volume has the path.
    NoVolume { path: Path },
    /// No relationship with its destination half has this destination.
    NoRelation { path: Path },
    /// No policy has the name.
    NoPolicy { name: Path1 },
    /// The volume has no snapshot of the name.
    NoSnapshot { name: SnapName },
    /// The number is no volume's disk.
    NoDisk { disk: DiskNo },
    /// The volume is the destination of this relationship already.
    AlreadyDestination { relation: RelNo },
    /// This relationship needs the snapshot.
    Held { relation: RelNo },
    /// The snapshot would have to go, and this relationship needs it.
    HeldDownstream { ident: Ident, relation: RelNo },
    /// A rule that preserves its label is full.
    KeepReached { label: Label },
    /// There are as many of these as there may be.
    Full { what: What },
    /// The disk is shorter than the volume needs; both in bytes.
    DiskSmall { need: u64, len: u64 },
    /// The time is before the clock, in seconds since 1970.
    ClockBack { now: u64 },
    /// The node is down since this disk failed.
    Down { disk: DiskNo },
    /// The disk failed in this event; its count of faults.
    DiskFault { disk: DiskNo, faults: u64 },
    /// Something of this name stands.
    NameTaken,
    /// Clients may not write the volume.
    ReadOnly,
    /// The volume has no such block.
    BadBlock,
    /// No block of the volume is free.
    NoSpace,
    /// The volume has its full number of snapshots.
    SnapFull,
    /// Another volume lies on the disk.
    DiskTaken,
    /// The two volumes have different sizes.
    SizeMismatch,
    /// The destination lies upstream of the source.
    Cycle,
    /// The destination has nothing to update from.
    Uninitialized,
    /// The destination has snapshots already.
    Initialized,
    /// The destination may be written.
    Writable,
    /// The destination was not broken off.
    NotBroken,
    /// The relationship is quiesced.
    Quiesced,
    /// A transfer stands or runs.
    Transferring,
    /// No transfer stands or runs.
    NoTransfer,
    /// The destination still follows the source.
    Active,
    /// The mirror's volumes have block numbers of different families.
    OtherLayout,
    /// The two volumes have no snapshot in common.
    NoCommon,
    /// The policy's type has no rule with this label or these values.
    WrongRule,
    /// The number of snapshots to keep is outside its range.
    BadKeep,
    /// The label has a rule already.
    RuleTaken,
    /// The policy has as many rules as it may have.
    RulesFull,
}

impl Refusal {
    /// An equal refusal.
    pub fn copy(&self, alloc: Global) -> Result<Refusal, NoMemory>
        ensures { IfOk result (λ refusal. refusal ≡ self.now) }
    {
        Ok(match self {
            Refusal::NoVolume { path } => Refusal::NoVolume {
                path: path.copy(alloc)?,
            },
            Refusal::NoRelation { path } => Refusal::NoRelation {
                path: path.copy(alloc)?,
            },
            Refusal::NoPolicy { name } => Refusal::NoPolicy {
                name: name.copy(alloc)?,
            },
            Refusal::NoSnapshot { name } => Refusal::NoSnapshot {
                name: name.copy(alloc)?,
            },
            Refusal::KeepReached { label } => Refusal::KeepReached {
                label: label.copy(alloc)?,
            },
            Refusal::NoDisk { disk } => Refusal::NoDisk { disk: *disk },
            Refusal::AlreadyDestination { relation } => Refusal::AlreadyDestination {
                relation: *relation,
            },
            Refusal::Held { relation } => Refusal::Held {
                relation: *relation,
            },
            Refusal::HeldDownstream { ident, relation } => Refusal::HeldDownstream {
                ident: *ident,
                relation: *relation,
            },
            Refusal::Full { what } => Refusal::Full { what: *what },
            Refusal::DiskSmall { need, len } => Refusal::DiskSmall {
                need: *need,
                len: *len,
            },
            Refusal::ClockBack { now } => Refusal::ClockBack { now: *now },
            Refusal::Down { disk } => Refusal::Down { disk: *disk },
            Refusal::DiskFault { disk, faults } => Refusal::DiskFault {
                disk: *disk,
                faults: *faults,
            },
            Refusal::NameTaken => Refusal::NameTaken,
            Refusal::ReadOnly => Refusal::ReadOnly,
            Refusal::BadBlock => Refusal::BadBlock,
            Refusal::NoSpace => Refusal::NoSpace,
            Refusal::SnapFull => Refusal::SnapFull,
            Refusal::DiskTaken => Refusal::DiskTaken,
            Refusal::SizeMismatch => Refusal::SizeMismatch,
            Refusal::Cycle => Refusal::Cycle,
            Refusal::Uninitialized => Refusal::Uninitialized,
            Refusal::Initialized => Refusal::Initialized,
            Refusal::Writable => Refusal::Writable,
            Refusal::NotBroken => Refusal::NotBroken,
            Refusal::Quiesced => Refusal::Quiesced,
            Refusal::Transferring => Refusal::Transferring,
            Refusal::NoTransfer => Refusal::NoTransfer,
            Refusal::Active => Refusal::Active,
            Refusal::OtherLayout => Refusal::OtherLayout,
            Refusal::NoCommon => Refusal::NoCommon,
            Refusal::WrongRule => Refusal::WrongRule,
            Refusal::BadKeep => Refusal::BadKeep,
            Refusal::RuleTaken => Refusal::RuleTaken,
            Refusal::RulesFull => Refusal::RulesFull,
        })
    }
}
