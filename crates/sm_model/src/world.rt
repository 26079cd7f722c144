// A world as records spell it: images are maps of block numbers, and the bytes lie on the disks.
use sm_base::{
    DiskNo, Ident, Kind, Label, Path, Path1, PolicyKind, Reason, RelNo, SnapName, TransferKind,
    VolNo,
};
use std::marker::Model;

/// How many snapshots of a label a vault keeps, and whether it keeps them for good.
#[derive(Debug, Drop)]
pub struct WorldRule {
    pub label: Label,
    pub keep: u32,
    pub preserve: bool,
}

impl Model for WorldRule {
    ghost use Rattle.sm_defs.specs.Relationship.{Rule};

    ghost Value = { Rule };

    ghost view = { λ r. record { label = r.label; keep = r.keep; preserve = r.preserve } };
}

/// A policy with its rules, in the order in which they were added.
#[derive(Debug, Drop)]
pub struct WorldPolicy {
    pub name: Path1,
    pub kind: PolicyKind,
    pub rules: Vec<WorldRule>,
}

impl Model for WorldPolicy {
    ghost use Rattle.sm_defs.specs.Relationship.{Policy};

    ghost Value = { Policy };

    ghost view = { λ p. record { name = p.name; kind = p.kind; rules = p.rules.items } };
}

/// A transfer. It runs where `stopped` is none; the landed indexes ascend, and `pruned` is false while
/// it does not run.
#[derive(Debug, Drop)]
pub struct WorldTransfer {
    pub number: u64,
    pub kind: TransferKind,
    /// Whether the last leg is a snapshot that the transfer makes itself.
    pub reserved: bool,
    /// How many blocks of the first leg are on the destination whatever happens.
    pub checkpoint: u32,
    /// What it still has to publish, oldest first.
    pub legs: Vec<Ident>,
    pub stopped: Option<Reason>,
    /// Which of the first leg's missing blocks are on the destination.
    pub landed: Vec<u32>,
    /// Whether the destination was pruned since the transfer was started or resumed.
    pub pruned: bool,
}

impl Model for WorldTransfer {
    ghost use Rattle.sm_defs.specs.Relationship.{Transfer};

    ghost Value = { Transfer };

    ghost view = { λ t. record { number = t.number; kind = t.kind; reserved = t.reserved; checkpoint = t.checkpoint; legs = t.legs.items; stopped = t.stopped; landed = t.landed.items; pruned = t.pruned } };
}

/// A relationship between two volumes, by a policy that is named by its place.
#[derive(Debug, Drop)]
pub struct WorldRelation {
    pub number: RelNo,
    pub source: VolNo,
    pub destination: VolNo,
    pub policy: u32,
    pub source_half: bool,
    pub destination_half: bool,
    pub quiesced: bool,
    pub base: Option<Ident>,
    pub transfer: Option<WorldTransfer>,
}

impl Model for WorldRelation {
    ghost use Rattle.sm_defs.specs.Relationship.{Relationship};

    ghost Value = { Relationship };

    ghost view = { λ r. record { number = r.number.0; source = r.source.0; destination = r.destination.0; policy = r.policy; source_half = r.source_half; destination_half = r.destination_half; quiesced = r.quiesced; base = r.base; transfer = r.transfer } };
}

/// A snapshot; `made` is its maker's relationship or 0 for a client, the time is in seconds since 1970,
/// and `map` has a block number for each logical block, 0 for a hole.
#[derive(Debug, Drop)]
pub struct WorldSnapshot {
    pub ident: Ident,
    pub name: SnapName,
    pub label: Option<Label>,
    pub time: u64,
    pub made: u32,
    pub map: Vec<u32>,
}

/// A volume with its snapshots, oldest first; sizes are in blocks.
#[derive(Debug, Drop)]
pub struct WorldVolume {
    pub path: Path,
    pub disk: DiskNo,
    pub kind: Kind,
    pub family: u64,
    pub logical: u32,
    pub physical: u32,
    /// The number of the next snapshot that a client takes, from 1.
    pub next: u64,
    pub active: Vec<u32>,
    pub stable: Vec<u32>,
    pub snapshots: Vec<WorldSnapshot>,
}

/// All that stands. `disks` has the length of each disk, in bytes, by its number.
#[derive(Debug, Drop)]
pub struct World {
    pub clock: u64,
    pub next_relation: u32,
    pub next_transfer: u64,
    pub volumes: Vec<WorldVolume>,
    pub policies: Vec<WorldPolicy>,
    pub relations: Vec<WorldRelation>,
    pub disks: Vec<u64>,
}

/// Why disks stand for no world, in the order of the tests.
#[derive(Clone, Copy, Debug, PartialEq, Eq)]
pub enum OpenKind {
    /// There is no disk 0, a volume's disk number is not a disk, or two volumes name one disk.
    NoDisk,
    /// A disk is shorter than its record needs.
    Short,
    /// The selected slot has no record of the grammar.
    Record,
    /// A volume's record has the form of an earlier version.
    OldFormat,
    /// A volume's record is that of another volume.
    Number,
    /// A relationship does not fit its volumes or the other relationships.
    Cross,
    /// The world that the records spell is not sound.
    Shape,
    /// A copy of a snapshot differs from the copy on the lowest volume that has it.
    Differs,
    /// The disk failed.
    Fault,
}
