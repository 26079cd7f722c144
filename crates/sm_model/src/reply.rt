use crate::event::Event;
use crate::world::WorldRule;
use sm_base::{
    Block, Ident, Kind, Label, Path, Path1, PolicyKind, Reason, Refusal, RelNo, SnapName, VolNo,
};
use sm_defs::{MirrorState, Status4};
use std::marker::Model;

/// The rules of a policy, in the order in which they were added.
#[derive(Debug, Drop)]
pub struct Rules {
    pub rules: Vec<WorldRule>,
}

impl Model for Rules {
    ghost use Rattle.std.specs.Prelude.{List};
    ghost use Rattle.sm_defs.specs.Relationship.{Rule};

    ghost Value = { List Rule };

    ghost view = { λ r. r.rules.items };
}

/// How a destination stands and what its relationship does.
#[derive(Clone, Copy, Debug, PartialEq, Eq)]
pub struct Condition {
    pub state: MirrorState,
    pub status: Status4,
}

/// The number of a transfer, and why it does not run where it does not.
#[derive(Clone, Copy, Debug, PartialEq, Eq)]
pub struct Course {
    pub number: u64,
    pub stopped: Option<Reason>,
}

/// A line of the report or of a table.
#[derive(Debug, Drop)]
pub enum Line {
    /// How many volumes, relationships and policies stand, and the clock in seconds since 1970.
    Head {
        volumes: u32,
        relationships: u32,
        policies: u32,
        clock: u64,
    },
    /// A volume with its sizes and used blocks, all in blocks, and its number of snapshots.
    Volume {
        volume: VolNo,
        path: Path,
        kind: Kind,
        blocks: u32,
        physical: u32,
        used: u32,
        snapshots: u32,
    },
    /// The SHA-256 of the active image: of all logical blocks in order, holes as zeros.
    Active {
        volume: VolNo,
        digest: [u8; 32],
    },
    /// A snapshot, the time in seconds since 1970, its maker's relationship or 0 for a client, and the
    /// SHA-256 of its image.
    Snapshot {
        volume: VolNo,
        name: SnapName,
        ident: Ident,
        label: Option<Label>,
        time: u64,
        made: u32,
        digest: [u8; 32],
    },
    /// A snapshot as a table lists it, without its digest.
    Listed {
        volume: VolNo,
        name: SnapName,
        ident: Ident,
        label: Option<Label>,
        time: u64,
        made: u32,
    },
    /// A relationship. It has no condition where its destination half is gone.
    Relationship {
        relation: RelNo,
        source: Path,
        destination: Path,
        policy: Path1,
        condition: Option<Condition>,
        base: Option<Ident>,
        transfer: Option<Course>,
    },
    /// A policy with its rules.
    Policy {
        name: Path1,
        kind: PolicyKind,
        rules: Rules,
    },
}

/// The lines of a table.
#[derive(Debug, Drop)]
pub struct Lines {
    pub lines: Vec<Line>,
}

impl Model for Lines {
    ghost use Rattle.std.specs.Prelude.{List};
    ghost use Rattle.sm_model.specs.declared.reply.Line.{Line};

    ghost Value = { List Line };

    ghost view = { λ l. l.lines.items };
}

/// What an event is answered.
#[derive(Drop)]
pub enum Reply {
    Done,
    /// The volume that was made.
    Created {
        volume: VolNo,
    },
    /// The identity of the snapshot that was taken.
    Snapped {
        ident: Ident,
    },
    /// The relationship that was made.
    Related {
        relation: RelNo,
    },
    /// The transfer that was started, and how many snapshots it is to send.
    Started {
        transfer: u64,
        legs: u32,
    },
    /// The transfer that goes on, and how many blocks its first leg has already.
    Resumed {
        transfer: u64,
        checkpoint: u32,
    },
    /// There is nothing to transfer.
    Nothing,
    /// The transfer was stopped, and keeps so many blocks of its first leg.
    Kept {
        checkpoint: u32,
    },
    /// The transfer is gone.
    Ended,
    /// The transfer that was started, what it goes back to, and how many snapshots it is to send.
    Resyncing {
        transfer: u64,
        common: Ident,
        legs: u32,
    },
    /// The block that was read, in a box, so that an entry stays small.
    Bytes {
        block: Box<Block>,
    },
    /// A line of the report.
    Line {
        line: Line,
    },
    /// A table with its lines.
    Table {
        lines: Lines,
    },
    /// The destination went back to its base and let so many snapshots go.
    Reverted {
        relation: RelNo,
        dropped: u32,
    },
    /// The transfer's own snapshot was taken on the source.
    Prepared {
        relation: RelNo,
        ident: Ident,
    },
    /// The destination let so many snapshots go.
    Pruned {
        relation: RelNo,
        dropped: u32,
    },
    /// A block went to the destination: which of the first leg's missing blocks, and how many these are.
    Shipped {
        relation: RelNo,
        index: u32,
        cost: u32,
    },
    /// So many blocks of the first leg are on the destination whatever happens.
    Checked {
        relation: RelNo,
        prefix: u32,
    },
    /// The destination shows the snapshot, and let so many others go.
    Published {
        relation: RelNo,
        ident: Ident,
        dropped: u32,
    },
    /// The relationship's base now; `ended` where the transfer had no leg left before.
    Settled {
        relation: RelNo,
        base: Ident,
        ended: bool,
    },
    /// The volume let so many snapshots go that transfers had made.
    Tidied {
        volume: VolNo,
        dropped: u32,
    },
    /// The transfer cannot go on.
    Interrupted {
        relation: RelNo,
        reason: Reason,
    },
    /// No step is due.
    Idle,
    Refused(Refusal),
}

/// An entry of the history: an event with its reply, the actor that made it, 0 for the script and the
/// report, and the script's line from 1, or 0 for none.
#[derive(Drop)]
pub struct Entry {
    pub actor: u32,
    pub line: u32,
    pub event: Event,
    pub reply: Reply,
}
