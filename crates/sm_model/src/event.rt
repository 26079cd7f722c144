ghost use Rattle.std.specs.Prelude.{◌≡◌, IfOk};

use sm_base::{DiskNo, Kind, Label, NoMemory, Path, Path1, PolicyKind, RelNo, SnapName, VolNo};
use std::alloc::Global;

/// What is asked of the node: what a line of a script asks for, a step of a worker, a restart, or a
/// line of the report.
#[derive(Debug, Drop)]
pub enum Event {
    /// Makes a volume on a disk; sizes are in blocks.
    CreateVolume {
        path: Path,
        disk: DiskNo,
        kind: Kind,
        logical: u32,
        physical: u32,
    },
    /// The table of the volumes.
    ShowVolumes,
    /// A client writes 4,096 bytes of `fill` at a block. A block may pass the greatest `u32`, since it
    /// can be one of several that a line counts up to.
    Write {
        path: Path,
        block: u64,
        fill: u8,
    },
    /// A client takes a snapshot at a consistency point.
    Snap {
        path: Path,
        name: SnapName,
        label: Option<Label>,
    },
    /// Deletes the newest snapshot of the name.
    Unsnap {
        path: Path,
        name: SnapName,
    },
    /// The table of a volume's snapshots.
    ShowSnaps {
        path: Path,
    },
    /// Makes a policy.
    CreatePolicy {
        name: Path1,
        kind: PolicyKind,
    },
    /// Gives a policy a rule: how many snapshots of the label are kept, and whether they are kept for good.
    AddRule {
        name: Path1,
        label: Label,
        keep: u32,
        preserve: bool,
    },
    /// The table of the policies.
    ShowPolicies,
    /// Relates a source and a destination by a policy.
    Relate {
        source: Path,
        destination: Path,
        policy: Path1,
    },
    /// Starts the first transfer to a destination, or goes on with it.
    Initialize {
        destination: Path,
    },
    /// Starts a further transfer to a destination, or goes on with one.
    Update {
        destination: Path,
    },
    /// Bars further transfers; one that runs may end.
    Quiesce {
        destination: Path,
    },
    /// Lifts what `Quiesce` bars.
    Resume {
        destination: Path,
    },
    /// Stops a transfer and leaves its checkpoint, or, where `hard`, discards the transfer.
    Abort {
        destination: Path,
        hard: bool,
    },
    /// Makes a destination writable.
    Break {
        destination: Path,
    },
    /// Goes back to the newest common snapshot and updates from there.
    Resync {
        destination: Path,
    },
    /// Takes a relationship's destination half away.
    Delete {
        destination: Path,
    },
    /// Takes a relationship's source half away.
    Release {
        source: Path,
        destination: Path,
    },
    /// The table of the relationships.
    ShowRelations,
    /// Sets the clock, in seconds since 1970.
    Clock {
        time: u64,
    },
    /// A consistency point.
    Cp {
        path: Path,
    },
    /// Reads a block of the active image, or of the newest snapshot of the name.
    Read {
        path: Path,
        name: Option<SnapName>,
        block: u32,
    },
    /// One step of a worker. `shown` where its reply is printed whatever it is.
    Work {
        shown: bool,
    },
    /// Restarts all disks and opens the node again.
    Restart,
    /// The report's first line.
    Head,
    /// The report's line on a volume.
    VolumeLine {
        volume: VolNo,
    },
    /// The report's line on the active image, or on the snapshot at a place of the volume's list.
    Digest {
        volume: VolNo,
        place: Option<u32>,
    },
    /// The report's line on a relationship.
    RelationLine {
        relation: RelNo,
    },
}

/// An equal label, or none.
pub fn copy_label(alloc: Global, label: &Option<Label>) -> Result<Option<Label>, NoMemory>
    ensures { IfOk result (λ copy. copy ≡ label.now) }
{
    match label {
        None => Ok(None),
        Some(label) => Ok(Some(label.copy(alloc)?)),
    }
}

fn copy_name(alloc: Global, name: &Option<SnapName>) -> Result<Option<SnapName>, NoMemory>
    ensures { IfOk result (λ copy. copy ≡ name.now) }
{
    match name {
        None => Ok(None),
        Some(name) => Ok(Some(name.copy(alloc)?)),
    }
}

impl Event {
    /// An equal event.
    pub fn copy(&self, alloc: Global) -> Result<Event, NoMemory>
        ensures { IfOk result (λ event. event ≡ self.now) }
    {
        match self {
            Event::CreateVolume {
                path,
                disk,
                kind,
                logical,
                physical,
            } => Ok(Event::CreateVolume {
                path: path.copy(alloc)?,
                disk: *disk,
                kind: *kind,
                logical: *logical,
                physical: *physical,
            }),
            Event::ShowVolumes => Ok(Event::ShowVolumes),
            Event::Write { path, block, fill } => Ok(Event::Write {
                path: path.copy(alloc)?,
                block: *block,
                fill: *fill,
            }),
            Event::Snap { path, name, label } => Ok(Event::Snap {
                path: path.copy(alloc)?,
                name: name.copy(alloc)?,
                label: copy_label(alloc, label)?,
            }),
            Event::Unsnap { path, name } => Ok(Event::Unsnap {
                path: path.copy(alloc)?,
                name: name.copy(alloc)?,
            }),
            Event::ShowSnaps { path } => Ok(Event::ShowSnaps {
                path: path.copy(alloc)?,
            }),
            Event::CreatePolicy { name, kind } => Ok(Event::CreatePolicy {
                name: name.copy(alloc)?,
                kind: *kind,
            }),
            Event::AddRule {
                name,
                label,
                keep,
                preserve,
            } => Ok(Event::AddRule {
                name: name.copy(alloc)?,
                label: label.copy(alloc)?,
                keep: *keep,
                preserve: *preserve,
            }),
            Event::ShowPolicies => Ok(Event::ShowPolicies),
            Event::Relate {
                source,
                destination,
                policy,
            } => Ok(Event::Relate {
                source: source.copy(alloc)?,
                destination: destination.copy(alloc)?,
                policy: policy.copy(alloc)?,
            }),
            Event::Initialize { destination } => Ok(Event::Initialize {
                destination: destination.copy(alloc)?,
            }),
            Event::Update { destination } => Ok(Event::Update {
                destination: destination.copy(alloc)?,
            }),
            Event::Quiesce { destination } => Ok(Event::Quiesce {
                destination: destination.copy(alloc)?,
            }),
            Event::Resume { destination } => Ok(Event::Resume {
                destination: destination.copy(alloc)?,
            }),
            Event::Abort { destination, hard } => Ok(Event::Abort {
                destination: destination.copy(alloc)?,
                hard: *hard,
            }),
            Event::Break { destination } => Ok(Event::Break {
                destination: destination.copy(alloc)?,
            }),
            Event::Resync { destination } => Ok(Event::Resync {
                destination: destination.copy(alloc)?,
            }),
            Event::Delete { destination } => Ok(Event::Delete {
                destination: destination.copy(alloc)?,
            }),
            Event::Release {
                source,
                destination,
            } => Ok(Event::Release {
                source: source.copy(alloc)?,
                destination: destination.copy(alloc)?,
            }),
            Event::ShowRelations => Ok(Event::ShowRelations),
            Event::Clock { time } => Ok(Event::Clock { time: *time }),
            Event::Cp { path } => Ok(Event::Cp {
                path: path.copy(alloc)?,
            }),
            Event::Read { path, name, block } => Ok(Event::Read {
                path: path.copy(alloc)?,
                name: copy_name(alloc, name)?,
                block: *block,
            }),
            Event::Work { shown } => Ok(Event::Work { shown: *shown }),
            Event::Restart => Ok(Event::Restart),
            Event::Head => Ok(Event::Head),
            Event::VolumeLine { volume } => Ok(Event::VolumeLine { volume: *volume }),
            Event::Digest { volume, place } => Ok(Event::Digest {
                volume: *volume,
                place: *place,
            }),
            Event::RelationLine { relation } => Ok(Event::RelationLine {
                relation: *relation,
            }),
        }
    }
}
