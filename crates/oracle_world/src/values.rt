// A world with whole images, and why a plain function gives no answer.
ghost use Rattle.std.specs.Prelude.{◌≡◌, ◌≤◌, ◌^◌, IfOk, OnErr};

use oracle_lists::{PlainBlock, PlainSnapshot};
use sm_base::{DiskNo, Kind, NoMemory, Path, RelNo};
use sm_model::WorldRelation;
use sm_policy::Policy;
use std::alloc::{AllocError, AllocFailed};
use std::marker::Model;

/// A volume with whole images; sizes are in blocks.
#[derive(Debug, Drop)]
pub struct PlainVolume {
    pub path: Path,
    pub disk: DiskNo,
    pub kind: Kind,
    pub family: u64,
    pub logical: u32,
    pub physical: u32,
    /// The number of the next snapshot that a client takes, from 1.
    pub next: u64,
    pub active: Vec<PlainBlock>,
    pub stable: Vec<PlainBlock>,
    /// Oldest first.
    pub snapshots: Vec<PlainSnapshot>,
}

impl Model for PlainVolume {
    ghost use Rattle.sm_defs.specs.Volume.{Volume};

    ghost Value = { Volume };

    ghost view = { λ v. record { path = v.path; disk = v.disk.0; kind = v.kind; family = v.family; logical = v.logical; physical = v.physical; next = v.next; active = v.active.items; stable = v.stable.items; snapshots = v.snapshots.items } };
}

/// All that stands while the node is up. `disks` has the length of each disk, in bytes, by its number.
#[derive(Debug, Drop)]
pub struct PlainWorld {
    /// In seconds since 1970.
    pub clock: u64,
    pub next_relation: u32,
    pub next_transfer: u64,
    pub volumes: Vec<PlainVolume>,
    pub policies: Vec<Policy>,
    /// In the order of their numbers.
    pub relations: Vec<WorldRelation>,
    pub disks: Vec<u64>,
}

impl Model for PlainWorld {
    ghost use Rattle.sm_defs.specs.World.{Up};

    ghost Value = { Up };

    ghost view = { λ w. record { clock = w.clock; next_relation = w.next_relation; next_transfer = w.next_transfer; volumes = w.volumes.items; policies = w.policies.items; relations = w.relations.items; disks = w.disks.items } };
}

/// Which relationships are edges of a walk.
#[derive(Clone, Copy, Debug, PartialEq, Eq)]
pub enum PlainEdges {
    All,
    /// All but those of a number.
    AllBut(RelNo),
    /// Those of mirrors that show a snapshot.
    Mirrors,
}

/// A number of the world, or of an event, that is too great for where it goes.
#[derive(Clone, Copy, Debug, PartialEq, Eq)]
pub enum PlainNumber {
    /// A count of volumes, relationships, policies, snapshots, legs or blocks: 2^32 or more.
    Count,
    /// The place of a volume, a policy or a snapshot, or the number of a relationship: none stands there.
    Place,
    /// The number of a volume's next snapshot: 2^63 or more.
    Snapshot,
    /// The number of a transfer: 2^62 or more.
    Transfer,
    /// The number of the next relationship: 2^32 - 1.
    Relation,
    /// Bytes of a block: another number than 4,096.
    Block,
    /// Bytes of a name or of a label: more than it may have.
    Name,
}

/// Why a plain function gives no answer.
#[derive(Clone, Copy, Debug, PartialEq, Eq)]
pub enum PlainFault {
    /// There is no memory left for this call.
    NoMemory,
    /// This number is too great.
    TooGreat { number: PlainNumber },
}

impl From<NoMemory> for PlainFault {
    ghost use Rattle.std.specs.Prelude.{◌≡◌};
    ghost use Rattle.oracle_world.specs.declared.values.PlainFault.TheVariants.{NoMemory as OutOfMemory};

    ghost from_gives = { λ _ e. e ≡ OutOfMemory };

    fn from(_: NoMemory) -> PlainFault {
        PlainFault::NoMemory
    }
}

impl From<AllocError> for PlainFault {
    ghost use Rattle.std.specs.Prelude.{◌≡◌};
    ghost use Rattle.oracle_world.specs.declared.values.PlainFault.TheVariants.{NoMemory as OutOfMemory};

    ghost from_gives = { λ _ e. e ≡ OutOfMemory };

    fn from(_: AllocError) -> PlainFault {
        PlainFault::NoMemory
    }
}

impl<T: Drop> From<AllocFailed<T>> for PlainFault {
    ghost use Rattle.std.specs.Prelude.{◌≡◌};
    ghost use Rattle.oracle_world.specs.declared.values.PlainFault.TheVariants.{NoMemory as OutOfMemory};

    ghost from_gives = { λ _ e. e ≡ OutOfMemory };

    fn from(_: AllocFailed<T>) -> PlainFault {
        PlainFault::NoMemory
    }
}

/// A count or a place as a number of a reply.
pub fn small(count: usize) -> Result<u32, PlainFault>
    ensures same { IfOk result (λ number. number ≡ count) }
    ensures great { OnErr result (2 ^ 32 ≤ count) }
{
    match u32::try_from(count) {
        Ok(number) => Ok(number),
        Err(_) => Err(PlainFault::TooGreat {
            number: PlainNumber::Count,
        }),
    }
}
