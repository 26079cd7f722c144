// Prepare.
ghost use Rattle.std.specs.Prelude.{◌≡◌, ◌==◌, ◌<◌, ◌≤◌, not, true, length, Some, None, IfOk, string_bytes};
ghost use Rattle.sm_base.specs.Name.{is_snapshot_name};
ghost use Rattle.sm_base.specs.declared.limits.TheConstants.{LAST_NUMBER, MOST_SNAPSHOTS};
ghost use Rattle.sm_base.specs.declared.refusal.Reason.TheVariants as reasons;
ghost use Rattle.sm_defs.specs.Legs.{made_ident};
ghost use Rattle.sm_defs.specs.Made.{made_name};
ghost use Rattle.sm_defs.specs.Volume.{is_rw};
ghost use Rattle.sm_defs.specs.World.{Up};
ghost use Rattle.sm_relation.specs.declared.relation.Standing.{Standing as PlainStanding};
ghost use Rattle.sm_model.specs.Due.{reason_if};
ghost use Rattle.sm_model.specs.Running.{Running};
ghost use Rattle.sm_publish.specs.Preparing.{MayPrepare, IsPrepareOf, Prepares};

use crate::committing::answered;
use sm_base::limits::MOST_SNAPSHOTS;
use sm_base::{Ident, Kind, NameFault, NoMemory, Reason, SnapName};
use sm_disk::Disk;
use sm_relation::Relation;
use sm_root::Root;
use sm_transfer::StepFault;
use sm_volume::Volume;
use std::alloc::Global;

fn made_text(alloc: Global, relation: u32, transfer: u64) -> Result<String, NoMemory>
    ensures { IfOk result (λ text. string_bytes text ≡ made_name relation transfer) }
{
    Ok(format!(in alloc; "snapmirror.{relation}.{transfer}")?)
}

// A text of the grammar as a name.
fn name_of(alloc: Global, text: &[u8]) -> Result<SnapName, NoMemory>
    requires { is_snapshot_name text.now ≡ true }
    ensures { IfOk result (λ name. name ≡ text.now) }
{
    match SnapName::read(alloc, text) {
        Ok(name) => Ok(name),
        Err(NameFault::NoMemory) => Err(NoMemory),
        Err(NameFault::BadName) => unreachable!(),
    }
}

// The name of the snapshot that a transfer makes.
fn made_name(alloc: Global, relation: u32, transfer: u64) -> Result<SnapName, NoMemory>
    requires { transfer < LAST_NUMBER }
    ensures { IfOk result (λ name. name ≡ made_name relation transfer) }
{
    let text = made_text(alloc, relation, transfer)?;
    name_of(alloc, text.as_bytes())
}

// The number of the relationship's transfer.
fn transfer_of(relation: &Relation) -> u64
    requires { (t : PlainStanding) × (relation.now.transfer ≡ Some t) }
    ensures { (t : PlainStanding) → relation.now.transfer ≡ Some t → result ≡ t.number }
{
    match &relation.transfer {
        Some(transfer) => transfer.number,
        None => unreachable!(),
    }
}

// The identity of the snapshot that a transfer makes on a volume.
fn made_ident(volume: u32, transfer: u64) -> Ident
    requires { transfer < LAST_NUMBER }
    ensures { result ≡ made_ident volume transfer }
{
    Ident {
        origin: volume,
        seq: 2 * transfer + 1,
    }
}

fn is_writable(kind: Kind) -> bool
    ensures { result ≡ is_rw kind }
{
    match kind {
        Kind::Rw => true,
        Kind::Dp => false,
    }
}

fn prepare_reason(root: &Root) -> Option<Reason>
    ensures { result ≡ reason_if (not (is_rw root.now.kind)) reasons.SourceReadOnly (reason_if (length root.now.snapshots == MOST_SNAPSHOTS) reasons.SnapFull None) }
{
    if !is_writable(root.kind) {
        Some(Reason::SourceReadOnly)
    } else if root.snapshots.as_slice().len() == MOST_SNAPSHOTS {
        Some(Reason::SnapFull)
    } else {
        None
    }
}

/// Takes the snapshot that a relationship's transfer makes on its source, at a consistency point, and answers its
/// identity. The source has neither that identity nor that name. `time` is the time of the snapshot, in seconds since
/// 1970.
///
/// # Errors
///
/// - [`StepFault::Stopped`] with [`Reason::SourceReadOnly`] where clients don't write the source, else with
///   [`Reason::SnapFull`] where it has its full number of snapshots.
/// - [`StepFault::DiskFault`] with the source where its disk failed; whether it has the snapshot a restart tells.
/// - [`StepFault::NoMemory`] where memory is wanted; the source is then as it was.
pub fn prepare<D: Disk>(
    alloc: Global,
    relation: &Relation,
    source: &mut Volume<D>,
    time: u64,
) -> Result<Ident, StepFault>
    requires up { source.old.up ≡ true }
    requires may { (t : PlainStanding) × MayPrepare relation.now t source.old.volume }

    ensures { (w : Up) (x : Running) → IsPrepareOf w x relation.now time source.old.volume → Prepares D.state w x result source.old source.new }
{
    let transfer = transfer_of(relation);
    let ident = made_ident(relation.source.0, transfer);
    let maker = relation.number.0;
    let root = source.root();
    let volume = root.number;
    match prepare_reason(root) {
        Some(reason) => Err(StepFault::Stopped(reason)),
        None => match made_name(alloc, maker, transfer) {
            Err(_) => Err(StepFault::NoMemory),
            Ok(name) => {
                let done = source.snapshot(alloc, ident, name, None, time, maker);
                answered(done, ident, volume)
            }
        },
    }
}
