// What a leg's call asks for, tested.
ghost use Rattle.std.specs.Prelude.{◌≡◌, ◌⊎◌, ◌<◌, length, true, IfOk};
ghost use Rattle.sm_bits.specs.Places.{has};
ghost use Rattle.sm_defs.specs.Relationship.{is_mirror};
ghost use Rattle.sm_defs.specs.Volume.{Snapshot};
ghost use Rattle.sm_model.specs.Running.{Running};
ghost use Rattle.sm_transfer.specs.Beginning.{CanBegin};
ghost use Rattle.sm_transfer.specs.Landing.{StandsBySnapshots};
ghost use Rattle.tests_steps.specs.Ready.{IsReady};

use sm_base::PolicyKind;
use sm_bits::BitMap;
use sm_disk::Disk;
use sm_relation::Relation;
use sm_space::Space;
use sm_transfer::{StepFault, Transfer, begin_leg, due_ships_fit};
use sm_volume::Volume;
use std::alloc::Global;

// Why a course ends early.
#[derive(Debug, Drop)]
pub enum Stop {
    // The volumes or the relationship are not what the call asks for.
    Unfit,
    Fault(StepFault),
}

fn is_free(space: &Space, number: u32) -> bool
    ensures { result ≡ true → has space.now number ≡ true }
{
    match space.next_free(number) {
        Some(least) => least == number,
        None => false,
    }
}

fn is_told(held: &BitMap, space: &Space, number: u32) -> bool
    requires { number < length held.now }
    ensures { result ≡ true → (has held.now number ≡ true) ⊎ (has space.now number ≡ true) }
{
    if held.test(number) {
        return true;
    }
    is_free(space, number)
}

// Whether each number that the volume uses is one of its snapshots'.
fn stands_by_snapshots<D: Disk>(volume: &Volume<D>) -> bool
    ensures { result ≡ true → StandsBySnapshots volume.now.volume }
{
    volume.told();
    let held = volume.held();
    let space = volume.space();
    for number in 1..held.len() {
        if !is_told(held, space, number) {
            return false;
        }
    }
    true
}

fn have_room(kind: PolicyKind, one: u32, other: u32) -> bool
    ensures { result ≡ true → is_mirror kind ≡ true → one ≡ other }
{
    match kind {
        PolicyKind::AsyncMirror => one == other,
        PolicyKind::Vault => true,
    }
}

// Whether the two volumes have equal sizes, where they need them.
fn are_alike<D: Disk>(kind: PolicyKind, source: &Volume<D>, destination: &Volume<D>) -> bool
    ensures logical { result ≡ true → source.now.volume.logical ≡ destination.now.volume.logical }
    ensures physical { result ≡ true → is_mirror kind ≡ true → source.now.volume.physical ≡ destination.now.volume.physical }
{
    let one = source.root();
    let other = destination.root();
    if one.logical != other.logical {
        return false;
    }
    have_room(kind, one.physical, other.physical)
}

// Whether a new transfer's first leg is on the source.
fn may_begin<D: Disk>(
    kind: PolicyKind,
    relation: &Relation,
    source: &Volume<D>,
    destination: &Volume<D>,
) -> bool
    ensures { result ≡ true → (x : Running) × (leg : Snapshot) × CanBegin kind relation.now source.now.volume destination.now.volume x leg }
{
    match &relation.transfer {
        None => false,
        Some(transfer) => {
            if transfer.checkpoint != 0 {
                return false;
            }
            let legs = transfer.legs.as_slice();
            if legs.is_empty() {
                return false;
            }
            if !are_alike(kind, source, destination) {
                return false;
            }
            source.has_snapshot(legs[0])
        }
    }
}

// The transfer of a first leg.
pub fn begun<D: Disk>(
    alloc: Global,
    kind: PolicyKind,
    relation: &Relation,
    source: &Volume<D>,
    destination: &Volume<D>,
) -> Result<Transfer, Stop>
    requires source_up { source.now.up ≡ true }
    requires destination_up { destination.now.up ≡ true }
    ensures { IfOk result (λ t. IsReady t.plan source.now destination.now) }
{
    source.told();
    due_ships_fit();
    if !may_begin(kind, relation, source, destination) {
        return Err(Stop::Unfit);
    }
    if !stands_by_snapshots(destination) {
        return Err(Stop::Unfit);
    }
    match begin_leg(alloc, kind, relation, source, destination) {
        Ok(transfer) => Ok(transfer),
        Err(fault) => Err(Stop::Fault(fault)),
    }
}
