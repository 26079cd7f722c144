// One event on a node.
ghost use Rattle.std.specs.Prelude.{◌≡◌, ◌≤◌, Some, IfOk};
ghost use Rattle.sm_base.specs.declared.limits.TheConstants.{LAST_SECOND};
ghost use Rattle.sm_model.specs.Answer.{answer};
ghost use Rattle.sm_model.specs.Answers.{Answer};
ghost use Rattle.sm_model.specs.OfPolicies as policies;
ghost use Rattle.sm_model.specs.OfVolumes as volumes;
ghost use Rattle.sm_model.specs.InRange.{IsCreation, IsGiven, IsThere};
ghost use Rattle.sm_model.specs.Sound.{SoundUp};
ghost use Rattle.sm_model.specs.Telling.{told_by};
ghost use Rattle.sm_shape.specs.Blanked.{blanked};
ghost use Rattle.sm_node.specs.Nodes.{IsUp, world_of};
ghost use Rattle.sm_node.specs.Acts.{Acts};
ghost use Rattle.sm_node.specs.Served.{IsServed, IsSpared, first_of};
ghost use Rattle.sm_node.specs.Snapping.{IdentsAreNew};

use crate::fault::NodeFault;
use crate::node::Node;
use crate::telling::copied;
use sm_base::{DiskNo, Kind, Label, Path, Refusal, SnapName};
use sm_disk::Disk;
use sm_model::{Event, Reply};
use std::alloc::Global;

// A refusal that owns no memory but that of the spare path or name, and an equal one.
fn refused_twice(refusal: Refusal, path: Option<Path>, name: Option<SnapName>) -> (Refusal, Refusal)
    requires { IsSpared path name (Reply.Refused refusal) }
    ensures first { result.0 ≡ refusal }
    ensures second { result.1 ≡ refusal }
{
    match refusal {
        Refusal::NoVolume { path: refused } => match path {
            Some(path) => (
                Refusal::NoVolume { path: refused },
                Refusal::NoVolume { path },
            ),
            None => unreachable!(),
        },
        Refusal::NoSnapshot { name: refused } => match name {
            Some(name) => (
                Refusal::NoSnapshot { name: refused },
                Refusal::NoSnapshot { name },
            ),
            None => unreachable!(),
        },
        Refusal::Held { relation } => (Refusal::Held { relation }, Refusal::Held { relation }),
        Refusal::ClockBack { now } => (Refusal::ClockBack { now }, Refusal::ClockBack { now }),
        Refusal::NameTaken => (Refusal::NameTaken, Refusal::NameTaken),
        Refusal::ReadOnly => (Refusal::ReadOnly, Refusal::ReadOnly),
        Refusal::BadBlock => (Refusal::BadBlock, Refusal::BadBlock),
        Refusal::NoSpace => (Refusal::NoSpace, Refusal::NoSpace),
        Refusal::SnapFull => (Refusal::SnapFull, Refusal::SnapFull),
        Refusal::NoDisk { disk } => (Refusal::NoDisk { disk }, Refusal::NoDisk { disk }),
        Refusal::DiskTaken => (Refusal::DiskTaken, Refusal::DiskTaken),
        Refusal::Full { what } => (Refusal::Full { what }, Refusal::Full { what }),
        Refusal::DiskSmall { need, len } => (
            Refusal::DiskSmall { need, len },
            Refusal::DiskSmall { need, len },
        ),
        _ => unreachable!(),
    }
}

/// A reply that owns no memory but that of the spare path or name, and one that tells the same.
#[tactic(auto, unfolding(sm_model::specs::Telling::told_by))]
pub fn twice(reply: Reply, path: Option<Path>, name: Option<SnapName>) -> (Reply, Reply)
    requires { IsSpared path name reply }
    ensures first { result.0 ≡ reply }
    ensures same { told_by result.1 ≡ told_by result.0 }
{
    match reply {
        Reply::Done => (Reply::Done, Reply::Done),
        Reply::Snapped { ident } => (Reply::Snapped { ident }, Reply::Snapped { ident }),
        Reply::Created { volume } => (Reply::Created { volume }, Reply::Created { volume }),
        Reply::Refused(refusal) => {
            let (first, second) = refused_twice(refusal, path, name);
            (Reply::Refused(first), Reply::Refused(second))
        }
        _ => unreachable!(),
    }
}

impl<D: Disk + Drop> Node<D> {
    fn clock_event(&mut self, alloc: Global, time: u64) -> Result<(Reply, Reply), NodeFault>
        requires up { IsUp self.old }
        requires given { time ≤ LAST_SECOND }

        ensures acts { Acts D.state (policies.set_clock (world_of self.old) time) self.old (first_of result) self.new }
        ensures twice { IfOk result (λ replies. told_by replies.1 ≡ told_by replies.0) }
    {
        match self.set_clock(alloc, time) {
            Ok(reply) => Ok(twice(reply, None, None)),
            Err(fault) => Err(fault),
        }
    }

    // A volume is made.
    fn create_event(
        &mut self,
        alloc: Global,
        path: &Path,
        disk: DiskNo,
        kind: Kind,
        logical: u32,
        physical: u32,
    ) -> Result<(Reply, Reply), NodeFault>
        requires up { IsUp self.old }
        requires given { IsCreation path.now disk.0 logical physical }

        ensures acts { Acts D.state (volumes.create_volume (world_of self.old) path.now disk kind logical physical) self.old (first_of result) self.new }
        ensures twice { IfOk result (λ replies. told_by replies.1 ≡ told_by replies.0) }
    {
        match self.create(alloc, path, disk, kind, logical, physical) {
            Ok(reply) => Ok(twice(reply, None, None)),
            Err(fault) => Err(fault),
        }
    }

    // A consistency point.
    fn cp_event(&mut self, alloc: Global, path: &Path) -> Result<(Reply, Reply), NodeFault>
        requires up { IsUp self.old }

        ensures acts { Acts D.state (volumes.cp (world_of self.old) path.now) self.old (first_of result) self.new }
        ensures twice { IfOk result (λ replies. told_by replies.1 ≡ told_by replies.0) }
    {
        self.told_up();
        let spare = path.copy(alloc)?;
        match self.cp(alloc, path) {
            Ok(reply) => Ok(twice(reply, Some(spare), None)),
            Err(fault) => Err(fault),
        }
    }

    // A client writes a block.
    fn write_event(
        &mut self,
        alloc: Global,
        path: &Path,
        block: u64,
        fill: u8,
    ) -> Result<(Reply, Reply), NodeFault>
        requires up { IsUp self.old }

        ensures acts { Acts D.state (volumes.write (world_of self.old) path.now block fill) self.old (first_of result) self.new }
        ensures twice { IfOk result (λ replies. told_by replies.1 ≡ told_by replies.0) }
    {
        self.told_up();
        let spare = path.copy(alloc)?;
        match self.write(alloc, path, block, fill) {
            Ok(reply) => Ok(twice(reply, Some(spare), None)),
            Err(fault) => Err(fault),
        }
    }

    // A client takes a snapshot.
    fn snap_event(
        &mut self,
        alloc: Global,
        path: &Path,
        name: &SnapName,
        label: &Option<Label>,
    ) -> Result<(Reply, Reply), NodeFault>
        requires up { IsUp self.old }
        requires new { IdentsAreNew (world_of self.old) }

        ensures acts { Acts D.state (volumes.snap (world_of self.old) path.now name.now label.now) self.old (first_of result) self.new }
        ensures twice { IfOk result (λ replies. told_by replies.1 ≡ told_by replies.0) }
    {
        self.told_up();
        let spare = path.copy(alloc)?;
        match self.snap(alloc, path, name, label) {
            Ok(reply) => Ok(twice(reply, Some(spare), None)),
            Err(fault) => Err(fault),
        }
    }

    // A client deletes a snapshot.
    fn unsnap_event(
        &mut self,
        alloc: Global,
        path: &Path,
        name: &SnapName,
    ) -> Result<(Reply, Reply), NodeFault>
        requires up { IsUp self.old }

        ensures acts { Acts D.state (volumes.unsnap (world_of self.old) path.now name.now) self.old (first_of result) self.new }
        ensures twice { IfOk result (λ replies. told_by replies.1 ≡ told_by replies.0) }
    {
        self.told_up();
        let spare = path.copy(alloc)?;
        let spare_name = name.copy(alloc)?;
        match self.unsnap(alloc, path, name) {
            Ok(reply) => Ok(twice(reply, Some(spare), Some(spare_name))),
            Err(fault) => Err(fault),
        }
    }

    /// Does one event on a node that is up. All memory is taken before the first device is called, also that of
    /// the second reply: it tells what the first tells, and is there to be kept.
    ///
    /// # Errors
    ///
    /// [`NodeFault::Down`] only where that disk's count of faults rose in this call: the node is down then.
    /// [`NodeFault::NoMemory`] leaves it as it was.
    pub fn act(&mut self, alloc: Global, event: &Event) -> Result<(Reply, Reply), NodeFault>
        requires up { IsUp self.old }
        requires served { IsServed event.now }
        requires given { IsGiven event.now }
        requires there { IsThere (world_of self.old) event.now }
        requires sound { SoundUp (blanked (world_of self.old)) }
        requires new { IdentsAreNew (world_of self.old) }

        ensures acts { (a : Answer) × (answer (world_of self.old) event.now ≡ Some a) × Acts D.state a self.old (first_of result) self.new }
        ensures twice { IfOk result (λ replies. told_by replies.1 ≡ told_by replies.0) }
    {
        self.told_up();
        match event {
            Event::CreateVolume {
                path,
                disk,
                kind,
                logical,
                physical,
            } => self.create_event(alloc, path, *disk, *kind, *logical, *physical),
            Event::Clock { time } => self.clock_event(alloc, *time),
            Event::Cp { path } => self.cp_event(alloc, path),
            Event::Write { path, block, fill } => self.write_event(alloc, path, *block, *fill),
            Event::Snap { path, name, label } => self.snap_event(alloc, path, name, label),
            Event::Unsnap { path, name } => self.unsnap_event(alloc, path, name),
            Event::Read { path, name, block } => self.read_event(alloc, path, name, *block),
            Event::Digest { volume, place } => self.report_digest(alloc, *volume, *place),
            Event::ShowVolumes => copied(alloc, self.show_volumes(alloc)),
            Event::ShowSnaps { path } => copied(alloc, self.show_snapshots(alloc, path)),
            Event::Head => copied(alloc, self.report_head()),
            Event::VolumeLine { volume } => copied(alloc, self.report_volume(alloc, *volume)),
            Event::RelationLine { relation } => {
                copied(alloc, self.report_relation(alloc, *relation))
            }
            Event::CreatePolicy { .. }
            | Event::AddRule { .. }
            | Event::ShowPolicies
            | Event::Relate { .. }
            | Event::Initialize { .. }
            | Event::Update { .. }
            | Event::Quiesce { .. }
            | Event::Resume { .. }
            | Event::Abort { .. }
            | Event::Break { .. }
            | Event::Resync { .. }
            | Event::Delete { .. }
            | Event::Release { .. }
            | Event::ShowRelations
            | Event::Work { .. }
            | Event::Restart => unreachable!(),
        }
    }
}
