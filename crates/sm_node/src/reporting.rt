// The lines of the report that no device is asked for.
ghost use Rattle.std.specs.Prelude.{◌≡◌, ◌<◌, ◌≤◌, ℕ, ◌==◌, List, [], length, position, IfOk};
ghost use Rattle.sm_base.specs.declared.limits.TheConstants.{MOST_VOLUMES, MOST_RELATIONS, MOST_POLICIES};
ghost use Rattle.sm_defs.specs.Edges.{status};
ghost use Rattle.sm_model.specs.OfReport as reports;
ghost use Rattle.sm_catroot.specs.Catalog.{Catalog as PlainCatalog};
ghost use Rattle.sm_defs.specs.World.{volume_at};
ghost use Rattle.sm_model.specs.InRange.{HasRelation};
ghost use Rattle.sm_node.specs.Nodes.{stopped_relation, world_with, world_of, IsUp};
ghost use Rattle.sm_node.specs.Acts.{Acts};
ghost use Rattle.sm_node.specs.Reporting.{RelationsLieWithin};

use crate::fault::NodeFault;
use crate::node::Node;
use crate::seat::Seat;
use crate::showing::volume_line;
use crate::states::state_at;
use sm_base::{NoMemory, Reason, RelNo, VolNo};
use sm_catroot::Catalog;
use sm_defs::Status4;
use sm_disk::Disk;
use sm_model::{Condition, Course, Line, Reply};
use sm_relation::{Relation, Standing};
use std::alloc::Global;

// The report's first line.
fn head_line<D: Disk>(catalog: &Catalog, seats: &[Seat<D>]) -> Line
    requires few_volumes { length catalog.now.volumes ≤ MOST_VOLUMES }
    requires few_relations { length catalog.now.relations ≤ MOST_RELATIONS }
    requires few_policies { length catalog.now.policies ≤ MOST_POLICIES }
    requires as_many { length catalog.now.volumes ≡ length seats.now }
    ensures { (lengths : List ℕ) → result ≡ reports.head_line (world_with catalog.now seats.now lengths) }
{
    let _ = seats;
    Line::Head {
        volumes: catalog.volumes.len() as u32,
        relationships: catalog.relations.len() as u32,
        policies: catalog.policies.len() as u32,
        clock: catalog.clock,
    }
}

// What a relationship does whose transfer does not run.
fn status_of(relation: &Relation) -> Status4
    ensures { result ≡ status (stopped_relation relation.now) }
{
    if relation.quiesced {
        Status4::Quiesced
    } else {
        Status4::Idle
    }
}

fn condition<D: Disk>(seats: &[Seat<D>], relation: &Relation) -> Option<Condition>
    ensures { (catalog : PlainCatalog) (lengths : List ℕ) → length catalog.volumes ≡ length seats.now → result ≡ reports.condition (world_with catalog seats.now lengths) (stopped_relation relation.now) }
{
    if relation.destination_half {
        Some(Condition {
            state: state_at(seats, relation.destination.0),
            status: status_of(relation),
        })
    } else {
        None
    }
}

// A transfer that stands does not run since the node was opened or restarted.
fn course(relation: &Relation) -> Option<Course>
    ensures { result ≡ reports.course (stopped_relation relation.now).transfer }
{
    match &relation.transfer {
        None => None,
        Some(Standing { number, .. }) => Some(Course {
            number: *number,
            stopped: Some(Reason::Restart),
        }),
    }
}

/// The line of a relationship, whose volumes and policy stand. No device is called.
pub fn relation_line<D: Disk>(
    alloc: Global,
    catalog: &Catalog,
    seats: &[Seat<D>],
    relation: &Relation,
) -> Result<Line, NoMemory>
    requires as_many { length catalog.now.volumes ≡ length seats.now }
    requires source { relation.now.source.0 < length catalog.now.volumes }
    requires destination { relation.now.destination.0 < length catalog.now.volumes }
    requires policy { relation.now.policy < length catalog.now.policies }
    ensures { IfOk result (λ line. (lengths : List ℕ) → line ≡ reports.relation_line (world_with catalog.now seats.now lengths) (stopped_relation relation.now)) }
{
    let source = &catalog.volumes[relation.source.0 as usize];
    let destination = &catalog.volumes[relation.destination.0 as usize];
    let policy = &catalog.policies[relation.policy as usize];
    Ok(Line::Relationship {
        relation: relation.number,
        source: source.path.copy(alloc)?,
        destination: destination.path.copy(alloc)?,
        policy: policy.name().copy(alloc)?,
        condition: condition(seats, relation),
        base: relation.base,
        transfer: course(relation),
    })
}

// The place of the relationship of the number.
fn place_of(relations: &[Relation], number: RelNo) -> Option<usize>
    ensures { result ≡ position (λ r. r.number.0 == number.0) relations.now }
{
    relations
        .iter()
        .position(|relation| relation.number.0 == number.0)
}

// The line of the volume of the number.
fn volume_line_at<D: Disk>(
    alloc: Global,
    catalog: &Catalog,
    seats: &[Seat<D>],
    number: VolNo,
) -> Result<Line, NoMemory>
    requires as_many { length catalog.now.volumes ≡ length seats.now }
    requires there { number.0 < length seats.now }
    ensures { IfOk result (λ line. (lengths : List ℕ) → line ≡ reports.volume_line number (volume_at (world_with catalog.now seats.now lengths) number.0)) }
{
    let placed = &catalog.volumes[number.0 as usize];
    volume_line(alloc, number, placed, &seats[number.0 as usize])
}

// The line of the relationship of the number.
fn line_of<D: Disk>(
    alloc: Global,
    catalog: &Catalog,
    seats: &[Seat<D>],
    number: RelNo,
) -> Result<Line, NoMemory>
    requires as_many { length catalog.now.volumes ≡ length seats.now }
    requires within { RelationsLieWithin (world_with catalog.now seats.now []) }
    requires there { HasRelation (world_with catalog.now seats.now []) number.0 }
    ensures { IfOk result (λ line. (lengths : List ℕ) → line ≡ reports.relation_line (world_with catalog.now seats.now lengths) (reports.numbered (world_with catalog.now seats.now lengths) number)) }
{
    let Some(at) = place_of(&catalog.relations, number) else {
        unreachable!()
    };
    relation_line(alloc, catalog, seats, &catalog.relations[at])
}

impl<D: Disk + Drop> Node<D> {
    /// The report's first line. No device is called.
    pub fn report_head(&self) -> Result<Reply, NodeFault>
        requires up { IsUp self.now }
        ensures { Acts D.state (reports.head (world_of self.now)) self.now result self.now }
    {
        self.told_up();
        let line = head_line(self.catalog(), self.seats());
        Ok(Reply::Line { line })
    }

    /// The report's line on a volume, by its number. No device is called.
    pub fn report_volume(&self, alloc: Global, number: VolNo) -> Result<Reply, NodeFault>
        requires up { IsUp self.now }
        requires there { number.0 < length (world_of self.now).volumes }
        ensures { Acts D.state (reports.of_volume (world_of self.now) number) self.now result self.now }
    {
        self.told_up();
        let line = volume_line_at(alloc, self.catalog(), self.seats(), number)?;
        Ok(Reply::Line { line })
    }

    /// The report's line on a relationship, by its number. No device is called.
    pub fn report_relation(&self, alloc: Global, number: RelNo) -> Result<Reply, NodeFault>
        requires up { IsUp self.now }
        requires within { RelationsLieWithin (world_of self.now) }
        requires there { HasRelation (world_of self.now) number.0 }
        ensures { Acts D.state (reports.of_relation (world_of self.now) number) self.now result self.now }
    {
        self.told_up();
        let line = line_of(alloc, self.catalog(), self.seats(), number)?;
        Ok(Reply::Line { line })
    }
}
