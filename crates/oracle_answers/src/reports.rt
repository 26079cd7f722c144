// What the tables and the events of the report are answered. They leave the world.
ghost use Rattle.std.specs.Prelude.{◌≡◌, ◌==◌, IfOk, map, position};
ghost use Rattle.sm_defs.specs.World.{volume_at, no_relation};
ghost use Rattle.sm_model.specs.Answers.{volno};
ghost use Rattle.sm_model.specs.OfReport as model;
ghost use Rattle.oracle_world.specs.Finding.{IsFound};
ghost use Rattle.oracle_volumes.specs.Answering.{Answers};

use crate::lines::{
    active_line, listed_line, policy_line, relation_line, snapshot_line, volume_line, volume_of,
};
use oracle_lists::PlainSnapshot;
use oracle_relations::relation;
use oracle_volumes::{place_of, refuse_path};
use oracle_world::{PlainFault, PlainNumber, PlainVolume, PlainWorld, small, snapshots_at};
use sm_base::{NoMemory, Path, RelNo, VolNo};
use sm_model::{Line, Lines, Reply, WorldRelation};
use sm_policy::Policy;
use std::alloc::Global;

fn volume_lines(alloc: Global, first: u32, volumes: &[PlainVolume]) -> Result<Vec<Line>, PlainFault>
    ensures { IfOk result (λ lines. lines.items ≡ model.volume_lines first volumes.now) }
{
    match volumes {
        [] => Ok(Vec::new(alloc)),
        [volume, others @ ..] => {
            if first == u32::MAX {
                return Err(PlainFault::TooGreat {
                    number: PlainNumber::Count,
                });
            }
            let line = volume_line(alloc, VolNo(first), volume)?;
            let mut lines = volume_lines(alloc, first + 1, others)?;
            lines.insert(0, line)?;
            Ok(lines)
        }
    }
}

/// The table of the volumes.
pub fn show_volumes(world: &PlainWorld, alloc: Global) -> Result<Reply, PlainFault>
    ensures { IfOk result (λ reply. Answers world.now (model.show_volumes world.now) reply world.now) }
{
    let lines = volume_lines(alloc, 0, &world.volumes)?;
    Ok(Reply::Table {
        lines: Lines { lines },
    })
}

fn listed_lines(
    alloc: Global,
    number: VolNo,
    snapshots: &[PlainSnapshot],
) -> Result<Vec<Line>, NoMemory>
    ensures { IfOk result (λ lines. lines.items ≡ map (model.listed_line number) snapshots.now) }
{
    match snapshots {
        [] => Ok(Vec::new(alloc)),
        [snapshot, newer @ ..] => {
            let line = listed_line(alloc, number, snapshot)?;
            let mut lines = listed_lines(alloc, number, newer)?;
            lines.insert(0, line)?;
            Ok(lines)
        }
    }
}

fn lines_at(alloc: Global, world: &PlainWorld, at: usize) -> Result<Vec<Line>, PlainFault>
    ensures { IfOk result (λ lines. lines.items ≡ map (model.listed_line (volno at)) (volume_at world.now at).snapshots) }
{
    let number = VolNo(small(at)?);
    Ok(listed_lines(alloc, number, snapshots_at(world, at))?)
}

/// The table of a volume's snapshots.
pub fn show_snapshots(world: &PlainWorld, alloc: Global, path: &Path) -> Result<Reply, PlainFault>
    ensures { IfOk result (λ reply. Answers world.now (model.show_snapshots world.now path.now) reply world.now) }
{
    let Some(at) = place_of(world, path) else {
        return refuse_path(alloc, path);
    };
    let lines = lines_at(alloc, world, at)?;
    Ok(Reply::Table {
        lines: Lines { lines },
    })
}

fn policy_lines(alloc: Global, policies: &[Policy]) -> Result<Vec<Line>, NoMemory>
    ensures { IfOk result (λ lines. lines.items ≡ map model.policy_line policies.now) }
{
    match policies {
        [] => Ok(Vec::new(alloc)),
        [policy, others @ ..] => {
            let line = policy_line(alloc, policy)?;
            let mut lines = policy_lines(alloc, others)?;
            lines.insert(0, line)?;
            Ok(lines)
        }
    }
}

/// The table of the policies.
pub fn show_policies(world: &PlainWorld, alloc: Global) -> Result<Reply, PlainFault>
    ensures { IfOk result (λ reply. Answers world.now (model.show_policies world.now) reply world.now) }
{
    let lines = policy_lines(alloc, &world.policies)?;
    Ok(Reply::Table {
        lines: Lines { lines },
    })
}

fn relation_lines(
    alloc: Global,
    world: &PlainWorld,
    relations: &[WorldRelation],
) -> Result<Vec<Line>, PlainFault>
    ensures { IfOk result (λ lines. lines.items ≡ map (model.relation_line world.now) relations.now) }
{
    match relations {
        [] => Ok(Vec::new(alloc)),
        [relation, others @ ..] => {
            let line = relation_line(alloc, world, relation)?;
            let mut lines = relation_lines(alloc, world, others)?;
            lines.insert(0, line)?;
            Ok(lines)
        }
    }
}

/// The table of the relationships.
pub fn show_relations(world: &PlainWorld, alloc: Global) -> Result<Reply, PlainFault>
    ensures { IfOk result (λ reply. Answers world.now (model.show_relations world.now) reply world.now) }
{
    let lines = relation_lines(alloc, world, &world.relations)?;
    Ok(Reply::Table {
        lines: Lines { lines },
    })
}

/// The report's first line.
pub fn head(world: &PlainWorld) -> Result<Reply, PlainFault>
    ensures { IfOk result (λ reply. Answers world.now (model.head world.now) reply world.now) }
{
    Ok(Reply::Line {
        line: Line::Head {
            volumes: small(world.volumes.len())?,
            relationships: small(world.relations.len())?,
            policies: small(world.policies.len())?,
            clock: world.clock,
        },
    })
}

/// The report's line on a volume.
pub fn of_volume(world: &PlainWorld, alloc: Global, number: VolNo) -> Result<Reply, PlainFault>
    ensures { IfOk result (λ reply. Answers world.now (model.of_volume world.now number) reply world.now) }
{
    let volume = volume_of(world, number)?;
    Ok(Reply::Line {
        line: volume_line(alloc, number, volume)?,
    })
}

fn digest_line(
    alloc: Global,
    number: VolNo,
    volume: &PlainVolume,
    place: Option<u32>,
) -> Result<Line, PlainFault>
    ensures { IfOk result (λ line. line ≡ model.digest_line number volume.now place) }
{
    match place {
        None => Ok(active_line(number, volume)),
        Some(place) => {
            let place = place as usize;
            if place >= volume.snapshots.len() {
                return Err(PlainFault::TooGreat {
                    number: PlainNumber::Place,
                });
            }
            Ok(snapshot_line(alloc, number, &volume.snapshots[place])?)
        }
    }
}

/// The report's line on the active image, or on the snapshot at a place of the volume's list.
pub fn of_image(
    world: &PlainWorld,
    alloc: Global,
    number: VolNo,
    place: Option<u32>,
) -> Result<Reply, PlainFault>
    ensures { IfOk result (λ reply. Answers world.now (model.of_image world.now number place) reply world.now) }
{
    let volume = volume_of(world, number)?;
    Ok(Reply::Line {
        line: digest_line(alloc, number, volume, place)?,
    })
}

fn first_numbered(relations: &[WorldRelation], number: RelNo) -> Option<usize>
    ensures { result ≡ position (λ r. r.number == number.0) relations.now }
{
    relations.iter().position(|r| r.number.0 == number.0)
}

fn place_numbered(relations: &[WorldRelation], number: RelNo) -> Option<usize>
    ensures { IsFound (λ r. r.number == number.0) relations.now no_relation result }
{
    first_numbered(relations, number)
}

fn numbered(world: &PlainWorld, number: RelNo) -> Result<&WorldRelation, PlainFault>
    ensures { IfOk result (λ r. r.now ≡ model.numbered world.now number) }
{
    let Some(at) = place_numbered(&world.relations, number) else {
        return Err(PlainFault::TooGreat {
            number: PlainNumber::Place,
        });
    };
    Ok(relation(world, at))
}

/// The report's line on a relationship.
pub fn of_relation(world: &PlainWorld, alloc: Global, number: RelNo) -> Result<Reply, PlainFault>
    ensures { IfOk result (λ reply. Answers world.now (model.of_relation world.now number) reply world.now) }
{
    let relation = numbered(world, number)?;
    Ok(Reply::Line {
        line: relation_line(alloc, world, relation)?,
    })
}
