// The table of the relationships.
ghost use Rattle.std.specs.Prelude.{◌≡◌, [], length, map, IfOk};
ghost use Rattle.sm_model.specs.OfReport as reports;
ghost use Rattle.sm_model.specs.Sound.{SoundUp};
ghost use Rattle.sm_shape.specs.Blanked.{blanked};
ghost use Rattle.sm_node.specs.Nodes.{stopped_relation, world_with, world_of, IsUp};
ghost use Rattle.sm_node.specs.Acts.{Acts};
ghost use Rattle.sm_node.specs.Reporting.{RelationsLieWithin};

use sm_base::NoMemory;
use sm_catroot::Catalog;
use sm_disk::Disk;
use sm_model::{Line, Lines, Reply};
use sm_node::{Node, NodeFault, Seat, relation_line};
use std::alloc::Global;

fn relation_lines<D: Disk>(
    alloc: Global,
    catalog: &Catalog,
    seats: &[Seat<D>],
) -> Result<Vec<Line>, NoMemory>
    requires places { length catalog.now.volumes ≡ length seats.now }
    requires within { RelationsLieWithin (world_with catalog.now seats.now []) }
    ensures { IfOk result (λ lines. lines.items ≡ map (λ r. reports.relation_line (world_with catalog.now seats.now []) (stopped_relation r)) catalog.now.relations) }
{
    let mut lines = Vec::new(alloc);
    for relation in &catalog.relations {
        lines.push(relation_line(alloc, catalog, seats, relation)?)?;
    }
    Ok(lines)
}

/// The table of the relationships, by number. No device is called.
pub fn show_relations<D: Disk + Drop>(alloc: Global, node: &Node<D>) -> Result<Reply, NodeFault>
    requires up { IsUp node.now }
    requires sound { SoundUp (blanked (world_of node.now)) }
    ensures { Acts D.state (reports.show_relations (world_of node.now)) node.now result node.now }
{
    node.told_up();
    let lines = relation_lines(alloc, node.catalog(), node.seats())?;
    Ok(Reply::Table {
        lines: Lines { lines },
    })
}
