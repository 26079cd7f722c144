// The relationships of a catalogue, by their numbers.
ghost use Rattle.std.specs.Prelude.{◌≡◌, None, map};
ghost use Rattle.sm_defs.specs.Words.{Ascends};
ghost use Rattle.sm_catroot.specs.Condition.{number_of};
ghost use Rattle.sm_core.specs.Falling.{world_now};
ghost use Rattle.sm_core.specs.Next.{IsNext, IsNextIn, AreNumbered};

use crate::catalogue::Catalogue;
use crate::down::Down;
use sm_base::RelNo;
use sm_catroot::Catalog;
use sm_disk::Disk;
use sm_node::Node;
use sm_relation::Relation;

// The first of the numbers, which ascend, that is above this one.
fn first_above(relations: &[Relation], after: u32) -> Option<RelNo>
    requires { Ascends (map number_of relations.now) }
    ensures { IsNext (map number_of relations.now) after result }
{
    for relation in relations {
        if relation.number.0 > after {
            return Some(relation.number);
        }
    }
    None
}

fn relations_of(catalog: &Catalog) -> &[Relation]
    ensures { result.now ≡ catalog.now.relations }
{
    &catalog.relations
}

fn next_of<D: Disk + Drop>(node: &Node<D>, down: &Option<Down<D>>, after: u32) -> Option<RelNo>
    ensures next { IsNextIn (world_now down.now node.now) after result }
    ensures order { AreNumbered (world_now down.now node.now) }
{
    match down {
        Some(_) => None,
        None => {
            node.told();
            first_above(relations_of(node.catalog()), after)
        }
    }
}

impl<D: Disk + Drop> Catalogue<D> {
    /// The lowest number above this one of a relationship that stands; none exactly where there is none or the
    /// node is down. The relationships stand in the order of their numbers, from 1 on.
    pub fn next_relation(&self, after: u32) -> Option<RelNo>
        ensures next { IsNextIn self.now.world after result }
        ensures order { AreNumbered self.now.world }
    {
        next_of(&self.node, &self.down, after)
    }
}
