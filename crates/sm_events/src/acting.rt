// One event on a node.
ghost use Rattle.std.specs.Prelude.{◌≡◌, true, Some, IfOk};
ghost use Rattle.sm_model.specs.Answer.{answer};
ghost use Rattle.sm_model.specs.Answers.{Answer};
ghost use Rattle.sm_model.specs.InRange.{IsGiven, IsThere};
ghost use Rattle.sm_model.specs.Sound.{SoundUp};
ghost use Rattle.sm_model.specs.Telling.{told_by};
ghost use Rattle.sm_shape.specs.Blanked.{blanked};
ghost use Rattle.sm_node.specs.Nodes.{IsUp, world_of};
ghost use Rattle.sm_node.specs.Acts.{Acts};
ghost use Rattle.sm_node.specs.Served.{first_of};
ghost use Rattle.sm_node.specs.Snapping.{IdentsAreNew};
ghost use Rattle.sm_events.specs.Served.{is_of_policies, is_of_relations, IsServed};

use crate::listing::show_relations;
use crate::policies::{add_rule, create_policy};
use crate::relating::relate;
use crate::tables::show_policies;
use sm_disk::Disk;
use sm_model::{Event, Reply};
use sm_node::{Node, NodeFault, copied};
use std::alloc::Global;

fn is_of_policies(event: &Event) -> bool
    ensures { result ≡ is_of_policies event.now }
{
    matches!(
        event,
        Event::CreatePolicy { .. } | Event::AddRule { .. } | Event::ShowPolicies
    )
}

// An event on policies.
fn act_on_policies<D: Disk + Drop>(
    alloc: Global,
    node: &mut Node<D>,
    event: &Event,
) -> Result<(Reply, Reply), NodeFault>
    requires up { IsUp node.old }
    requires policies { is_of_policies event.now ≡ true }
    requires given { IsGiven event.now }

    ensures acts { (a : Answer) × (answer (world_of node.old) event.now ≡ Some a) × Acts D.state a node.old (first_of result) node.new }
    ensures twice { IfOk result (λ replies. told_by replies.1 ≡ told_by replies.0) }
{
    node.told_up();
    match event {
        Event::CreatePolicy { name, kind } => create_policy(alloc, node, name, *kind),
        Event::AddRule {
            name,
            label,
            keep,
            preserve,
        } => add_rule(alloc, node, name, label, *keep, *preserve),
        Event::ShowPolicies => copied(alloc, show_policies(alloc, node)),
        _ => unreachable!(),
    }
}

fn is_of_relations(event: &Event) -> bool
    ensures { result ≡ is_of_relations event.now }
{
    matches!(event, Event::Relate { .. } | Event::ShowRelations)
}

// An event on relationships.
fn act_on_relations<D: Disk + Drop>(
    alloc: Global,
    node: &mut Node<D>,
    event: &Event,
) -> Result<(Reply, Reply), NodeFault>
    requires up { IsUp node.old }
    requires relations { is_of_relations event.now ≡ true }
    requires sound { SoundUp (blanked (world_of node.old)) }

    ensures acts { (a : Answer) × (answer (world_of node.old) event.now ≡ Some a) × Acts D.state a node.old (first_of result) node.new }
    ensures twice { IfOk result (λ replies. told_by replies.1 ≡ told_by replies.0) }
{
    node.told_up();
    match event {
        Event::Relate {
            source,
            destination,
            policy,
        } => relate(alloc, node, source, destination, policy),
        Event::ShowRelations => copied(alloc, show_relations(alloc, node)),
        _ => unreachable!(),
    }
}

/// Does one event on a node that is up. All memory is taken before the first device is called, also that of the
/// second reply: it tells what the first tells, and is there to be kept.
///
/// # Errors
///
/// [`NodeFault::Down`] only where that disk's count of faults rose in this call: the node is down then.
/// [`NodeFault::NoMemory`] leaves it as it was.
pub fn act<D: Disk + Drop>(
    alloc: Global,
    node: &mut Node<D>,
    event: &Event,
) -> Result<(Reply, Reply), NodeFault>
    requires up { IsUp node.old }
    requires served { IsServed event.now }
    requires given { IsGiven event.now }
    requires there { IsThere (world_of node.old) event.now }
    requires sound { SoundUp (blanked (world_of node.old)) }
    requires new { IdentsAreNew (world_of node.old) }

    ensures acts { (a : Answer) × (answer (world_of node.old) event.now ≡ Some a) × Acts D.state a node.old (first_of result) node.new }
    ensures twice { IfOk result (λ replies. told_by replies.1 ≡ told_by replies.0) }
{
    if is_of_policies(event) {
        act_on_policies(alloc, node, event)
    } else if is_of_relations(event) {
        act_on_relations(alloc, node, event)
    } else {
        node.act(alloc, event)
    }
}
