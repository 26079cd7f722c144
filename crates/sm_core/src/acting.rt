// One event, whether the node is up or down.
ghost use Rattle.std.specs.Prelude.{◌≡◌, None, [], ◌∷◌, ◌++◌, IfOk, OnErr};
ghost use Rattle.sm_history.specs.Log.{HasPlace};
ghost use Rattle.sm_history.specs.Acts.{entry};
ghost use Rattle.sm_history.specs.declared.fault.ActFault.TheVariants.{NoMemory as OutOfMemory};
ghost use Rattle.sm_model.specs.declared.reply.Reply.{Reply as PlainReply};
ghost use Rattle.sm_model.specs.InRange.{IsGiven, IsThere};
ghost use Rattle.sm_model.specs.LegalRun.{IsAsked};
ghost use Rattle.sm_model.specs.Telling.{told_by};
ghost use Rattle.sm_node.specs.Nodes.{world_of};
ghost use Rattle.sm_events.specs.Served.{IsServed};
ghost use Rattle.sm_core.specs.Falling.{IsCatalogue, IsSoundNow, world_now};
ghost use Rattle.sm_core.specs.Doing.{DoesOne, IsServedIn};

use crate::down::Down;
use laws_blank::{blanked_stays_sound, identities_are_new};
use sm_base::{DiskNo, NoMemory, Refusal, Side};
use sm_disk::Disk;
use sm_history::{ActFault, History};
use sm_model::{Entry, Event, Reply};
use sm_node::{Node, NodeFault};
use std::alloc::Global;
use std::snapshot::Snapshot;

// Does an event on a node that is up. Two replies that tell the same: one to keep, and one to hand on.
fn try_event<D: Disk + Drop>(
    alloc: Global,
    node: &mut Node<D>,
    down: &mut Option<Down<D>>,
    actor: u32,
    event: &Event,
) -> Result<(Reply, Reply), NoMemory>
    requires up { down.old ≡ None }
    requires stands { IsCatalogue D.state down.old node.old }
    requires sound { IsSoundNow down.old node.old }
    requires served { IsServed event.now }
    requires given { IsGiven event.now }
    requires there { IsThere (world_of node.old) event.now }

    ensures ok { IfOk result (λ replies. DoesOne D.state actor event.now replies.0 down.old node.old down.new node.new) }
    ensures twice { IfOk result (λ replies. told_by replies.0 ≡ told_by replies.1) }
    ensures same_node { OnErr result (node.new ≡ node.old) }
    ensures same_down { OnErr result (down.new ≡ down.old) }
{
    blanked_stays_sound();
    identities_are_new();
    let before = Snapshot::of(&*node);
    match sm_events::act(alloc, node, event) {
        Ok(replies) => Ok(replies),
        Err(NodeFault::Down { disk, faults }) => {
            node.told();
            *down = Some(Down {
                disk,
                side: Side::Before,
                actor,
                event: Snapshot::of(event),
                node: before,
            });
            Ok((
                Reply::Refused(Refusal::DiskFault { disk, faults }),
                Reply::Refused(Refusal::DiskFault { disk, faults }),
            ))
        }
        Err(NodeFault::NoMemory) => Err(NoMemory),
    }
}

// While the node is down, an event is answered so, and no device is called.
fn still_down(disk: DiskNo) -> (Reply, Reply)
    ensures kept { result.0 ≡ Reply.Refused (Refusal.Down disk) }
    ensures twice { told_by result.0 ≡ told_by result.1 }
{
    (
        Reply::Refused(Refusal::Down { disk }),
        Reply::Refused(Refusal::Down { disk }),
    )
}

/// Does an event, whether the node is up or down. Two replies that tell the same: one to keep, and one to hand on.
pub fn reply_to<D: Disk + Drop>(
    alloc: Global,
    node: &mut Node<D>,
    down: &mut Option<Down<D>>,
    actor: u32,
    event: &Event,
) -> Result<(Reply, Reply), NoMemory>
    requires stands { IsCatalogue D.state down.old node.old }
    requires sound { IsSoundNow down.old node.old }
    requires asked { IsAsked (world_now down.old node.old) event.now }
    requires served { IsServedIn (world_now down.old node.old) event.now }

    ensures ok { IfOk result (λ replies. DoesOne D.state actor event.now replies.0 down.old node.old down.new node.new) }
    ensures twice { IfOk result (λ replies. told_by replies.0 ≡ told_by replies.1) }
    ensures same_node { OnErr result (node.new ≡ node.old) }
    ensures same_down { OnErr result (down.new ≡ down.old) }
{
    match down {
        Some(since) => Ok(still_down(since.disk)),
        None => try_event(alloc, node, down, actor, event),
    }
}

/// Puts the entry of an event at the place that is reserved, unless there was no memory for the event.
pub fn keep(
    history: &mut History,
    actor: u32,
    line: u32,
    event: Event,
    replies: Result<(Reply, Reply), NoMemory>,
) -> Result<Reply, ActFault>
    requires { HasPlace history.old }

    ensures kept { IfOk result (λ reply. (kept : PlainReply) × (replies ≡ Ok (kept, reply)) × (history.new.entries ≡ history.old.entries ++ entry actor line event kept ∷ [])) }
    ensures starved { OnErr result ((e : _) × (replies ≡ Err e) × (history.new ≡ history.old)) }
    ensures fault { OnErr result (result ≡ Err OutOfMemory) }
    ensures limit { history.new.limit ≡ history.old.limit }
    ensures room { HasPlace history.old }
{
    match replies {
        Ok((kept, reply)) => {
            history.push(Entry {
                actor,
                line,
                event,
                reply: kept,
            });
            Ok(reply)
        }
        Err(NoMemory) => Err(ActFault::NoMemory),
    }
}
