// The restart of a node, whether it is up or down. No memory is taken.
ghost use Rattle.std.specs.Prelude.{◌≡◌, ◌<◌, ◌^◌, None, vec_len, vec_capacity};
ghost use Rattle.sm_node.specs.Halved.{IsHalved};
ghost use Rattle.sm_node.specs.Pending.{NothingPending};
ghost use Rattle.sm_core.specs.Falling.{IsCatalogue, IsSoundNow, IsSoundPair, deed_now, world_now};
ghost use Rattle.sm_core.specs.Restarting.{DoesRestart, pair_of, restart_reply};

use crate::down::Down;
use laws_blank::restarts_stay_sound;
use sm_base::{DiskNo, Refusal, Side};
use sm_disk::Disk;
use sm_model::{Event, Reply};
use sm_node::{Node, up_is_halved};
use std::snapshot::Snapshot;

// Since when the node is down; or, where it is up, since a restart that begins now.
fn since<D: Disk + Drop>(node: &Node<D>, down: Option<Down<D>>) -> Down<D>
    requires stands { IsCatalogue D.state down node.now }
    requires sound { IsSoundNow down node.now }

    ensures halved { IsHalved D.state (deed_now result) result.side node.now }
    ensures sound { IsSoundPair (deed_now result) }
    ensures pair { deed_now result ≡ pair_of (world_now down node.now) }
    ensures fresh { down ≡ None → (result.side ≡ Side.Before) × NothingPending node.now }
{
    match down {
        Some(since) => since,
        None => {
            node.told_up();
            up_is_halved::<D>();
            Down {
                disk: DiskNo(0),
                side: Side::Before,
                actor: 0,
                event: Snapshot::of(&Event::Restart),
                node: Snapshot::of(node),
            }
        }
    }
}

/// What a restart is answered.
pub fn answer_of(done: &Result<(), (DiskNo, u64)>) -> Reply
    ensures { result ≡ restart_reply done.now }
{
    match done {
        Ok(()) => Reply::Done,
        Err((disk, faults)) => Reply::Refused(Refusal::DiskFault {
            disk: *disk,
            faults: *faults,
        }),
    }
}

// A count of failures is in the range of its type.
fn told_count(faults: u64)
    ensures { faults < 2 ^ 64 }
{
    let _ = faults;
}

/// Restarts the disks of a node, up to the first that fails, and adds the side that they tell to the sides.
pub fn restart_node<D: Disk + Drop>(
    node: &mut Node<D>,
    down: &mut Option<Down<D>>,
    sides: &mut Vec<Side>,
) -> Result<(), (DiskNo, u64)>
    requires stands { IsCatalogue D.state down.old node.old }
    requires sound { IsSoundNow down.old node.old }
    requires room { vec_len sides.old < vec_capacity sides.old }

    ensures { DoesRestart D.state (restart_reply result) down.old node.old sides.old.items down.new node.new sides.new.items }
{
    restarts_stay_sound();
    let began = since(node, down.take());
    let mut side = began.side;
    match node.restart(&mut side) {
        Ok(()) => {
            sides.push_reserved(side);
            Ok(())
        }
        Err((disk, faults)) => {
            told_count(faults);
            *down = Some(Down {
                disk,
                side,
                actor: began.actor,
                event: began.event,
                node: began.node,
            });
            Err((disk, faults))
        }
    }
}
