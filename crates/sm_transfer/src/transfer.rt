// The running word of a leg.
ghost use Rattle.std.specs.Prelude.{◌≡◌, ◌≤◌, ◌<◌, ◌^◌, length, IfOk, None};
ghost use Rattle.sm_defs.specs.Image.{stands};
ghost use Rattle.sm_defs.specs.Progress.{landed_prefix};
ghost use Rattle.sm_transfer.specs.Sending.{IsUnderWay, begun, stopped_by};

use crate::landed::{end_of_landed, forget_from, land_below};
use sm_base::{NoMemory, Reason};
use sm_bits::BitMap;
use sm_select::Plan;
use std::alloc::Global;
use std::marker::Model;

/// The plan of a transfer's first leg, and how far it is.
#[derive(Drop)]
pub struct Transfer {
    pub(crate) plan: Plan,
    // The indexes of the plan's blocks that have landed.
    pub(crate) marks: BitMap,
    // All indexes below it are on the destination's medium.
    pub(crate) checkpoint: u32,
    stopped: Option<Reason>,
}

impl Model for Transfer {
    ghost use Rattle.sm_select.specs.Planned.{members};
    ghost use Rattle.sm_transfer.specs.Sending.{Sending, IsSending};

    ghost Value = { Sending };

    ghost view = { λ t. record { plan = t.plan; landed = members t.marks; checkpoint = t.checkpoint; stopped = t.stopped } };

    ghost invariant = { λ t. IsSending t.plan t.marks t.checkpoint };
}

impl Transfer {
    /// A transfer of this plan that runs on from a checkpoint.
    pub(crate) fn begin(alloc: Global, plan: Plan, checkpoint: u32) -> Result<Transfer, NoMemory>
        requires short { length plan.pairs < 2 ^ 32 }
        requires within { checkpoint ≤ length plan.pairs }
        ensures { IfOk result (λ t. t ≡ begun plan checkpoint) }
    {
        let mut marks = BitMap::new(alloc, plan.pairs.len() as u32)?;
        land_below(&mut marks, checkpoint);
        Ok(Transfer {
            plan,
            marks,
            checkpoint,
            stopped: None,
        })
    }

    /// What holds of every transfer, whenever it is asked.
    pub fn told(&self)
        ensures { IsUnderWay self.now }
    {
        let _checkpoint = self.checkpoint;
    }

    /// How many blocks the leg ships in all.
    pub fn cost(&self) -> u32
        ensures { result ≡ length self.now.plan.pairs }
    {
        self.marks.len()
    }

    /// The map that the destination is to have of the leg.
    pub fn map(&self) -> &[u32]
        ensures { result.now ≡ self.now.plan.map }
    {
        &self.plan.map
    }

    /// Whether the block of an index has landed.
    pub fn landed(&self, index: u32) -> bool
        ensures { result ≡ stands index self.now.landed }
    {
        if index < self.marks.len() {
            self.marks.test(index)
        } else {
            false
        }
    }

    /// How many blocks have landed before the first that has not.
    pub fn prefix(&self) -> u32
        ensures value { result ≡ landed_prefix self.now.landed }
        ensures within { result ≤ length self.now.plan.pairs }
    {
        end_of_landed(&self.marks, self.checkpoint)
    }

    /// Why it does not run; none while it does.
    pub fn stopped(&self) -> Option<Reason>
        ensures { result ≡ self.now.stopped }
    {
        self.stopped
    }

    /// Stops the transfer. What landed past its checkpoint no longer counts.
    pub fn interrupt(&mut self, reason: Reason)
        ensures { self.new ≡ stopped_by reason self.old }
    {
        forget_from(&mut self.marks, self.checkpoint);
        self.stopped = Some(reason);
    }
}
