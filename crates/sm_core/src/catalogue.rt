// A node with its history.
ghost use Rattle.std.specs.Prelude.{◌≡◌, [], IfOk, OnErr};
ghost use Rattle.sm_model.specs.LegalRun.{IsAsked};
ghost use Rattle.sm_model.specs.Sound.{SoundUp};
ghost use Rattle.sm_model.specs.World.{up};
ghost use Rattle.sm_shape.specs.Blanked.{blanked};
ghost use Rattle.sm_node.specs.Nodes.{IsUp, world_of};
ghost use Rattle.sm_core.specs.Faults.{Faults, act_fault};
ghost use Rattle.sm_core.specs.Doing.{ActsOnce, IsServedIn};
ghost use Rattle.sm_core.specs.Restarting.{RestartsOnce};

use crate::acting::{keep, reply_to};
use crate::down::Down;
use crate::restarting::{answer_of, restart_node};
use crate::unchanged::is_unchanged;
use sm_base::Side;
use sm_base::limits::MOST_ENTRIES;
use sm_disk::Disk;
use sm_history::{ActFault, History};
use sm_model::{Entry, Event, Reply};
use sm_node::Node;
use std::alloc::Global;
use std::marker::Model;

/// A node with the history of its events. Contracts see its world, its history, the sides that restarts found, and
/// the node.
#[derive(Drop)]
pub struct Catalogue<D: Disk + Drop> {
    pub(crate) node: Node<D>,
    pub(crate) down: Option<Down<D>>,
    pub(crate) history: History,
    pub(crate) sides: Vec<Side>,
}

impl<D: Disk + Drop> Model for Catalogue<D> {
    ghost use Rattle.sm_core.specs.Kept.{Kept};
    ghost use Rattle.sm_core.specs.Falling.{kept_of, IsWhole};

    ghost Value = { Kept D };

    ghost view = { λ s. kept_of s.down s.node s.history.entries s.sides.items };

    ghost invariant = { λ s. IsWhole D.state s.down s.node s.history };
}

impl<D: Disk + Drop> Catalogue<D> {
    /// A catalogue of a node that is up, with an empty history.
    pub fn new(alloc: Global, node: Node<D>) -> Catalogue<D>
        requires up { IsUp node }
        requires sound { SoundUp (blanked (world_of node)) }
        ensures { result ≡ record { world = up (world_of node); history = []; sides = []; node = node } }
    {
        Catalogue {
            node,
            down: None,
            history: History::new(alloc, MOST_ENTRIES as u32),
            sides: Vec::new(alloc),
        }
    }

    /// Does one event for an actor and a line of a script, from 1, or 0 for none: one entry behind the history. Of the
    /// blocks on the disks only the one that a client writes is changed.
    ///
    /// # Errors
    ///
    /// All is as before then. [`ActFault::Unchanged`] exactly where the event is a worker's step, the actor is
    /// above 0 and has an entry, and its last entry and every later one answered that nothing was due or that the
    /// node is down; it takes no memory. Else [`ActFault::HistoryFull`] exactly where there are as many entries as
    /// there may be. [`ActFault::NoMemory`] where there is none for the event or its entry.
    pub fn act(
        &mut self,
        alloc: Global,
        actor: u32,
        line: u32,
        event: Event,
    ) -> Result<Reply, ActFault>
        requires asked { IsAsked self.old.world event }
        requires served { IsServedIn self.old.world event }

        ensures one { IfOk result (λ reply. ActsOnce D.state self.old actor line event reply self.new) }
        ensures same { OnErr result (self.new ≡ self.old) }
        ensures faults { Faults (act_fault self.old.history actor event) result }
    {
        if is_unchanged(self.history.entries(), actor, &event) {
            return Err(ActFault::Unchanged);
        }
        if let Err(fault) = self.history.reserve() {
            return Err(fault);
        }
        let replies = reply_to(alloc, &mut self.node, &mut self.down, actor, &event);
        keep(&mut self.history, actor, line, event, replies)
    }

    /// Restarts the disks, whether the node is up or down: one entry behind the history, and where all have restarted
    /// one side behind the sides. All memory is taken before the first disk is called.
    ///
    /// # Errors
    ///
    /// As [`Catalogue::act`]: all is as before then.
    pub fn restart(&mut self, actor: u32, line: u32) -> Result<Reply, ActFault>
        ensures one { IfOk result (λ reply. RestartsOnce D.state self.old actor line reply self.new) }
        ensures same { OnErr result (self.new ≡ self.old) }
        ensures faults { Faults (act_fault self.old.history actor Event.Restart) result }
    {
        if let Err(fault) = self.history.reserve() {
            return Err(fault);
        }
        if self.sides.reserve(1).is_err() {
            return Err(ActFault::NoMemory);
        }
        let done = restart_node(&mut self.node, &mut self.down, &mut self.sides);
        self.history.push(Entry {
            actor,
            line,
            event: Event::Restart,
            reply: answer_of(&done),
        });
        Ok(answer_of(&done))
    }
}
