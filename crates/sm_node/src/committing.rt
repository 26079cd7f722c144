// The catalogue is committed.
ghost use Rattle.std.specs.Prelude.{◌≡◌, true, Result, Ok, IfOk};
ghost use Rattle.sm_base.specs.declared.faults.Failed.{Failed as DiskFailed};
ghost use Rattle.sm_register.specs.Commits.{Commits};
ghost use Rattle.sm_catroot.specs.Kept.{ShowsCatalog};
ghost use Rattle.sm_model.specs.Answers.{told};
ghost use Rattle.sm_node.specs.Moves.{commit_answer};
ghost use Rattle.sm_node.specs.Nodes.{world_with, IsUp};
ghost use Rattle.sm_node.specs.Acts.{Acts};

use crate::fault::NodeFault;
use crate::node::Node;
use sm_base::{DiskNo, Failed};
use sm_catroot::Catalog;
use sm_disk::Disk;
use sm_model::Reply;
use sm_register::{Ready, Register};

/// Commits a catalogue that is ready, as an event with this reply. It takes no memory.
pub fn commit_as<D: Disk>(
    register: &mut Register<D, Catalog>,
    next: Ready<Catalog>,
    reply: Reply,
) -> Result<Reply, NodeFault>
    requires up { register.old.up ≡ true }
    ensures { (r : Result (Unit {0}) DiskFailed)
        × (result ≡ commit_answer reply (D.state register.new.disk).faults r)
        × Commits D.state ShowsCatalog register.old next r register.new }
{
    match register.commit(next) {
        Ok(()) => Ok(reply),
        Err(Failed) => Err(NodeFault::Down {
            disk: DiskNo(0),
            faults: register.faults(),
        }),
    }
}

impl<D: Disk + Drop> Node<D> {
    /// Commits a catalogue that is ready and has the same volumes, as an event with this reply: the world is then
    /// that of the catalogue. It takes no memory.
    ///
    /// # Errors
    ///
    /// [`NodeFault::Down`] with disk 0, only where its count of faults rose in this call.
    pub fn commit(&mut self, next: Ready<Catalog>, reply: Reply) -> Result<Reply, NodeFault>
        requires up { IsUp self.old }
        requires places { next.volumes ≡ self.old.root.held.volumes }

        ensures acts { Acts D.state (Ok (record { reply = told reply; world = world_with next self.old.seats self.old.lengths })) self.old result self.new }
        ensures replied { IfOk result (λ r. r ≡ reply) }
        ensures spares { self.new.spares ≡ self.old.spares }
    {
        self.told_up();
        commit_as(&mut self.register, next, reply)
    }
}
