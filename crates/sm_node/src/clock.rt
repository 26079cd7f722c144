// The clock is set.
ghost use Rattle.std.specs.Prelude.{◌≡◌, ◌≤◌, IfOk};
ghost use Rattle.sm_base.specs.declared.limits.TheConstants.{LAST_SECOND};
ghost use Rattle.sm_catroot.specs.Condition.{IsCatalog};
ghost use Rattle.sm_model.specs.OfPolicies as policies;
ghost use Rattle.sm_node.specs.Nodes.{world_of, IsUp};
ghost use Rattle.sm_node.specs.Acts.{Acts};

use crate::fault::NodeFault;
use crate::node::Node;
use sm_base::{NoMemory, Refusal};
use sm_catroot::Catalog;
use sm_disk::Disk;
use sm_model::Reply;
use sm_register::Ready;
use std::alloc::Global;

/// Seconds since 1970.
pub fn clock_of(catalog: &Catalog) -> u64
    ensures { result ≡ catalog.now.clock }
{
    catalog.clock
}

/// The same catalogue at another time.
fn at_time(alloc: Global, catalog: &Catalog, time: u64) -> Result<Catalog, NoMemory>
    requires fits { IsCatalog catalog.now }
    requires given { time ≤ LAST_SECOND }

    ensures is { IfOk result (λ next. next ≡ record catalog.now { clock = time }) }
    ensures fits { IfOk result (λ next. IsCatalog next) }
{
    let mut next = catalog.copy(alloc)?;
    next.clock = time;
    Ok(next)
}

impl<D: Disk + Drop> Node<D> {
    /// Sets the clock, which does not go back.
    pub fn set_clock(&mut self, alloc: Global, time: u64) -> Result<Reply, NodeFault>
        requires up { IsUp self.old }
        requires given { time ≤ LAST_SECOND }

        ensures acts { Acts D.state (policies.set_clock (world_of self.old) time) self.old result self.new }
        ensures spares { self.new.spares ≡ self.old.spares }
    {
        self.told_up();
        let now = clock_of(self.catalog());
        if time < now {
            return Ok(Reply::Refused(Refusal::ClockBack { now }));
        }
        let next = at_time(alloc, self.catalog(), time)?;
        let ready = Ready::new(alloc, next)?;
        self.commit(ready, Reply::Done)
    }
}
