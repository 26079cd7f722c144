// The catalogue.
ghost use Rattle.std.specs.Prelude.{◌≡◌, IfOk};

use crate::placed::Placed;
use sm_base::NoMemory;
use sm_policy::Policy;
use sm_relation::Relation;
use std::alloc::Global;
use std::marker::Model;

/// What disk 0 keeps of a node.
#[derive(Debug, Drop)]
pub struct Catalog {
    /// Seconds since 1970, up to [`LAST_SECOND`](sm_base::limits::LAST_SECOND).
    pub clock: u64,
    /// The number of the next relationship, from 1.
    pub next_relation: u32,
    /// The number of the next transfer, from 1 to [`LAST_NUMBER`](sm_base::limits::LAST_NUMBER).
    pub next_transfer: u64,
    /// The volumes, each at the place of its number, at most [`MOST_VOLUMES`](sm_base::limits::MOST_VOLUMES).
    pub volumes: Vec<Placed>,
    /// The policies, each at the place of its number, at most [`MOST_POLICIES`](sm_base::limits::MOST_POLICIES).
    pub policies: Vec<Policy>,
    /// The relationships, ascending by number, at most [`MOST_RELATIONS`](sm_base::limits::MOST_RELATIONS).
    pub relations: Vec<Relation>,
}

impl Model for Catalog {
    ghost use Rattle.sm_catroot.specs.Catalog.{Catalog as Plain};

    ghost Value = { Plain };

    ghost view = { λ k. record { clock = k.clock; next_relation = k.next_relation; next_transfer = k.next_transfer; volumes = k.volumes.items; policies = k.policies.items; relations = k.relations.items } };
}

impl Placed {
    /// An equal place.
    pub fn copy(&self, alloc: Global) -> Result<Placed, NoMemory>
        ensures { IfOk result (λ placed. placed ≡ self.now) }
    {
        Ok(Placed {
            path: self.path.copy(alloc)?,
            disk: self.disk,
        })
    }
}

fn copy_volumes(alloc: Global, volumes: &[Placed]) -> Result<Vec<Placed>, NoMemory>
    ensures { IfOk result (λ copy. copy.items ≡ volumes.now) }
{
    let mut copy = Vec::new(alloc);
    for placed in volumes {
        copy.push(placed.copy(alloc)?)?;
    }
    Ok(copy)
}

fn copy_policies(alloc: Global, policies: &[Policy]) -> Result<Vec<Policy>, NoMemory>
    ensures { IfOk result (λ copy. copy.items ≡ policies.now) }
{
    let mut copy = Vec::new(alloc);
    for policy in policies {
        copy.push(policy.copy(alloc)?)?;
    }
    Ok(copy)
}

fn copy_relations(alloc: Global, relations: &[Relation]) -> Result<Vec<Relation>, NoMemory>
    ensures { IfOk result (λ copy. copy.items ≡ relations.now) }
{
    let mut copy = Vec::new(alloc);
    for relation in relations {
        copy.push(relation.copy(alloc)?)?;
    }
    Ok(copy)
}

impl Catalog {
    /// An equal catalogue.
    pub fn copy(&self, alloc: Global) -> Result<Catalog, NoMemory>
        ensures { IfOk result (λ catalog. catalog ≡ self.now) }
    {
        Ok(Catalog {
            clock: self.clock,
            next_relation: self.next_relation,
            next_transfer: self.next_transfer,
            volumes: copy_volumes(alloc, &self.volumes)?,
            policies: copy_policies(alloc, &self.policies)?,
            relations: copy_relations(alloc, &self.relations)?,
        })
    }
}
