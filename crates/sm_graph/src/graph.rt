// The edges of relationships.
ghost use Rattle.std.specs.Prelude.{◌≡◌, ◌==◌, ◌||◌, ℕ, [], ◌∷◌, ◌++◌, map, not, false, IfOk, OnOk, OnErr};
ghost use Rattle.std.specs.List.{list_any, filter};
ghost use Rattle.sm_defs.specs.Words.{KeysDiffer};
ghost use Rattle.sm_defs.specs.Edges.{upstream};
ghost use Rattle.sm_graph.specs.Links.{Link, volume, edges_of, IsIncoming, IsLower};

use crate::walking::{Edge, all_upstream};
use sm_base::{NoMemory, RelNo, VolNo};
use std::alloc::Global;
use std::marker::Model;

// The edge of a relationship.
#[derive(Debug, Drop)]
struct Link {
    relation: RelNo,
    source: VolNo,
    destination: VolNo,
    mirror: bool,
}

impl Model for Link {
    ghost use Rattle.sm_graph.specs.Links.{Link};

    ghost Value = { Link };

    ghost view = { λ l. record { number = l.relation.0; from = l.source.0; to = l.destination.0; mirror = l.mirror } };
}

/// Which volumes feed which, by relationships. Each relationship has one edge at most.
#[derive(Debug, Drop)]
pub struct Graph {
    links: Vec<Link>,
}

impl Model for Graph {
    ghost use Rattle.std.specs.Prelude.{List};
    ghost use Rattle.sm_graph.specs.Links.{Link};

    ghost Value = { List Link };

    ghost view = { λ g. g.links.items };
}

impl Graph {
    /// A graph without edges.
    pub fn new(alloc: Global) -> Graph
        ensures { result ≡ [] }
    {
        Graph {
            links: Vec::new(alloc),
        }
    }

    /// Adds the edge of a relationship, which is a mirror's or a vault's.
    pub fn add(
        &mut self,
        relation: RelNo,
        source: VolNo,
        destination: VolNo,
        mirror: bool,
    ) -> Result<(), NoMemory>
        requires { list_any (λ l. l.number == relation.0) self.old ≡ false }
        ensures ok { OnOk result (self.new ≡ self.old ++ record { number = relation.0; from = source.0; to = destination.0; mirror = mirror } ∷ []) }
        ensures err { OnErr result (self.new ≡ self.old) }
    {
        self.links.push(Link {
            relation,
            source,
            destination,
            mirror,
        })?;
        Ok(())
    }

    /// Removes the edge of a relationship, if it has one. It takes no memory.
    pub fn remove(&mut self, relation: RelNo)
        ensures { self.new ≡ filter (λ l. not (l.number == relation.0)) self.old }
    {
        remove_link(&mut self.links, relation);
    }

    fn edges(&self, alloc: Global, mirrors_only: bool) -> Result<Vec<Edge>, NoMemory>
        ensures { IfOk result (λ edges. edges.items ≡ edges_of mirrors_only self.now) }
    {
        Ok(
            self.links
                .iter()
                .filter(|link| !mirrors_only || link.mirror)
                .map(|link| Edge {
                    from: link.source.0,
                    to: link.destination.0,
                })
                .collect(alloc)?,
        )
    }

    /// Whether an edge from a source to a destination would close a cycle: they are one volume, or the
    /// destination lies upstream of the source. Each volume and each edge is visited once.
    pub fn would_cycle(
        &self,
        alloc: Global,
        source: VolNo,
        destination: VolNo,
    ) -> Result<bool, NoMemory>
        ensures { IfOk result (λ closes. closes ≡ ((destination.0 == source.0) || upstream (edges_of false self.now) destination.0 source.0)) }
    {
        let edges = self.edges(alloc, false)?;
        let upstream = all_upstream(alloc, &edges, source.0)?;
        Ok(destination.0 == source.0 || upstream.contains(&destination.0))
    }

    /// The volumes that lie upstream of a volume, each once, in no order: those from which a walk of one
    /// or more edges leads to it, of all edges or of mirrors alone. Each volume and each edge is visited once.
    pub fn upstream(
        &self,
        alloc: Global,
        volume: VolNo,
        mirrors_only: bool,
    ) -> Result<Vec<VolNo>, NoMemory>
        ensures exactly { IfOk result (λ volumes. (u : ℕ) → list_any (λ v. v.0 == u) volumes.items ≡ upstream (edges_of mirrors_only self.now) u volume.0) }
        ensures once { IfOk result (λ volumes. KeysDiffer (λ v. v.0) volumes.items) }
    {
        let edges = self.edges(alloc, mirrors_only)?;
        let upstream = all_upstream(alloc, &edges, volume.0)?;
        let volumes = numbered(alloc, upstream.as_slice())?;
        Ok(volumes)
    }

    /// The lowest relationship whose edge ends at a volume. It takes no memory.
    pub fn incoming(&self, volume: VolNo) -> Option<RelNo>
        ensures { IsIncoming self.now volume.0 result }
    {
        lowest_to(&self.links, volume)
    }

    /// An equal graph.
    pub fn copy(&self, alloc: Global) -> Result<Graph, NoMemory>
        ensures { IfOk result (λ graph. graph ≡ self.now) }
    {
        Ok(Graph {
            links: copy_links(alloc, &self.links)?,
        })
    }
}

// Volumes by their numbers.
fn numbered(alloc: Global, numbers: &[u32]) -> Result<Vec<VolNo>, NoMemory>
    ensures { IfOk result (λ volumes. volumes.items ≡ map volume numbers.now) }
{
    Ok(numbers.iter().map(|number| VolNo(*number)).collect(alloc)?)
}

fn remove_link(links: &mut Vec<Link>, relation: RelNo)
    ensures { links.new.items ≡ filter (λ l. not (l.number == relation.0)) links.old.items }
{
    links.retain(|link| link.relation.0 != relation.0);
}

fn copy_links(alloc: Global, links: &[Link]) -> Result<Vec<Link>, NoMemory>
    ensures { IfOk result (λ copy. copy.items ≡ links.now) }
{
    let mut copy = Vec::new(alloc);
    for link in links {
        copy.push(Link {
            relation: link.relation,
            source: link.source,
            destination: link.destination,
            mirror: link.mirror,
        })?;
    }
    Ok(copy)
}

fn lowest_to(links: &[Link], volume: VolNo) -> Option<RelNo>
    ensures { IsIncoming links.now volume.0 result }
{
    let mut lowest = None;
    for link in links {
        if link.destination.0 == volume.0 {
            lowest = Some(lower(link.relation, lowest));
        }
    }
    lowest
}

fn lower(number: RelNo, known: Option<RelNo>) -> RelNo
    ensures { IsLower known number result }
{
    match known {
        Some(known) if known.0 < number.0 => known,
        _ => number,
    }
}
