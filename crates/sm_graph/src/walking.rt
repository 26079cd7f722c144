// Walks along edges, found breadth first from where they end: each volume is visited once, and then each edge
// that ends there.
ghost use Rattle.std.specs.Prelude.{◌≡◌, ℕ, [], nat_eq, unwrap_or, option_map, IfOk, OnOk};
ghost use Rattle.std.specs.HashMap.{get};
ghost use Rattle.indexmap.specs.IndexSet.{contains, insert_all, IsUnique};
ghost use Rattle.sm_defs.specs.Edges.{upstream};
ghost use Rattle.sm_graph.specs.Walks.{sources_of};

use indexmap::IndexSet;
use sm_base::NoMemory;
use std::alloc::Global;
use std::collections::HashMap;
use std::marker::Model;

/// From a volume to a volume.
#[derive(Debug, Drop)]
pub(crate) struct Edge {
    pub(crate) from: u32,
    pub(crate) to: u32,
}

impl Model for Edge {
    ghost use Rattle.sm_defs.specs.Edges.{Edge};

    ghost Value = { Edge };

    ghost view = { λ e. record { from = e.from; to = e.to } };
}

// For each volume where edges end, those from where they lead there.
fn sources_by_end(alloc: Global, edges: &[Edge]) -> Result<HashMap<u32, Vec<u32>>, NoMemory>
    ensures { IfOk result (λ sources. (v : ℕ) → unwrap_or (option_map (λ l. l.items) (get nat_eq sources v)) [] ≡ sources_of edges.now v) }
{
    let mut sources = HashMap::new(alloc);
    for edge in edges {
        sources
            .entry(edge.to)?
            .or_insert(Vec::new(alloc))
            .push(edge.from)?;
    }
    Ok(sources)
}

fn sources_to(sources: &HashMap<u32, Vec<u32>>, to: u32) -> &[u32]
    ensures { result.now ≡ unwrap_or (option_map (λ l. l.items) (get nat_eq sources.now to)) [] }
{
    match sources.get(&to) {
        None => &[],
        Some(volumes) => volumes,
    }
}

fn add_all(found: &mut IndexSet<u32>, volumes: &[u32]) -> Result<(), NoMemory>
    ensures keys { OnOk result (found.new.keys ≡ insert_all nat_eq found.old.keys volumes.now) }
    ensures once { IsUnique nat_eq found.old → IsUnique nat_eq found.new }
{
    for volume in volumes {
        found.insert(*volume)?;
    }
    Ok(())
}

/// The volumes that lie upstream of a volume, in the order in which they are found.
pub(crate) fn all_upstream(
    alloc: Global,
    edges: &[Edge],
    to: u32,
) -> Result<IndexSet<u32>, NoMemory>
    ensures exactly { IfOk result (λ found. (u : ℕ) → contains nat_eq found u ≡ upstream edges.now u to) }
    ensures once { IfOk result (λ found. IsUnique nat_eq found) }
{
    let sources = sources_by_end(alloc, edges)?;
    let mut found = IndexSet::new(alloc);
    add_all(&mut found, sources_to(&sources, to))?;
    for at in 0..edges.len() {
        match found.get_index(at).copied() {
            None => break,
            Some(volume) => add_all(&mut found, sources_to(&sources, volume))?,
        }
    }
    Ok(found)
}
