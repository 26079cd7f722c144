//! Snapshots, read with a set of their identities.

ghost use Rattle.std.specs.Prelude.{◌≡◌, ◌++◌, ◌∷◌, [], List, IfOk};
ghost use Rattle.sm_fields.specs.Reads.{Gives};
ghost use Rattle.sm_root.specs.declared.root.RootSnapshot.{RootSnapshot};
ghost use Rattle.sm_root.specs.Answer.{bad_byte};
ghost use Rattle.sm_root.specs.Layout.{fresh};
ghost use Rattle.sm_root.specs.ByTable.{after_map, rest_by_table, snapshots_by_table};
ghost use Rattle.sm_root.specs.Known.{Knows};

use crate::fault::RootFault;
use crate::lists::Snapshots;
use crate::maps::read_map;
use crate::parts::read_words;
use crate::root::RootSnapshot;
use sm_base::Ident;
use sm_fields::{FieldFault, Reader, read_identity};
use std::alloc::Global;
use std::collections::HashSet;

/// An identity that is not in the set, and is from now on.
#[tactic(auto, unfolding(crate::specs::Layout::fresh))]
fn read_fresh(reader: &mut Reader, idents: &mut HashSet<Ident>) -> Result<Ident, RootFault>
    ensures reads { (before : List RootSnapshot) → Knows before idents.old → Gives bad_byte (λ i. i) (fresh before) reader.old result reader.new }
    ensures knows { (before : List RootSnapshot) → Knows before idents.old → IfOk result (λ i. (s : RootSnapshot) → s.ident ≡ i → Knows (before ++ s ∷ []) idents.new) }
{
    let here = FieldFault::here(reader);
    let ident = read_identity(reader)?;
    if !idents.insert(ident)? {
        return Err(RootFault::Bad { at: here.at });
    }
    Ok(ident)
}

/// A snapshot behind its identity.
#[tactic(auto, unfolding(crate::specs::ByTable::rest_by_table))]
fn read_rest(
    alloc: Global,
    reader: &mut Reader,
    ident: Ident,
    logical: u32,
    table: &mut [u32],
) -> Result<RootSnapshot, RootFault>
    ensures reads { Gives bad_byte (λ s. s) (rest_by_table table.old logical ident) reader.old result reader.new }
    ensures ident { IfOk result (λ s. s.ident ≡ ident) }
    ensures after { IfOk result (λ s. table.new ≡ after_map table.old 0 s.map) }
{
    let head = read_words(alloc, reader, ident)?;
    let map = read_map(alloc, reader, logical, table)?;
    Ok(head.with_map(map))
}

/// So many snapshots, whose numbers go into the table.
#[tactic(auto, unfolding(crate::specs::ByTable::snapshots_by_table))]
pub fn read_snapshots(
    alloc: Global,
    reader: &mut Reader,
    count: u32,
    logical: u32,
    table: &mut [u32],
) -> Result<Snapshots, RootFault>
    ensures { Gives bad_byte (λ s. s) (snapshots_by_table table.old logical count) reader.old result reader.new }
{
    let mut idents = HashSet::new(alloc);
    let mut snapshots = Vec::new(alloc);
    for _ in 0..count {
        let ident = read_fresh(reader, &mut idents)?;
        let snapshot = read_rest(alloc, reader, ident, logical, table)?;
        snapshots.push(snapshot)?;
    }
    Ok(Snapshots::from_vec(snapshots))
}
