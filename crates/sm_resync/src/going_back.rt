// The newest common snapshot, and what stands after it.
ghost use Rattle.std.specs.Prelude.{◌≡◌, List, map, reverse, IfOk};
ghost use Rattle.std.specs.List.{list_any, find};
ghost use Rattle.std.specs.Option.{option_copied, option_map};
ghost use Rattle.sm_defs.specs.Words.{same_ident, after};
ghost use Rattle.sm_defs.specs.Volume as volumes;
ghost use Rattle.sm_defs.specs.Common as defs;
ghost use Rattle.sm_root.specs.Condition.{ident_of};
ghost use Rattle.sm_resync.specs.Listed.{Lists};

use sm_base::{Ident, NoMemory};
use sm_root::{Root, RootSnapshot};
use std::alloc::Global;

fn is_same(one: Ident, other: Ident) -> bool
    ensures { result ≡ same_ident one other }
{
    one.origin == other.origin && one.seq == other.seq
}

fn has(snapshots: &[RootSnapshot], ident: Ident) -> bool
    ensures { result ≡ list_any (λ s. same_ident s.ident ident) snapshots.now }
{
    snapshots.iter().any(|s| is_same(s.ident, ident))
}

fn newest_of<'a>(
    source: &[RootSnapshot],
    destination: &'a [RootSnapshot],
) -> Option<&'a RootSnapshot>
    ensures { option_copied result ≡ find (λ d. list_any (λ s. same_ident s.ident d.ident) source.now) (reverse destination.now) }
{
    destination.iter().rev().find(|d| has(source, d.ident))
}

fn newest_common(source: &[RootSnapshot], destination: &[RootSnapshot]) -> Option<Ident>
    ensures { result ≡ option_map ident_of (find (λ d. list_any (λ s. same_ident s.ident d.ident) source.now) (reverse destination.now)) }
{
    match newest_of(source, destination) {
        None => None,
        Some(snapshot) => Some(snapshot.ident),
    }
}

/// The identity of the newest snapshot of the destination that the source has, whatever the source's order.
/// None exactly where they have none in common. It takes no memory.
pub fn common(source: &Root, destination: &Root) -> Option<Ident>
    ensures { (here there : List volumes.Snapshot) → Lists source.now here → Lists destination.now there → result ≡ option_map volumes.ident_of (defs.common here there) }
{
    newest_common(
        source.snapshots.as_slice(),
        destination.snapshots.as_slice(),
    )
}

fn idents(alloc: Global, snapshots: &[RootSnapshot]) -> Result<Vec<Ident>, NoMemory>
    ensures { IfOk result (λ idents. idents.items ≡ map ident_of snapshots.now) }
{
    Ok(snapshots.iter().map(|s| s.ident).collect(alloc)?)
}

fn behind(snapshots: &[RootSnapshot], ident: Ident) -> &[RootSnapshot]
    ensures { result.now ≡ after (λ s. same_ident s.ident ident) snapshots.now }
{
    match snapshots {
        [] => snapshots,
        [snapshot, newer @ ..] => {
            if is_same(snapshot.ident, ident) {
                newer
            } else {
                behind(newer, ident)
            }
        }
    }
}

/// The identities of the destination's snapshots after the common one, oldest first: what a resync of a mirror
/// drops.
pub fn revert_list(alloc: Global, destination: &Root, common: Ident) -> Result<Vec<Ident>, NoMemory>
    ensures { IfOk result (λ drops. (there : List volumes.Snapshot) → Lists destination.now there → drops.items ≡ volumes.idents (volumes.past common there)) }
{
    let drops = idents(alloc, behind(destination.snapshots.as_slice(), common))?;
    Ok(drops)
}
