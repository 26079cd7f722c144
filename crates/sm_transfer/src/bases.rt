// The block numbers of a root's snapshots.
ghost use Rattle.std.specs.Prelude.{◌≡◌, Some, IfOk, replicate};
ghost use Rattle.std.specs.List.{find};
ghost use Rattle.std.specs.Option.{option_copied};
ghost use Rattle.sm_defs.specs.Words.{same_ident};
ghost use Rattle.sm_root.specs.declared.root.RootSnapshot.{RootSnapshot as PlainSnapshot};
ghost use Rattle.sm_transfer.specs.Beginning.{base_numbers};

use sm_base::{Ident, NoMemory};
use sm_root::{BlockMap, Root, RootSnapshot};
use std::alloc::Global;

fn is_same(one: Ident, other: Ident) -> bool
    ensures { result ≡ same_ident one other }
{
    one.origin == other.origin && one.seq == other.seq
}

fn snapshot_of(snapshots: &[RootSnapshot], ident: Ident) -> Option<&RootSnapshot>
    ensures { option_copied result ≡ find (λ s. same_ident s.ident ident) snapshots.now }
{
    snapshots
        .iter()
        .find(|snapshot| is_same(snapshot.ident, ident))
}

// The numbers of a snapshot that the root has.
pub(crate) fn numbers_of(root: &Root, ident: Ident) -> &[u32]
    requires { (s : PlainSnapshot) × (find (λ t. same_ident t.ident ident) root.now.snapshots ≡ Some s) }
    ensures { (s : PlainSnapshot) → find (λ t. same_ident t.ident ident) root.now.snapshots ≡ Some s → result.now ≡ s.map }
{
    match snapshot_of(root.snapshots.as_slice(), ident) {
        Some(snapshot) => snapshot.map.as_slice(),
        None => unreachable!(),
    }
}

fn holes(alloc: Global, places: u32) -> Result<BlockMap, NoMemory>
    ensures { IfOk result (λ map. map ≡ replicate places 0) }
{
    BlockMap::from_vec(vec![in alloc; 0; places as usize]?)
}

// The numbers of the snapshot that a leg is sent against, or as many holes where there is none.
pub(crate) fn base_numbers(
    alloc: Global,
    root: &Root,
    base: Option<Ident>,
) -> Result<BlockMap, NoMemory>
    ensures { IfOk result (λ map. map ≡ base_numbers root.now base) }
{
    match base {
        None => holes(alloc, root.logical),
        Some(ident) => match snapshot_of(root.snapshots.as_slice(), ident) {
            Some(snapshot) => snapshot.map.copy(),
            None => holes(alloc, root.logical),
        },
    }
}
