//! The test that copies of one identity in one family have the same numbers.

ghost use Rattle.std.specs.Prelude.{◌≡◌, ◌∷◌, [], ◌↔◌, IfOk, IsTrue};
ghost use Rattle.sm_model.specs.FamiliesAgree.{FamiliesAgree};
ghost use Rattle.sm_shape.specs.Blank.{blank};
ghost use Rattle.sm_shape.specs.Copies.{TakesCopies, one_copy, copies_of};
ghost use Rattle.std.specs.List.{flat_map};

use sm_base::{Ident, NoMemory};
use sm_model::{World, WorldSnapshot, WorldVolume};
use std::alloc::Global;
use std::collections::HashMap;

/// What copies share that must have the same numbers.
#[derive(Clone, Copy, Debug, PartialEq, Eq, Hash)]
pub struct CopyKey {
    pub family: u64,
    pub ident: Ident,
}

/// Whether two maps are equal.
pub fn same_map(left: &[u32], right: &[u32]) -> bool
    ensures { IsTrue result ↔ (left.now ≡ right.now) }
{
    left == right
}

/// Whether the copy has the map of the first copy before, which it is itself where there is none.
fn take_copy<'a>(
    firsts: &mut HashMap<CopyKey, &'a [u32]>,
    key: CopyKey,
    map: &'a [u32],
) -> Result<bool, NoMemory>
    ensures { IfOk result (λ agree. TakesCopies firsts.old firsts.new (record { key = key; value = map.now } ∷ []) agree) }
{
    match firsts.get(&key) {
        Some(first) => Ok(same_map(first, map)),
        None => {
            firsts.insert(key, map)?;
            Ok(true)
        }
    }
}

/// Whether snapshots of the family have the maps of the first copies before, which they join.
fn take_copies<'a>(
    firsts: &mut HashMap<CopyKey, &'a [u32]>,
    family: u64,
    snapshots: &'a [WorldSnapshot],
) -> Result<bool, NoMemory>
    ensures { IfOk result (λ agree. TakesCopies firsts.old firsts.new (flat_map (one_copy family) snapshots.now) agree) }
{
    for snapshot in snapshots {
        let key = CopyKey {
            family,
            ident: snapshot.ident,
        };
        let agrees = take_copy(firsts, key, &snapshot.map)?;
        if !agrees {
            return Ok(false);
        }
    }
    Ok(true)
}

/// The same of all volumes.
fn take_all<'a>(
    firsts: &mut HashMap<CopyKey, &'a [u32]>,
    volumes: &'a [WorldVolume],
) -> Result<bool, NoMemory>
    ensures { IfOk result (λ agree. TakesCopies firsts.old firsts.new (flat_map copies_of volumes.now) agree) }
{
    for volume in volumes {
        let agree = take_copies(firsts, volume.family, &volume.snapshots)?;
        if !agree {
            return Ok(false);
        }
    }
    Ok(true)
}

/// Whether copies of one identity in one family have the same numbers. `NoMemory` where a table of the
/// identities finds no room.
pub fn families_agree(alloc: Global, world: &World) -> Result<bool, NoMemory>
    ensures { IfOk result (λ agree. IsTrue agree ↔ FamiliesAgree (blank world.now)) }
{
    let mut firsts = HashMap::new(alloc);
    let agree = take_all(&mut firsts, &world.volumes)?;
    Ok(agree)
}
