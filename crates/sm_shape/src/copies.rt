//! The test that copies of one identity tell the same.

ghost use Rattle.std.specs.Prelude.{◌≡◌, ◌∷◌, [], ◌↔◌, IfOk, IsTrue, length};
ghost use Rattle.std.specs.List.{flat_map};
ghost use Rattle.sm_shape.specs.Blank.{blank, blank_snapshot};
ghost use Rattle.sm_shape.specs.Shape.{CopiesNamed};
ghost use Rattle.sm_shape.specs.Copies.{Alike, TakesNamed, named_copy, one_named, named_of};

use sm_base::{Ident, Label, NoMemory};
use sm_model::{World, WorldSnapshot, WorldVolume};
use std::alloc::Global;
use std::collections::HashMap;

fn same_label(left: &Option<Label>, right: &Option<Label>) -> bool
    ensures { IsTrue result ↔ (left.now ≡ right.now) }
{
    match (left, right) {
        (Some(left), Some(right)) => left.text() == right.text(),
        (None, None) => true,
        _ => false,
    }
}

// Whether two snapshots have as many blocks.
fn are_as_long(left: &WorldSnapshot, right: &WorldSnapshot) -> bool
    ensures { IsTrue result ↔ (length (blank_snapshot left.now).image ≡ length (blank_snapshot right.now).image) }
{
    left.map.len() == right.map.len()
}

/// Whether two snapshots have the same name, label, time and maker, and as many blocks.
fn are_alike(left: &WorldSnapshot, right: &WorldSnapshot) -> bool
    ensures { IsTrue result ↔ Alike left.now right.now }
{
    if left.name.text() != right.name.text() {
        return false;
    }
    if left.time != right.time {
        return false;
    }
    if left.made != right.made {
        return false;
    }
    if !are_as_long(left, right) {
        return false;
    }
    same_label(&left.label, &right.label)
}

/// Whether the copy tells what the first copy before tells, which it is itself where there is none.
fn take_named<'a>(
    firsts: &mut HashMap<Ident, &'a WorldSnapshot>,
    snapshot: &'a WorldSnapshot,
) -> Result<bool, NoMemory>
    ensures { IfOk result (λ agree. TakesNamed firsts.old firsts.new (named_copy snapshot.now ∷ []) agree) }
{
    match firsts.get(&snapshot.ident) {
        Some(first) => Ok(are_alike(first, snapshot)),
        None => {
            firsts.insert(snapshot.ident, snapshot)?;
            Ok(true)
        }
    }
}

/// Whether snapshots tell what the first copies before tell, which they join.
fn take_snapshots<'a>(
    firsts: &mut HashMap<Ident, &'a WorldSnapshot>,
    snapshots: &'a [WorldSnapshot],
) -> Result<bool, NoMemory>
    ensures { IfOk result (λ agree. TakesNamed firsts.old firsts.new (flat_map one_named snapshots.now) agree) }
{
    for snapshot in snapshots {
        let agrees = take_named(firsts, snapshot)?;
        if !agrees {
            return Ok(false);
        }
    }
    Ok(true)
}

/// The same of all volumes.
fn take_volumes<'a>(
    firsts: &mut HashMap<Ident, &'a WorldSnapshot>,
    volumes: &'a [WorldVolume],
) -> Result<bool, NoMemory>
    ensures { IfOk result (λ agree. TakesNamed firsts.old firsts.new (flat_map named_of volumes.now) agree) }
{
    for volume in volumes {
        let agree = take_snapshots(firsts, &volume.snapshots)?;
        if !agree {
            return Ok(false);
        }
    }
    Ok(true)
}

/// Whether copies of one identity have the same name, label, time and maker, and as many blocks. `NoMemory`
/// where a table of the identities finds no room.
pub fn copies_named(alloc: Global, world: &World) -> Result<bool, NoMemory>
    ensures { IfOk result (λ agree. IsTrue agree ↔ CopiesNamed (blank world.now)) }
{
    let mut firsts = HashMap::new(alloc);
    let agree = take_volumes(&mut firsts, &world.volumes)?;
    Ok(agree)
}
