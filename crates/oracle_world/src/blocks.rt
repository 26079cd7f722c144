// Which numbers of a volume are taken.
ghost use Rattle.std.specs.Prelude.{◌≡◌, ◌≤◌, ◌+◌, ◌^◌, ◌++◌, not, length, map, IfOk};
ghost use Rattle.std.specs.List.{filter, flat_map};
ghost use Rattle.sm_defs.specs.Image.{tags, stands, distinct};
ghost use Rattle.sm_defs.specs.Volume.{image_of, tags_of, used, free, free_tags, numbers};

use crate::values::PlainVolume;
use oracle_lists::{PlainBlock, PlainSnapshot, stands};
use sm_base::NoMemory;
use std::alloc::Global;

fn with_tags(alloc: Global, image: &[PlainBlock], behind: Vec<u32>) -> Result<Vec<u32>, NoMemory>
    ensures { IfOk result (λ all. all.items ≡ tags image.now ++ behind.items) }
{
    match image {
        [] => Ok(behind),
        [block, others @ ..] => {
            let mut all = with_tags(alloc, others, behind)?;
            all.insert(0, block.tag)?;
            Ok(all)
        }
    }
}

fn tags_in(alloc: Global, snapshots: &[PlainSnapshot]) -> Result<Vec<u32>, NoMemory>
    ensures { IfOk result (λ all. all.items ≡ flat_map tags (map image_of snapshots.now)) }
{
    match snapshots {
        [] => Ok(Vec::new(alloc)),
        [snapshot, newer @ ..] => {
            let behind = tags_in(alloc, newer)?;
            with_tags(alloc, &snapshot.image, behind)
        }
    }
}

/// The numbers of all blocks of a volume's images, holes too, in their order.
pub fn tags_of(alloc: Global, volume: &PlainVolume) -> Result<Vec<u32>, NoMemory>
    ensures { IfOk result (λ all. all.items ≡ tags_of volume.now) }
{
    let taken = tags_in(alloc, &volume.snapshots)?;
    let stable = with_tags(alloc, &volume.stable, taken)?;
    with_tags(alloc, &volume.active, stable)
}

fn distinct(tags: &[u32]) -> usize
    ensures count { result ≡ distinct tags.now }
    ensures few { result ≤ length tags.now }
{
    match tags {
        [] => 0,
        [tag, others @ ..] => {
            let count = distinct(others);
            if *tag == 0 || stands(others, u64::from(*tag)) {
                count
            } else {
                1 + count
            }
        }
    }
}

/// How many blocks of a volume are taken.
pub fn used(alloc: Global, volume: &PlainVolume) -> Result<usize, NoMemory>
    ensures { IfOk result (λ count. count ≡ used volume.now) }
{
    Ok(distinct(&tags_of(alloc, volume)?))
}

/// How many blocks of a volume are free.
pub fn free(alloc: Global, volume: &PlainVolume) -> Result<usize, NoMemory>
    ensures { IfOk result (λ count. count ≡ free volume.now) }
{
    Ok((volume.physical as usize).saturating_sub(used(alloc, volume)?))
}

fn free_from(alloc: Global, tags: &[u32], from: u64, count: u64) -> Result<Vec<u32>, NoMemory>
    requires { from + count ≤ 2 ^ 32 }
    ensures { IfOk result (λ all. all.items ≡ filter (λ t. not (stands t tags.now)) (numbers from count)) }
{
    if count == 0 {
        return Ok(Vec::new(alloc));
    }
    let mut all = free_from(alloc, tags, from + 1, count - 1)?;
    if !stands(tags, from) {
        all.insert(0, from as u32)?;
    }
    Ok(all)
}

/// The free numbers of a volume in ascending order.
pub fn free_tags(alloc: Global, volume: &PlainVolume) -> Result<Vec<u32>, NoMemory>
    ensures { IfOk result (λ all. all.items ≡ free_tags volume.now) }
{
    let tags = tags_of(alloc, volume)?;
    free_from(alloc, &tags, 1, u64::from(volume.physical))
}
