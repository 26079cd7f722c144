// What a leg costs.
ghost use Rattle.std.specs.Prelude.{◌≡◌, ◌<◌, ◌≤◌, ◌+◌, ◌^◌, length, IfOk, OnOk};
ghost use Rattle.sm_defs.specs.Image.{stands, tags};
ghost use Rattle.sm_defs.specs.Missing.{tags_in, is_missing_tag, missing_tags, mirror_cost, missing_places, missing_from, vault_cost, insert_once, is_missing_at};
ghost use Rattle.oracle_lists.specs.Places.{place_of, is_at};

use crate::lists::{behind_first, first_tag};
use crate::values::{PlainBases, PlainBlock, PlainSnapshot};
use sm_base::NoMemory;
use std::alloc::Global;

fn image_has(image: &[PlainBlock], tag: u32) -> bool
    ensures { result ≡ stands tag (tags image.now) }
{
    match image {
        [] => false,
        [block, others @ ..] => block.tag == tag || image_has(others, tag),
    }
}

fn snapshots_have(snapshots: &[PlainSnapshot], tag: u32) -> bool
    ensures { result ≡ stands tag (tags_in snapshots.now) }
{
    match snapshots {
        [] => false,
        [snapshot, others @ ..] => image_has(&snapshot.image, tag) || snapshots_have(others, tag),
    }
}

fn is_missing_tag(destination: &[PlainSnapshot], tag: u32) -> bool
    ensures { result ≡ is_missing_tag destination.now tag }
{
    tag != 0 && !snapshots_have(destination, tag)
}

// How many numbers at the front of a list are less.
fn place(tags: &[u32], tag: u32) -> usize
    ensures place { result ≡ place_of tag tags.now }
    ensures within { result ≤ length tags.now }
{
    match tags {
        [] => 0,
        [first, others @ ..] => {
            if *first < tag {
                1 + place(others, tag)
            } else {
                0
            }
        }
    }
}

fn is_at(tags: &[u32], at: usize, tag: u32) -> bool
    ensures { result ≡ is_at tag tags.now at }
{
    at < tags.len() && tags[at] == tag
}

fn put_once(tags: &mut Vec<u32>, tag: u32) -> Result<(), NoMemory>
    ensures { OnOk result (tags.new.items ≡ insert_once tag tags.old.items) }
{
    let at = place(tags, tag);
    if !is_at(tags, at, tag) {
        tags.insert(at, tag)?;
    }
    Ok(())
}

/// The tags but 0 of a mirror's leg that no snapshot of the destination has, in ascending order.
pub fn missing_tags(
    alloc: Global,
    leg: &[PlainBlock],
    destination: &[PlainSnapshot],
) -> Result<Vec<u32>, NoMemory>
    ensures { IfOk result (λ tags. tags.items ≡ missing_tags leg.now destination.now) }
{
    match leg {
        [] => Ok(Vec::new(alloc)),
        [block, others @ ..] => {
            let mut tags = missing_tags(alloc, others, destination)?;
            if is_missing_tag(destination, block.tag) {
                put_once(&mut tags, block.tag)?;
            }
            Ok(tags)
        }
    }
}

/// How many blocks a mirror's leg sends.
pub fn mirror_cost(
    alloc: Global,
    leg: &[PlainBlock],
    destination: &[PlainSnapshot],
) -> Result<usize, NoMemory>
    ensures { IfOk result (λ cost. cost ≡ mirror_cost leg.now destination.now) }
{
    Ok(missing_tags(alloc, leg, destination)?.len())
}

pub(crate) fn is_missing(tag: u32, base: u32) -> bool
    ensures { result ≡ is_missing_at tag base }
{
    tag != 0 && tag != base
}

fn missing_from(
    alloc: Global,
    at: usize,
    leg: &[PlainBlock],
    base: &[PlainBlock],
) -> Result<Vec<usize>, NoMemory>
    requires { at + length leg.now < 2 ^ 64 }
    ensures { IfOk result (λ places. places.items ≡ missing_from at leg.now base.now) }
{
    match leg {
        [] => Ok(Vec::new(alloc)),
        [block, others @ ..] => {
            let mut places = missing_from(alloc, at + 1, others, behind_first(base))?;
            if is_missing(block.tag, first_tag(base)) {
                places.insert(0, at)?;
            }
            Ok(places)
        }
    }
}

/// The places where a vault's leg has a block that the source's base does not have there, in
/// ascending order.
pub fn missing_places(
    alloc: Global,
    leg: &[PlainBlock],
    bases: &PlainBases,
) -> Result<Vec<usize>, NoMemory>
    ensures { IfOk result (λ places. places.items ≡ missing_places leg.now bases.now) }
{
    missing_from(alloc, 0, leg, &bases.at_source)
}

/// How many blocks a vault's leg sends.
pub fn vault_cost(alloc: Global, leg: &[PlainBlock], bases: &PlainBases) -> Result<usize, NoMemory>
    ensures { IfOk result (λ cost. cost ≡ vault_cost leg.now bases.now) }
{
    Ok(missing_places(alloc, leg, bases)?.len())
}
