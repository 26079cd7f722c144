// Numbers, refusals and images that several answers have.
ghost use Rattle.std.specs.Prelude.{◌≡◌, ◌<◌, length, IfOk, replicate};
ghost use Rattle.sm_base.specs.declared.refusal.Refusal.TheVariants as refusals;
ghost use Rattle.sm_model.specs.declared.reply.Reply.TheVariants as replies;
ghost use Rattle.std.specs.Str.{bytes_eq};
ghost use Rattle.sm_defs.specs.Volume.{is_rw, no_volume};
ghost use Rattle.sm_defs.specs.World.{volume_at};
ghost use Rattle.oracle_world.specs.Finding.{IsFound};
ghost use Rattle.sm_defs.specs.Image.{hole, full_block};

use oracle_lists::{PlainBlock, hole};
use oracle_world::{PlainFault, PlainVolume, PlainWorld, is_rw, kind_at, volume_named};
use sm_base::{NoMemory, Path, Refusal, SnapName};
use sm_model::Reply;
use std::alloc::Global;

/// The place of the first volume of the path.
pub fn place_of(world: &PlainWorld, path: &Path) -> Option<usize>
    ensures { IsFound (λ v. bytes_eq v.path path.now) world.now.volumes no_volume result }
{
    volume_named(world, path.text())
}

/// The volume at a place.
pub fn volume(world: &PlainWorld, at: usize) -> &PlainVolume
    requires { at < length world.now.volumes }
    ensures { result.now ≡ volume_at world.now at }
{
    &world.volumes[at]
}

/// Whether clients may write the volume at a place.
pub fn is_writable(world: &PlainWorld, at: usize) -> bool
    ensures { result ≡ is_rw (volume_at world.now at).kind }
{
    is_rw(kind_at(world, at))
}

/// The refusal of a path that no volume has.
pub fn refuse_path(alloc: Global, path: &Path) -> Result<Reply, PlainFault>
    ensures { IfOk result (λ reply. reply ≡ replies.Refused (refusals.NoVolume path.now)) }
{
    Ok(Reply::Refused(Refusal::NoVolume {
        path: path.copy(alloc)?,
    }))
}

/// The refusal of a name that no snapshot has.
pub(crate) fn refuse_name(alloc: Global, name: &SnapName) -> Result<Reply, PlainFault>
    ensures { IfOk result (λ reply. reply ≡ replies.Refused (refusals.NoSnapshot name.now)) }
{
    Ok(Reply::Refused(Refusal::NoSnapshot {
        name: name.copy(alloc)?,
    }))
}

/// A block of one byte, at a number.
pub(crate) fn full_block(alloc: Global, tag: u32, fill: u8) -> Result<PlainBlock, NoMemory>
    ensures { IfOk result (λ block. block ≡ full_block tag fill) }
{
    Ok(PlainBlock {
        tag,
        bytes: vec![in alloc; fill; 4096]?,
    })
}

/// An image to which nothing was written.
pub(crate) fn new_image(alloc: Global, logical: u32) -> Result<Vec<PlainBlock>, NoMemory>
    ensures { IfOk result (λ image. image.items ≡ replicate logical hole) }
{
    if logical == 0 {
        return Ok(Vec::new(alloc));
    }
    let mut image = new_image(alloc, logical - 1)?;
    image.insert(0, hole(alloc)?)?;
    Ok(image)
}
