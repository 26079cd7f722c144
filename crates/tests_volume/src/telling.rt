// What a volume tells of itself: whether it is a destination, family, next number, physical blocks, used
// blocks, the bytes of the active image, and of each snapshot both numbers of its identity and the bytes of
// its image.
use crate::asking::read;
use sm_base::{Ident, Kind, NoMemory};
use sm_disk::Disk;
use sm_volume::{View, Volume};
use std::alloc::Global;
use std::test::Fail;

fn tell_head<D: Disk>(volume: &Volume<D>, told: &mut String) -> Result<(), Fail> {
    let root = volume.root();
    let kind = match root.kind {
        Kind::Rw => "rw",
        Kind::Dp => "dp",
    };
    let used = volume.used();
    write!(
        told,
        "{kind} {} {} {} {used}:",
        root.family, root.next, root.physical
    )?;
    Ok(())
}

fn idents_of<D: Disk>(alloc: Global, volume: &Volume<D>) -> Result<Vec<Ident>, NoMemory> {
    let mut idents = Vec::new(alloc);
    for snapshot in volume.root().snapshots.as_slice() {
        idents.push(snapshot.ident)?;
    }
    Ok(idents)
}

fn tell_image<D: Disk>(volume: &mut Volume<D>, view: View, told: &mut String) -> Result<(), Fail> {
    for at in 0..volume.root().logical {
        let fill = read(volume, view, at)?;
        write!(told, " {fill}")?;
    }
    Ok(())
}

// The text; `down` of a volume that is down.
pub fn text_of<D: Disk>(alloc: Global, volume: &mut Volume<D>) -> Result<String, Fail> {
    if !volume.is_up() {
        return Ok(String::from_str(alloc, "down")?);
    }
    let mut told = String::new(alloc);
    let idents = idents_of(alloc, volume)?;
    tell_head(volume, &mut told)?;
    tell_image(volume, View::Active, &mut told)?;
    for ident in idents.as_slice() {
        write!(&mut told, ", {} {}:", ident.origin, ident.seq)?;
        tell_image(volume, View::Of(*ident), &mut told)?;
    }
    Ok(told)
}
