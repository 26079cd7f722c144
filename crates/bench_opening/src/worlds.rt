// Worlds of maps, and the tests of their shape.
use sm_base::{DiskNo, Ident, Kind, NoMemory, Path, SnapName};
use sm_fit::shape;
use sm_model::{World, WorldSnapshot, WorldVolume};
use std::alloc::Global;

// Every logical block has the block one past its place.
fn full_map(alloc: Global, logical: u32) -> Result<Vec<u32>, NoMemory> {
    let mut map = Vec::new(alloc);
    for place in 0..logical {
        map.push(place.wrapping_add(1))?;
    }
    Ok(map)
}

fn path_of(alloc: Global, place: u32) -> Result<Path, NoMemory> {
    let text = format!(in alloc; "s:v{place}")?;
    match Path::read(alloc, text.as_bytes()) {
        Ok(path) => Ok(path),
        Err(_) => Err(NoMemory),
    }
}

fn name_of(alloc: Global, place: u32) -> Result<SnapName, NoMemory> {
    let text = format!(in alloc; "s{place}")?;
    match SnapName::read(alloc, text.as_bytes()) {
        Ok(name) => Ok(name),
        Err(_) => Err(NoMemory),
    }
}

// The snapshots that a client took of a volume, each of the whole image.
fn snapshots_of(
    alloc: Global,
    origin: u32,
    count: u32,
    logical: u32,
) -> Result<Vec<WorldSnapshot>, NoMemory> {
    let mut snapshots = Vec::new(alloc);
    for place in 0..count {
        snapshots.push(WorldSnapshot {
            ident: Ident {
                origin,
                seq: 2 * u64::from(place) + 2,
            },
            name: name_of(alloc, place)?,
            label: None,
            time: 0,
            made: 0,
            map: full_map(alloc, logical)?,
        })?;
    }
    Ok(snapshots)
}

fn volume_of(alloc: Global, place: u32, count: u32, logical: u32) -> Result<WorldVolume, NoMemory> {
    Ok(WorldVolume {
        path: path_of(alloc, place)?,
        disk: DiskNo(place.wrapping_add(1)),
        kind: Kind::Rw,
        family: u64::from(place),
        logical,
        physical: logical,
        next: u64::from(count) + 1,
        active: full_map(alloc, logical)?,
        stable: full_map(alloc, logical)?,
        snapshots: snapshots_of(alloc, place, count, logical)?,
    })
}

fn world_of(alloc: Global, volumes: u32, count: u32, logical: u32) -> Result<World, NoMemory> {
    let mut all = Vec::new(alloc);
    for place in 0..volumes {
        all.push(volume_of(alloc, place, count, logical)?)?;
    }
    Ok(World {
        clock: 0,
        next_relation: 1,
        next_transfer: 1,
        volumes: all,
        policies: Vec::new(alloc),
        relations: Vec::new(alloc),
        disks: Vec::new(alloc),
    })
}

/// Tests the shape of the world so often. The answer is 1 where it is sound but for the bytes.
pub fn test_often(
    alloc: Global,
    volumes: u32,
    count: u32,
    logical: u32,
    calls: u32,
) -> Result<usize, NoMemory> {
    let world = world_of(alloc, volumes, count, logical)?;
    let mut found = 0;
    for _ in 0..calls {
        let sound = shape(alloc, &world)?;
        found = usize::from(sound);
    }
    Ok(found)
}
