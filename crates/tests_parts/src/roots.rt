// Records of roots, read and written. Each record is looked at by a function that knows nothing of its
// bytes, so that no proof follows them.
use sm_base::{Ident, Kind, NoMemory};
use sm_fields::{Writer, framed, write_identity};
use sm_root::{Root, RootFault, RootSnapshot, decode, encode};
use std::alloc::Global;

// Volume 0 of one block, a hole, without a snapshot.
const EMPTY: [u8; 49] = [
    0x53, 0x4d, 0x52, 0x4f, 0x4f, 0x54, 0x30, 0x31, 0, 0, 0, 0x25, 0, 0, 0, 0, 0, 0, 0, 0, 0, 0, 0,
    0, 0, 0, 0, 0, 1, 0, 0, 0, 1, 0, 0, 0, 0, 0, 0, 0, 1, 0, 0, 0, 0, 0, 0, 0, 0,
];

// Volume 0 of one block, at number 1 of two, with the snapshot s1 of it.
const ONE_SNAPSHOT: [u8; 81] = [
    0x53, 0x4d, 0x52, 0x4f, 0x4f, 0x54, 0x30, 0x31, 0, 0, 0, 0x45, 0, 0, 0, 0, 0, 0, 0, 0, 0, 0, 0,
    0, 0, 0, 0, 0, 1, 0, 0, 0, 2, 0, 0, 0, 0, 0, 0, 0, 2, 0, 0, 0, 1, 0, 0, 0, 1, 0, 0, 0, 0, 0, 0,
    0, 0, 0, 0, 0, 2, 2, 0x73, 0x31, 0, 0, 0, 0, 0, 0, 0, 0, 0, 0, 0, 0, 0, 0, 0, 0, 1,
];

// Where the fields of `ONE_SNAPSHOT` start.
const STARTS: [u32; 24] = [
    0, 1, 2, 3, 4, 5, 6, 7, 8, 12, 16, 17, 25, 29, 33, 41, 45, 49, 53, 61, 64, 65, 73, 77,
];

const LONGEST: usize = 4_225_204;

// Numbers of a root, and then those of its maps, names and labels, each in front of how many there are.
fn put_all(line: &mut Vec<u64>, numbers: &[u32]) -> Result<(), NoMemory> {
    line.push(numbers.len() as u64)?;
    for number in numbers {
        line.push(*number as u64)?;
    }
    Ok(())
}

fn put_text(line: &mut Vec<u64>, text: &[u8]) -> Result<(), NoMemory> {
    line.push(text.len() as u64)?;
    for byte in text {
        line.push(*byte as u64)?;
    }
    Ok(())
}

fn put_snapshot(line: &mut Vec<u64>, snapshot: &RootSnapshot) -> Result<(), NoMemory> {
    put_text(line, snapshot.name.text())?;
    match &snapshot.label {
        Some(label) => put_text(line, label.text())?,
        None => put_text(line, b"")?,
    }
    let ident = snapshot.ident;
    let numbers = [
        ident.origin as u64,
        ident.seq,
        snapshot.time,
        snapshot.made as u64,
    ];
    line.extend_from_slice(&numbers)?;
    put_all(line, snapshot.map.as_slice())
}

fn line_of(alloc: Global, root: &Root) -> Result<Vec<u64>, NoMemory> {
    let numbers = [
        root.number.0 as u64,
        (root.kind == Kind::Dp) as u64,
        root.family,
        root.logical as u64,
        root.physical as u64,
        root.next,
    ];
    let mut line = Vec::from_slice(alloc, &numbers)?;
    put_all(&mut line, root.stable.as_slice())?;
    for snapshot in root.snapshots.as_slice() {
        put_snapshot(&mut line, snapshot)?;
    }
    Ok(line)
}

// What a record tells.
fn told(alloc: Global, bytes: &[u8]) -> Result<Vec<u64>, RootFault> {
    if bytes.len() > LONGEST {
        return Err(RootFault::NoMemory);
    }
    let root = decode(alloc, bytes)?;
    line_of(alloc, &root).map_err(|_| RootFault::NoMemory)
}

// The record of a copy of the root that a record spells.
fn spelled(alloc: Global, bytes: &[u8]) -> Result<Vec<u8>, RootFault> {
    if bytes.len() > LONGEST {
        return Err(RootFault::NoMemory);
    }
    let root = decode(alloc, bytes)?;
    let Ok(copy) = root.copy(alloc) else {
        return Err(RootFault::NoMemory);
    };
    encode(alloc, &copy).map_err(|_| RootFault::NoMemory)
}

// Whether the bytes are the one spelling of a root.
fn is_spelling(alloc: Global, bytes: &[u8]) -> Result<bool, RootFault> {
    let again = spelled(alloc, bytes)?;
    Ok(again.as_slice() == bytes)
}

// The records, and what each tells.
const EXAMPLES: [(&[u8], &[u64]); 2] = [
    (&EMPTY, &[0, 0, 0, 1, 1, 1, 1, 0]),
    (
        &ONE_SNAPSHOT,
        &[0, 0, 0, 1, 2, 2, 1, 1, 2, 0x73, 0x31, 0, 0, 2, 0, 0, 1, 1],
    ),
];

fn tells(alloc: Global, bytes: &[u8], wanted: &[u64]) -> Result<bool, RootFault> {
    let line = told(alloc, bytes)?;
    Ok(line.as_slice() == wanted && is_spelling(alloc, bytes)?)
}

#[test]
fn the_examples_are_read_and_written(rt: HostRuntime) {
    for (bytes, wanted) in EXAMPLES {
        assert_eq!(rt; tells(rt.alloc(), bytes, wanted), Ok(true));
    }
}

// The record with this byte at a place.
fn changed(alloc: Global, bytes: &[u8], place: usize, value: u8) -> Option<Vec<u8>> {
    let mut bytes = Vec::from_slice(alloc, bytes).ok()?;
    let byte = bytes.get_mut(place)?;
    *byte = value;
    Some(bytes)
}

// The first byte that fits no root; none where there is no such byte.
fn fault_of(alloc: Global, bytes: &[u8]) -> Option<u32> {
    match told(alloc, bytes) {
        Err(RootFault::Bad { at }) => Some(at),
        _ => None,
    }
}

const FAULTS: [(usize, u8, u32, &str); 12] = [
    (7, 0x32, 7, "another magic word"),
    (11, 0x44, 8, "another length"),
    (16, 2, 16, "no kind"),
    (28, 0, 25, "no block"),
    (32, 0, 29, "fewer physical blocks than logical ones"),
    (40, 0, 33, "no next number"),
    (44, 3, 41, "a number above the greatest"),
    (48, 2, 81, "one snapshot too few"),
    (61, 65, 61, "a name that is too long"),
    (62, 0x20, 61, "a name with a space"),
    (64, 32, 64, "a label that is too long"),
    (80, 3, 77, "a snapshot's number above the greatest"),
];

fn fault_with(alloc: Global, place: usize, value: u8) -> Option<u32> {
    let bytes = changed(alloc, &ONE_SNAPSHOT, place, value)?;
    fault_of(alloc, &bytes)
}

// The fault of the first example with one more byte, which its length counts.
fn fault_behind(alloc: Global) -> Option<u32> {
    let mut bytes = changed(alloc, &EMPTY, 11, 38)?;
    bytes.push(0).ok()?;
    fault_of(alloc, &bytes)
}

#[test]
fn a_fault_is_the_first_byte_of_its_field(rt: HostRuntime) {
    for (place, value, at, what) in FAULTS {
        assert_eq!(rt; fault_with(rt.alloc(), place, value), Some(at), "{what}");
    }
    assert_eq!(rt; fault_behind(rt.alloc()), Some(49), "a byte behind the end");
}

// The start of the field that has this byte.
fn start_of(place: u32) -> u32 {
    let mut start = 0;
    for candidate in STARTS {
        if candidate <= place {
            start = candidate;
        }
    }
    start
}

// Whether a changed record is that of another root, or a fault is told at or behind the field's start.
fn is_another(alloc: Global, place: u32, bytes: &[u8]) -> bool {
    match is_spelling(alloc, bytes) {
        Ok(same) => same,
        Err(RootFault::Bad { at }) => start_of(place) <= at && at <= 81,
        Err(RootFault::NoMemory) => false,
    }
}

// The first value at the place that is taken wrongly.
fn wrong_value(alloc: Global, place: u32) -> Option<u8> {
    for value in 0..=255u8 {
        let bytes = changed(alloc, &ONE_SNAPSHOT, place as usize, value)?;
        if !is_another(alloc, place, &bytes) {
            return Some(value);
        }
    }
    None
}

#[test]
fn another_byte_is_another_root_or_a_fault(rt: HostRuntime) {
    for place in 0..81u32 {
        assert_eq!(rt; wrong_value(rt.alloc(), place), None, "at {place}");
    }
}

// What a snapshot of a made record has beside its words: the number of its identity, and its map.
type Taken<'a> = (u64, &'a [u32]);

fn write_numbers(writer: &mut Writer, numbers: &[u32]) -> Result<(), NoMemory> {
    for number in numbers {
        writer.u32(*number)?;
    }
    Ok(())
}

fn write_taken(writer: &mut Writer, taken: &Taken) -> Result<(), NoMemory> {
    let ident = Ident {
        origin: 0,
        seq: taken.0,
    };
    write_identity(writer, ident)?;
    writer.text(64, &[b'n'; 64])?;
    writer.text(31, &[b'l'; 31])?;
    writer.u64(7)?;
    writer.u32(0)?;
    write_numbers(writer, taken.1)
}

// The fields of volume 0, a destination of 16,384 physical blocks.
fn write_head(writer: &mut Writer, logical: u32) -> Result<(), NoMemory> {
    writer.u32(0)?;
    writer.u8(1)?;
    writer.u64(0)?;
    writer.u32(logical)?;
    writer.u32(16384)?;
    writer.u64(1)
}

// Its record, with these maps.
fn record_of(alloc: Global, stable: &[u32], snapshots: &[Taken]) -> Result<Vec<u8>, NoMemory> {
    let mut writer = Writer::new(alloc);
    write_head(&mut writer, (stable.len() % 4097) as u32)?;
    write_numbers(&mut writer, stable)?;
    writer.u32((snapshots.len() % 256) as u32)?;
    for taken in snapshots {
        write_taken(&mut writer, taken)?;
    }
    let body = writer.end();
    if body.len() > LONGEST {
        return Err(NoMemory);
    }
    framed(alloc, b"SMROOT01", &body)
}

// Snapshots behind the stable map 1, 2, or 1, 1 where there is none, and the fault of their record.
const MADE: [(&[u32], &[(u64, &'static [u32])], Option<u32>, &str); 4] = [
    (&[1, 1], &[], Some(45), "twice in a map"),
    (&[1, 2], &[(2, &[2, 0])], Some(174), "at two places"),
    (
        &[1, 2],
        &[(2, &[1, 3]), (2, &[1, 0])],
        Some(182),
        "an identity twice",
    ),
    (&[1, 2], &[(2, &[1, 3]), (4, &[1, 0])], None, "well"),
];

// Whether the record of these maps has this fault, or with none is a spelling.
fn is_taken(alloc: Global, stable: &[u32], snapshots: &[Taken], fault: Option<u32>) -> bool {
    let Ok(bytes) = record_of(alloc, stable, snapshots) else {
        return false;
    };
    match is_spelling(alloc, &bytes) {
        Ok(same) => same && fault.is_none(),
        Err(RootFault::Bad { at }) => fault == Some(at),
        Err(RootFault::NoMemory) => false,
    }
}

#[test]
fn numbers_stand_at_one_place_and_identities_differ(rt: HostRuntime) {
    for (stable, snapshots, fault, what) in MADE {
        assert!(rt; is_taken(rt.alloc(), stable, snapshots, fault), "{what}");
    }
}

fn longest_map(alloc: Global) -> Result<Vec<u32>, NoMemory> {
    let mut map = Vec::new(alloc);
    for number in 1..=4096u32 {
        map.push(number)?;
    }
    Ok(map)
}

// 255 snapshots of 4,096 blocks.
fn longest_record(alloc: Global) -> Result<Vec<u8>, NoMemory> {
    let map = longest_map(alloc)?;
    let mut snapshots = Vec::new(alloc);
    for count in 1..=255u64 {
        snapshots.push((2 * count, map.as_slice()))?;
    }
    record_of(alloc, &map, &snapshots)
}

// Its length, and whether it is a spelling.
fn longest(alloc: Global) -> Option<(usize, Result<bool, RootFault>)> {
    let bytes = longest_record(alloc).ok()?;
    Some((bytes.len(), is_spelling(alloc, &bytes)))
}

#[test]
fn the_longest_root(rt: HostRuntime) {
    assert_eq!(rt; longest(rt.alloc()), Some((4_225_204, Ok(true))));
}
