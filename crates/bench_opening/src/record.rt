// Records of catalogues, spelled byte by byte.
use sm_base::NoMemory;
use sm_catroot::decode;
use std::alloc::Global;

// The volumes s:a and s:b on the disks 1 and 2, and a mirror's policy.
const HEAD: &[u8] = b"\0\0\0\x02\x01s\x01a\0\0\0\x01\x01s\x01b\0\0\0\x02\
    \0\0\0\x01\x01m\0\0\0\0\x01\x0asm_created\0\0\0\x01\0";

fn put(bytes: &mut Vec<u8>, more: &[u8]) -> Result<(), NoMemory> {
    bytes.extend_from_slice(more)?;
    Ok(())
}

fn put_small(bytes: &mut Vec<u8>, number: u32) -> Result<(), NoMemory> {
    put(bytes, number.to_be_bytes().as_slice())
}

fn put_number(bytes: &mut Vec<u8>, number: u64) -> Result<(), NoMemory> {
    put(bytes, number.to_be_bytes().as_slice())
}

// An identity of each leg, of volume 0's snapshots.
fn put_legs(bytes: &mut Vec<u8>, legs: u32) -> Result<(), NoMemory> {
    put_small(bytes, legs)?;
    for leg in 0..legs {
        put_small(bytes, 0)?;
        put_number(bytes, 2 * u64::from(leg) + 2)?;
    }
    Ok(())
}

// A relationship with a transfer of so many legs, from volume 0 to volume 1.
fn put_relation(bytes: &mut Vec<u8>, place: u32, legs: u32) -> Result<(), NoMemory> {
    let number = u64::from(place) + 1;
    put(
        bytes,
        number.to_be_bytes().as_slice().get(4..8).unwrap_or(b""),
    )?;
    put(bytes, b"\0\0\0\0\0\0\0\x01\0\0\0\0\x03\0\0\x01")?;
    put_number(bytes, number)?;
    put(bytes, b"\x01\0\0\0\0\0")?;
    put_legs(bytes, legs)
}

// The record of so many relationships, each with so many legs.
fn record_of(alloc: Global, relations: u32, legs: u32) -> Result<Vec<u8>, NoMemory> {
    let mut body = Vec::new(alloc);
    put_number(&mut body, 0)?;
    put_small(&mut body, 1000)?;
    put_number(&mut body, 1000)?;
    put(&mut body, HEAD)?;
    put_small(&mut body, relations)?;
    for place in 0..relations {
        put_relation(&mut body, place, legs)?;
    }
    let mut bytes = Vec::new(alloc);
    put(&mut bytes, b"SMCATL01")?;
    put_small(&mut bytes, u32::try_from(body.len()).unwrap_or(0))?;
    put(&mut bytes, &body)?;
    Ok(bytes)
}

// How many relationships the record spells; 1000 where it spells no catalogue.
fn relations_in(alloc: Global, bytes: &[u8]) -> usize {
    if bytes.len() > 1_000_000 {
        return 1000;
    }
    match decode(alloc, bytes) {
        Ok(catalog) => catalog.relations.len(),
        Err(_) => 1000,
    }
}

/// Decodes the record so often. The answer is how many relationships it has, and the record's length.
pub fn decode_often(
    alloc: Global,
    relations: u32,
    legs: u32,
    calls: u32,
) -> Result<usize, NoMemory> {
    let bytes = record_of(alloc, relations, legs)?;
    let mut found = 0;
    for _ in 0..calls {
        found = relations_in(alloc, &bytes);
    }
    Ok(found)
}
