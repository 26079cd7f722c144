// Records of catalogues, read and written. Each record is looked at by a function that answers little, so that no
// proof follows its bytes.
use sm_base::{DiskNo, Ident, PolicyKind, Reason, RelNo, TransferKind, VolNo};
use sm_catroot::{Catalog, decode, encode};
use sm_register::{DecodeFault, Record};
use sm_relation::{Relation, Standing};
use std::alloc::Global;

// The record of a node on which nothing was created.
const EMPTY: &[u8] =
    b"SMCATL01\0\0\0\x20\0\0\0\0\0\0\0\0\0\0\0\x01\0\0\0\0\0\0\0\x01\0\0\0\0\0\0\0\0\0\0\0\0";

// The record of volumes s:a and s:b, a mirror with both of its rules, a vault with one, and a relationship
// whose transfer 3 has a leg and its own one.
const FULL: &[u8] = b"SMCATL01\0\0\0\xb9\
    \0\0\0\0\0\0\0\x07\0\0\0\x03\0\0\0\0\0\0\0\x04\
    \0\0\0\x02\x01s\x01a\0\0\0\x01\x01s\x01b\0\0\0\x02\
    \0\0\0\x02\x01m\0\0\0\0\x02\x0asm_created\0\0\0\x01\0\x14all_source_snapshots\0\0\0\x01\0\
    \x01v\x01\0\0\0\x01\x01d\0\0\0\xfb\x01\
    \0\0\0\x01\0\0\0\x02\0\0\0\0\0\0\0\x01\0\0\0\0\x03\x01\x01\0\0\0\0\0\0\0\0\0\0\0\x04\
    \x01\0\0\0\0\0\0\0\x03\x01\x01\0\0\0\x09\
    \0\0\0\x02\0\0\0\0\0\0\0\0\0\0\0\x06\0\0\0\0\0\0\0\0\0\0\0\x07";

// What the bytes spell.
fn read(alloc: Global, bytes: &[u8]) -> Result<Catalog, DecodeFault> {
    if bytes.len() > 1000 {
        return Err(DecodeFault::NoMemory);
    }
    decode(alloc, bytes)
}

// Whether the bytes are the one spelling of a catalogue.
fn is_spelling(alloc: Global, bytes: &[u8]) -> Result<bool, DecodeFault> {
    if bytes.len() > 1000 {
        return Err(DecodeFault::NoMemory);
    }
    let catalog = decode(alloc, bytes)?;
    let again = encode(alloc, &catalog)?;
    Ok(again.as_slice() == bytes)
}

fn is_empty(catalog: &Catalog) -> bool {
    catalog.clock == 0
        && catalog.next_relation == 1
        && catalog.next_transfer == 1
        && catalog.volumes.is_empty()
        && catalog.policies.is_empty()
        && catalog.relations.is_empty()
}

// Whether a blank slot and the record stand for the catalogue of a new node.
fn empty_is_read(alloc: Global) -> Result<bool, DecodeFault> {
    let blank: Catalog = Record::decode(alloc, None)?;
    let catalog = read(alloc, EMPTY)?;
    Ok(is_empty(&blank) && is_empty(&catalog) && is_spelling(alloc, EMPTY)?)
}

fn is_transfer(transfer: &Standing) -> bool {
    transfer.number == 3
        && transfer.kind == TransferKind::Update
        && transfer.reserved
        && transfer.checkpoint == 9
        && transfer.legs.as_slice()
            == [Ident { origin: 0, seq: 6 }, Ident { origin: 0, seq: 7 }].as_slice()
        && transfer.stopped == Some(Reason::Restart)
}

fn is_relation(relation: &Relation) -> bool {
    relation.number == RelNo(2)
        && relation.source == VolNo(0)
        && relation.destination == VolNo(1)
        && relation.policy == 0
        && relation.source_half
        && relation.destination_half
        && relation.quiesced
        && relation.base == Some(Ident { origin: 0, seq: 4 })
}

// Whether what is read of the full record is what it was made of.
fn full_is_read(alloc: Global) -> Option<bool> {
    let catalog = read(alloc, FULL).ok()?;
    let volume = catalog.volumes.get(1)?;
    let mirror = catalog.policies.get(0)?;
    let vault = catalog.policies.get(1)?;
    let relation = catalog.relations.get(0)?;
    let transfer = relation.transfer.as_ref()?;
    let numbers = catalog.clock == 7 && catalog.next_relation == 3 && catalog.next_transfer == 4;
    let volumes = catalog.volumes.len() == 2
        && volume.path.text() == b"s:b".as_slice()
        && volume.disk == DiskNo(2);
    let policies = catalog.policies.len() == 2
        && mirror.rules().len() == 2
        && vault.kind() == PolicyKind::Vault;
    let relations = catalog.relations.len() == 1 && is_relation(relation) && is_transfer(transfer);
    Some(numbers && volumes && policies && relations)
}

#[test]
fn catalogues_are_read_and_written(rt: HostRuntime) {
    assert_eq!(rt; empty_is_read(rt.alloc()), Ok(true));
    assert_eq!(rt; full_is_read(rt.alloc()), Some(true));
    assert_eq!(rt; is_spelling(rt.alloc(), FULL), Ok(true));
}

// The full record with this byte at a place.
fn changed(alloc: Global, place: usize, value: u8) -> Option<Vec<u8>> {
    let mut bytes = Vec::from_slice(alloc, FULL).ok()?;
    let byte = bytes.get_mut(place)?;
    *byte = value;
    Some(bytes)
}

// The first byte that fits no catalogue.
fn fault_with(alloc: Global, place: usize, value: u8) -> Option<u32> {
    let bytes = changed(alloc, place, value)?;
    match is_spelling(alloc, &bytes) {
        Err(DecodeFault::Bad { at }) => Some(at),
        _ => None,
    }
}

const FAULTS: [(usize, u8, u32, &str); 24] = [
    (7, 0x32, 7, "another magic word"),
    (11, 0, 8, "another length"),
    (12, 1, 12, "a clock past the last second"),
    (23, 0, 20, "no next relationship"),
    (31, 0, 24, "no next transfer"),
    (35, 33, 32, "too many volumes"),
    (37, 0x2d, 36, "a first part with a hyphen"),
    (47, 0x61, 44, "a path twice"),
    (57, 0x20, 56, "a policy's name with a space"),
    (58, 2, 58, "no kind of policy"),
    (62, 0, 59, "a mirror without a rule"),
    (64, 0x53, 63, "another first rule"),
    (77, 2, 74, "a mirror that keeps two"),
    (78, 1, 78, "a mirror that keeps for good"),
    (80, 0x41, 79, "a label of no mirror"),
    (106, 0x6d, 105, "a policy's name twice"),
    (117, 252, 114, "more kept than may be"),
    (126, 0, 123, "a relationship of number 0"),
    (139, 0, 139, "no half"),
    (139, 4, 139, "more than two halves"),
    (140, 2, 140, "no truth value"),
    (163, 3, 163, "no kind of transfer"),
    (172, 0, 169, "a transfer without the leg that it reserves"),
    (196, 8, 185, "another last leg"),
];

#[test]
fn a_fault_is_the_first_byte_of_its_field(rt: HostRuntime) {
    for (place, value, at, what) in FAULTS {
        assert_eq!(rt; fault_with(rt.alloc(), place, value), Some(at), "{what}");
    }
}

// Whether the record with any byte at the place is another one, or has a fault within.
fn is_another(alloc: Global, place: usize) -> Option<bool> {
    for value in 0..=255u8 {
        let bytes = changed(alloc, place, value)?;
        let taken = match is_spelling(alloc, &bytes) {
            Ok(same) => same,
            Err(DecodeFault::Bad { at }) => at <= 197,
            Err(DecodeFault::NoMemory) => return None,
        };
        if !taken {
            return Some(false);
        }
    }
    Some(true)
}

#[test]
fn another_byte_is_another_catalogue_or_a_fault(rt: HostRuntime) {
    for place in 0..197usize {
        assert_eq!(rt; is_another(rt.alloc(), place), Some(true), "at {place}");
    }
}
