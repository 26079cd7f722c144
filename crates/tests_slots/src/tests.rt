// Each step is made whole by a function that takes any disk and answers little, so that what a call
// promises of a disk stays out of the proofs of the tests.
ghost use Rattle.std.specs.Prelude.{◌≡◌, ◌^◌, ◌<◌, ◌≤◌, length, false, IfSome, IfOk};
ghost use Rattle.sm_slots.specs.Stored.{IsFramed, is_blank, slots_end};
ghost use Rattle.sm_slots.specs.Slots.{IsSettled};

use sm_base::NoMemory;
use sm_disk::Disk;
use sm_memdisk::{Image, MemDisk};
use sm_slots::{
    RecordFault, SLOT_LEN, SLOTS_END, SlotFault, Slots, commit_and_restart, restart_and_open,
};
use std::alloc::Global;

const MAGIC: &[u8; 8] = b"SMCATL01";

// The body of the empty catalogue: clock 0, next relationship 1, next transfer 1 and three counts.
const BODY: [u8; 32] = [
    0, 0, 0, 0, 0, 0, 0, 0, 0, 0, 0, 1, 0, 0, 0, 0, 0, 0, 0, 1, 0, 0, 0, 0, 0, 0, 0, 0, 0, 0, 0, 0,
];

// The whole record of the empty catalogue.
const RECORD: [u8; 44] = [
    0x53, 0x4d, 0x43, 0x41, 0x54, 0x4c, 0x30, 0x31, 0, 0, 0, 0x20, 0, 0, 0, 0, 0, 0, 0, 0, 0, 0, 0,
    1, 0, 0, 0, 0, 0, 0, 0, 1, 0, 0, 0, 0, 0, 0, 0, 0, 0, 0, 0, 0,
];

// A disk of the slots and one byte, which fails at one call, or stops at one, where it is not 0.
fn disk_of(alloc: Global, fails: u64, stops: u64, image: Image) -> Option<MemDisk> {
    let mut disk = MemDisk::new(alloc, SLOTS_END + 1).ok()?;
    if fails > 0 {
        disk.fail_at(fails).ok()?;
    }
    if stops > 0 {
        disk.stop_from(stops);
    }
    disk.choose(image);
    Some(disk)
}

fn sound(alloc: Global) -> Option<MemDisk> {
    disk_of(alloc, 0, 0, Image::Old)
}

// A record with this magic word and this body.
fn framed(alloc: Global, magic: &[u8], body: &[u8]) -> Result<Vec<u8>, NoMemory>
    requires eight { length magic.now ≡ 8 }
    requires not_blank { is_blank magic.now ≡ false }
    requires short { length body.now < 2 ^ 32 }

    ensures { IfOk result (λ made. IsFramed made.items) }
{
    sm_fields::framed(alloc, magic, body)
}

// A record with this body, which is at most as long as a slot.
fn record_of(alloc: Global, body: &[u8]) -> Option<Vec<u8>>
    ensures { IfSome result (λ made. IsFramed made.items) }
{
    if body.len() > SLOT_LEN {
        return None;
    }
    framed(alloc, MAGIC, body).ok()
}

// What is read of a disk.
#[derive(Drop)]
struct Found {
    slot: u8,
    record: Option<Vec<u8>>,
}

fn read<D: Disk>(alloc: Global, disk: &mut D) -> Result<Found, RecordFault> {
    if disk.len() < SLOTS_END {
        return Err(RecordFault::BadLength);
    }
    match Slots::open(disk) {
        Ok(slots) => {
            let record = slots.record(alloc, disk)?;
            let slot = slots.slot();
            Ok(Found { slot, record })
        }
        Err(_) => Err(RecordFault::DiskFault),
    }
}

// The number of the slot after a restart and a commit of the record.
fn commit<D: Disk>(disk: &mut D, bytes: &[u8]) -> Result<u8, SlotFault>
    requires { IsFramed bytes.now }
{
    if disk.len() < SLOTS_END {
        return Err(SlotFault::DiskFault);
    }
    let mut slots = restart_and_open(disk)?;
    slots.commit(disk, bytes)?;
    Ok(slots.slot())
}

// The number of the slot after a format with the record.
fn format<D: Disk>(disk: &mut D, bytes: &[u8]) -> Result<u8, SlotFault>
    requires { IsFramed bytes.now }
{
    if disk.len() < SLOTS_END {
        return Err(SlotFault::DiskFault);
    }
    let slots = Slots::format(disk, bytes)?;
    Ok(slots.slot())
}

fn reads_blank<D: Disk>(alloc: Global, disk: &mut D) -> Option<bool> {
    let found = read(alloc, disk).ok()?;
    Some(found.slot == 0 && found.record.is_none())
}

fn holds<D: Disk>(alloc: Global, disk: &mut D, slot: u8, bytes: &[u8]) -> Option<bool> {
    let found = read(alloc, disk).ok()?;
    let record = found.record?;
    Some(found.slot == slot && record.as_slice() == bytes)
}

fn commit_body<D: Disk>(alloc: Global, disk: &mut D) -> Option<u8> {
    let bytes = record_of(alloc, &BODY)?;
    commit(disk, &bytes).ok()
}

// Whether a blank disk has no record, and after a commit the one that was committed.
fn is_read_back(alloc: Global) -> Option<bool> {
    let mut disk = sound(alloc)?;
    let blank = reads_blank(alloc, &mut disk)?;
    let slot = commit_body(alloc, &mut disk)?;
    let held = holds(alloc, &mut disk, 1, &RECORD)?;
    Some(blank && slot == 1 && held)
}

#[test]
fn reads_what_was_committed(rt: HostRuntime) {
    assert_eq!(rt; is_read_back(rt.alloc()), Some(true));
}

fn zeros(alloc: Global, len: usize) -> Option<Vec<u8>> {
    vec![in alloc; 0u8; len].ok()
}

// What a commit and a format answer to a record that is one byte longer than a slot, and its length.
fn put_too_long(alloc: Global) -> Option<(Result<u8, SlotFault>, Result<u8, SlotFault>, usize)> {
    let body = zeros(alloc, SLOT_LEN - 11)?;
    let bytes = record_of(alloc, &body)?;
    let mut disk = sound(alloc)?;
    let committed = commit(&mut disk, &bytes);
    let formatted = format(&mut disk, &bytes);
    Some((committed, formatted, bytes.len()))
}

#[test]
fn refuses_a_record_longer_than_a_slot(rt: HostRuntime) {
    let too_large = Err(SlotFault::TooLarge);
    assert_eq!(rt;
        put_too_long(rt.alloc()),
        Some((too_large, too_large, 4_456_449))
    );
}

// Writes a selector and the head of slot 0, which states this length for the body of its record.
fn write_head<D: Disk>(disk: &mut D, selector: u8, stated: u32) -> Option<()> {
    if disk.len() < SLOTS_END {
        return None;
    }
    disk.write(0, &[selector]).ok()?;
    disk.write(4096, MAGIC).ok()?;
    disk.write(4104, &stated.to_be_bytes()).ok()
}

// The slot that is read of such a disk, and the length of its record, 0 where it is blank.
fn read_of(alloc: Global, selector: u8, stated: u32) -> Option<Result<(u8, usize), RecordFault>> {
    let mut disk = sound(alloc)?;
    write_head(&mut disk, selector, stated)?;
    match read(alloc, &mut disk) {
        Ok(found) => {
            let len = found.record.map_or(0, |bytes| bytes.len());
            Some(Ok((found.slot, len)))
        }
        Err(fault) => Some(Err(fault)),
    }
}

const STATED: [(u8, u32, Result<(u8, usize), RecordFault>); 10] = [
    (0, 0, Ok((0, 12))),
    (0, 4_456_436, Ok((0, 4_456_448))),
    (0, 4_456_437, Err(RecordFault::BadLength)),
    (0, u32::MAX, Err(RecordFault::BadLength)),
    (1, 7, Ok((1, 0))),
    (2, 7, Ok((0, 19))),
    (7, 7, Ok((1, 0))),
    (254, 7, Ok((0, 19))),
    (255, 7, Ok((1, 0))),
    (1, u32::MAX, Ok((1, 0))),
];

#[test]
fn reads_the_slot_that_is_selected(rt: HostRuntime) {
    for (selector, stated, wanted) in STATED {
        let found = read_of(rt.alloc(), selector, stated);
        assert_eq!(rt;
            found,
            Some(wanted),
            "the selector {selector}, {stated} stated"
        );
    }
}

// What is read where the disk fails at that call, of which the first four are those of a format, and how
// often it failed.
fn read_failing(alloc: Global, call: u64) -> Option<(bool, u64)> {
    let bytes = record_of(alloc, &BODY)?;
    let mut disk = disk_of(alloc, call, 0, Image::Old)?;
    format(&mut disk, &bytes).ok()?;
    let told = matches!(read(alloc, &mut disk), Err(RecordFault::DiskFault));
    Some((told, disk.faults()))
}

#[test]
fn a_failed_read_is_told(rt: HostRuntime) {
    for call in 5..8u64 {
        assert_eq!(rt;
            read_failing(rt.alloc(), call),
            Some((true, 1)),
            "at the call {call}"
        );
    }
}

// What a restart leaves of the selector that a commit was about to set to 1.
const IMAGES: [(Image, u8); 7] = [
    (Image::Old, 0),
    (Image::New, 1),
    (Image::Fill(0), 0),
    (Image::Fill(1), 1),
    (Image::Fill(7), 1),
    (Image::Fill(254), 0),
    (Image::Fill(255), 1),
];

// The bodies of the records before a commit and after it.
const BODIES: [&[u8]; 2] = [b"old", b"the new one"];

// The slots with the first record, on a disk with a byte behind them.
fn begun<D: Disk>(alloc: Global, disk: &mut D) -> Option<Slots>
    ensures room { IfSome result (λ slots. slots_end < (D.state disk.new).size) }
    ensures settled { IfSome result (λ slots. IsSettled (D.state disk.new) slots) }
{
    let bytes = record_of(alloc, b"old")?;
    if disk.len() <= SLOTS_END {
        return None;
    }
    disk.write(SLOTS_END, &[0x5a]).ok()?;
    Slots::format(disk, &bytes).ok()
}

// The number of the slot after a commit of the second record and a restart.
fn commit_second<D: Disk>(alloc: Global, disk: &mut D) -> Option<u8> {
    let bytes = record_of(alloc, b"the new one")?;
    let slots = begun(alloc, disk)?;
    let slots = commit_and_restart(slots, disk, &bytes).ok()?;
    Some(slots.slot())
}

fn behind<D: Disk>(disk: &mut D) -> Option<u8> {
    if disk.len() <= SLOTS_END {
        return None;
    }
    let mut byte = [0u8];
    disk.read(SLOTS_END, &mut byte).ok()?;
    Some(byte[0])
}

fn holds_body<D: Disk>(alloc: Global, disk: &mut D, slot: u8) -> Option<bool> {
    let bytes = record_of(alloc, BODIES[(slot % 2) as usize])?;
    holds(alloc, disk, slot, &bytes)
}

// Whether the slot of this number is selected with its record after a commit that the disk stops at
// that call, and one failure was counted, and the byte behind the slots stands.
fn is_left(alloc: Global, call: u64, image: Image, slot: u8) -> Option<bool> {
    // So far there is a write, and the four calls of the format.
    let mut disk = disk_of(alloc, 0, 5 + call % 8, image)?;
    let selected = commit_second(alloc, &mut disk)?;
    let held = holds_body(alloc, &mut disk, slot)?;
    let byte = behind(&mut disk)?;
    Some(selected == slot && held && byte == 0x5a && disk.faults() == 1)
}

#[test]
fn no_crash_tears_a_commit(rt: HostRuntime) {
    for call in 1..5u64 {
        for (image, low_bit) in IMAGES {
            // The selector is written by the third call.
            let slot = if call < 3 { 0 } else { low_bit };
            let is_left = is_left(rt.alloc(), call, image, slot);
            assert_eq!(rt; is_left, Some(true), "{image:?} at the call {call}");
        }
    }
}
