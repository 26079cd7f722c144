// What opening answers over memory disks: a table of nodes, each with one thing that is otherwise.
use sm_base::limits::SLOTS_END;
use sm_base::{Kind, VolNo};
use sm_catroot::Catalog;
use sm_memdisk::MemDisk;
use sm_model::OpenKind;
use sm_opening::{OpenFault, open};
use sm_register::{Ready, Record, Register};
use sm_volume::Volume;
use std::alloc::Global;
use std::test::Fail;

// A volume s:a on disk 1.
const ONE: &[u8] =
    b"SMCATL01\0\0\0(\0\0\0\0\0\0\0\0\0\0\0\x02\0\0\0\0\0\0\0\x01\0\0\0\x01\x01s\x01a\0\0\0\x01\
    \0\0\0\0\0\0\0\0";

// A volume s:a on disk 0.
const FIRST: &[u8] =
    b"SMCATL01\0\0\0(\0\0\0\0\0\0\0\0\0\0\0\x02\0\0\0\0\0\0\0\x01\0\0\0\x01\x01s\x01a\0\0\0\0\0\
    \0\0\0\0\0\0\0";

// Volumes s:a and s:b on disk 1.
const SHARED: &[u8] =
    b"SMCATL01\0\0\00\0\0\0\0\0\0\0\0\0\0\0\x02\0\0\0\0\0\0\0\x01\0\0\0\x02\x01s\x01a\0\0\0\x01\
    \x01s\x01b\0\0\0\x01\0\0\0\0\0\0\0\0";

// Volumes s:a on disk 2 and s:b on disk 1.
const TURNED: &[u8] =
    b"SMCATL01\0\0\00\0\0\0\0\0\0\0\0\0\0\0\x02\0\0\0\0\0\0\0\x01\0\0\0\x02\x01s\x01a\0\0\0\x02\
    \x01s\x01b\0\0\0\x01\0\0\0\0\0\0\0\0";

// Volumes s:a on disk 1 and s:b on disk 2, a mirror m, and a relationship from s:a to s:b.
const RELATED: &[u8] =
    b"SMCATL01\0\0\0[\0\0\0\0\0\0\0\0\0\0\0\x02\0\0\0\0\0\0\0\x01\0\0\0\x02\x01s\x01a\0\0\0\x01\
    \x01s\x01b\0\0\0\x02\0\0\0\x01\x01m\0\0\0\0\x01\x0asm_created\0\0\0\x01\0\0\0\0\x01\0\0\0\
    \x01\0\0\0\0\0\0\0\x01\0\0\0\0\x03\0\0\0";

// The same with a relationship from s:b to itself.
const LOOPED: &[u8] =
    b"SMCATL01\0\0\0[\0\0\0\0\0\0\0\0\0\0\0\x02\0\0\0\0\0\0\0\x01\0\0\0\x02\x01s\x01a\0\0\0\x01\
    \x01s\x01b\0\0\0\x02\0\0\0\x01\x01m\0\0\0\0\x01\x0asm_created\0\0\0\x01\0\0\0\0\x01\0\0\0\
    \x01\0\0\0\x01\0\0\0\x01\0\0\0\0\x03\0\0\0";

// The same with a relationship that is quiesced, which opening does not take yet.
const QUIESCED: &[u8] =
    b"SMCATL01\0\0\0[\0\0\0\0\0\0\0\0\0\0\0\x02\0\0\0\0\0\0\0\x01\0\0\0\x02\x01s\x01a\0\0\0\x01\
    \x01s\x01b\0\0\0\x02\0\0\0\x01\x01m\0\0\0\0\x01\x0asm_created\0\0\0\x01\0\0\0\0\x01\0\0\0\
    \x01\0\0\0\0\0\0\0\x01\0\0\0\0\x03\x01\0\0";

// The disk has the bytes of this length, all of them zeros.
fn blank(alloc: Global, len: u64) -> Result<MemDisk, Fail> {
    Ok(MemDisk::new(alloc, len)?)
}

// A disk with the record of a catalogue.
fn catalog_on(alloc: Global, bytes: &[u8]) -> Result<MemDisk, Fail> {
    if bytes.len() > 1000 {
        return Err(OpenKind::Record)?;
    }
    let catalog: Catalog = Record::decode(alloc, Some(Vec::from_slice(alloc, bytes)?))?;
    let ready = Ready::new(alloc, catalog)?;
    match Register::create(MemDisk::new(alloc, SLOTS_END)?, ready) {
        Ok(register) => Ok(register.into_disk()),
        Err((_, failed)) => Err(failed)?,
    }
}

// A disk with a volume of one block.
fn volume_on(alloc: Global, number: u32) -> Result<MemDisk, Fail> {
    match Volume::create(
        alloc,
        MemDisk::new(alloc, 25_731_072)?,
        VolNo(number),
        Kind::Rw,
        1,
        1,
    ) {
        Ok(volume) => Ok(volume.into_disk()),
        Err((_, fault)) => Err(fault)?,
    }
}

// What lies on a disk.
#[derive(Clone, Copy, Debug)]
enum Lies {
    Catalog(&'static [u8]),
    Volume(u32),
    Zeros(u64),
}

fn disk_of(alloc: Global, lies: Lies) -> Result<MemDisk, Fail> {
    match lies {
        Lies::Catalog(bytes) => catalog_on(alloc, bytes),
        Lies::Volume(number) => volume_on(alloc, number),
        Lies::Zeros(len) => blank(alloc, len),
    }
}

fn disks_of(alloc: Global, disks: &[Lies]) -> Result<Vec<MemDisk>, Fail> {
    let mut made = Vec::new(alloc);
    for lies in disks {
        made.push(disk_of(alloc, *lies)?)?;
    }
    Ok(made)
}

// How many volumes the node has, or the disk at fault with the kind.
type Answer = Result<usize, (u32, OpenKind)>;

// Opens the disks and, after a fault, opens the ones that came back again.
fn answer_of(alloc: Global, disks: Vec<MemDisk>) -> Result<Answer, Fail> {
    match open(alloc, disks) {
        Ok(node) => Ok(Ok(node.seats().len())),
        Err((_, OpenFault::Unopened { disk, kind })) => Ok(Err((disk.0, kind))),
        Err((_, fault)) => Err(fault)?,
    }
}

struct Row {
    disks: &'static [Lies],
    answer: Answer,
}

const ROWS: &[Row] = &[
    Row {
        disks: &[],
        answer: Err((0, OpenKind::NoDisk)),
    },
    Row {
        disks: &[Lies::Zeros(8_916_991)],
        answer: Err((0, OpenKind::Short)),
    },
    Row {
        disks: &[Lies::Zeros(8_916_992)],
        answer: Ok(0),
    },
    Row {
        disks: &[Lies::Zeros(8_916_992), Lies::Zeros(0), Lies::Volume(0)],
        answer: Ok(0),
    },
    Row {
        disks: &[Lies::Volume(0)],
        answer: Err((0, OpenKind::Record)),
    },
    Row {
        disks: &[Lies::Catalog(ONE), Lies::Volume(0)],
        answer: Ok(1),
    },
    Row {
        disks: &[Lies::Catalog(ONE)],
        answer: Err((1, OpenKind::NoDisk)),
    },
    Row {
        disks: &[Lies::Catalog(FIRST), Lies::Volume(0)],
        answer: Err((0, OpenKind::NoDisk)),
    },
    Row {
        disks: &[Lies::Catalog(SHARED), Lies::Volume(0)],
        answer: Err((1, OpenKind::NoDisk)),
    },
    Row {
        disks: &[Lies::Catalog(ONE), Lies::Zeros(25_731_071)],
        answer: Err((1, OpenKind::Short)),
    },
    Row {
        disks: &[Lies::Catalog(ONE), Lies::Zeros(25_731_072)],
        answer: Err((1, OpenKind::Record)),
    },
    Row {
        disks: &[Lies::Catalog(ONE), Lies::Catalog(ONE)],
        answer: Err((1, OpenKind::Short)),
    },
    Row {
        disks: &[Lies::Catalog(ONE), Lies::Volume(1)],
        answer: Err((1, OpenKind::Number)),
    },
    Row {
        disks: &[Lies::Catalog(TURNED), Lies::Volume(1), Lies::Volume(0)],
        answer: Ok(2),
    },
    Row {
        disks: &[Lies::Catalog(TURNED), Lies::Volume(0), Lies::Volume(0)],
        answer: Err((1, OpenKind::Number)),
    },
    Row {
        disks: &[Lies::Catalog(RELATED), Lies::Volume(0), Lies::Volume(1)],
        answer: Ok(2),
    },
    Row {
        disks: &[Lies::Catalog(LOOPED), Lies::Volume(0), Lies::Volume(1)],
        answer: Err((0, OpenKind::Cross)),
    },
    Row {
        disks: &[Lies::Catalog(QUIESCED), Lies::Volume(0), Lies::Volume(1)],
        answer: Err((0, OpenKind::Shape)),
    },
];

#[test]
fn disks_are_opened_or_their_first_fault_is_named(rt: HostRuntime) -> Result<(), Fail> {
    for row in ROWS {
        let disks = disks_of(rt.alloc(), row.disks)?;
        assert_eq!(rt; answer_of(rt.alloc(), disks)?, row.answer);
    }
    Ok(())
}
