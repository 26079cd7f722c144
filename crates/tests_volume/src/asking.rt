// The calls that lines of courses ask for.
//
// Each function takes a volume over any disk and answers little, so that what a call promises stays out of
// the proofs of the tests. A volume that is down answers each call but a restart with a fault of the disk.
ghost use Rattle.std.specs.Prelude.{◌≡◌, true, OnOk};
ghost use Rattle.sm_defs.specs.Image.{stands};
ghost use Rattle.sm_defs.specs.Volume.{tags_of};

use crate::words::{BadLine, Words};
use sm_base::{Block, Ident, Side, SnapName};
use sm_disk::Disk;
use sm_volume::{View, Volume, VolumeFault};
use std::alloc::Global;
use std::test::Fail;

// A call of a volume.
#[derive(Drop)]
pub enum Ask {
    Write {
        at: u32,
        fill: u8,
    },
    Sync,
    Cp,
    MakeWritable,
    // A snapshot of a client, of an identity that is new.
    Snapshot {
        ident: Ident,
        name: &'static str,
    },
    Remove {
        ident: Ident,
    },
    Revert {
        ident: Ident,
        drop_newer: bool,
        family: u64,
    },
    // The block at a number of the stable image, which is to be full of a byte.
    Fetch {
        number: u32,
        fill: u8,
    },
    Restart,
}

// What a call answers.
pub type Answered = Result<&'static str, VolumeFault>;

// The call of a line.
pub fn ask_of(words: &mut Words<'static>) -> Result<Ask, Fail> {
    match words.word()? {
        "write" => Ok(Ask::Write {
            at: words.small()?,
            fill: words.byte()?,
        }),
        "sync" => Ok(Ask::Sync),
        "cp" => Ok(Ask::Cp),
        "make-writable" => Ok(Ask::MakeWritable),
        "fetch" => Ok(Ask::Fetch {
            number: words.small()?,
            fill: words.byte()?,
        }),
        "restart" => Ok(Ask::Restart),
        kind => ask_of_snapshots(kind, words),
    }
}

fn ask_of_snapshots(kind: &str, words: &mut Words<'static>) -> Result<Ask, Fail> {
    let ident = words.ident()?;
    match kind {
        "snapshot" => Ok(Ask::Snapshot {
            ident,
            name: words.word()?,
        }),
        "remove" => Ok(Ask::Remove { ident }),
        "revert" => Ok(Ask::Revert {
            ident,
            drop_newer: words.word()? == "drop-newer",
            family: words.number()?,
        }),
        _ => Err(BadLine)?,
    }
}

// A block of one byte.
pub fn full(fill: u8) -> Block {
    Block([fill; 4096])
}

// The byte of which a block is full, or 256.
fn fill_of(block: &Block) -> u64 {
    let fill = block.0[0];
    if block.0.iter().all(|byte| *byte == fill) {
        fill as u64
    } else {
        256
    }
}

// A fault where the volume is down.
pub fn check_up<D: Disk>(volume: &Volume<D>) -> Result<(), VolumeFault>
    ensures { OnOk result (volume.now.up ≡ true) }
{
    if volume.is_up() {
        Ok(())
    } else {
        Err(VolumeFault::DiskFault)
    }
}

// The byte of which a block is full.
pub fn read<D: Disk>(volume: &mut Volume<D>, view: View, at: u32) -> Result<u64, VolumeFault> {
    check_up(volume)?;
    let mut block = full(0);
    volume.read(view, at, &mut block)?;
    Ok(fill_of(&block))
}

fn snapshot<D: Disk>(
    alloc: Global,
    volume: &mut Volume<D>,
    ident: Ident,
    name: &str,
) -> Result<(), VolumeFault> {
    check_up(volume)?;
    if volume.has_snapshot(ident) {
        return Err(VolumeFault::SnapFull);
    }
    match SnapName::read(alloc, name.as_bytes()) {
        Ok(name) => volume.snapshot(alloc, ident, name, None, 0, 0),
        Err(_) => Err(VolumeFault::NoMemory),
    }
}

fn has_number(numbers: &[u32], number: u32) -> bool
    ensures { result ≡ stands number numbers.now }
{
    numbers.iter().any(|one| *one == number)
}

// Whether the stable image uses the number.
fn is_stable<D: Disk>(volume: &Volume<D>, number: u32) -> bool
    ensures { result ≡ true → stands number (tags_of volume.now.volume) ≡ true }
{
    has_number(volume.root().stable.as_slice(), number)
}

fn fetch<D: Disk>(volume: &mut Volume<D>, number: u32, fill: u8) -> Answered {
    check_up(volume)?;
    if number == 0 || !is_stable(volume, number) {
        return Err(VolumeFault::BadBlock);
    }
    let mut block = full(0);
    volume.fetch(number, &mut block)?;
    if fill_of(&block) == fill as u64 {
        Ok("done")
    } else {
        Ok("other bytes")
    }
}

fn restart<D: Disk>(volume: &mut Volume<D>) -> Answered {
    match volume.restart()? {
        Side::Before => Ok("before"),
        Side::After => Ok("after"),
    }
}

// A call that answers nothing.
fn change<D: Disk>(alloc: Global, volume: &mut Volume<D>, asked: &Ask) -> Result<(), VolumeFault> {
    check_up(volume)?;
    match asked {
        Ask::Write { at, fill } => volume.write(*at, &full(*fill)),
        Ask::Sync => volume.sync(),
        Ask::Cp => volume.cp(alloc),
        Ask::MakeWritable => volume.make_writable(alloc),
        Ask::Remove { ident } => volume.remove(alloc, &[*ident]),
        Ask::Revert {
            ident,
            drop_newer,
            family,
        } => volume.revert(alloc, *ident, *drop_newer, *family),
        Ask::Snapshot { ident, name } => snapshot(alloc, volume, *ident, name),
        Ask::Fetch { .. } | Ask::Restart => Ok(()),
    }
}

// Makes the call.
pub fn answer<D: Disk>(alloc: Global, volume: &mut Volume<D>, asked: &Ask) -> Answered {
    match asked {
        Ask::Fetch { number, fill } => fetch(volume, *number, *fill),
        Ask::Restart => restart(volume),
        _ => {
            change(alloc, volume, asked)?;
            Ok("done")
        }
    }
}
