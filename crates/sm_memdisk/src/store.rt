// The content of a disk and what it did.
ghost use Rattle.std.specs.Prelude.{◌≡◌, ◌+◌, ◌^◌, ◌<◌, ◌≤◌, [], length, OnOk, OnErr, IfOk, None};
ghost use Rattle.sm_disk.specs.Image.{part};
ghost use Rattle.sm_memdisk.specs.Pages.{image_of, KeepsPages};
ghost use Rattle.sm_memdisk.specs.Log.{IsReady};

use crate::Image;
use crate::log::{Deed, Record, Undo};
use crate::page::Page;
use crate::pages::{put, read, touch};
use crate::undo::choose;
use std::alloc::{AllocError, Global};
use std::collections::BTreeMap;
use std::marker::Model;

#[derive(Drop)]
pub struct Store {
    alloc: Global,
    size: u64,
    pages: BTreeMap<u64, Page>,
    log: Vec<Record>,
    // how many records come before the pending writes
    settled: usize,
}

impl Model for Store {
    ghost use Rattle.std.specs.Prelude.{reverse};
    ghost use Rattle.sm_memdisk.specs.Content.{Content};

    ghost Value = { Content };

    ghost use Rattle.sm_memdisk.specs.Log.{IsStore};

    ghost view = { λ s. record { size = s.size; pages = s.pages.entries; past = reverse s.log.items } };

    ghost invariant = { λ s. IsStore s.size s.pages.entries s.log.items s.settled };
}

// What stands in a range.
fn standing(
    alloc: Global,
    pages: &BTreeMap<u64, Page>,
    at: u64,
    len: usize,
) -> Result<Vec<u8>, AllocError>
    requires { at + len < 2 ^ 64 }
    ensures { IfOk result (λ v. v.items ≡ part (image_of pages.now.entries) at len) }
{
    let mut old = vec![in alloc; 0u8; len]?;
    read(pages, at, &mut old);
    Ok(old)
}

// Makes the pages of a write, and what it takes to undo it. What the pages hold stays.
fn prepared(
    alloc: Global,
    pages: &mut BTreeMap<u64, Page>,
    at: u64,
    len: usize,
) -> Result<Record, AllocError>
    requires { at + len < 2 ^ 64 }
    ensures image { image_of pages.new.entries ≡ image_of pages.old.entries }
    ensures kept { KeepsPages pages.old.entries pages.new.entries }
    ensures record { IfOk result (IsReady pages.new.entries at len) }
{
    let old = standing(alloc, pages, at, len)?;
    touch(alloc, pages, at, len)?;
    Ok(Record {
        deed: Deed::Write(Undo { at, old }),
        restart: None,
    })
}

impl Store {
    ghost use Rattle.sm_memdisk.specs.Content.{DoesWrite, DoesSync, DoesRestart, IsSame, seen_of};

    pub fn new(alloc: Global, size: u64) -> Store
        ensures size { result.size ≡ size }
        ensures zeros { (place : _) → seen_of result place ≡ 0 }
        ensures past { result.past ≡ [] }
    {
        Store {
            alloc,
            size,
            pages: BTreeMap::new(alloc),
            log: Vec::new(alloc),
            settled: 0,
        }
    }

    pub fn len(&self) -> u64
        ensures { result ≡ self.now.size }
    {
        self.size
    }

    pub fn read(&self, at: u64, into: &mut [u8])
        requires { at + length into.old ≤ self.now.size }
        ensures { into.new ≡ part (seen_of self.now) at (length into.old) }
    {
        read(&self.pages, at, into);
    }

    pub fn write(&mut self, at: u64, bytes: &[u8]) -> Result<(), AllocError>
        requires { at + length bytes.now ≤ self.old.size }
        ensures ok { OnOk result (DoesWrite self.old at bytes.now self.new) }
        ensures err { OnErr result (IsSame self.old self.new) }
    {
        let record = prepared(self.alloc, &mut self.pages, at, bytes.len())?;
        self.log.push(record)?;
        put(&mut self.pages, at, bytes);
        Ok(())
    }

    /// Nothing is pending afterwards.
    pub fn sync(&mut self) -> Result<(), AllocError>
        ensures ok { OnOk result (DoesSync self.old self.new) }
        ensures err { OnErr result (IsSame self.old self.new) }
    {
        self.log.push(Record {
            deed: Deed::Sync,
            restart: None,
        })?;
        self.settled = self.log.len();
        Ok(())
    }

    /// The pending ranges get what is chosen. It takes no memory.
    pub fn restart(&mut self, image: Image)
        ensures { DoesRestart self.old image self.new }
    {
        let n = self.log.len();
        if n > 0 {
            if self.log[n - 1].is_open() {
                choose(&mut self.pages, &self.log[self.settled..], image);
                self.log[n - 1].follow(image);
                self.settled = n;
            }
        }
    }
}
