// The content of a disk: its pages by number. A page that is missing holds zeros.
ghost use Rattle.std.specs.Prelude.{◌≡◌, ◌+◌, ◌%◌, ◌^◌, ◌<◌, ◌≤◌, length, IsSome, OnOk, replicate};
ghost use Rattle.sm_disk.specs.Image.{part};
ghost use Rattle.sm_memdisk.specs.Past.{over};
ghost use Rattle.sm_memdisk.specs.Pages.{image_of, page_at, Stands, IsTouched, KeepsPages};

use crate::page::{PAGE, Page};
use std::alloc::{AllocError, Global};
use std::collections::BTreeMap;

// How many of the next n bytes lie in the page of this place.
fn in_page(place: u64, n: usize) -> usize
    ensures within { result ≤ n }
    ensures fits { place % 4096 + result ≤ 4096 }
    ensures some { 0 < n → 0 < result }
{
    let room = PAGE - (place % 4096) as usize;
    if n < room { n } else { room }
}

fn read_page(pages: &BTreeMap<u64, Page>, place: u64, into: &mut [u8])
    requires { place % 4096 + length into.old ≤ 4096 }
    ensures { into.new ≡ part (image_of pages.now.entries) place (length into.old) }
{
    match pages.get(&(place / 4096)) {
        Some(page) => page.read((place % 4096) as usize, into),
        None => into.fill(0),
    }
}

pub fn read(pages: &BTreeMap<u64, Page>, at: u64, into: &mut [u8])
    requires { at + length into.old < 2 ^ 64 }
    ensures { into.new ≡ part (image_of pages.now.entries) at (length into.old) }
{
    let mut done = 0;
    while done < into.len() {
        let place = at + done as u64;
        let n = in_page(place, into.len() - done);
        read_page(pages, place, &mut into[done..done + n]);
        done += n;
    }
}

fn put_page(pages: &mut BTreeMap<u64, Page>, place: u64, bytes: &[u8])
    requires within { place % 4096 + length bytes.now ≤ 4096 }
    requires stands { IsSome (page_at pages.old.entries place) }
    ensures image { image_of pages.new.entries ≡ over (image_of pages.old.entries) place bytes.now }
    ensures kept { KeepsPages pages.old.entries pages.new.entries }
{
    match pages.get_mut(&(place / 4096)) {
        Some(page) => page.set((place % 4096) as usize, bytes),
        None => {}
    }
}

pub fn put(pages: &mut BTreeMap<u64, Page>, at: u64, bytes: &[u8])
    requires fits { at + length bytes.now < 2 ^ 64 }
    requires touched { IsTouched pages.old.entries at (length bytes.now) }
    ensures image { image_of pages.new.entries ≡ over (image_of pages.old.entries) at bytes.now }
    ensures kept { KeepsPages pages.old.entries pages.new.entries }
{
    let mut done = 0;
    while done < bytes.len() {
        let place = at + done as u64;
        let n = in_page(place, bytes.len() - done);
        put_page(pages, place, &bytes[done..done + n]);
        done += n;
    }
}

pub fn fill(pages: &mut BTreeMap<u64, Page>, at: u64, len: usize, byte: u8)
    requires fits { at + len < 2 ^ 64 }
    requires touched { IsTouched pages.old.entries at len }
    ensures image { image_of pages.new.entries ≡ over (image_of pages.old.entries) at (replicate len byte) }
    ensures kept { KeepsPages pages.old.entries pages.new.entries }
{
    let bytes = [byte; PAGE];
    let mut done = 0;
    while done < len {
        let place = at + done as u64;
        let n = in_page(place, len - done);
        put_page(pages, place, &bytes[..n]);
        done += n;
    }
}

fn touch_page(alloc: Global, pages: &mut BTreeMap<u64, Page>, number: u64) -> Result<(), AllocError>
    ensures image { image_of pages.new.entries ≡ image_of pages.old.entries }
    ensures touched { OnOk result (Stands pages.new.entries number) }
    ensures kept { KeepsPages pages.old.entries pages.new.entries }
{
    if !pages.contains_key(&number) {
        let page = Page::blank(alloc)?;
        pages.insert(number, page)?;
    }
    Ok(())
}

/// Makes the pages of a range. What they hold stays.
pub fn touch(
    alloc: Global,
    pages: &mut BTreeMap<u64, Page>,
    at: u64,
    len: usize,
) -> Result<(), AllocError>
    requires fits { at + len < 2 ^ 64 }
    ensures image { image_of pages.new.entries ≡ image_of pages.old.entries }
    ensures touched { OnOk result (IsTouched pages.new.entries at len) }
    ensures kept { KeepsPages pages.old.entries pages.new.entries }
{
    if len > 0 {
        for number in at / 4096..(at + len as u64 - 1) / 4096 + 1 {
            touch_page(alloc, pages, number)?;
        }
    }
    Ok(())
}
