// Pending writes taken back, or filled, without memory.
ghost use Rattle.std.specs.Prelude.{◌≡◌, ◌-◌, ◌^◌, ◌∷◌, [], All};
ghost use Rattle.sm_memdisk.specs.Pages.{image_of, KeepsPages};
ghost use Rattle.sm_memdisk.specs.Log.{IsPending, undone, filled, chosen_image};

use crate::Image;
use crate::log::{Deed, Record};
use crate::page::Page;
use crate::pages::{fill, put};
use std::collections::BTreeMap;

fn undo_one(pages: &mut BTreeMap<u64, Page>, entry: &Record)
    requires { IsPending (2 ^ 64 - 1) pages.old.entries entry.now }
    ensures image { image_of pages.new.entries ≡ undone (entry.now ∷ []) (image_of pages.old.entries) }
    ensures kept { KeepsPages pages.old.entries pages.new.entries }
{
    match &entry.deed {
        Deed::Write(undo) => put(pages, undo.at, &undo.old),
        Deed::Sync => {}
    }
}

fn fill_record(pages: &mut BTreeMap<u64, Page>, entry: &Record, byte: u8)
    requires { IsPending (2 ^ 64 - 1) pages.old.entries entry.now }
    ensures image { image_of pages.new.entries ≡ filled (entry.now ∷ []) byte (image_of pages.old.entries) }
    ensures kept { KeepsPages pages.old.entries pages.new.entries }
{
    match &entry.deed {
        Deed::Write(undo) => fill(pages, undo.at, undo.old.len(), byte),
        Deed::Sync => {}
    }
}

fn undo(pages: &mut BTreeMap<u64, Page>, log: &[Record])
    requires { All (IsPending (2 ^ 64 - 1) pages.old.entries) log.now }
    ensures image { image_of pages.new.entries ≡ undone log.now (image_of pages.old.entries) }
    ensures kept { KeepsPages pages.old.entries pages.new.entries }
{
    let mut i = log.len();
    while i > 0 {
        i -= 1;
        undo_one(pages, &log[i]);
    }
}

fn refill(pages: &mut BTreeMap<u64, Page>, log: &[Record], byte: u8)
    requires { All (IsPending (2 ^ 64 - 1) pages.old.entries) log.now }
    ensures image { image_of pages.new.entries ≡ filled log.now byte (image_of pages.old.entries) }
    ensures kept { KeepsPages pages.old.entries pages.new.entries }
{
    let mut i = log.len();
    while i > 0 {
        i -= 1;
        fill_record(pages, &log[i], byte);
    }
}

/// Leaves what is chosen in the ranges of these writes.
pub fn choose(pages: &mut BTreeMap<u64, Page>, log: &[Record], image: Image)
    requires { All (IsPending (2 ^ 64 - 1) pages.old.entries) log.now }
    ensures image { image_of pages.new.entries ≡ chosen_image image log.now (image_of pages.old.entries) }
    ensures kept { KeepsPages pages.old.entries pages.new.entries }
{
    match image {
        Image::Old => undo(pages, log),
        Image::New => {}
        Image::Fill(byte) => refill(pages, log, byte),
    }
}
