// A piece of a disk's content.
ghost use Rattle.std.specs.Prelude.{◌≡◌, ◌+◌, ◌≤◌, length, IfOk, replicate};
ghost use Rattle.sm_disk.specs.Image.{part};
ghost use Rattle.sm_memdisk.specs.Past.{over};
ghost use Rattle.sm_memdisk.specs.Pages.{page_image};

use std::alloc::{AllocError, Global};
use std::marker::Model;

pub const PAGE: usize = 4096;

// Puts bytes into the page from that place on.
fn put_at(page: &mut [u8], from: usize, bytes: &[u8])
    requires { from + length bytes.now ≤ length page.old }
    ensures long { length page.new ≡ length page.old }
    ensures image { page_image page.new ≡ over (page_image page.old) from bytes.now }
{
    let end = from + bytes.len();
    page[from..end].copy_from_slice(bytes);
}

#[derive(Drop)]
pub struct Page {
    bytes: Vec<u8>,
}

impl Model for Page {
    ghost use Rattle.std.specs.Prelude.{◌≡◌, ℕ, List, length};

    ghost Value = { List ℕ };

    ghost view = { λ p. p.bytes.items };

    ghost invariant = { λ p. length p.bytes.items ≡ 4096 };
}

impl Page {
    pub fn blank(alloc: Global) -> Result<Page, AllocError>
        ensures { IfOk result (λ page. page ≡ replicate 4096 0) }
    {
        let bytes = vec![in alloc; 0u8; PAGE]?;
        Ok(Page { bytes })
    }

    pub fn read(&self, from: usize, into: &mut [u8])
        requires { from + length into.old ≤ 4096 }
        ensures { into.new ≡ part (page_image self.now) from (length into.old) }
    {
        let end = from + into.len();
        into.copy_from_slice(&self.bytes[from..end]);
    }

    pub fn set(&mut self, from: usize, bytes: &[u8])
        requires { from + length bytes.now ≤ 4096 }
        ensures { page_image self.new ≡ over (page_image self.old) from bytes.now }
    {
        put_at(&mut self.bytes, from, bytes);
    }
}
