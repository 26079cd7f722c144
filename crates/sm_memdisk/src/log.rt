// What a disk did, with what it takes to undo a write.
ghost use Rattle.std.specs.Prelude.{◌≡◌, Some, is_none};

use crate::Image;
use std::marker::Model;

#[derive(Drop)]
pub struct Undo {
    pub at: u64,
    // what stood there before
    pub old: Vec<u8>,
}

#[derive(Drop)]
pub enum Deed {
    Write(Undo),
    Sync,
}

#[derive(Drop)]
pub struct Record {
    pub deed: Deed,
    // the place for the restart after it, so that a restart takes no memory
    pub restart: Option<Image>,
}

impl Model for Record {
    ghost use Rattle.sm_memdisk.specs.Past.{Note};

    ghost Value = { Note };

    ghost use Rattle.sm_memdisk.specs.Log.{deed_of};

    ghost view = { λ r. record { deed = deed_of r.deed; restart = r.restart } };
}

impl Record {
    // Whether no restart has followed.
    pub fn is_open(&self) -> bool
        ensures { result ≡ is_none self.now.restart }
    {
        self.restart.is_none()
    }

    // Notes the restart that followed.
    pub fn follow(&mut self, image: Image)
        ensures { self.new ≡ record self.old { restart = Some image } }
    {
        self.restart = Some(image);
    }
}
