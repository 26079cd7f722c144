use sm_base::{Block, Ident};
use sm_volume::{Head, View};

/// A call of a volume.
#[derive(Drop)]
pub enum Call {
    /// Writes a block at a place of the active image.
    Write {
        at: u32,
        block: Block,
    },
    /// The active image becomes the stable one.
    ConsistencyPoint,
    /// A consistency point, and a snapshot of it.
    Snapshot {
        head: Head,
    },
    /// Drops the snapshots of these identities.
    Remove {
        drops: Vec<Ident>,
    },
    /// Clients may write the volume from now on.
    MakeWritable,
    /// A destination with the image of one of its snapshots.
    Revert {
        ident: Ident,
        drop_newer: bool,
        family: u64,
    },
    /// Writes a block at a number that is free.
    Land {
        number: u32,
        block: Block,
    },
    /// Takes over an image whose blocks have landed at the numbers of `map`.
    Adopt {
        head: Head,
        map: Vec<u32>,
        family: u64,
        drops: Vec<Ident>,
    },
    /// Puts onto the medium all that was written.
    Sync,
    /// Reads the block of a number that is used.
    Fetch {
        number: u32,
    },
    /// Reads a block of the active image or of a snapshot's.
    Read {
        view: View,
        at: u32,
    },
    /// The disk restarts, and the stable image becomes the active one.
    Restart,
}
