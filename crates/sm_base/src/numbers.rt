use std::fmt;

/// A volume, by its place in the order of creation, from 0.
#[derive(Clone, Copy, Debug, PartialEq, Eq, PartialOrd, Ord, Hash)]
pub struct VolNo(pub u32);

/// A relationship, by its number from 1, which is never used again.
#[derive(Clone, Copy, Debug, PartialEq, Eq, PartialOrd, Ord, Hash)]
pub struct RelNo(pub u32);

/// A disk, by its place in the list of disks, from 0. Disk 0 is the catalogue's.
#[derive(Clone, Copy, Debug, PartialEq, Eq, PartialOrd, Ord, Hash)]
pub struct DiskNo(pub u32);

/// The identity of a snapshot, which all its copies share: the volume where it was taken, and a
/// number that is `2 * c` for the c-th snapshot of a client there, c from 1, and `2 * t + 1` for the
/// snapshot that transfer t made.
#[derive(Clone, Copy, Debug, PartialEq, Eq, PartialOrd, Ord, Hash)]
pub struct Ident {
    pub origin: u32,
    pub seq: u64,
}

impl fmt::Display for Ident {
    ghost use Rattle.std.specs.Prelude.{Some};
    ghost use Rattle.sm_base.specs.Number.{ident_text};

    ghost output = { λ i. Some (ident_text i) };

    fn fmt<W: fmt::Write>(&self, f: &mut fmt::Formatter<W>) -> fmt::Result {
        let origin = self.origin;
        let seq = self.seq;
        write!(f, "{origin}.{seq}")
    }
}

/// The 4,096 bytes of a block.
#[derive(Drop)]
pub struct Block(pub [u8; 4096]);

/// Whether clients may write a volume.
#[derive(Clone, Copy, Debug, PartialEq, Eq)]
pub enum Kind {
    /// Clients may write it.
    Rw,
    /// A destination, which only its relationship changes.
    Dp,
}

impl fmt::Display for Kind {
    ghost use Rattle.std.specs.Prelude.{Some};
    ghost use Rattle.sm_base.specs.Number.{kind_text};

    ghost output = { λ k. Some (kind_text k) };

    fn fmt<W: fmt::Write>(&self, f: &mut fmt::Formatter<W>) -> fmt::Result {
        f.write_str(match self {
            Kind::Rw => "rw",
            Kind::Dp => "dp",
        })
    }
}

/// What a policy makes of its relationships.
#[derive(Clone, Copy, Debug, PartialEq, Eq)]
pub enum PolicyKind {
    /// A mirror, which has the source's snapshots at the source's block numbers.
    AsyncMirror,
    /// A vault, which keeps labelled snapshots by rules.
    Vault,
}

/// Which command started a transfer.
#[derive(Clone, Copy, Debug, PartialEq, Eq)]
pub enum TransferKind {
    Initialize,
    Update,
    Resync,
}

/// Which world a restart found: the one before the event that failed, or the one after it.
#[derive(Clone, Copy, Debug, PartialEq, Eq)]
pub enum Side {
    Before,
    After,
}
