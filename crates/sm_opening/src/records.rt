// The records on all disks are looked at.
ghost use Rattle.std.specs.Prelude.{◌≡◌, map, length, IfOk, IfErr};
ghost use Rattle.sm_opening.specs.Looked.{disks_of, AllTold, Looks, Fails};
ghost use Rattle.sm_opening.specs.OnDisk.{IsReadWorld, IsReadingDamage};
ghost use Rattle.sm_opening.specs.Finding.{ReadRecords, IsReadOn, root_of};

use crate::catalog::find_catalog;
use crate::fault::OpenFault;
use crate::volumes::find_volumes;
use sm_catroot::{Catalog, Placed};
use sm_disk::Disk;
use sm_register::Found;
use std::alloc::Global;
use std::marker::Model;
use volume_store::Found as FoundVolume;

/// The records of a node, of whose disks nothing was changed yet.
#[derive(Drop)]
pub struct Records {
    pub(crate) catalog: Found<Catalog>,
    pub(crate) founds: Vec<FoundVolume>,
}

impl Model for Records {
    ghost use Rattle.sm_opening.specs.Finding.{ReadRecords as Read};

    ghost Value = { Read };

    ghost view = { λ r. record { catalog = r.catalog; founds = r.founds.items } };
}

impl Records {
    /// What disk 0 keeps.
    pub fn catalog(&self) -> &Catalog
        ensures { result.now ≡ self.now.catalog.value }
    {
        self.catalog.value()
    }

    /// The volumes, each at the place of its number.
    pub fn founds(&self) -> &[FoundVolume]
        ensures { result.now ≡ self.now.founds }
    {
        &self.founds
    }
}

/// Where the catalogue says that its volumes lie.
pub fn volumes_of(catalog: &Catalog) -> &[Placed]
    ensures { result.now ≡ catalog.now.volumes }
{
    &catalog.volumes
}

/// Finds the catalogue and the volumes that it names.
pub fn read_records<D: Disk>(alloc: Global, disks: &mut [D]) -> Result<Records, OpenFault>
    ensures looks { Looks D.state (IsReadingDamage (disks_of D.state disks.old)) disks.old disks.new result }
    ensures whole { AllTold D.state disks.old → (k : _) (rs : _) → IsReadWorld (disks_of D.state disks.old) k rs → IfErr result Fails }
    ensures found { IfOk result (λ r. IsReadOn D.state disks.new r) }
    ensures read { IfOk result (λ r. AllTold D.state disks.old → IsReadWorld (disks_of D.state disks.old) r.catalog.value (map root_of r.founds)) }
{
    let catalog: Found<Catalog> = match find_catalog(alloc, disks) {
        Ok(catalog) => catalog,
        Err(fault) => return Err(fault),
    };
    match find_volumes(alloc, disks, volumes_of(catalog.value())) {
        Ok(founds) => Ok(Records { catalog, founds }),
        Err(fault) => Err(fault),
    }
}
