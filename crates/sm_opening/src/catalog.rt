// Disk 0 is looked at for the catalogue.
ghost use Rattle.std.specs.Prelude.{◌≡◌, ◌≤◌, ◌<◌, length, IfOk, IfErr};
ghost use Rattle.sm_base.specs.declared.limits.TheConstants.{SLOTS_END as SLOTS};
ghost use Rattle.sm_disk.specs.Disk.{DiskState};
ghost use Rattle.sm_opening.specs.Looked.{disks_of, AllTold, OneMoves, IsAt, Looks, Fails};
ghost use Rattle.sm_opening.specs.OnDisk.{IsCatalogOn, IsCatalogDamage};
ghost use Rattle.sm_opening.specs.Finding.{FindsCatalog, catalog_fault, IsCatalogFound};

use crate::fault::OpenFault;
use sm_base::DiskNo;
use sm_base::limits::SLOTS_END;
use sm_catroot::Catalog;
use sm_disk::Disk;
use sm_model::OpenKind;
use sm_register::{Found, OpenFault as RegisterFault, find};
use std::alloc::Global;

// The register's fault as one of disk 0.
fn fault_of(fault: RegisterFault) -> OpenFault
    ensures { result ≡ catalog_fault fault }
{
    let disk = DiskNo(0);
    match fault {
        RegisterFault::BadRecord { .. } => OpenFault::Unopened {
            disk,
            kind: OpenKind::Record,
        },
        RegisterFault::DiskFault => OpenFault::Unopened {
            disk,
            kind: OpenKind::Fault,
        },
        RegisterFault::NoMemory => OpenFault::NoMemory,
    }
}

// Finds the catalogue on the disk of a number, which is long enough.
fn find_at<D: Disk>(
    alloc: Global,
    disks: &mut [D],
    at: usize,
) -> Result<Found<Catalog>, RegisterFault>
    requires place { at < length disks.old }
    requires room { IsAt D.state at (λ s. SLOTS ≤ s.size) disks.old }
    ensures { OneMoves D.state at (λ s e. FindsCatalog s result e) disks.old disks.new }
{
    find(alloc, &mut disks[at])
}

/// Finds the catalogue on disk 0.
pub fn find_catalog<D: Disk>(alloc: Global, disks: &mut [D]) -> Result<Found<Catalog>, OpenFault>
    ensures looks { Looks D.state (IsCatalogDamage (disks_of D.state disks.old)) disks.old disks.new result }
    ensures whole { AllTold D.state disks.old → (k : _) → IsCatalogOn (disks_of D.state disks.old) k → IfErr result Fails }
    ensures found { IfOk result (λ f. IsCatalogFound D.state disks.new f) }
    ensures catalog { IfOk result (λ f. AllTold D.state disks.old → IsCatalogOn (disks_of D.state disks.old) f.value) }
{
    let disk = DiskNo(0);
    if disks.is_empty() {
        return Err(OpenFault::Unopened {
            disk,
            kind: OpenKind::NoDisk,
        });
    }
    if disks[0].len() < SLOTS_END {
        return Err(OpenFault::Unopened {
            disk,
            kind: OpenKind::Short,
        });
    }
    match find_at(alloc, disks, 0) {
        Ok(found) => Ok(found),
        Err(fault) => Err(fault_of(fault)),
    }
}
