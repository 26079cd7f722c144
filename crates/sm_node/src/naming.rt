// Which volume a path names.
ghost use Rattle.std.specs.Prelude.{◌≡◌, ◌<◌, IfOk, Some, length, position, slice_get};
ghost use Rattle.std.specs.Str.{bytes_eq};
ghost use Rattle.sm_base.specs.declared.refusal.Refusal.TheVariants as refusals;
ghost use Rattle.sm_catroot.specs.declared.placed.Placed.{Placed as PlainPlaced};
ghost use Rattle.sm_node.specs.Naming.{IsNamed};

use crate::named::Named;
use crate::node::Node;
use sm_base::{DiskNo, NoMemory, Path, Refusal};
use sm_catroot::{Catalog, Placed};
use sm_disk::Disk;
use std::alloc::Global;

fn find_in(volumes: &[Placed], path: &[u8]) -> Option<usize>
    ensures { result ≡ position (λ p. bytes_eq p.path path.now) volumes.now }
{
    volumes.iter().position(|placed| placed.path.text() == path)
}

fn disk_in(volumes: &[Placed], at: usize) -> DiskNo
    requires { at < length volumes.now }
    ensures { (p : PlainPlaced) × (slice_get volumes.now at ≡ Some p) × (result ≡ p.disk) }
{
    volumes[at].disk
}

/// The place of the first volume of the path. There are few, so each is looked at.
fn find(catalog: &Catalog, path: &Path) -> Option<usize>
    ensures { result ≡ position (λ p. bytes_eq p.path path.now) catalog.now.volumes }
{
    find_in(&catalog.volumes, path.text())
}

fn disk_at(catalog: &Catalog, at: usize) -> DiskNo
    requires { at < length catalog.now.volumes }
    ensures { (p : PlainPlaced) × (slice_get catalog.now.volumes at ≡ Some p) × (result ≡ p.disk) }
{
    disk_in(&catalog.volumes, at)
}

fn no_volume(alloc: Global, path: &Path) -> Result<Refusal, NoMemory>
    ensures { IfOk result (λ refusal. refusal ≡ refusals.NoVolume path.now) }
{
    Ok(Refusal::NoVolume {
        path: path.copy(alloc)?,
    })
}

impl<D: Disk + Drop> Node<D> {
    /// The volume of the path, or the refusal where there is none.
    pub fn named(&self, alloc: Global, path: &Path) -> Result<Result<Named, Refusal>, NoMemory>
        ensures { IfOk result (λ found. IsNamed self.now path.now found) }
    {
        self.told();
        let catalog = self.catalog();
        match find(catalog, path) {
            None => Ok(Err(no_volume(alloc, path)?)),
            Some(at) => Ok(Ok(Named {
                at,
                disk: disk_at(catalog, at),
            })),
        }
    }
}
