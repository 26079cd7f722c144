// Where a volume lies, by the numbers of disks.
ghost use Rattle.std.specs.Prelude.{◌≡◌, ◌==◌};
ghost use Rattle.std.specs.List.{list_any};
ghost use Rattle.sm_opening.specs.Finding.{lies_apart};

use sm_base::DiskNo;
use sm_catroot::Placed;

fn is_used(before: &[Placed], disk: DiskNo) -> bool
    ensures { result ≡ list_any (λ q. q.disk.0 == disk.0) before.now }
{
    before.iter().any(|q| q.disk.0 == disk.0)
}

/// Whether the volume lies on one of so many disks, which is not the catalogue's or that of a volume
/// before it.
pub fn lies(count: usize, before: &[Placed], placed: &Placed) -> bool
    ensures { result ≡ lies_apart count before.now placed.now }
{
    placed.disk.0 != 0 && (placed.disk.0 as usize) < count && !is_used(before, placed.disk)
}
