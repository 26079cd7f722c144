// The newest snapshot of a name.
ghost use Rattle.std.specs.Prelude.{◌≡◌, reverse};
ghost use Rattle.std.specs.List.{find};
ghost use Rattle.std.specs.Option.{option_copied, option_map};
ghost use Rattle.std.specs.Str.{bytes_eq};
ghost use Rattle.sm_base.specs.declared.numbers.VolNo.{VolNo as PlainNumber};
ghost use Rattle.sm_defs.specs.Volume.{Volume as Plain, ident_of};
ghost use Rattle.sm_defs.specs.Words.{last_that};
ghost use Rattle.sm_root.specs.Condition as roots;
ghost use Rattle.sm_volume.specs.Seen.{root_of};

use sm_base::{Ident, SnapName};
use sm_root::{Root, RootSnapshot};

fn newest_in<'a>(snapshots: &'a [RootSnapshot], name: &[u8]) -> Option<&'a RootSnapshot>
    ensures { option_copied result ≡ find (λ s. bytes_eq s.name name.now) (reverse snapshots.now) }
{
    snapshots.iter().rev().find(|s| s.name.text() == name)
}

fn ident_in(snapshots: &[RootSnapshot], name: &[u8]) -> Option<Ident>
    ensures { result ≡ option_map roots.ident_of (find (λ s. bytes_eq s.name name.now) (reverse snapshots.now)) }
{
    match newest_in(snapshots, name) {
        None => None,
        Some(snapshot) => Some(snapshot.ident),
    }
}

/// The identity of the newest snapshot of the name.
pub fn newest_named(root: &Root, name: &SnapName) -> Option<Ident>
    ensures { (number : PlainNumber) (v : Plain) → root.now ≡ root_of number v → result ≡ option_map ident_of (last_that (λ s. bytes_eq s.name name.now) v.snapshots) }
{
    ident_in(root.snapshots.as_slice(), name.text())
}
