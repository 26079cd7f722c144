//! The test of the form of volumes: their sizes, their counts and the lengths of their maps.

ghost use Rattle.std.specs.Prelude.{◌≡◌, ◌≤◌, ◌<◌, ◌^◌, ◌↔◌, IsTrue, length, true};
ghost use Rattle.std.specs.List.{All};
ghost use Rattle.sm_base.specs.Name.{is_path, is_snapshot_name};
ghost use Rattle.sm_base.specs.declared.limits.TheConstants.{MOST_SNAPSHOTS};
ghost use Rattle.sm_model.specs.InRange.{IsLabel};
ghost use Rattle.sm_shape.specs.Behind.{EachBehind};
ghost use Rattle.sm_shape.specs.Forms.{SnapshotForm, SizesForm, VolumeForm, IsOther, VolumeFitsBehind};

use sm_base::limits::{LAST_NUMBER, MOST_LOGICAL, MOST_PHYSICAL, MOST_SNAPSHOTS};
use sm_base::{Label, Path, SnapName};
use sm_model::{WorldSnapshot, WorldVolume};

/// A path keeps to the grammar.
fn path_is_spelled(path: &Path)
    ensures { is_path path.now ≡ true }
{
    let _text = path.text();
}

/// So does a snapshot's name.
fn name_is_spelled(name: &SnapName)
    ensures { is_snapshot_name name.now ≡ true }
{
    let _text = name.text();
}

/// And a label, where there is one.
fn label_is_spelled(label: &Option<Label>)
    ensures { IsLabel label.now }
{
    match label {
        Some(label) => {
            let _text = label.text();
        }
        None => {}
    }
}

fn has_length(map: &[u32], logical: u32) -> bool
    ensures { IsTrue result ↔ (length map.now ≡ logical) }
{
    map.len() == logical as usize
}

fn snapshot_forms(snapshot: &WorldSnapshot, logical: u32) -> bool
    ensures { IsTrue result ↔ SnapshotForm logical snapshot.now }
{
    name_is_spelled(&snapshot.name);
    label_is_spelled(&snapshot.label);
    let _time = snapshot.time;
    has_length(&snapshot.map, logical)
}

fn snapshots_form(snapshots: &[WorldSnapshot], logical: u32) -> bool
    ensures { IsTrue result ↔ All (SnapshotForm logical) snapshots.now }
{
    snapshots
        .iter()
        .all(|snapshot| snapshot_forms(snapshot, logical))
}

fn sizes_form(logical: u32, physical: u32) -> bool
    ensures { IsTrue result ↔ SizesForm logical physical }
{
    logical >= 1 && logical <= MOST_LOGICAL && logical <= physical && physical <= MOST_PHYSICAL
}

fn are_few(snapshots: &[WorldSnapshot]) -> bool
    ensures { IsTrue result ↔ (length snapshots.now ≤ MOST_SNAPSHOTS) }
{
    snapshots.len() <= MOST_SNAPSHOTS
}

fn volume_forms(volume: &WorldVolume) -> bool
    ensures { IsTrue result ↔ VolumeForm volume.now }
{
    path_is_spelled(&volume.path);
    let _disk = volume.disk.0;
    if !sizes_form(volume.logical, volume.physical) {
        return false;
    }
    if !has_length(&volume.active, volume.logical) {
        return false;
    }
    if !has_length(&volume.stable, volume.logical) {
        return false;
    }
    if !are_few(&volume.snapshots) {
        return false;
    }
    if volume.next < 1 {
        return false;
    }
    if volume.next > LAST_NUMBER {
        return false;
    }
    snapshots_form(&volume.snapshots, volume.logical)
}

fn is_other(volume: &WorldVolume, earlier: &WorldVolume) -> bool
    ensures { IsTrue result ↔ IsOther volume.now earlier.now }
{
    volume.path.text() != earlier.path.text() && volume.disk.0 != earlier.disk.0
}

fn others_differ(before: &[WorldVolume], volume: &WorldVolume) -> bool
    ensures { IsTrue result ↔ All (IsOther volume.now) before.now }
{
    before.iter().all(|earlier| is_other(volume, earlier))
}

fn volume_fits(before: &[WorldVolume], volume: &WorldVolume) -> bool
    ensures { IsTrue result ↔ VolumeFitsBehind before.now volume.now }
{
    if !volume_forms(volume) {
        return false;
    }
    others_differ(before, volume)
}

/// Whether each volume has its form, a path of its own and a disk of its own.
pub fn volumes_form(volumes: &[WorldVolume]) -> bool
    ensures { IsTrue result ↔ EachBehind VolumeFitsBehind volumes.now }
{
    for place in 0..volumes.len() {
        if !volume_fits(&volumes[..place], &volumes[place]) {
            return false;
        }
    }
    true
}
