// The report of a node, while nobody else acts.
ghost use Rattle.std.specs.Prelude.{◌≡◌, ℕ, ◌<◌, [], ◌∷◌, map, length, IfOk, IfErr};
ghost use Rattle.sm_defs.specs.World.{Up, volume_at};
ghost use Rattle.sm_model.specs.World.{up};
ghost use Rattle.sm_model.specs.Asked.{digest_events, events_of_volume, events_of_volumes, event_of_relation};
ghost use Rattle.sm_crew.specs.Reporting.{Reports, Stops, RunsReport, report_of};

use crate::looking::{count_in, look};
use crate::stop::Stop;
use sm_base::{DiskNo, VolNo};
use sm_core::Catalogue;
use sm_disk::Disk;
use sm_history::ActFault;
use sm_model::Event;
use std::alloc::Global;

// The lines on the images of a volume: the active one, then those of its snapshots, oldest first.
fn report_images<D: Disk + Drop>(
    alloc: Global,
    catalogue: &mut Catalogue<D>,
    volume: VolNo,
    count: u32,
) -> Result<(), Stop>
    requires { (w : Up) × (catalogue.old.world ≡ up w) × (volume.0 < length w.volumes) × (count ≡ length (volume_at w volume.0).snapshots) }

    ensures done { IfOk result (λ done. Reports D.state catalogue.old (digest_events volume.0 count) catalogue.new) }
    ensures stopped { IfErr result (λ stop. Stops D.state catalogue.old (digest_events volume.0 count) stop catalogue.new) }
{
    let active = Event::Digest {
        volume,
        place: None,
    };
    look(alloc, catalogue, active)?;
    for place in 0..count {
        let snapshot = Event::Digest {
            volume,
            place: Some(place),
        };
        look(alloc, catalogue, snapshot)?;
    }
    Ok(())
}

// The lines on a volume and its images.
fn report_volume<D: Disk + Drop>(
    alloc: Global,
    catalogue: &mut Catalogue<D>,
    number: u32,
) -> Result<(), Stop>
    requires { (w : Up) × (catalogue.old.world ≡ up w) × (number < length w.volumes) }

    ensures done { IfOk result (λ done. (w : Up) → catalogue.old.world ≡ up w → Reports D.state catalogue.old (events_of_volume number (volume_at w number)) catalogue.new) }
    ensures stopped { IfErr result (λ stop. (w : Up) → catalogue.old.world ≡ up w → Stops D.state catalogue.old (events_of_volume number (volume_at w number)) stop catalogue.new) }
{
    let volume = VolNo(number);
    let line = look(alloc, catalogue, Event::VolumeLine { volume })?;
    report_images(alloc, catalogue, volume, count_in(&line))
}

// The lines on the volumes, in the order of their numbers.
fn report_volumes<D: Disk + Drop>(
    alloc: Global,
    catalogue: &mut Catalogue<D>,
    count: u32,
) -> Result<(), Stop>
    requires { (w : Up) × (catalogue.old.world ≡ up w) × (count ≡ length w.volumes) }

    ensures done { IfOk result (λ done. (w : Up) → catalogue.old.world ≡ up w → Reports D.state catalogue.old (events_of_volumes 0 w.volumes) catalogue.new) }
    ensures stopped { IfErr result (λ stop. (w : Up) → catalogue.old.world ≡ up w → Stops D.state catalogue.old (events_of_volumes 0 w.volumes) stop catalogue.new) }
{
    for number in 0..count {
        report_volume(alloc, catalogue, number)?;
    }
    Ok(())
}

// The lines on the relationships, in the order of their numbers.
fn report_relations<D: Disk + Drop>(alloc: Global, catalogue: &mut Catalogue<D>) -> Result<(), Stop>
    requires { (w : Up) × (catalogue.old.world ≡ up w) }

    ensures done { IfOk result (λ done. (w : Up) → catalogue.old.world ≡ up w → Reports D.state catalogue.old (map event_of_relation w.relations) catalogue.new) }
    ensures stopped { IfErr result (λ stop. (w : Up) → catalogue.old.world ≡ up w → Stops D.state catalogue.old (map event_of_relation w.relations) stop catalogue.new) }
{
    let mut next = catalogue.next_relation(0);
    while let Some(relation) = next {
        look(alloc, catalogue, Event::RelationLine { relation })?;
        next = catalogue.next_relation(relation.0);
    }
    Ok(())
}

// The whole report, up to where it stops.
fn report_all<D: Disk + Drop>(alloc: Global, catalogue: &mut Catalogue<D>) -> Result<(), Stop>
    ensures done { IfOk result (λ done. Reports D.state catalogue.old (report_of catalogue.old.world) catalogue.new) }
    ensures stopped { IfErr result (λ stop. Stops D.state catalogue.old (report_of catalogue.old.world) stop catalogue.new) }
{
    let head = look(alloc, catalogue, Event::Head)?;
    report_volumes(alloc, catalogue, count_in(&head))?;
    report_relations(alloc, catalogue)
}

/// Asks a catalogue, on which nobody else acts, for its report: the head, then of each volume its line, its active image
/// and its snapshots, oldest first, and then the relationships by their numbers. It ends with the first event that is
/// answered that the node is down, or in which a disk fails, and answers that disk; none exactly where the report is
/// whole and the node up. Nothing but blocks is read, and nothing is changed.
///
/// # Errors
///
/// The entries of the events that were done stand then, and nothing else was done. [`ActFault::HistoryFull`] exactly
/// where a further event is due and there are as many entries as there may be. [`ActFault::NoMemory`] where there is
/// none for an event or its entry. [`ActFault::Unchanged`] never.
pub fn run_report<D: Disk + Drop>(
    alloc: Global,
    catalogue: &mut Catalogue<D>,
) -> Result<Option<DiskNo>, ActFault>
    ensures { RunsReport D.state catalogue.old result catalogue.new }
{
    match report_all(alloc, catalogue) {
        Ok(()) => Ok(None),
        Err(Stop::Down(disk)) => Ok(Some(disk)),
        Err(Stop::Fault(fault)) => Err(fault),
    }
}
