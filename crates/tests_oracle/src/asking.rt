// The event that a line of a course asks for.
use crate::words::{BadLine, Words};
use sm_base::{DiskNo, RelNo, VolNo};
use sm_model::Event;
use std::alloc::Global;
use std::test::Fail;

/// The event of the kind, of which the words behind it tell more.
pub(crate) fn event_of(alloc: Global, kind: &str, words: &mut Words) -> Result<Event, Fail> {
    match kind {
        "volume" => Ok(Event::CreateVolume {
            path: words.path(alloc)?,
            disk: DiskNo(words.small()?),
            kind: words.kind()?,
            logical: words.small()?,
            physical: words.small()?,
        }),
        "volumes" => Ok(Event::ShowVolumes),
        "write" => Ok(Event::Write {
            path: words.path(alloc)?,
            block: words.number()?,
            fill: words.byte()?,
        }),
        "read" => Ok(Event::Read {
            path: words.path(alloc)?,
            name: words.name_or_none(alloc)?,
            block: words.small()?,
        }),
        "cp" => Ok(Event::Cp {
            path: words.path(alloc)?,
        }),
        "clock" => Ok(Event::Clock {
            time: words.number()?,
        }),
        "restart" => Ok(Event::Restart),
        _ => event_of_snapshots(alloc, kind, words),
    }
}

fn event_of_snapshots(alloc: Global, kind: &str, words: &mut Words) -> Result<Event, Fail> {
    match kind {
        "snapshot" => Ok(Event::Snap {
            path: words.path(alloc)?,
            name: words.name(alloc)?,
            label: words.label_or_none(alloc)?,
        }),
        "unsnapshot" => Ok(Event::Unsnap {
            path: words.path(alloc)?,
            name: words.name(alloc)?,
        }),
        "snapshots" => Ok(Event::ShowSnaps {
            path: words.path(alloc)?,
        }),
        _ => event_of_policies(alloc, kind, words),
    }
}

fn event_of_policies(alloc: Global, kind: &str, words: &mut Words) -> Result<Event, Fail> {
    match kind {
        "policy" => Ok(Event::CreatePolicy {
            name: words.part(alloc)?,
            kind: words.policy_kind()?,
        }),
        "rule" => Ok(Event::AddRule {
            name: words.part(alloc)?,
            label: words.label(alloc)?,
            keep: words.small()?,
            preserve: words.preserves()?,
        }),
        "policies" => Ok(Event::ShowPolicies),
        "relate" => Ok(Event::Relate {
            source: words.path(alloc)?,
            destination: words.path(alloc)?,
            policy: words.part(alloc)?,
        }),
        "release" => Ok(Event::Release {
            source: words.path(alloc)?,
            destination: words.path(alloc)?,
        }),
        "relationships" => Ok(Event::ShowRelations),
        _ => event_of_report(alloc, kind, words),
    }
}

fn event_of_report(alloc: Global, kind: &str, words: &mut Words) -> Result<Event, Fail> {
    match kind {
        "head" => Ok(Event::Head),
        "volume-line" => Ok(Event::VolumeLine {
            volume: VolNo(words.small()?),
        }),
        "active-line" => Ok(Event::Digest {
            volume: VolNo(words.small()?),
            place: None,
        }),
        "snapshot-line" => Ok(Event::Digest {
            volume: VolNo(words.small()?),
            place: Some(words.small()?),
        }),
        "relationship-line" => Ok(Event::RelationLine {
            relation: RelNo(words.small()?),
        }),
        _ => event_of_transfer(alloc, kind, words),
    }
}

/// The event on the transfers to a destination.
fn event_of_transfer(alloc: Global, kind: &str, words: &mut Words) -> Result<Event, Fail> {
    let destination = words.path(alloc)?;
    match kind {
        "initialize" => Ok(Event::Initialize { destination }),
        "update" => Ok(Event::Update { destination }),
        "quiesce" => Ok(Event::Quiesce { destination }),
        "resume" => Ok(Event::Resume { destination }),
        "abort" => Ok(Event::Abort {
            destination,
            hard: false,
        }),
        "discard" => Ok(Event::Abort {
            destination,
            hard: true,
        }),
        "break" => Ok(Event::Break { destination }),
        "resync" => Ok(Event::Resync { destination }),
        "delete" => Ok(Event::Delete { destination }),
        _ => Err(BadLine)?,
    }
}
