// Courses of steps of a leg.
ghost use Rattle.std.specs.Prelude.{◌≡◌};

use crate::beginning::{Stop, begun};
use crate::making::{byte_at, check_up, destination_of, relation_of, source_of};
use crate::moving::{Step, first_wrong};
use sm_base::{PolicyKind, Reason};
use sm_disk::Disk;
use sm_relation::Relation;
use sm_transfer::StepFault;
use sm_volume::Volume;
use std::alloc::Global;
use std::process::Abort;
use std::test::Fail;

struct Course {
    what: &'static str,
    kind: PolicyKind,
    /// What the source writes, each block of one byte, before its snapshot.
    writes: &'static [(u32, u8)],
    /// What the destination has under a snapshot of its own.
    own: &'static [(u32, u8)],
    /// The steps with their answers.
    steps: &'static [(Step, u32)],
    map: [u32; 4],
    /// Numbers of the destination with the byte that lies there behind the course.
    bytes: &'static [(u32, u8)],
}

const COURSES: &[Course] = &[
    Course {
        what: "a mirror's blocks land at the source's numbers, in any order, each once",
        kind: PolicyKind::AsyncMirror,
        writes: &[(0, 10), (1, 11), (3, 13), (1, 21)],
        own: &[],
        steps: &[
            (Step::Ship(2), 1),
            (Step::Ship(0), 1),
            (Step::Ship(2), 0),
            (Step::Ship(3), 0),
            (Step::Check, 1),
            (Step::Ship(1), 1),
            (Step::Check, 3),
        ],
        map: [1, 4, 0, 3],
        bytes: &[(1, 10), (2, 0), (3, 13), (4, 21)],
    },
    Course {
        what: "a checkpoint counts no block past the first that is missing, and an interruption forgets it",
        kind: PolicyKind::AsyncMirror,
        writes: &[(0, 10), (1, 11), (2, 12), (3, 13)],
        own: &[],
        steps: &[
            (Step::Ship(0), 1),
            (Step::Ship(1), 1),
            (Step::Ship(3), 1),
            (Step::Check, 2),
            (Step::Stop, 2),
            (Step::Check, 2),
        ],
        map: [1, 2, 3, 4],
        bytes: &[(1, 10), (2, 11), (3, 0), (4, 13)],
    },
    Course {
        what: "without a checkpoint an interruption forgets all",
        kind: PolicyKind::AsyncMirror,
        writes: &[(0, 10), (1, 11)],
        own: &[],
        steps: &[
            (Step::Ship(0), 1),
            (Step::Ship(1), 1),
            (Step::Stop, 0),
            (Step::Check, 0),
        ],
        map: [1, 2, 0, 0],
        bytes: &[(1, 10), (2, 11)],
    },
    Course {
        what: "a mirror does not send a number that a snapshot there has",
        kind: PolicyKind::AsyncMirror,
        writes: &[(0, 10), (1, 11), (2, 12)],
        own: &[(0, 90)],
        steps: &[
            (Step::Ship(0), 1),
            (Step::Ship(1), 1),
            (Step::Ship(2), 0),
            (Step::Check, 2),
        ],
        map: [1, 2, 3, 0],
        bytes: &[(1, 90), (2, 11), (3, 12)],
    },
    Course {
        what: "a vault's blocks land at its least free numbers",
        kind: PolicyKind::Vault,
        writes: &[(0, 10), (1, 11), (3, 13), (1, 21)],
        own: &[(0, 90)],
        steps: &[(Step::Ship(1), 1), (Step::Ship(0), 1), (Step::Check, 2)],
        map: [2, 3, 0, 4],
        bytes: &[(1, 90), (2, 10), (3, 21), (4, 0)],
    },
    Course {
        what: "a leg of holes costs nothing",
        kind: PolicyKind::Vault,
        writes: &[],
        own: &[],
        steps: &[(Step::Ship(0), 0), (Step::Check, 0), (Step::Stop, 0)],
        map: [0, 0, 0, 0],
        bytes: &[(1, 0)],
    },
];

// Takes only what may go to another thread.
fn sent<T: Send>(value: T) -> T
    ensures { result ≡ value }
{
    value
}

// What is otherwise than the course has it, if anything is.
fn otherwise<D: Disk>(
    alloc: Global,
    relation: &Relation,
    course: &Course,
    source: &mut Volume<D>,
    destination: &mut Volume<D>,
) -> Result<Option<&'static str>, Stop> {
    if check_up(source).is_err() {
        return Err(Stop::Unfit);
    }
    if check_up(destination).is_err() {
        return Err(Stop::Unfit);
    }
    let mut transfer = sent(begun(alloc, course.kind, relation, source, destination)?);
    if transfer.map() != course.map.as_slice() {
        return Ok(Some("the map"));
    }
    match first_wrong(&mut transfer, course.steps, source, destination) {
        Ok(None) => Ok(None),
        Ok(Some(_)) => Ok(Some("an answer")),
        Err(fault) => Err(Stop::Fault(fault)),
    }
}

fn play(rt: &(impl Abort + AllocGlobal), course: &Course) -> Result<(), Fail> {
    let alloc = rt.alloc();
    let mut source = source_of(alloc, course.writes)?;
    let mut destination = destination_of(alloc, 8, course.own)?;
    let relation = relation_of(alloc)?;
    let wrong = otherwise(alloc, &relation, course, &mut source, &mut destination)?;
    assert_eq!(rt; wrong, None, "{}", course.what);
    let mut disk = Box::into_inner(destination).into_disk();
    for place in 0..course.bytes.len() {
        let one = course.bytes[place];
        assert_eq!(rt; byte_at(&mut disk, one.0), Ok(one.1), "{}", course.what);
    }
    Ok(())
}

#[test]
fn a_leg_is_shipped_step_by_step(rt: HostRuntime) -> Result<(), Fail> {
    for course in COURSES {
        play(&rt, course)?;
    }
    Ok(())
}

// Why a vault's leg does not begin at a destination of four physical blocks of which one is used.
#[test]
fn a_leg_without_room_does_not_begin(rt: HostRuntime) -> Result<(), Fail> {
    let alloc = rt.alloc();
    let source = source_of(alloc, &[(0, 1), (1, 1), (2, 1), (3, 1)])?;
    let destination = destination_of(alloc, 4, &[(0, 2)])?;
    let relation = relation_of(alloc)?;
    if check_up(&source).is_err() {
        return Err(Stop::Unfit)?;
    }
    if check_up(&destination).is_err() {
        return Err(Stop::Unfit)?;
    }
    let begun = begun(alloc, PolicyKind::Vault, &relation, &source, &destination);
    let reason = Reason::NoSpace { need: 4, free: 3 };
    match begun {
        Err(Stop::Fault(fault)) => assert_eq!(rt; fault, StepFault::Stopped(reason)),
        _ => return Err(Stop::Unfit)?,
    }
    Ok(())
}
