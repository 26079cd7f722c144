// Courses of events, each with the text that it is answered.
use crate::asking::event_of;
use crate::repeating::filled;
use crate::starts::Lines;
use crate::words::{BadLine, Words};
use oracle_answers::act;
use oracle_world::PlainWorld;
use sm_base::limits::{DISK_LENGTH, MOST_DISKS};
use sm_model::{Event, Reply};
use sm_report::text_of_reply;
use std::alloc::Global;
use std::process::Abort;
use std::test::Fail;

/// Lines one after another in the empty world. A line is what is asked, ` = `, and the text of the answer.
pub(crate) struct Course {
    /// What it shows.
    pub(crate) name: &'static str,
    /// Lines that it shares with other courses, before its own.
    pub(crate) start: Lines,
    pub(crate) steps: &'static [&'static str],
}

fn answer_to(
    alloc: Global,
    world: &mut PlainWorld,
    actor: u32,
    event: &Event,
) -> Result<String, Fail> {
    let reply = act(world, alloc, actor, event)?;
    Ok(text_of_reply(alloc, &reply)?)
}

/// So many steps; the answer is that of the last one.
fn take_steps(alloc: Global, world: &mut PlainWorld, count: u32) -> Result<String, Fail> {
    for _ in 1..count {
        act(world, alloc, 0, &Event::Work { shown: true })?;
    }
    answer_to(alloc, world, 0, &Event::Work { shown: true })
}

/// Steps until none is due.
fn settle(alloc: Global, world: &mut PlainWorld) -> Result<String, Fail> {
    for _ in 0..10_000u32 {
        if let Reply::Idle = act(world, alloc, 0, &Event::Work { shown: false })? {
            return Ok(String::from_str(alloc, "settled")?);
        }
    }
    Ok(String::from_str(alloc, "unsettled")?)
}

/// Sets the number of each volume's next snapshot.
fn set_next_snapshots(world: &mut PlainWorld, number: u64) {
    for volume in world.volumes.iter_mut() {
        volume.next = number;
    }
}

/// Changes a world by hand.
fn set(alloc: Global, world: &mut PlainWorld, words: &mut Words) -> Result<String, Fail> {
    match words.word()? {
        "disks" => {
            let count = words.small()?;
            world.disks = vec![in alloc; words.number()?; count as usize]?;
        }
        "another-disk" => world.disks.push(words.number()?)?,
        "next-relationship" => world.next_relation = words.small()?,
        "next-transfer" => world.next_transfer = words.number()?,
        "next-snapshot" => set_next_snapshots(world, words.number()?),
        _ => Err(BadLine)?,
    }
    Ok(String::from_str(alloc, "set")?)
}

/// Does what a line asks, and gives the answer.
fn perform(alloc: Global, world: &mut PlainWorld, asked: &str) -> Result<String, Fail> {
    let mut words = Words { rest: asked };
    match words.word()? {
        "work" => {
            let actor = words.small()?;
            answer_to(alloc, world, actor, &Event::Work { shown: true })
        }
        "steps" => take_steps(alloc, world, words.small()?),
        "settle" => settle(alloc, world),
        "set" => set(alloc, world, &mut words),
        kind => {
            let event = event_of(alloc, kind, &mut words)?;
            answer_to(alloc, world, 0, &event)
        }
    }
}

fn play<R: AllocGlobal + Abort>(
    rt: &R,
    world: &mut PlainWorld,
    course: &str,
    line: &str,
) -> Result<(), Fail> {
    let Some((asked, text)) = line.split_once(" = ") else {
        return Err(BadLine)?;
    };
    let answer = perform(rt.alloc(), world, asked)?;
    assert_eq!(rt; answer.as_str(), text, "{course}: at {line}");
    Ok(())
}

/// Plays a line, or two with `; ` between them, for each number from a first one to the one before another.
/// In them `#`, `#+1` and `#*2` stand for the number, the next one and twice the number.
fn play_each<R: AllocGlobal + Abort>(
    rt: &R,
    world: &mut PlainWorld,
    course: &str,
    line: &str,
) -> Result<(), Fail> {
    let mut words = Words { rest: line };
    let first = words.small()?;
    let end = words.small()?;
    for number in first..end {
        let one = filled(rt.alloc(), words.rest, u64::from(number))?;
        match one.as_str().split_once("; ") {
            Some((former, latter)) => {
                play(rt, world, course, former)?;
                play(rt, world, course, latter)?;
            }
            None => play(rt, world, course, one.as_str())?,
        }
    }
    Ok(())
}

fn play_all<R: AllocGlobal + Abort>(
    rt: &R,
    world: &mut PlainWorld,
    course: &str,
    lines: &[&str],
) -> Result<(), Fail> {
    for line in lines {
        match line.strip_prefix("each ") {
            Some(line) => play_each(rt, world, course, line)?,
            None => play(rt, world, course, line)?,
        }
    }
    Ok(())
}

/// The world in which nothing was created, over 33 disks that are long enough for any volume.
fn empty_world(alloc: Global) -> Result<PlainWorld, Fail> {
    Ok(PlainWorld {
        clock: 0,
        next_relation: 1,
        next_transfer: 1,
        volumes: Vec::new(alloc),
        policies: Vec::new(alloc),
        relations: Vec::new(alloc),
        disks: vec![in alloc; DISK_LENGTH; MOST_DISKS]?,
    })
}

/// Plays each course in an empty world of its own; each line of it is answered by its text.
pub(crate) fn play_courses<R: AllocGlobal + Abort>(rt: &R, courses: &[Course]) -> Result<(), Fail> {
    for course in courses {
        let mut world = empty_world(rt.alloc())?;
        for lines in course.start {
            play_all(rt, &mut world, course.name, lines)?;
        }
        play_all(rt, &mut world, course.name, course.steps)?;
    }
    Ok(())
}
