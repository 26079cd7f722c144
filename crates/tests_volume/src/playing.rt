// Lines of a course, one after another.
use crate::asking::{Answered, answer, ask_of};
use crate::telling::text_of;
use crate::words::{BadLine, Words};
use sm_disk::Disk;
use sm_volume::Volume;
use std::alloc::Global;
use std::test::Fail;

// A call, ` = `, what it answers, `: `, and what the volume tells then.
pub type Line = &'static str;

fn text_of_answer(alloc: Global, answered: Answered) -> Result<String, Fail> {
    match answered {
        Ok(word) => Ok(String::from_str(alloc, word)?),
        Err(fault) => Ok(format!(in alloc; "{fault:?}")?),
    }
}

// Whether a call is answered so, and the volume then tells this.
fn is_right<D: Disk>(alloc: Global, volume: &mut Volume<D>, line: Line) -> Result<bool, Fail> {
    let Some((asked, wanted)) = line.split_once(" = ") else {
        return Err(BadLine)?;
    };
    let Some((answered, told)) = wanted.split_once(": ") else {
        return Err(BadLine)?;
    };
    let asked = ask_of(&mut Words { rest: asked })?;
    let text = text_of_answer(alloc, answer(alloc, volume, &asked))?;
    if text.as_str() != answered {
        return Ok(false);
    }
    Ok(text_of(alloc, volume)?.as_str() == told)
}

// The first line that is wrong, if one is.
pub fn first_wrong<D: Disk>(
    alloc: Global,
    volume: &mut Volume<D>,
    lines: &[Line],
) -> Result<Option<Line>, Fail> {
    for line in lines {
        if !is_right(alloc, volume, line)? {
            return Ok(Some(line));
        }
    }
    Ok(None)
}
