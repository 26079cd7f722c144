// A catalogue over disks in memory, and commands that run on it.
use sm_base::limits::SLOTS_END;
use sm_core::Catalogue;
use sm_crew::run_alone;
use sm_grammar::{ScriptFault, read_script};
use sm_history::ActFault;
use sm_memdisk::MemDisk;
use sm_report::entry_text;
use std::alloc::Global;
use std::test::Fail;

/// Blank disks: one for the catalogue, and two that are each long enough for a volume of six physical blocks.
pub fn blank_disks(alloc: Global) -> Result<Vec<MemDisk>, Fail> {
    let mut disks = Vec::new(alloc);
    disks.push(MemDisk::new(alloc, SLOTS_END)?)?;
    disks.push(MemDisk::new(alloc, 25_751_552)?)?;
    disks.push(MemDisk::new(alloc, 25_751_552)?)?;
    Ok(disks)
}

/// The catalogue of these disks, none where they are not opened.
pub fn opened(alloc: Global, disks: Vec<MemDisk>) -> Option<Catalogue<MemDisk>> {
    match Catalogue::open(alloc, disks) {
        Ok(catalogue) => Some(catalogue),
        Err(_) => None,
    }
}

/// Runs the commands of a text.
pub fn run(
    alloc: Global,
    catalogue: &mut Catalogue<MemDisk>,
    text: &str,
) -> Result<Result<(), ActFault>, Fail> {
    if text.len() > 4096 {
        return Err(ScriptFault::NoMemory)?;
    }
    let script = read_script(alloc, text.as_bytes())?;
    Ok(run_alone(alloc, catalogue, script.commands()))
}

/// What a script prints over these disks, none where they are not opened.
pub fn printed(alloc: Global, disks: Vec<MemDisk>, script: &str) -> Result<Option<String>, Fail> {
    let Some(mut catalogue) = opened(alloc, disks) else {
        return Ok(None);
    };
    run(alloc, &mut catalogue, script)??;
    let mut text = String::new(alloc);
    for entry in catalogue.entries() {
        text.push_str(&entry_text(alloc, entry)?)?;
    }
    Ok(Some(text))
}
