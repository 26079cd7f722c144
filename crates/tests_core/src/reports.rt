// Reports of a catalogue over memory disks.
use crate::disks::{blank_disks, opened, run};
use crate::scripts::{done_of, many, opened_failing, script};
use sm_base::limits::MOST_ENTRIES;
use sm_core::Catalogue;
use sm_crew::run_report;
use sm_history::ActFault;
use sm_memdisk::MemDisk;
use sm_model::OpenKind;
use sm_report::entry_text;
use std::alloc::Global;
use std::test::Fail;

// The report behind the script. The digest of three blocks of zeros and one of the byte 9 is what sha256sum tells.
const LINES: &[&str] = &[
    "report volumes=1 relationships=0 policies=0 clock=1767225600\n",
    "volume 0 s:a type=rw blocks=4 physical=6 used=1 snapshots=1\n",
    "active 0 sha256=42e99d279631b7ccfbdc50bd04edbc64d804a353ae76cbcc3b08c1f4395af22c\n",
    "snapshot 0 s1 id=0.2 label=- time=0 made=client \
    sha256=42e99d279631b7ccfbdc50bd04edbc64d804a353ae76cbcc3b08c1f4395af22c\n",
];

// What stands behind a report that ends at a node that is down.
fn cut_off() -> &'static str {
    "cut off\n"
}

// The text of a report.
fn reported(alloc: Global, catalogue: &mut Catalogue<MemDisk>) -> Result<String, Fail> {
    let before = catalogue.entries().len();
    let down = run_report(alloc, catalogue)?;
    let mut text = String::new(alloc);
    for entry in catalogue.entries().iter().skip(before) {
        text.push_str(&entry_text(alloc, entry)?)?;
    }
    if down.is_some() {
        text.push_str(cut_off())?;
    }
    Ok(text)
}

// The report behind the script.
fn reported_behind(alloc: Global, catalogue: &mut Catalogue<MemDisk>) -> Result<String, Fail> {
    run(alloc, catalogue, script())??;
    reported(alloc, catalogue)
}

// What is left of a text behind the report's lines, as far as they stand there in their order.
fn behind_lines(text: &str) -> &str {
    let mut rest = text;
    for line in LINES {
        match rest.strip_prefix(*line) {
            Some(more) => rest = more,
            None => break,
        }
    }
    rest
}

#[test]
fn a_report_has_a_line_of_each_image(rt: HostRuntime) -> Result<(), Fail> {
    let Some(mut catalogue) = opened(rt.alloc(), blank_disks(rt.alloc())?) else {
        return Err(OpenKind::Fault)?;
    };
    let text = reported_behind(rt.alloc(), &mut catalogue)?;
    assert_eq!(rt; text.lines().count(), LINES.len());
    assert_eq!(rt; behind_lines(&text), "");
    Ok(())
}

// The report of a node that is down.
fn down() -> &'static str {
    "report down disk=1\ncut off\n"
}

// Whether the report behind the script meets a fault, and is not that of a node that was down before.
fn meets_a_fault(alloc: Global, catalogue: &mut Catalogue<MemDisk>) -> Result<bool, Fail> {
    let text = reported_behind(alloc, catalogue)?;
    let rest = behind_lines(&text);
    if rest.is_empty() {
        return Ok(false);
    }
    let again = reported(alloc, catalogue)?;
    if rest != down() || again.as_str() != down() {
        return Err("another report of a node that is down")?;
    }
    Ok(rest.len() < text.len())
}

// Whether it does where that call of the volume's disk fails.
fn meets_it_at(alloc: Global, call: u64) -> Result<bool, Fail> {
    match opened_failing(alloc, 1, call)? {
        Some(mut catalogue) => meets_a_fault(alloc, &mut catalogue),
        None => Ok(false),
    }
}

// The lines before a fault are as without it, none stands behind it, and a node that is down has one entry.
#[test]
fn a_fault_ends_a_report(rt: HostRuntime) -> Result<(), Fail> {
    let mut met = 0u32;
    for call in 1..100u64 {
        met = met.saturating_add(u32::from(meets_it_at(rt.alloc(), call)?));
    }
    assert!(rt; met > 1, "{met} calls failed");
    Ok(())
}

// A history with two places left, and a report.
fn cuts(alloc: Global, catalogue: &mut Catalogue<MemDisk>) -> Result<[bool; 4], Fail> {
    run(alloc, catalogue, script())??;
    let filled = done_of(alloc, catalogue, many(), 255)? == 255;
    let rest = "client write -path s:b -block 0 -fill 0 -count 4086";
    let two_left = done_of(alloc, catalogue, rest, 1)? == 1;
    let cut_off = matches!(run_report(alloc, catalogue), Err(ActFault::HistoryFull));
    let many = catalogue.entries().len() == MOST_ENTRIES;
    Ok([filled, two_left, cut_off, many])
}

#[test]
fn a_full_history_cuts_a_report(rt: HostRuntime) -> Result<(), Fail> {
    let Some(mut catalogue) = opened(rt.alloc(), blank_disks(rt.alloc())?) else {
        return Err(OpenKind::Fault)?;
    };
    assert_eq!(rt; cuts(rt.alloc(), &mut catalogue)?, [true; 4]);
    Ok(())
}
