// The program over streams and disks in memory.
use sm_base::limits::{DISK_LENGTH, SLOTS_END};
use sm_lab::run_lab;
use sm_memdisk::MemDisk;
use sm_stream::{MemSink, MemSource};
use std::alloc::Global;
use std::test::Fail;

/// What a call came to: the number of its status, what it wrote, and the disks that it gave back.
#[derive(Drop)]
pub struct Ended {
    pub status: u8,
    pub output: String,
    pub disks: Vec<MemDisk>,
}

/// Blank disks: one for the node, and three for the greatest volumes.
pub fn blank_disks(alloc: Global) -> Result<Vec<MemDisk>, Fail> {
    let mut disks = Vec::new(alloc);
    disks.push(MemDisk::new(alloc, SLOTS_END)?)?;
    for _ in 0..3u32 {
        disks.push(MemDisk::new(alloc, DISK_LENGTH)?)?;
    }
    Ok(disks)
}

/// The words of a line.
pub fn words_of(alloc: Global, line: &str) -> Result<Vec<String>, Fail> {
    let mut words = Vec::new(alloc);
    for word in line.split_whitespace() {
        words.push(String::from_str(alloc, word)?)?;
    }
    Ok(words)
}

/// A source of a text that gives 4,096 bytes a call.
pub fn source_of(alloc: Global, text: &str) -> Result<MemSource, Fail> {
    let bytes = text.as_bytes().to_vec(alloc)?;
    Ok(MemSource::new(alloc, bytes, 4096))
}

/// Runs the program between these streams.
pub fn run_between(
    alloc: Global,
    line: &str,
    source: &mut MemSource,
    sink: &mut MemSink,
    disks: Vec<MemDisk>,
) -> Result<Ended, Fail> {
    let words = words_of(alloc, line)?;
    let outcome = run_lab(alloc, words, source, sink, disks);
    let output = String::from_utf8(sink.bytes().to_vec(alloc)?)?;
    Ok(Ended {
        status: outcome.status.number(),
        output,
        disks: outcome.disks,
    })
}

/// Runs the program on a script.
pub fn run_on(alloc: Global, line: &str, script: &str, disks: Vec<MemDisk>) -> Result<Ended, Fail> {
    let mut source = source_of(alloc, script)?;
    let mut sink = MemSink::new(alloc, 1 << 16, 4096)?;
    run_between(alloc, line, &mut source, &mut sink, disks)
}

/// What a call wrote, and the number of its status.
pub fn told(
    alloc: Global,
    line: &str,
    script: &str,
    disks: Vec<MemDisk>,
) -> Result<(String, u8), Fail> {
    let ended = run_on(alloc, line, script, disks)?;
    Ok((ended.output, ended.status))
}
