// Scripts of any bytes: each is read, or one of its lines is named.
use sm_grammar::{ScriptFault, read_script};
use std::alloc::Global;
use std::process::Abort;
use std::test::Fail;

/// Numbers that look random, the same in each run.
#[derive(Drop)]
struct Numbers {
    state: u64,
}

impl Numbers {
    /// A number below the bound.
    fn below(&mut self, bound: u64) -> u64 {
        self.state = self
            .state
            .wrapping_mul(6_364_136_223_846_793_005)
            .wrapping_add(1_442_695_040_888_963_407);
        if bound == 0 {
            return 0;
        }
        (self.state >> 33) % bound
    }
}

/// Pieces of lines, good and bad.
const PIECES: [&[u8]; 30] = [
    b"volume create",
    b"client write",
    b"snapshot create",
    b"lab clock",
    b"lab read",
    b"snapmirror policy add-rule",
    b"snapmirror create",
    b"-policy",
    b"-keep",
    b"-preserve",
    b"true",
    b"-path",
    b"s:a",
    b"-block",
    b"4294967295",
    b"-count",
    b"4096",
    b"-fill",
    b"255",
    b"-snapshot",
    b"s1",
    b"-label",
    b"-time",
    b"2026-02-28T00:00:00Z",
    b" ",
    b"\t",
    b"\r\n",
    b"\n",
    b"#",
    b"\xff",
];

fn pieces(alloc: Global, numbers: &mut Numbers) -> Result<Vec<u8>, Fail> {
    let mut text = Vec::new(alloc);
    for _ in 0..40u32 {
        let at = numbers.below(30) as usize;
        if let Some(piece) = PIECES.get(at) {
            text.extend_from_slice(piece)?;
        }
        if numbers.below(2) == 0 {
            text.push(b' ')?;
        }
    }
    Ok(text)
}

fn any_bytes(alloc: Global, numbers: &mut Numbers) -> Result<Vec<u8>, Fail> {
    let mut text = Vec::new(alloc);
    for _ in 0..numbers.below(200) {
        text.push((numbers.below(256) % 256) as u8)?;
    }
    Ok(text)
}

fn feeds(text: &[u8]) -> usize {
    text.iter().filter(|b| **b == b'\n').count()
}

/// Whether the script is read, with at most a command for each line, or one of its lines is named.
fn is_read<R: AllocGlobal + Abort>(rt: &R, text: &[u8]) -> Result<(), Fail> {
    assert!(rt; text.len() < 100_000);
    let lines = feeds(text).wrapping_add(1);
    match read_script(rt.alloc(), text) {
        Ok(script) => assert!(rt; script.commands().len() <= lines),
        Err(ScriptFault::BadLine { line, .. }) => {
            assert!(rt; 1 <= line && line as usize <= lines);
        }
        Err(ScriptFault::NoMemory) => panic!(rt; "no memory"),
    }
    Ok(())
}

#[test]
fn any_bytes_are_read_or_a_line_is_named(rt: HostRuntime) -> Result<(), Fail> {
    let mut numbers = Numbers { state: 1 };
    for _ in 0..3000u32 {
        let text = pieces(rt.alloc(), &mut numbers)?;
        is_read(&rt, &text)?;
        let text = any_bytes(rt.alloc(), &mut numbers)?;
        is_read(&rt, &text)?;
    }
    Ok(())
}

/// A script with each byte otherwise, left out or the last one.
#[test]
fn a_script_with_one_byte_otherwise_is_read_or_named(rt: HostRuntime) -> Result<(), Fail> {
    let whole =
        b"# x\r\nclient write -path s:a -block 1 -count 2 -fill 3\r\n\tlab clock -time 2026-02-28T00:00:00Z\nlab cp -path s:a";
    for at in 0..whole.len() {
        for other in [0u8, 9, 10, 13, 32, 35, 48, 65, 127, 255] {
            let mut text = Vec::new(rt.alloc());
            text.extend_from_slice(&whole[..at])?;
            is_read(&rt, &text)?;
            text.push(other)?;
            text.extend_from_slice(&whole[at + 1..])?;
            is_read(&rt, &text)?;
        }
    }
    Ok(())
}
