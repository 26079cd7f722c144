// Sources and sinks that fail, and long runs.
use crate::program::{blank_disks, run_between, source_of, told};
use sm_memdisk::MemDisk;
use sm_stream::{MemSink, MemSource};
use std::alloc::Global;
use std::test::Fail;

fn script() -> &'static str {
    "\
volume create -path s:a -disk 1 -type rw -blocks 4 -physical 8
client write -path s:a -block 0 -fill 7
client write -path s:a -block 3 -fill 9
snapshot create -path s:a -snapshot s1
"
}

const REPORT: &str = "\
report volumes=1 relationships=0 policies=0 clock=0
volume 0 s:a type=rw blocks=4 physical=8 used=2 snapshots=1
active 0 sha256=01666e1dd2d506db8a52e403fff8e7598978f1b585fbb4ca224aac329c7571bc
snapshot 0 s1 id=0.2 label=- time=0 made=client \
sha256=01666e1dd2d506db8a52e403fff8e7598978f1b585fbb4ca224aac329c7571bc
";

// A source whose second call fails.
fn cut_off(alloc: Global) -> Result<(String, u8), Fail> {
    let mut source = source_of(alloc, script())?;
    source.fail_at(2)?;
    let mut sink = MemSink::new(alloc, 4096, 4096)?;
    let ended = run_between(alloc, "lab", &mut source, &mut sink, blank_disks(alloc)?)?;
    Ok((ended.output, ended.status))
}

#[test]
fn a_source_that_fails_is_told(rt: HostRuntime) -> Result<(), Fail> {
    let (output, status) = cut_off(rt.alloc())?;
    assert_eq!(rt; output.as_str(), "read fault\n");
    assert_eq!(rt; status, 4);
    Ok(())
}

// A sink that takes 16 bytes a call and has this room; one of its calls fails.
fn filled(alloc: Global, room: u64, call: u64) -> Result<(String, u8, Vec<MemDisk>), Fail> {
    let mut source = source_of(alloc, script())?;
    let mut sink = MemSink::new(alloc, room, 16)?;
    sink.fail_at(call)?;
    let ended = run_between(alloc, "lab", &mut source, &mut sink, blank_disks(alloc)?)?;
    Ok((ended.output, ended.status, ended.disks))
}

// A sink whose second call fails, or whose room is full, holds a front of the output, and the disks are those of the run.
#[test]
fn a_sink_that_fails_holds_a_front_of_the_output(rt: HostRuntime) -> Result<(), Fail> {
    for row in [
        (4096u64, 2u64, "1: ok volume=0\n2"),
        (20, 99, "1: ok volume=0\n2: ok"),
    ] {
        let (room, call, front) = row;
        let (output, status, disks) = filled(rt.alloc(), room, call)?;
        assert_eq!(rt; output.as_str(), front);
        assert_eq!(rt; status, 5);
        let (report, _) = told(rt.alloc(), "lab report", "", disks)?;
        assert_eq!(rt; report.as_str(), REPORT);
    }
    Ok(())
}

// A script of so many line ends.
fn told_of_blank_lines(alloc: Global, length: usize) -> Result<(String, u8), Fail> {
    let bytes = vec![in alloc; b'\n'; length]?;
    let mut source = MemSource::new(alloc, bytes, 1 << 16);
    let mut sink = MemSink::new(alloc, 4096, 4096)?;
    let ended = run_between(alloc, "lab", &mut source, &mut sink, blank_disks(alloc)?)?;
    Ok((ended.output, ended.status))
}

#[test]
fn a_script_has_a_greatest_length(rt: HostRuntime) -> Result<(), Fail> {
    let (output, status) = told_of_blank_lines(rt.alloc(), 16_777_217)?;
    assert_eq!(rt; output.as_str(), "script too long\n");
    assert_eq!(rt; status, 3);
    let (output, status) = told_of_blank_lines(rt.alloc(), 16_777_216)?;
    assert_eq!(rt;
        output.as_str(),
        "report volumes=0 relationships=0 policies=0 clock=0\n"
    );
    assert_eq!(rt; status, 0);
    Ok(())
}

// A text, a line so many times, a text.
fn repeated(
    alloc: Global,
    before: &str,
    line: &str,
    times: u32,
    behind: &str,
) -> Result<String, Fail> {
    let mut text = String::from_str(alloc, before)?;
    for _ in 0..times {
        text.push_str(line)?;
    }
    text.push_str(behind)?;
    Ok(text)
}

// As many events as the history has entries, and one line of them more.
fn told_of_many_events(alloc: Global) -> Result<(String, u8), Fail> {
    let line = "client write -path s:b -block 0 -fill 0 -count 4096\n";
    let script = repeated(alloc, "", line, 257, "")?;
    let mut source = source_of(alloc, script.as_str())?;
    let mut sink = MemSink::new(alloc, 1 << 26, 1 << 16)?;
    let ended = run_between(alloc, "lab", &mut source, &mut sink, blank_disks(alloc)?)?;
    Ok((ended.output, ended.status))
}

#[test]
fn a_full_history_is_told(rt: HostRuntime) -> Result<(), Fail> {
    let (output, status) = told_of_many_events(rt.alloc())?;
    let end = "\n256: refused NoVolume path=s:b\nhistory full\n";
    assert!(rt; output.as_str().ends_with(end));
    assert_eq!(rt; status, 8);
    Ok(())
}

// Of one block more than there are logical ones, a snapshot leaves room for one write.
#[test]
fn a_full_volume_takes_no_block(rt: HostRuntime) -> Result<(), Fail> {
    let script = "\
volume create -path s:a -disk 1 -type rw -blocks 4096 -physical 4097
client write -path s:a -block 0 -count 4096 -fill 0
snapshot create -path s:a -snapshot s1
client write -path s:a -block 0 -fill 1
client write -path s:a -block 1 -fill 1
client write -path s:a -block 4096 -fill 1
";
    let behind = "\
3: ok id=0.2
4: ok
5: refused NoSpace
6: refused BadBlock
report volumes=1 relationships=0 policies=0 clock=0
volume 0 s:a type=rw blocks=4096 physical=4097 used=4097 snapshots=1
active 0 sha256=1cf9f677db9dba3d24637e8c69bd6162ef1579ed9aa3bc93bc0ee885ea6ccff1
snapshot 0 s1 id=0.2 label=- time=0 made=client \
sha256=765b94c2732b892a832d37daa302bcab2eb4138a434b4db2c2cae7522f3de54f
";
    let expected = repeated(rt.alloc(), "1: ok volume=0\n", "2: ok\n", 4096, behind)?;
    let (output, status) = told(rt.alloc(), "lab", script, blank_disks(rt.alloc())?)?;
    assert_eq!(rt; output, expected);
    assert_eq!(rt; status, 0);
    Ok(())
}

// Snapshots of a volume of one block that was never written, of which it holds 255.
fn many_snapshots(alloc: Global) -> Result<(String, String), Fail> {
    let zeros = "ad7facb2586fc6e966c004d7d1d16b024f5805ff7cb47c7a85dabd8b48892ca7";
    let mut script = String::from_str(
        alloc,
        "volume create -path s:a -disk 1 -type rw -blocks 1 -physical 1\n",
    )?;
    let mut lines = String::new(alloc);
    for number in 1..256u32 {
        let seq = 2 * number;
        write!(script, "snapshot create -path s:a -snapshot s{number}\n")?;
        write!(
            lines,
            "snapshot 0 s{number} id=0.{seq} label=- time=0 made=client sha256={zeros}\n"
        )?;
    }
    script.push_str("snapshot create -path s:a -snapshot last\n")?;
    let mut output = String::new(alloc);
    write!(
        output,
        "257: refused SnapFull\nreport volumes=1 relationships=0 policies=0 clock=0\n\
         volume 0 s:a type=rw blocks=1 physical=1 used=0 snapshots=255\nactive 0 sha256={zeros}\n"
    )?;
    output.push_str(lines.as_str())?;
    Ok((script, output))
}

#[test]
fn the_last_snapshot_is_refused(rt: HostRuntime) -> Result<(), Fail> {
    let (script, end) = many_snapshots(rt.alloc())?;
    let (output, status) = told(rt.alloc(), "lab", script.as_str(), blank_disks(rt.alloc())?)?;
    assert!(rt; output.as_str().ends_with(end.as_str()), "{output}");
    assert_eq!(rt; status, 0);
    Ok(())
}
