// What the lines of each command ask for.
use sm_base::{DiskNo, PolicyKind, Refusal};
use sm_grammar::{Command, read_script};
use sm_model::{Event, Reply};
use std::alloc::Global;
use std::test::Fail;

/// A line, and the events that it asks for.
struct Good {
    line: &'static str,
    asks: &'static str,
}

const GOOD: [Good; 41] = [
    Good {
        line: "volume create -path s:a -disk 1 -type rw -blocks 4 -physical 8",
        asks: "create s:a disk=1 rw 4/8;",
    },
    Good {
        line: "volume create -physical 16384 -blocks 4096 -type dp -disk 4294967295 -path A_1:b",
        asks: "create A_1:b disk=4294967295 dp 4096/16384;",
    },
    Good {
        line: "volume create -blocks 0000000001 -physical 1 -disk 0 -path a:b -type rw",
        asks: "create a:b disk=0 rw 1/1;",
    },
    Good {
        line: "volume show",
        asks: "show volumes;",
    },
    Good {
        line: "\tvolume \t show  ",
        asks: "show volumes;",
    },
    Good {
        line: "client write -path s:a -block 3 -fill 9",
        asks: "write s:a 3 9;",
    },
    Good {
        line: "client write -fill 0 -block 4294967295 -path s:a",
        asks: "write s:a 4294967295 0;",
    },
    Good {
        line: "client write -path s:a -count 3 -block 7 -fill 254",
        asks: "write s:a 7 254;write s:a 8 255;write s:a 9 0;",
    },
    Good {
        line: "client write -path s:a -block 4294967294 -count 0000000003 -fill 0000000255",
        asks: "write s:a 4294967294 255;write s:a 4294967295 0;write s:a 4294967296 1;",
    },
    Good {
        line: "client write -path s:a -block 0 -count 1 -fill 1",
        asks: "write s:a 0 1;",
    },
    Good {
        line: "client  write\t-path\ts:a   -block 1  -fill 2\t",
        asks: "write s:a 1 2;",
    },
    Good {
        line: "snapshot create -path s:a -snapshot a.b-c_1",
        asks: "snapshot s:a a.b-c_1 label=-;",
    },
    Good {
        line: "snapshot create -label daily.1-x -snapshot s1 -path s:a",
        asks: "snapshot s:a s1 label=daily.1-x;",
    },
    Good {
        line: "snapshot create -path s:a -snapshot snapmirror",
        asks: "snapshot s:a snapmirror label=-;",
    },
    Good {
        line: "snapshot create -path s:a -snapshot -path",
        asks: "snapshot s:a -path label=-;",
    },
    Good {
        line: "snapshot delete -path s:a -snapshot s1",
        asks: "delete s:a s1;",
    },
    Good {
        line: "snapshot delete -snapshot snapmirror.1.2 -path s:a",
        asks: "delete s:a snapmirror.1.2;",
    },
    Good {
        line: "snapshot show -path s:a",
        asks: "show s:a;",
    },
    Good {
        line: "lab clock -time 1970-01-01T00:00:00Z",
        asks: "clock 0;",
    },
    Good {
        line: "lab clock -time 1970-01-02T00:00:01Z",
        asks: "clock 86401;",
    },
    Good {
        line: "lab clock -time 2000-02-29T12:34:56Z",
        asks: "clock 951827696;",
    },
    Good {
        line: "lab clock -time 2001-09-09T01:46:40Z",
        asks: "clock 1000000000;",
    },
    Good {
        line: "lab clock -time 2026-12-31T23:59:59Z",
        asks: "clock 1798761599;",
    },
    Good {
        line: "lab clock -time 9999-12-31T23:59:59Z",
        asks: "clock 253402300799;",
    },
    Good {
        line: "lab cp -path s:a",
        asks: "cp s:a;",
    },
    Good {
        line: "lab read -path s:a -block 1",
        asks: "read s:a - 1;",
    },
    Good {
        line: "lab read -block 0001 -snapshot s1 -path s:a",
        asks: "read s:a s1 1;",
    },
    Good {
        line: "lab read -path s:a -snapshot snapmirror.1.2 -block 0",
        asks: "read s:a snapmirror.1.2 0;",
    },
    Good {
        line: "snapmirror policy create -policy m -type async-mirror",
        asks: "policy m async-mirror;",
    },
    Good {
        line: "snapmirror  policy\tcreate -type async-mirror -policy A_1",
        asks: "policy A_1 async-mirror;",
    },
    Good {
        line: "snapmirror policy add-rule -policy m -snapmirror-label all_source_snapshots -keep 1",
        asks: "rule m all_source_snapshots 1 false;",
    },
    Good {
        line: "snapmirror policy add-rule -preserve true -keep 0000000251 -snapmirror-label a.b-c_1 -policy m",
        asks: "rule m a.b-c_1 251 true;",
    },
    Good {
        line: "snapmirror policy add-rule -policy m -preserve false -snapmirror-label -keep -keep 4294967295",
        asks: "rule m -keep 4294967295 false;",
    },
    Good {
        line: "snapmirror policy add-rule -policy m -snapmirror-label daily -keep 0",
        asks: "rule m daily 0 false;",
    },
    Good {
        line: "snapmirror policy show",
        asks: "show policies;",
    },
    Good {
        line: "snapmirror create -source-path s:a -destination-path s:b -policy m",
        asks: "relate s:a s:b by m;",
    },
    Good {
        line: "snapmirror create -policy m -destination-path s:b -source-path s:a",
        asks: "relate s:a s:b by m;",
    },
    Good {
        line: "snapmirror create -source-path s:a -destination-path s:a -policy 1",
        asks: "relate s:a s:a by 1;",
    },
    Good {
        line: "\tsnapmirror \t show ",
        asks: "show relationships;",
    },
    Good {
        line: "# snapshot create",
        asks: "",
    },
    Good {
        line: " \t ",
        asks: "",
    },
];

fn kind_word(kind: PolicyKind) -> &'static str {
    match kind {
        PolicyKind::AsyncMirror => "async-mirror",
        PolicyKind::Vault => "vault",
    }
}

fn tell(told: &mut String, event: &Event) -> Result<(), Fail> {
    match event {
        Event::CreateVolume {
            path,
            disk: DiskNo(disk),
            kind,
            logical,
            physical,
        } => write!(
            told,
            "create {path} disk={disk} {kind} {logical}/{physical};"
        )?,
        Event::ShowVolumes => write!(told, "show volumes;")?,
        Event::Write { path, block, fill } => write!(told, "write {path} {block} {fill};")?,
        Event::Snap {
            path,
            name,
            label: Some(label),
        } => write!(told, "snapshot {path} {name} label={label};")?,
        Event::Snap {
            path,
            name,
            label: None,
        } => write!(told, "snapshot {path} {name} label=-;")?,
        Event::Unsnap { path, name } => write!(told, "delete {path} {name};")?,
        Event::ShowSnaps { path } => write!(told, "show {path};")?,
        Event::CreatePolicy { name, kind } => write!(told, "policy {name} {};", kind_word(*kind))?,
        Event::AddRule {
            name,
            label,
            keep,
            preserve,
        } => write!(told, "rule {name} {label} {keep} {preserve};")?,
        Event::ShowPolicies => write!(told, "show policies;")?,
        Event::Relate {
            source,
            destination,
            policy,
        } => write!(told, "relate {source} {destination} by {policy};")?,
        Event::ShowRelations => write!(told, "show relationships;")?,
        Event::Clock { time } => write!(told, "clock {time};")?,
        Event::Cp { path } => write!(told, "cp {path};")?,
        Event::Read {
            path,
            name: Some(name),
            block,
        } => write!(told, "read {path} {name} {block};")?,
        Event::Read {
            path,
            name: None,
            block,
        } => write!(told, "read {path} - {block};")?,
        _ => write!(told, "another event;")?,
    }
    Ok(())
}

/// The events of a command, of which none has more than eight here.
fn told(alloc: Global, command: &Command, told: &mut String) -> Result<(), Fail> {
    let down = Reply::Refused(Refusal::Down { disk: DiskNo(1) });
    for done in 0..9u32 {
        match command.next(alloc, done, Some(&down))? {
            Some(event) => tell(told, &event)?,
            None => break,
        }
    }
    Ok(())
}

/// With either end of a line, and with none; a node that is down ends no command of these.
#[test]
fn each_command_asks_for_its_events(rt: HostRuntime) -> Result<(), Fail> {
    for good in GOOD.iter() {
        for end in ["", "\n", "\r\n"] {
            let mut text = String::from_str(rt.alloc(), good.line)?;
            text.push_str(end)?;
            assert!(rt; text.len() < 1000);
            let script = read_script(rt.alloc(), text.as_bytes())?;
            let mut asks = String::new(rt.alloc());
            for command in script.commands() {
                assert_eq!(rt; command.line(), 1);
                told(rt.alloc(), command, &mut asks)?;
            }
            assert_eq!(rt; asks.as_str(), good.asks, "{}", good.line);
        }
    }
    Ok(())
}

/// All lines together, of which two ask for nothing.
#[test]
fn commands_have_the_numbers_of_their_lines(rt: HostRuntime) -> Result<(), Fail> {
    let mut text = String::from_str(rt.alloc(), "\n#\r\n")?;
    for good in GOOD.iter() {
        text.push_str(good.line)?;
        text.push_str("\r\n\n")?;
    }
    assert!(rt; text.len() < 10_000);
    let commands = read_script(rt.alloc(), text.as_bytes())?.into_commands();
    assert_eq!(rt; commands.len(), 39);
    let mut line = 3u32;
    for command in commands.iter() {
        assert_eq!(rt; command.line(), line);
        line = line.wrapping_add(2);
    }
    assert_eq!(rt; read_script(rt.alloc(), b"")?.commands().len(), 0);
    Ok(())
}

/// As many writes as a line may ask for.
#[test]
fn a_line_asks_for_at_most_4096_writes(rt: HostRuntime) -> Result<(), Fail> {
    let line = b"client write -path s:a -block 10 -count 4096 -fill 3";
    let script = read_script(rt.alloc(), line)?;
    assert_eq!(rt; script.commands().len(), 1);
    for command in script.commands() {
        let mut last = String::new(rt.alloc());
        match command.next(rt.alloc(), 4095, None)? {
            Some(event) => tell(&mut last, &event)?,
            None => panic!(rt; "no event"),
        }
        assert_eq!(rt; last.as_str(), "write s:a 4105 2;");
        assert!(rt; command.next(rt.alloc(), 4096, None)?.is_none());
    }
    Ok(())
}
