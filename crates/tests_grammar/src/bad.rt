// Bad lines, and what is wrong with them.
use sm_grammar::{LineKind, ScriptFault, read_script};
use std::alloc::Global;
use std::process::Abort;
use std::test::Fail;

/// Bad lines, and what is wrong with them.
struct Bad {
    kind: LineKind,
    lines: &'static [&'static str],
}

/// Each kind, by each test that finds it.
const BAD: [Bad; 10] = [
    Bad {
        kind: LineKind::BadByte,
        lines: &[
            "volume\x01show",
            "volume show\x7f",
            "lab cp -path s:\u{e4}",
            "lab cp\r -path s:a",
            "volume show\r\r",
            "\x0b",
        ],
    },
    Bad {
        kind: LineKind::UnknownCommand,
        lines: &[
            "volume",
            "create volume",
            "Volume show",
            "volumes show",
            "volume creates -path s:a",
            "volume -path s:a create",
            " # a comment",
            "-path s:a",
            "snapmirror",
            "snapmirror policy",
            "snapmirror policies show",
            "snapmirror policy delete -policy m",
            "snapmirror policy -policy m create",
            "policy create -policy m",
            "snapmirror add-rule -policy m",
            "snapmirror policy add_rule -policy m",
            "snapmirror initialize -destination-path s:a",
            "lab step -count 1",
            "lab settle",
            "lab restart",
        ],
    },
    Bad {
        kind: LineKind::UnknownOption,
        lines: &[
            "volume show all",
            "volume show -path s:a",
            "lab cp s:a",
            "lab cp -path s:a s:b",
            "lab cp -disk 1",
            "lab cp -Path s:a",
            "lab cp -path=s:a",
            "snapshot delete -label x",
            "client write -snapshot s1",
            "snapmirror policy show m",
            "snapmirror show -policy m",
            "snapmirror policy create m",
            "snapmirror policy create -keep 1",
            "snapmirror policy add-rule -type async-mirror",
            "snapmirror policy add-rule -label daily",
            "snapmirror create -path s:a",
            "snapmirror create -policy m async-mirror",
        ],
    },
    Bad {
        kind: LineKind::RepeatedOption,
        lines: &[
            "lab cp -path s:a -path s:a",
            "client write -count 1 -fill 1 -count 1",
            "snapshot create -label a -label b",
            "snapmirror policy create -policy m -policy m",
            "snapmirror policy add-rule -preserve false -keep 1 -preserve true",
            "snapmirror create -source-path s:a -destination-path s:a -source-path s:b",
        ],
    },
    Bad {
        kind: LineKind::MissingValue,
        lines: &[
            "lab cp -path",
            "lab cp -path \t ",
            "client write -path s:a -block 0 -fill",
            "lab clock -time",
            "volume create -type",
            "snapmirror policy create -type",
            "snapmirror policy add-rule -preserve",
            "snapmirror policy add-rule -snapmirror-label",
            "snapmirror create -source-path s:a -destination-path s:b -policy",
        ],
    },
    Bad {
        kind: LineKind::BadName,
        lines: &[
            "lab cp -path sa",
            "lab cp -path s:a:b",
            "lab cp -path s-1:a",
            "lab cp -path -path",
            "snapshot delete -snapshot a:b",
            "snapshot create -snapshot a/b",
            "snapshot create -snapshot snapmirror.",
            "snapshot create -snapshot snapmirror.1.1",
            "snapshot create -label a:b",
            "snapshot create -label aaaaaaaaaaaaaaaaaaaaaaaaaaaaaaaa",
            "snapmirror policy create -policy s:a",
            "snapmirror policy create -policy -type",
            "snapmirror policy create -policy a.b",
            "snapmirror policy create -policy aaaaaaaaaaaaaaaaaaaaaaaaaaaaaaaaaaaaaaaaaaaaaaaaaaaaaaaaaaaaaaaaa",
            "snapmirror policy add-rule -snapmirror-label a:b",
            "snapmirror policy add-rule -snapmirror-label aaaaaaaaaaaaaaaaaaaaaaaaaaaaaaaa",
            "snapmirror create -source-path a",
            "snapmirror create -destination-path s:a:b",
            "snapmirror create -policy a-b",
        ],
    },
    Bad {
        kind: LineKind::BadNumber,
        lines: &[
            "volume create -disk 4294967296",
            "volume create -disk 00000000001",
            "volume create -disk x",
            "volume create -blocks 0",
            "volume create -blocks 4097",
            "volume create -physical 0",
            "volume create -physical 16385",
            "client write -block -1",
            "client write -block +1",
            "client write -block 9999999999",
            "client write -fill 256",
            "client write -count 0",
            "client write -count 4097",
            "snapmirror policy add-rule -keep -1",
            "snapmirror policy add-rule -keep 4294967296",
            "snapmirror policy add-rule -keep -preserve",
        ],
    },
    Bad {
        kind: LineKind::BadTime,
        lines: &[
            "lab clock -time now",
            "lab clock -time 1969-12-31T23:59:59Z",
            "lab clock -time 2026-02-29T00:00:00Z",
            "lab clock -time 2026-13-01T00:00:00Z",
            "lab clock -time 2026-01-00T00:00:00Z",
            "lab clock -time 2026-01-01T24:00:00Z",
            "lab clock -time 2026-01-01T00:60:00Z",
            "lab clock -time 2026-01-01T00:00:60Z",
            "lab clock -time 2026-01-01t00:00:00Z",
            "lab clock -time 2026-01-01T00:00:00",
            "lab clock -time 2026-1-01T00:00:00Z",
            "lab clock -time 10000-01-01T00:00:00Z",
        ],
    },
    Bad {
        kind: LineKind::BadChoice,
        lines: &[
            "volume create -type vault",
            "volume create -type RW",
            "volume create -type async-mirror",
            "snapmirror policy create -type vault",
            "snapmirror policy create -type mirror-vault",
            "snapmirror policy create -type rw",
            "snapmirror policy create -type async_mirror",
            "snapmirror policy create -type -policy",
            "snapmirror policy add-rule -preserve yes",
            "snapmirror policy add-rule -preserve True",
            "snapmirror policy add-rule -preserve -keep",
        ],
    },
    Bad {
        kind: LineKind::MissingOption,
        lines: &[
            "lab cp",
            "client write -path s:a -block 0",
            "snapshot create -path s:a -label x",
            "volume create -path s:a -disk 1 -type rw -blocks 4",
            "snapmirror policy create",
            "snapmirror policy create -policy m",
            "snapmirror policy create -type async-mirror",
            "snapmirror policy add-rule -policy m -snapmirror-label daily",
            "snapmirror policy add-rule -policy m -keep 1 -preserve true",
            "snapmirror policy add-rule -snapmirror-label daily -keep 1",
            "snapmirror create",
            "snapmirror create -source-path s:a -policy m",
            "snapmirror create -destination-path s:a -policy m",
            "snapmirror create -source-path s:a -destination-path s:b",
        ],
    },
];

/// Two or more things are wrong with each of these: the first of the tests is named.
const BAD_TWICE: [Bad; 9] = [
    Bad {
        kind: LineKind::BadByte,
        lines: &["volumes\x01show", "lab cp -path s:a -path\x01"],
    },
    Bad {
        kind: LineKind::UnknownCommand,
        lines: &[
            "volumes show -path -path",
            "snapmirror policy policy create -type vault",
        ],
    },
    Bad {
        kind: LineKind::BadName,
        lines: &[
            "lab cp -path sa -disk 1",
            "lab cp -path sa -path s:a",
            "snapmirror policy create -policy s:a -type vault",
            "snapmirror policy add-rule -snapmirror-label a:b -keep x",
            "snapmirror create -destination-path sa -source-path sa -policy s:a -policy m",
        ],
    },
    Bad {
        kind: LineKind::UnknownOption,
        lines: &[
            "lab cp -disk 1 -path sa",
            "snapmirror policy create -keep x -type vault",
            "snapmirror policy add-rule -label a:b -preserve yes",
            "snapmirror show -policy",
        ],
    },
    Bad {
        kind: LineKind::RepeatedOption,
        lines: &[
            "lab cp -path s:a -path",
            "lab cp -path s:a -path sa",
            "volume create -physical 3 -blocks 4 -blocks 3",
            "snapmirror policy create -type async-mirror -type vault",
            "snapmirror policy add-rule -keep 1 -keep x",
            "snapmirror create -policy m -policy",
        ],
    },
    Bad {
        kind: LineKind::BadNumber,
        lines: &[
            "client write -fill 256 -block",
            "client write -count 0 -label x",
            "volume create -blocks 0 -type vault -path sa",
            "volume create -blocks 4 -physical 3",
            "snapmirror policy add-rule -keep x -preserve yes",
            "snapmirror policy add-rule -keep 4294967296 -keep 1",
        ],
    },
    Bad {
        kind: LineKind::MissingValue,
        lines: &[
            "client write -block 0 -fill",
            "volume create -physical 3 -blocks 4 -type",
            "snapmirror policy create -type",
            "snapmirror policy add-rule -policy m -preserve",
        ],
    },
    Bad {
        kind: LineKind::BadChoice,
        lines: &[
            "volume create -type vault -blocks 0 -path sa",
            "volume create -physical 3 -blocks 4 -type vault",
            "snapmirror policy create -type vault -policy s:a",
            "snapmirror policy add-rule -preserve yes -preserve true",
            "snapmirror policy add-rule -preserve yes -keep x -label daily",
        ],
    },
    Bad {
        kind: LineKind::MissingOption,
        lines: &[
            "volume create -physical 4 -blocks 4",
            "snapmirror policy add-rule -keep 0",
        ],
    },
];

fn fault(line: u32, kind: LineKind) -> Option<ScriptFault> {
    Some(ScriptFault::BadLine { line, kind })
}

/// The line as the first one and behind others, and before a line that is bad in another way.
fn is_named<R: AllocGlobal + Abort>(rt: &R, line: &str, kind: LineKind) -> Result<(), Fail> {
    let before = "# a \x01 comment\r\n \t\n\tlab  cp -path\ts:a \r\n";
    for (front, number) in [("", 1), (before, 4)] {
        for end in [
            "\n",
            "\r\n",
            "\nvolume create\n",
            "\r\nlab cp -path -path\n",
        ] {
            let mut text = String::from_str(rt.alloc(), front)?;
            text.push_str(line)?;
            text.push_str(end)?;
            assert!(rt; text.len() < 1000);
            let read = read_script(rt.alloc(), text.as_bytes());
            assert_eq!(rt; read.err(), fault(number, kind), "{line}");
        }
    }
    Ok(())
}

fn are_named<R: AllocGlobal + Abort>(rt: &R, table: &[Bad]) -> Result<(), Fail> {
    for bad in table {
        for line in bad.lines {
            is_named(rt, line, bad.kind)?;
        }
    }
    Ok(())
}

#[test]
fn each_kind_is_named_at_its_first_place(rt: HostRuntime) -> Result<(), Fail> {
    are_named(&rt, &BAD)
}

#[test]
fn of_two_causes_the_first_test_is_named(rt: HostRuntime) -> Result<(), Fail> {
    are_named(&rt, &BAD_TWICE)
}

/// A line of so many bytes: a command, and blanks behind it.
fn long_line(alloc: Global, command: &str, bytes: usize) -> Result<String, Fail> {
    let mut line = String::from_str(alloc, command)?;
    for _ in command.len()..bytes {
        line.push(' ')?;
    }
    Ok(line)
}

/// The end of a line is no byte of it; a comment and a line without a word may have any length.
#[test]
fn a_line_has_at_most_1024_bytes(rt: HostRuntime) -> Result<(), Fail> {
    for command in [
        "volume show",
        "volumes show",
        "volume\x01show",
        "# show",
        "",
    ] {
        for end in ["", "\n", "\r\n"] {
            for bytes in [1024, 1025] {
                let mut line = long_line(rt.alloc(), command, bytes)?;
                line.push_str(end)?;
                assert!(rt; line.len() < 2000);
                let wanted = match command {
                    "" | "# show" => None,
                    _ if bytes > 1024 => fault(1, LineKind::TooLong),
                    "volume show" => None,
                    "volumes show" => fault(1, LineKind::UnknownCommand),
                    _ => fault(1, LineKind::BadByte),
                };
                let read = read_script(rt.alloc(), line.as_bytes());
                assert_eq!(rt; read.err(), wanted, "{command} {bytes}");
            }
        }
    }
    Ok(())
}

/// A carriage return is part of a line's end before a line feed alone.
#[test]
fn a_carriage_return_stands_before_a_line_feed(rt: HostRuntime) -> Result<(), Fail> {
    for (text, line) in [
        ("volume show\r", 1),
        ("volume show\r\r\n", 1),
        ("volume show\rvolume show\n", 1),
        ("\r", 1),
        ("\r\n\r\n\r", 3),
        ("volume show\r\n\n\r\r\n", 3),
    ] {
        let read = read_script(rt.alloc(), text.as_bytes());
        assert_eq!(rt; read.err(), fault(line, LineKind::BadByte), "{line}");
    }
    for text in [
        "volume show\r\n\r\n",
        "\r\n",
        "#\r",
        "volume show\n\r\nvolume show",
    ] {
        assert_eq!(rt; read_script(rt.alloc(), text.as_bytes()).err(), None);
    }
    Ok(())
}
