// Whole runs over blank disks: words and a script with what is written and the status.
use crate::program::{blank_disks, told};
use std::test::Fail;

struct Row {
    words: &'static str,
    script: &'static str,
    output: &'static str,
    status: u8,
}

const USAGE: &str = "usage: lab run|check|report|generate [--workers N] [--number N] [--history]\n";

const ROWS: &[Row] = &[
    // A snapshot's block reads back.
    Row {
        words: "lab",
        script: "\
volume create -path s:a -disk 1 -type rw -blocks 4 -physical 8
client write -path s:a -block 0 -fill 7
client write -path s:a -block 3 -fill 9
snapshot create -path s:a -snapshot s1
lab read -path s:a -snapshot s1 -block 3
lab read -path s:a -block 1
",
        output: "\
1: ok volume=0
2: ok
3: ok
4: ok id=0.2
5: ok fill=9
6: ok fill=0
report volumes=1 relationships=0 policies=0 clock=0
volume 0 s:a type=rw blocks=4 physical=8 used=2 snapshots=1
active 0 sha256=01666e1dd2d506db8a52e403fff8e7598978f1b585fbb4ca224aac329c7571bc
snapshot 0 s1 id=0.2 label=- time=0 made=client \
sha256=01666e1dd2d506db8a52e403fff8e7598978f1b585fbb4ca224aac329c7571bc
",
        status: 0,
    },
    // Nothing is asked for.
    Row {
        words: "lab run",
        script: "",
        output: "report volumes=0 relationships=0 policies=0 clock=0\n",
        status: 0,
    },
    // A report reads no script.
    Row {
        words: "lab report",
        script: "this is no script",
        output: "report volumes=0 relationships=0 policies=0 clock=0\n",
        status: 0,
    },
    // Comments and lines without a word are counted; blanks, tabs, the order of options and line ends are free.
    Row {
        words: "lab run --number 5",
        script: "# a comment\n\n \t \nlab\tclock   -time 1970-01-01T00:00:01Z \r\n\
\tclient write -fill 7 -block 0 -path s:a\n\
volume create -physical 2 -blocks 2 -type rw -disk 1 -path s:a\r\n\
client write -count 2 -path s:a -fill 255 -block 0\n\
lab read -block 1 -path s:a",
        output: "\
4: ok
5: refused NoVolume path=s:a
6: ok volume=0
7: ok
7: ok
8: ok fill=0
report volumes=1 relationships=0 policies=0 clock=1
volume 0 s:a type=rw blocks=2 physical=2 used=2 snapshots=0
active 0 sha256=4e72dddc8ec57b6b2138b6c76fe15217817a97147fea01d6dedea45f0a8f9b47
",
        status: 0,
    },
    // Each refusal that disks in memory allow, but that of a snapshot too many; refusals change nothing.
    Row {
        words: "lab",
        script: "\
volume create -path s:a -disk 1 -type rw -blocks 4 -physical 5
volume create -path s:b -disk 2 -type dp -blocks 4 -physical 4
client write -path s:a -block 0 -count 4 -fill 1
snapshot create -path s:a -snapshot s1 -label daily
lab clock -time 2026-01-01T00:00:00Z
client write -path s:a -block 0 -fill 9
volume create -path s:a -disk 3 -type rw -blocks 4 -physical 4
volume create -path s:c -disk 0 -type rw -blocks 4 -physical 4
volume create -path s:c -disk 33 -type rw -blocks 4 -physical 4
volume create -path s:c -disk 1 -type rw -blocks 4 -physical 4
client write -path s:c -block 0 -fill 0
client write -path s:b -block 0 -fill 0
client write -path s:a -block 4 -fill 0
client write -path s:a -block 1 -fill 0
snapshot create -path s:c -snapshot s2
snapshot create -path s:b -snapshot s2
snapshot create -path s:a -snapshot s1
snapshot delete -path s:c -snapshot s1
snapshot delete -path s:a -snapshot s2
snapshot show -path s:c
lab clock -time 2025-12-31T23:59:59Z
lab cp -path s:c
lab cp -path s:b
lab read -path s:c -block 0
lab read -path s:a -snapshot s2 -block 0
lab read -path s:a -snapshot s1 -block 4
",
        output: "\
1: ok volume=0
2: ok volume=1
3: ok
3: ok
3: ok
3: ok
4: ok id=0.2
5: ok
6: ok
7: refused NameTaken
8: refused NoDisk disk=0
9: refused NoDisk disk=33
10: refused DiskTaken
11: refused NoVolume path=s:c
12: refused ReadOnly
13: refused BadBlock
14: refused NoSpace
15: refused NoVolume path=s:c
16: refused ReadOnly
17: refused NameTaken
18: refused NoVolume path=s:c
19: refused NoSnapshot name=s2
20: refused NoVolume path=s:c
21: refused ClockBack now=1767225600
22: refused NoVolume path=s:c
23: refused ReadOnly
24: refused NoVolume path=s:c
25: refused NoSnapshot name=s2
26: refused BadBlock
report volumes=2 relationships=0 policies=0 clock=1767225600
volume 0 s:a type=rw blocks=4 physical=5 used=5 snapshots=1
active 0 sha256=b34afe5d6274c941f5bf2165180b1b40270f914eb523ab1aff9b81c4ad45b957
snapshot 0 s1 id=0.2 label=daily time=0 made=client \
sha256=9bb2c8a84e4db0480bd48fba3b04c2e49b82e28afd1dae5024fa40a07a1b0995
volume 1 s:b type=dp blocks=4 physical=4 used=0 snapshots=0
active 1 sha256=4fe7b59af6de3b665b67788cc2f99892ab827efae3a467342b3bb4e3bc8e5bfe
",
        status: 0,
    },
    // Labels, times, tables, a destination that takes no writes, a clock that does not go back.
    Row {
        words: "lab",
        script: "\
# a node with two volumes
volume create -path s:a -disk 1 -type rw -blocks 4 -physical 8
volume create -path s:b -disk 2 -type dp -blocks 4 -physical 8
client write -path s:a -block 0 -fill 7
snapshot create -path s:a -snapshot s1 -label daily
lab clock -time 2026-01-02T03:04:05Z
client write -path s:b -block 0 -fill 1
snapshot create -path s:a -snapshot s2
volume show
snapshot show -path s:a
snapshot delete -path s:a -snapshot s1
snapshot show -path s:a
lab clock -time 2026-01-01T00:00:00Z
lab cp -path s:b
lab cp -path s:a
",
        output: "\
2: ok volume=0
3: ok volume=1
4: ok
5: ok id=0.2
6: ok
7: refused ReadOnly
8: ok id=0.4
9: ok lines=2
  volume 0 s:a type=rw blocks=4 physical=8 used=1 snapshots=2
  volume 1 s:b type=dp blocks=4 physical=8 used=0 snapshots=0
10: ok lines=2
  snapshot 0 s1 id=0.2 label=daily time=0 made=client
  snapshot 0 s2 id=0.4 label=- time=1767323045 made=client
11: ok
12: ok lines=1
  snapshot 0 s2 id=0.4 label=- time=1767323045 made=client
13: refused ClockBack now=1767323045
14: refused ReadOnly
15: ok
report volumes=2 relationships=0 policies=0 clock=1767323045
volume 0 s:a type=rw blocks=4 physical=8 used=1 snapshots=1
active 0 sha256=3fd8965d15c528291e100d6577b7148b3da2b2280187cd9b2eea5cbb9f9f079f
snapshot 0 s2 id=0.4 label=- time=1767323045 made=client \
sha256=3fd8965d15c528291e100d6577b7148b3da2b2280187cd9b2eea5cbb9f9f079f
volume 1 s:b type=dp blocks=4 physical=8 used=0 snapshots=0
active 1 sha256=4fe7b59af6de3b665b67788cc2f99892ab827efae3a467342b3bb4e3bc8e5bfe
",
        status: 0,
    },
    // Policies and relationships, with what is refused of them.
    Row {
        words: "lab",
        script: "\
volume create -path s:a -disk 1 -type rw -blocks 256 -physical 512
volume create -path s:b -disk 2 -type dp -blocks 256 -physical 512
snapmirror policy create -policy m -type async-mirror
snapmirror create -source-path s:a -destination-path s:b -policy m
snapmirror show
snapmirror policy add-rule -policy m -snapmirror-label daily -keep 1
snapmirror policy add-rule -policy m -snapmirror-label all_source_snapshots -keep 2
snapmirror policy add-rule -policy m -snapmirror-label sm_created -keep 1
snapmirror policy add-rule -policy m -snapmirror-label all_source_snapshots -keep 1
snapmirror create -source-path s:a -destination-path s:b -policy m
snapmirror create -source-path s:b -destination-path s:a -policy m
",
        output: "\
1: ok volume=0
2: ok volume=1
3: ok
4: ok relationship=1
5: ok lines=1
  relationship 1 s:a s:b policy=m state=uninitialized status=idle base=- transfer=-
6: refused WrongRule
7: refused BadKeep
8: refused RuleTaken
9: ok
10: refused AlreadyDestination relationship=1
11: refused Cycle
report volumes=2 relationships=1 policies=1 clock=0
volume 0 s:a type=rw blocks=256 physical=512 used=0 snapshots=0
active 0 sha256=30e14955ebf1352266dc2ff8067e68104607e750abb9d3b36582b8af909fcb58
volume 1 s:b type=dp blocks=256 physical=512 used=0 snapshots=0
active 1 sha256=30e14955ebf1352266dc2ff8067e68104607e750abb9d3b36582b8af909fcb58
relationship 1 s:a s:b policy=m state=uninitialized status=idle base=- transfer=-
",
        status: 0,
    },
    // The history has a line of each entry, those of the report too.
    Row {
        words: "lab run --history",
        script: "\
volume create -path s:a -disk 1 -type rw -blocks 1 -physical 2
client write -path s:a -block 0 -count 2 -fill 255
volume show
lab read -path s:a -block 0
",
        output: "\
1: ok volume=0
2: ok
2: refused BadBlock
3: ok lines=1
  volume 0 s:a type=rw blocks=1 physical=2 used=1 snapshots=0
4: ok fill=255
report volumes=1 relationships=0 policies=0 clock=0
volume 0 s:a type=rw blocks=1 physical=2 used=1 snapshots=0
active 0 sha256=f47a8ec3e9aff2318d896942282ad4fe37d6391c82914f54a5da8a37de1300c6
entry 0 1 create volume ok volume=0
entry 0 2 write ok
entry 0 2 write refused BadBlock
entry 0 3 show volumes ok lines=1
entry 0 4 read ok fill=255
entry 0 0 head report volumes=1 relationships=0 policies=0 clock=0
entry 0 0 volume line volume 0 s:a type=rw blocks=1 physical=2 used=1 snapshots=0
entry 0 0 digest active 0 sha256=f47a8ec3e9aff2318d896942282ad4fe37d6391c82914f54a5da8a37de1300c6
",
        status: 0,
    },
    // Without the lines of entries where the mode has none.
    Row {
        words: "lab report --history",
        script: "",
        output: "report volumes=0 relationships=0 policies=0 clock=0\n",
        status: 0,
    },
    // The first bad line is named, and nothing is done.
    Row {
        words: "lab",
        script: "volume create -path s:a -disk 1 -type rw -blocks 4\n",
        output: "bad line 1 MissingOption\n",
        status: 3,
    },
    Row {
        words: "lab --history",
        script: "\
volume create -path s:a -disk 1 -type rw -blocks 4 -physical 8
client write -path s:a -block 0 -fill 7
client write -path s:a -block 1 -fill 7
client write -path s:a -block 2 -fill 7
snapshot cre",
        output: "bad line 5 UnknownCommand\n",
        status: 3,
    },
    // A command that is not built yet.
    Row {
        words: "lab",
        script: "volume show\n# then\nlab settle\n",
        output: "bad line 3 UnknownCommand\n",
        status: 3,
    },
    // Words that are no line of the command, or that ask for what is not built.
    Row {
        words: "lab check",
        script: "volume show",
        output: USAGE,
        status: 2,
    },
    Row {
        words: "lab run --workers 9",
        script: "volume show",
        output: USAGE,
        status: 2,
    },
    Row {
        words: "lab run --workers 1",
        script: "volume show",
        output: USAGE,
        status: 2,
    },
    Row {
        words: "lab --help",
        script: "volume show",
        output: USAGE,
        status: 2,
    },
    Row {
        words: "lab run run",
        script: "volume show",
        output: USAGE,
        status: 2,
    },
];

#[test]
fn runs_write_what_is_written_beside_them(rt: HostRuntime) -> Result<(), Fail> {
    for row in ROWS {
        let (output, status) = told(rt.alloc(), row.words, row.script, blank_disks(rt.alloc())?)?;
        assert_eq!(rt; output.as_str(), row.output, "of {}", row.words);
        assert_eq!(rt; status, row.status, "of {}", row.words);
    }
    Ok(())
}
