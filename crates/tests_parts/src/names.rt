// Names at the edges of their grammar.
use sm_base::{Label, NameFault, Path, Path1, SnapName};
use std::test::Fail;

/// Whether a text is a good path, part, label and snapshot name.
struct Case {
    text: &'static str,
    path: bool,
    part: bool,
    label: bool,
    name: bool,
}

const LONG: &str = "0123456789012345678901234567890123456789012345678901234567890123";

const CASES: [Case; 9] = [
    Case {
        text: "s:a",
        path: true,
        part: false,
        label: false,
        name: false,
    },
    Case {
        text: "s",
        path: false,
        part: true,
        label: true,
        name: true,
    },
    Case {
        text: "",
        path: false,
        part: false,
        label: false,
        name: false,
    },
    Case {
        text: "s:",
        path: false,
        part: false,
        label: false,
        name: false,
    },
    Case {
        text: "s:a:b",
        path: false,
        part: false,
        label: false,
        name: false,
    },
    Case {
        text: "a.b-c_1",
        path: false,
        part: false,
        label: true,
        name: true,
    },
    Case {
        text: "a b",
        path: false,
        part: false,
        label: false,
        name: false,
    },
    Case {
        text: "0123456789012345678901234567890",
        path: false,
        part: true,
        label: true,
        name: true,
    },
    Case {
        text: "01234567890123456789012345678901",
        path: false,
        part: true,
        label: false,
        name: true,
    },
];

#[test]
fn names_are_read_by_their_grammar(rt: HostRuntime) -> Result<(), Fail> {
    for case in CASES.iter() {
        let text = case.text.as_bytes();
        let path = Path::read(rt.alloc(), text);
        assert_eq!(rt; path.is_ok(), case.path);
        let part = Path1::read(rt.alloc(), text);
        assert_eq!(rt; part.is_ok(), case.part);
        let label = Label::read(rt.alloc(), text);
        assert_eq!(rt; label.is_ok(), case.label);
        let name = SnapName::read(rt.alloc(), text);
        assert_eq!(rt; name.is_ok(), case.name);
    }
    Ok(())
}

#[test]
fn a_part_has_at_most_64_bytes(rt: HostRuntime) -> Result<(), Fail> {
    let longest = format!(in rt.alloc(); "{LONG}:a")?;
    let longer = format!(in rt.alloc(); "{LONG}4:a")?;
    let path = Path::read(rt.alloc(), longest.as_bytes())?;
    assert_eq!(rt; path.copy(rt.alloc())?.text(), longest.as_bytes());
    let refused = Path::read(rt.alloc(), longer.as_bytes());
    assert_eq!(rt; refused.err(), Some(NameFault::BadName));
    Ok(())
}
