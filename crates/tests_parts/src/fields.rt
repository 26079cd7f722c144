// Each kind of field, and the faults of reading.
use sm_base::Ident;
use sm_fields::{
    FieldFault, Reader, Writer, framed, read_head, read_identity, read_optional_identity,
    read_truth, write_optional_identity,
};
use std::test::Fail;

/// Each kind of field, one behind the other: a number of one byte, of four and of eight, a text, a
/// count, a truth value and an identity.
const FIELDS: [u8; 33] = [
    7, 0, 0, 1, 2, 0, 0, 0, 0, 0, 0, 3, 4, 2, 115, 49, 0, 0, 0, 255, 1, 0, 0, 0, 0, 0, 0, 0, 0, 0,
    0, 0, 2,
];

#[test]
fn fields_are_read(rt: HostRuntime) -> Result<(), Fail> {
    let mut reader = Reader::new(&FIELDS);
    assert_eq!(rt; reader.u8()?, 7);
    assert_eq!(rt; reader.u32()?, 258);
    assert_eq!(rt; reader.u64()?, 772);
    assert_eq!(rt; reader.text(64)?, b"s1".as_slice());
    assert_eq!(rt; reader.count(255)?, 255);
    assert_eq!(rt; read_truth(&mut reader)?, true);
    assert_eq!(rt; read_identity(&mut reader)?, Ident { origin: 0, seq: 2 });
    assert_eq!(rt; reader.end(), Ok(()));
    let mut reader = Reader::new(&FIELDS[20..]);
    assert_eq!(rt;
        read_optional_identity(&mut reader)?,
        Some(Ident { origin: 0, seq: 2 })
    );
    let mut reader = Reader::new(&FIELDS[21..]);
    assert_eq!(rt; read_optional_identity(&mut reader)?, None);
    Ok(())
}

#[test]
fn fields_are_written(rt: HostRuntime) -> Result<(), Fail> {
    let mut writer = Writer::new(rt.alloc());
    writer.u8(7)?;
    writer.u32(258)?;
    writer.u64(772)?;
    writer.text(64, b"s1")?;
    writer.count(255, 255)?;
    write_optional_identity(&mut writer, Some(Ident { origin: 0, seq: 2 }))?;
    assert_eq!(rt; writer.end().as_slice(), FIELDS.as_slice());
    Ok(())
}

#[test]
fn a_fault_names_the_first_byte(rt: HostRuntime) {
    let mut reader = Reader::new(&FIELDS);
    assert_eq!(rt; reader.count(257), Err(FieldFault { at: 0 }), "too much");
    assert_eq!(rt; reader.text(1), Err(FieldFault { at: 0 }), "too long");
    assert_eq!(rt;
        read_truth(&mut reader),
        Err(FieldFault { at: 0 }),
        "no truth value"
    );
    let mut cut = Reader::new(&FIELDS[..4]);
    assert_eq!(rt; cut.u8(), Ok(7));
    assert_eq!(rt; cut.u32(), Err(FieldFault { at: 1 }), "cut off");
    assert_eq!(rt; cut.u64(), Err(FieldFault { at: 1 }), "cut off");
    assert_eq!(rt; cut.end(), Err(FieldFault { at: 1 }), "bytes are left");
}

#[test]
fn a_record_has_its_head(rt: HostRuntime) -> Result<(), Fail> {
    let bytes = framed(rt.alloc(), b"SMROOT01", b"ab")?;
    assert_eq!(rt; bytes.as_slice(), b"SMROOT01\x00\x00\x00\x02ab".as_slice());
    let heads = [
        (b"SMROOT01", 2, Ok(())),
        (b"SMROOT02", 2, Err(FieldFault { at: 7 })),
        (b"SMROOT01", 3, Err(FieldFault { at: 8 })),
    ];
    for (magic, behind, want) in heads {
        assert_eq!(rt;
            read_head(&mut Reader::new(&FIELDS), magic, behind),
            Err(FieldFault { at: 0 })
        );
        assert!(rt; bytes.len() < 100);
        assert_eq!(rt; read_head(&mut Reader::new(&bytes), magic, behind), want);
    }
    Ok(())
}
