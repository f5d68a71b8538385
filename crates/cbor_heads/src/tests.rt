use crate::{Fault, Head, Input, Kind, Why, Writer, read_head};
use base_types::OrMemory;
use std::alloc::Global;
use std::test::Fail;

// One call of each kind, with the greatest argument or borrowed parts.
fn write_all(alloc: Global) -> OrMemory<Writer> {
    let mut out = Writer::new(alloc);
    out.tag(18)?;
    out.array(4)?;
    out.bytes(&[7, 8])?;
    out.map(2)?;
    out.unsigned(u64::MAX)?;
    out.text("a")?;
    out.negative(0)?;
    out.truth(true)?;
    out.null()?;
    out.piece(&[0x41, 9])?;
    Ok(out)
}

#[test]
fn writes_a_structure_from_its_parts(rt: HostRuntime) -> Result<(), Fail> {
    let out = write_all(rt.alloc())?;
    // 18([h'0708', {2^64 - 1: "a", -1: true}, null, h'09'])
    let want: &[u8] = &[
        0xd2, 0x84, 0x42, 7, 8, 0xa2, 0x1b, 0xff, 0xff, 0xff, 0xff, 0xff, 0xff, 0xff, 0xff, 0x61,
        0x61, 0x20, 0xf5, 0xf6, 0x41, 9,
    ];
    assert_eq!(rt; out.as_slice(), want);
    assert_eq!(rt; out.len(), want.len());
    assert_eq!(rt; out.into_octets().as_slice(), want);
    Ok(())
}

#[test]
fn reads_heads_of_each_width(rt: HostRuntime) -> Result<(), Fail> {
    let rows: [(&[u8], Result<Head, Fault>); 6] = [
        (&[0x17], head(Kind::Unsigned, 23)),
        (&[0x58, 24], head(Kind::Bytes, 24)),
        (&[0x99, 1, 0], head(Kind::Array, 256)),
        (&[0xda, 0, 1, 0, 0], head(Kind::Tag, 65_536)),
        (&[0xf6], head(Kind::Simple, 22)),
        (
            &[0xbb, 0xff, 0xff],
            Err(Fault {
                at: 0,
                why: Why::CutHead,
            }),
        ),
    ];
    for (bytes, want) in rows {
        assert_eq!(rt; read_head(&mut Input::new(bytes)), want);
    }
    Ok(())
}

fn head(kind: Kind, argument: u64) -> Result<Head, Fault> {
    Ok(Head { kind, argument })
}

#[test]
fn passes_a_token_that_stands_there(rt: HostRuntime) -> Result<(), Fail> {
    let mut input = Input::new(b"null]");
    assert!(rt; !input.token(b"true") && input.token(b"null"));
    assert_eq!(rt; input.at(), 4);
    assert_eq!(rt; input.rest(), b"]".as_slice());
    Ok(())
}
