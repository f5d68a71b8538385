ghost use Rattle.std.specs.Prelude.{◌<◌};

use crate::{Link, MemoryLink};
use base_types::{Failed, List, Octets, OrMemory};
use outside_core::Source;
use std::alloc::Global;
use std::test::Fail;

// A connection with this input, whose call of this number is to fail.
fn link_of(alloc: Global, input: &[u8], piece: usize, fails: u64) -> OrMemory<MemoryLink>
    requires { 0 < piece }
{
    let mut failing = List::new(alloc);
    failing.push(fails)?;
    MemoryLink::new(alloc, Octets::from_slice(alloc, input)?, piece, failing)
}

#[test]
fn the_input_comes_in_pieces(rt: HostRuntime) -> Result<(), Fail> {
    let mut link = link_of(rt.alloc(), b"hello", 2, 1)?;
    let mut buf = [0u8; 4];
    // the second read is the one that fails
    for want in [Ok(2), Err(Failed), Ok(2), Ok(1), Ok(0)] {
        assert_eq!(rt; link.read(&mut buf), want);
    }
    assert_eq!(rt; buf, *b"ol\0\0");
    Ok(())
}

#[test]
fn a_failing_write_stands_by_half(rt: HostRuntime) -> Result<(), Fail> {
    let mut link = link_of(rt.alloc(), b"", 1, 1)?;
    assert_eq!(rt; link.write(b"ab"), Ok(()));
    assert_eq!(rt; link.write(b"cdefg"), Err(Failed));
    assert_eq!(rt; link.write(b"h"), Ok(()));
    assert!(rt; link.written(0) == Some(b"abcdh"));
    assert!(rt; link.written(1).is_none());
    Ok(())
}
