use crate::{Budget, frame_of, one_reading};
use std::test::Fail;

#[test]
fn frames_are_encoded(rt: HostRuntime) -> Result<(), Fail> {
    let frame = frame_of(rt.alloc(), 0x82, &[3])?;
    assert_eq!(rt; frame.as_slice(), [0x82, 0, 0, 0, 1, 3].as_slice());
    assert_eq!(rt; Budget::new(7).most, 7);
    one_reading(1, 1);
    Ok(())
}
