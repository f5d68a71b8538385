use crate::{Event, event_of, leaves_ascend, one_turn};
use base_types::Octets;
use std::test::Fail;

#[test]
fn frames_are_events(rt: HostRuntime) -> Result<(), Fail> {
    one_turn();
    leaves_ascend();
    let alloc = rt.alloc();
    let body = Octets::from_slice(alloc, &[9])?;
    let copy = body.try_clone(alloc)?;
    assert!(rt; event_of(1, body.try_clone(alloc)?) == Event::Message(copy));
    let copy = body.try_clone(alloc)?;
    assert!(rt; event_of(2, body.try_clone(alloc)?) == Event::Payload(copy));
    assert!(rt; event_of(3, Octets::new(alloc)) == Event::FetchFailed);
    assert!(rt; event_of(3, body) == Event::Strange);
    for kind in [0, 4, 255] {
        assert!(rt;
            event_of(kind, Octets::new(alloc)) == Event::Strange,
            "kind {kind}"
        );
    }
    Ok(())
}
