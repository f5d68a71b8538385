mod vectors;

use crate::{LoadFault, audit, audits_are_whole, findings_are_exact, listing, listings_ascend};
use base_types::{List, Octets, OrMemory, Utf8};
use board_core::MemoryBoard;
use component_store::{Config, image_of, mount};
use std::alloc::Global;
use std::test::Fail;
use vectors::{CHANGED, CONFIG, FIRST, REMOVED, TWO, WORKED};

// Where the first half of the journal begins: behind the head, and the selector and its free bytes.
const HALF_AT: usize = 65_552;

// An image with other bytes from this place on.
fn with_bytes(alloc: Global, image: &[u8], at: usize, bytes: &[u8]) -> OrMemory<Octets> {
    let (front, rest) = image.split_at(at.min(image.len()));
    let mut whole = Octets::from_slice(alloc, front)?;
    whole.extend(bytes)?;
    whole.extend(rest.get(bytes.len()..).unwrap_or(&[]))?;
    Ok(whole)
}

// Bodies of less than 256 bytes, each behind an open gate and its length.
fn framed(alloc: Global, bodies: &[&[u8]]) -> OrMemory<Octets> {
    let mut frames = Octets::new(alloc);
    for body in bodies {
        let size = u8::try_from(body.len()).unwrap_or(0);
        frames.extend(&[0xa5, 0, 0, 0, size])?;
        frames.extend(body)?;
    }
    Ok(frames)
}

// The image of a new device.
fn new_image(alloc: Global) -> Result<Octets, Fail> {
    let config = Config::read(alloc, &CONFIG)?;
    Ok(image_of(alloc, &config)?)
}

// A board with the image of a device whose journal has these bodies.
fn board_of(alloc: Global, bodies: &[&[u8]]) -> Result<MemoryBoard, Fail> {
    let frames = framed(alloc, bodies)?;
    let new = new_image(alloc)?;
    let image = with_bytes(alloc, new.as_slice(), HALF_AT, frames.as_slice())?;
    Ok(MemoryBoard::new(alloc, Octets::new(alloc), image, 1, List::new(alloc))?)
}

// The listing of what the board's image stands for.
fn listed(alloc: Global, board: &mut MemoryBoard) -> Result<Utf8, Fail> {
    let store = mount(alloc, board)?;
    Ok(listing(alloc, &store, board)?)
}

// The audit of it.
fn audited(alloc: Global, board: &mut MemoryBoard) -> Result<Utf8, Fail> {
    let store = mount(alloc, board)?;
    Ok(audit(alloc, &store, board)?)
}

#[test]
fn a_state_is_listed_and_audited(rt: HostRuntime) -> Result<(), Fail> {
    listings_ascend();
    audits_are_whole();
    findings_are_exact();
    let alloc = rt.alloc();
    // the bodies of the journal, the listing and the audit
    let table: [(&[&[u8]], &str, &str); 6] = [
        // a new device
        (&[], "", "audited 0 bad 0\n"),
        // a manifest with a component
        (
            &[&WORKED],
            "814101 7 present\n  814102 5 2cf24dba5fb0a30e26e83b2ac5b9e29e1b161e5c1fa7425e73043362938b9824\n",
            "814102 ok\naudited 1 bad 0\n",
        ),
        // a stored byte changed
        (
            &[&CHANGED],
            "814101 7 present\n  814102 5 fdd7585e08c4e2afd71dcabdb4636c89d557a3f42db9e2040c8bbd1708aa4ce7\n",
            "814102 bad\naudited 1 bad 1\n",
        ),
        // a row that keeps no digest
        (
            &[&FIRST],
            "814101 7 present\n  814102 5 2cf24dba5fb0a30e26e83b2ac5b9e29e1b161e5c1fa7425e73043362938b9824\n",
            "814102 unknown\naudited 1 bad 0\n",
        ),
        // removed
        (
            &[&WORKED, &REMOVED],
            "814101 7 removed\n",
            "audited 0 bad 0\n",
        ),
        // two manifests, of which the second comes first
        (
            &[&TWO],
            "814101 7 present\n  814105 0 e3b0c44298fc1c149afbf4c8996fb92427ae41e4649b934ca495991b7852b855\n814103 18446744073709551615 present\n  814102 3 b49f425a7e1f9cff3856329ada223f2f9d368f15a00cf48df16ca95986137fe8\n  814106 3 b49f425a7e1f9cff3856329ada223f2f9d368f15a00cf48df16ca95986137fe8\n",
            "814102 bad\n814105 unknown\n814106 ok\naudited 3 bad 1\n",
        ),
    ];
    for (at, (bodies, list, report)) in table.iter().enumerate() {
        let mut board = board_of(alloc, bodies)?;
        assert_eq!(rt; listed(alloc, &mut board)?.as_str(), *list, "row {at}");
        assert_eq!(rt; audited(alloc, &mut board)?.as_str(), *report, "row {at}");
    }
    Ok(())
}
