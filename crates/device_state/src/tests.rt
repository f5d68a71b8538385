use crate::{ComponentRow, ManifestRow, heads_weight, is_sound, put, rows_weight};
use base_types::{List, Octets, OrMemory};
use device_config::Config;
use evidence::DeviceIds;
use hss_sign::KeyParams;
use std::alloc::Global;
use std::test::Fail;
use suit_commands::{Digest, DigestAlgorithm};
use trust_anchors::Anchors;

// A component without a digest.
fn component(alloc: Global, id: &[u8], bytes: &[u8]) -> OrMemory<ComponentRow> {
    Ok(ComponentRow {
        id: Octets::from_slice(alloc, id)?,
        bytes: Octets::from_slice(alloc, bytes)?,
        digest: None,
    })
}

// A manifest that is present, with number 7.
fn row(alloc: Global, id: &[u8], components: List<ComponentRow>) -> OrMemory<ManifestRow> {
    Ok(ManifestRow {
        id: Octets::from_slice(alloc, id)?,
        sequence: 7,
        present: true,
        components,
    })
}

// A manifest with empty components of these identifiers.
fn row_of(alloc: Global, id: &[u8], components: &[&[u8]]) -> OrMemory<ManifestRow> {
    let mut list = List::new(alloc);
    for id in components {
        list.push(component(alloc, id, &[])?)?;
    }
    row(alloc, id, list)
}

// A configuration whose key has 32 leaves.
fn config(alloc: Global) -> Config {
    Config {
        device: DeviceIds {
            vendor: Octets::new(alloc),
            class: Octets::new(alloc),
            device: Octets::new(alloc),
        },
        quota: 16_384,
        params: KeyParams {
            levels: 1,
            height: 5,
            width: 8,
        },
        key_seed: Octets::new(alloc),
        anchors: Anchors {
            manager: List::new(alloc),
            author: List::new(alloc),
        },
    }
}

// Whether a device may be in this state.
fn judged(alloc: Global, leaf: u64, rows: &[ManifestRow]) -> OrMemory<bool> {
    is_sound(alloc, &config(alloc), leaf, rows)
}

#[test]
fn a_manifest_weighs_what_its_head_weighs(rt: HostRuntime) -> Result<(), Fail> {
    let alloc = rt.alloc();
    let mut components = List::new(alloc);
    components.push(component(alloc, &[0x81, 0x41, 2], b"hello")?)?;
    let row = row(alloc, &[0x81, 0x41, 1], components)?;
    let copy = row.copy(alloc)?;
    assert!(rt; copy == row);
    let head = row.head(alloc)?;
    assert_eq!(rt; head.sequence, 7);
    assert!(rt; head.present);
    assert_eq!(rt; head.components.len(), 1);
    for part in head.components.as_slice() {
        assert_eq!(rt; part.length, 5);
    }
    assert_eq!(rt; row.weight(), 523);
    assert_eq!(rt; head.weight(), 523);
    assert_eq!(rt; rows_weight(&[row, copy]), 1_046);
    assert_eq!(rt; heads_weight(&[head]), 523);
    Ok(())
}

#[test]
fn manifests_are_put_in_their_places(rt: HostRuntime) -> Result<(), Fail> {
    let alloc = rt.alloc();
    let mut rows: Vec<ManifestRow> = Vec::with_capacity(alloc, 4)?;
    put(&mut rows, row_of(alloc, &[2], &[])?);
    put(&mut rows, row_of(alloc, &[3], &[])?);
    put(&mut rows, row_of(alloc, &[1], &[])?);
    put(&mut rows, row_of(alloc, &[2], &[&[9]])?);
    // their identifiers, and for each whether it has components
    let mut found = Octets::new(alloc);
    for row in rows.iter() {
        found.extend(row.id.as_slice())?;
        found.push(u8::from(!row.components.is_empty()))?;
    }
    assert_eq!(rt; found.as_slice(), [1, 0, 2, 1, 3, 0].as_slice());
    Ok(())
}

#[test]
fn components_are_put_in_order(rt: HostRuntime) -> Result<(), Fail> {
    let alloc = rt.alloc();
    let table: [(&[&[u8]], &[u8]); 4] = [
        (&[], &[]),
        (&[&[1], &[2], &[3]], &[1, 2, 3]),
        (&[&[3], &[2], &[1]], &[1, 2, 3]),
        (&[&[2], &[3], &[1], &[2]], &[1, 2, 2, 3]),
    ];
    for (at, (given, want)) in table.iter().enumerate() {
        let row = row_of(alloc, &[], given)?.order();
        let mut ids = Octets::new(alloc);
        for component in row.components.as_slice() {
            ids.extend(component.id.as_slice())?;
        }
        assert_eq!(rt; ids.as_slice(), *want, "row {at}");
    }
    Ok(())
}

#[test]
fn a_state_is_judged_by_its_manifests(rt: HostRuntime) -> Result<(), Fail> {
    let alloc = rt.alloc();
    let table: [(&[u8], &[&[u8]], bool); 8] = [
        (&[0x81, 0x41, 1], &[&[0x81, 0x41, 2]], true),
        (
            &[0x81, 0x41, 1],
            &[&[0x81, 0x41, 1], &[0x82, 0x40, 0x41, 2]],
            true,
        ),
        // no component, and one twice
        (&[0x81, 0x41, 1], &[], false),
        (
            &[0x81, 0x41, 1],
            &[&[0x81, 0x41, 2], &[0x81, 0x41, 3], &[0x81, 0x41, 2]],
            false,
        ),
        // no array, an empty one, one of a text, and no item
        (&[0x41, 1], &[&[0x81, 0x41, 2]], false),
        (&[0x80], &[&[0x81, 0x41, 2]], false),
        (&[0x81, 0x41, 1], &[&[0x81, 0x61, 0x61]], false),
        (&[0x81, 0x41, 1], &[&[0x81, 0x41]], false),
    ];
    for (at, (id, components, want)) in table.iter().enumerate() {
        let row = row_of(alloc, id, components)?;
        assert_eq!(rt; judged(alloc, 0, &[row])?, *want, "row {at}");
    }
    Ok(())
}

// An identifier of one byte string, which has three bytes less: 24 to 252.
fn long_id(alloc: Global, string: u8) -> OrMemory<Octets> {
    let mut id = Octets::from_slice(alloc, &[0x81, 0x58, string])?;
    for _ in 0..string {
        id.push(0)?;
    }
    Ok(id)
}

#[test]
fn an_identifier_has_128_bytes_at_most(rt: HostRuntime) -> Result<(), Fail> {
    let alloc = rt.alloc();
    let short = row_of(alloc, &[0x81, 0x41, 1], &[&[0x81, 0x41, 2]])?;
    for (string, want) in [(125, true), (126, false)] {
        let mut named = short.copy(alloc)?;
        named.id = long_id(alloc, string)?;
        assert_eq!(rt; judged(alloc, 0, &[named])?, want, "manifest {string}");
        let mut components = List::new(alloc);
        components.push(component(alloc, long_id(alloc, string)?.as_slice(), &[])?)?;
        let row = row(alloc, &[0x81, 0x41, 1], components)?;
        assert_eq!(rt; judged(alloc, 0, &[row])?, want, "component {string}");
    }
    Ok(())
}

#[test]
fn so_many_components_belong_to_a_manifest(rt: HostRuntime) -> Result<(), Fail> {
    let alloc = rt.alloc();
    // how many, whether it is present, and whether that is a state
    let table: [(u8, bool, bool); 6] = [
        (0, true, false),
        (0, false, true),
        (1, true, true),
        (1, false, false),
        (16, true, true),
        (17, true, false),
    ];
    for (at, (count, present, want)) in table.iter().enumerate() {
        let mut components = List::new(alloc);
        for n in 0..*count {
            components.push(component(alloc, &[0x81, 0x41, n], &[])?)?;
        }
        let mut row = row(alloc, &[0x81, 0x41, 1], components)?;
        row.present = *present;
        assert_eq!(rt; judged(alloc, 0, &[row])?, *want, "row {at}");
    }
    Ok(())
}

#[test]
fn a_component_has_one_owner(rt: HostRuntime) -> Result<(), Fail> {
    let alloc = rt.alloc();
    // the components of two manifests, and whether that is a state
    let table: [(&[&[u8]], &[&[u8]], bool); 3] = [
        (
            &[&[0x81, 0x41, 1], &[0x81, 0x41, 2]],
            &[&[0x81, 0x41, 3]],
            true,
        ),
        (
            &[&[0x81, 0x41, 1], &[0x81, 0x41, 2]],
            &[&[0x81, 0x41, 3], &[0x81, 0x41, 1]],
            false,
        ),
        (&[&[0x81, 0x41, 1]], &[&[0x81, 0x41, 1]], false),
    ];
    for (at, (first, second, want)) in table.iter().enumerate() {
        let one = row_of(alloc, &[0x81, 0x41, 1], first)?;
        let two = row_of(alloc, &[0x81, 0x41, 2], second)?;
        assert_eq!(rt; judged(alloc, 32, &[one, two])?, *want, "row {at}");
    }
    assert!(rt; !judged(alloc, 33, &[])?);
    Ok(())
}

#[test]
fn a_digest_has_the_size_of_its_hash(rt: HostRuntime) -> Result<(), Fail> {
    let alloc = rt.alloc();
    let table: [(DigestAlgorithm, usize, bool); 6] = [
        (DigestAlgorithm::Sha256, 32, true),
        (DigestAlgorithm::Sha384, 48, true),
        (DigestAlgorithm::Sha512, 64, true),
        (DigestAlgorithm::Sha256, 31, false),
        (DigestAlgorithm::Sha384, 32, false),
        (DigestAlgorithm::Sha512, 65, false),
    ];
    for (at, (algorithm, size, want)) in table.iter().enumerate() {
        let bytes = [7u8; 65];
        let bytes = Octets::from_slice(alloc, bytes.get(..*size).unwrap_or(&[]))?;
        let mut part = component(alloc, &[0x81, 0x41, 2], b"hello")?;
        part.digest = Some(Digest {
            algorithm: *algorithm,
            bytes,
        });
        let mut components = List::new(alloc);
        components.push(part)?;
        let row = row(alloc, &[0x81, 0x41, 1], components)?;
        assert!(rt; row.copy(alloc)? == row, "row {at}");
        assert_eq!(rt; judged(alloc, 0, &[row])?, *want, "row {at}");
    }
    Ok(())
}
