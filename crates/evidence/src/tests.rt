use crate::{DeviceIds, evidence_of};
use base_types::{NoMemory, Octets};
use std::alloc::Global;
use std::test::Fail;

// So many bytes.
fn field(alloc: Global, size: usize) -> Result<Octets, NoMemory> {
    let mut field = Octets::new(alloc);
    for _ in 0..size {
        field.push(7)?;
    }
    Ok(field)
}

#[test]
fn each_field_has_1_to_64_bytes(rt: HostRuntime) -> Result<(), Fail> {
    let alloc = rt.alloc();
    for size in 0..66 {
        let want = (1..=64).contains(&size);
        for (vendor, class, device) in [(size, 1, 1), (1, size, 1), (1, 1, size)] {
            let ids = DeviceIds {
                vendor: field(alloc, vendor)?,
                class: field(alloc, class)?,
                device: field(alloc, device)?,
            };
            assert_eq!(rt; ids.is_proper(), want, "sizes {vendor}, {class}, {device}");
        }
    }
    Ok(())
}

// The bytes of a field, one.
fn one(alloc: Global, byte: u8) -> Result<Octets, NoMemory> {
    let mut field = Octets::new(alloc);
    field.push(byte)?;
    Ok(field)
}

#[test]
fn evidence_is_who_a_device_is_and_what_it_was_asked(rt: HostRuntime) -> Result<(), Fail> {
    let alloc = rt.alloc();
    let ids = DeviceIds {
        vendor: one(alloc, 0xaa)?,
        class: one(alloc, 0xbb)?,
        device: one(alloc, 0x64)?,
    };
    let evidence = evidence_of(alloc, &ids, &[1, 2, 3, 4, 5, 6, 7, 8])?;
    let want = [
        0x85, 0x01, 0x41, 0x64, 0x41, 0xaa, 0x41, 0xbb, 0x48, 1, 2, 3, 4, 5, 6, 7, 8,
    ];
    assert_eq!(rt; evidence.as_slice(), want.as_slice());
    Ok(())
}
