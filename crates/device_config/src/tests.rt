mod vectors;

use crate::{Config, ConfigFault, MountFault, image_of, load_config};
use base_types::{List, NoMemory, Octets};
use board_core::MemoryBoard;
use std::alloc::Global;
use std::test::Fail;
use vectors::CONFIG;

// The configuration with some of its bytes replaced.
fn changed(alloc: Global, from: usize, to: usize, bytes: &[u8]) -> Result<Octets, NoMemory> {
    let mut whole = Octets::from_slice(alloc, CONFIG.get(..from).unwrap_or(&[]))?;
    whole.extend(bytes)?;
    whole.extend(CONFIG.get(to..).unwrap_or(&[]))?;
    Ok(whole)
}

// What an image is loaded as, from a board whose calls of these numbers fail.
fn loaded(alloc: Global, image: &[u8], failing: &[u64]) -> Result<Config, MountFault> {
    let image = Octets::from_slice(alloc, image)?;
    let failing = List::from_vec(Vec::from_slice(alloc, failing).map_err(
        |_| MountFault::NoMemory,
    )?);
    let mut board = MemoryBoard::new(alloc, Octets::new(alloc), image, 1, failing)?;
    load_config(alloc, &mut board)
}

#[test]
fn each_field_of_a_configuration_is_read(rt: HostRuntime) -> Result<(), Fail> {
    let alloc = rt.alloc();
    let config = Config::read(alloc, &CONFIG)?;
    assert_eq!(rt; config.device.vendor.as_slice(), [0xaau8].as_slice());
    assert_eq!(rt; config.device.class.as_slice(), [0xbbu8].as_slice());
    assert_eq!(rt; config.device.device.as_slice(), [0x64u8].as_slice());
    assert_eq!(rt; config.quota, 16_384);
    let params = config.params;
    assert_eq!(rt; (params.levels, params.height, params.width), (1, 5, 8));
    assert_eq!(rt; config.key_seed.as_slice(), [0x33u8; 32].as_slice());
    assert_eq!(rt; config.anchors.manager.len(), 1);
    assert_eq!(rt; config.anchors.author.len(), 1);
    Ok(())
}

#[test]
fn a_field_out_of_its_range_is_no_configuration(rt: HostRuntime) -> Result<(), Fail> {
    let alloc = rt.alloc();
    let long = [0x58u8; 67];
    let mut vendor = long;
    vendor[1] = 0x41;
    let mut full = [0x58u8; 66];
    full[1] = 0x40;
    let mut seed = [0x33u8; 33];
    seed[0] = 0x58;
    seed[1] = 0x1f;
    // where the bytes stand, what stands there instead, and whether that is a configuration
    let table: [(usize, usize, &[u8], bool); 17] = [
        // vendor and device of no byte, of 65 and of 64
        (1, 3, &[0x40], false),
        (5, 7, &[0x40], false),
        (1, 3, &vendor, false),
        (5, 7, &vendor, false),
        (1, 3, &full, true),
        // a class that is no byte string
        (3, 5, &[0x61, 0x62], false),
        // quotas of 16,383, of 33,554,432 and of one more
        (7, 10, &[0x19, 0x3f, 0xff], false),
        (7, 10, &[0x1a, 0x02, 0, 0, 0], true),
        (7, 10, &[0x1a, 0x02, 0, 0, 1], false),
        // three levels, heights 6 and 10, widths 4 and 2
        (10, 11, &[3], false),
        (11, 12, &[6], false),
        (11, 12, &[10], true),
        (12, 13, &[4], true),
        (12, 13, &[2], false),
        // a seed of 31 bytes
        (13, 47, &seed, false),
        // no anchors, and a part more
        (47, 192, &[0x80], false),
        (0, 1, &[0x8a], false),
    ];
    for (at, (from, to, bytes, good)) in table.iter().enumerate() {
        let read = Config::read(alloc, changed(alloc, *from, *to, bytes)?.as_slice());
        let fault = read.err();
        let want = if *good {
            None
        } else {
            Some(ConfigFault::BadConfig)
        };
        assert_eq!(rt; fault, want, "row {at}");
    }
    Ok(())
}

#[test]
fn an_image_is_loaded_as_what_it_was_made_of(rt: HostRuntime) -> Result<(), Fail> {
    let alloc = rt.alloc();
    let config = Config::read(alloc, &CONFIG)?;
    let image = image_of(alloc, &config)?;
    let bytes = image.as_slice();
    assert_eq!(rt; bytes.len(), 65_536 + 16 + 2 * (2 * 16_384 + 65_536));
    assert_eq!(rt; &bytes[..16], b"TEEPIMG1\0\0\0\x01\0\0\0\xc0".as_slice());
    assert_eq!(rt; &bytes[16..208], CONFIG.as_slice());
    assert!(rt; loaded(alloc, bytes, &[])? == config);
    assert_eq!(rt;
        loaded(alloc, bytes, &[0]).err(),
        Some(MountFault::DiskFault)
    );
    let short = &bytes[..bytes.len() - 1];
    assert_eq!(rt; loaded(alloc, short, &[]).err(), Some(MountFault::BadImage));
    assert_eq!(rt; loaded(alloc, &[], &[]).err(), Some(MountFault::BadImage));
    Ok(())
}

#[test]
fn a_head_of_another_form_is_no_image(rt: HostRuntime) -> Result<(), Fail> {
    let alloc = rt.alloc();
    let config = Config::read(alloc, &CONFIG)?;
    let image = image_of(alloc, &config)?;
    // the mark, the layout, the length, a zero behind the configuration, and one at the end of the head
    for at in [0, 7, 11, 12, 15, 208, 65_535] {
        let mut bytes = Vec::from_slice(alloc, image.as_slice())?;
        if let Some(byte) = bytes.get_mut(at) {
            *byte ^= 1;
        }
        assert_eq!(rt;
            loaded(alloc, &bytes, &[]).err(),
            Some(MountFault::BadImage),
            "byte {at}"
        );
    }
    Ok(())
}
