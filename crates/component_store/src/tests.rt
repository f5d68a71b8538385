mod samples;

ghost use Rattle.component_store.specs.Preparing.{IsReady};

use crate::{
    AnyStore, Change, LogStore, MountFault, PrepareFault, Prepared, Store, image_of, mount,
};
use base_types::{Failed, List, Octets, OrMemory};
use board_core::{Board, MemoryBoard};
use samples::{anchors, config, hello_digest, manifest, prepared, sevens};
use std::alloc::Global;
use std::test::Fail;

// A board with this image, whose calls of these numbers fail.
fn board_of(alloc: Global, image: Octets, failing: List<u64>) -> OrMemory<MemoryBoard> {
    MemoryBoard::new(alloc, Octets::new(alloc), image, 1, failing)
}

// The image of a new device.
fn new_image(alloc: Global) -> Result<Octets, Fail> {
    Ok(image_of(alloc, &config(alloc)?)?)
}

fn mounted(alloc: Global, board: &mut MemoryBoard) -> Result<LogStore, MountFault> {
    let AnyStore::Log(log) = mount(alloc, board)?;
    Ok(log)
}

// Whether what was prepared became durable.
fn made_durable(
    board: &mut MemoryBoard,
    store: &mut LogStore,
    prepared: Prepared,
) -> Result<bool, Fail>
    requires { IsReady store.old prepared }
{
    if board.size() != store.size {
        return Err(Failed.into());
    }
    Ok(store.commit(board, prepared).is_ok())
}

// Makes a change durable, or says why it was not prepared.
fn commit(
    alloc: Global,
    board: &mut MemoryBoard,
    store: &mut LogStore,
    change: &Change,
) -> Result<Option<PrepareFault>, Fail> {
    match prepared(alloc, store, change)? {
        Ok(prepared) => {
            if made_durable(board, store, prepared)? {
                Ok(None)
            } else {
                Err(Failed.into())
            }
        }
        Err(fault) => Ok(Some(fault)),
    }
}

// The change of the worked update: manifest 1 with component 2, which is `hello`.
fn update(alloc: Global, leaf: u64) -> OrMemory<Change> {
    let hello = Octets::from_slice(alloc, b"hello")?;
    let rows = manifest(alloc, 1, 2, hello, Some(hello_digest(alloc)?))?;
    Ok(Change {
        leaf,
        rows,
        anchors: None,
    })
}

// A leaf more, and nothing else.
fn leaf_alone(alloc: Global, leaf: u64) -> Change {
    Change {
        leaf,
        rows: List::new(alloc),
        anchors: None,
    }
}

// The leaf, the weight and the number of manifests.
fn told(store: &LogStore) -> (u64, u64, usize) {
    (store.leaf(), store.weight(), store.rows().len())
}

// What an image is mounted as.
fn told_of(alloc: Global, board: &mut MemoryBoard) -> Result<(u64, u64, usize), Fail> {
    Ok(told(&mounted(alloc, board)?))
}

// The image of component 2, or the word `none`.
fn second(alloc: Global, board: &mut MemoryBoard, store: &LogStore) -> Result<Octets, Fail> {
    if board.size() != store.size {
        return Err(Failed.into());
    }
    match store.image(alloc, board, &[0x81, 0x41, 2])? {
        Some(image) => Ok(image),
        None => Ok(Octets::from_slice(alloc, b"none")?),
    }
}

fn second_of(alloc: Global, board: &mut MemoryBoard) -> Result<Octets, Fail> {
    let store = mounted(alloc, board)?;
    second(alloc, board, &store)
}

fn updated(
    alloc: Global,
    board: &mut MemoryBoard,
    leaf: u64,
) -> Result<Option<PrepareFault>, Fail> {
    let mut store = mounted(alloc, board)?;
    update_to(alloc, board, &mut store, leaf)
}

fn update_to(
    alloc: Global,
    board: &mut MemoryBoard,
    store: &mut LogStore,
    leaf: u64,
) -> Result<Option<PrepareFault>, Fail> {
    let change = update(alloc, leaf)?;
    commit(alloc, board, store, &change)
}

#[test]
fn an_update_is_there_behind_a_restart(rt: HostRuntime) -> Result<(), Fail> {
    let alloc = rt.alloc();
    let mut board = board_of(alloc, new_image(alloc)?, List::new(alloc))?;
    assert_eq!(rt; told_of(alloc, &mut board)?, (0, 0, 0));
    assert_eq!(rt;
        second_of(alloc, &mut board)?.as_slice(),
        b"none".as_slice()
    );
    assert_eq!(rt; updated(alloc, &mut board, 1)?, None);
    assert_eq!(rt; told_of(alloc, &mut board)?, (1, 523, 1));
    assert_eq!(rt;
        second_of(alloc, &mut board)?.as_slice(),
        b"hello".as_slice()
    );
    Ok(())
}

// What comes of a component of so many bytes in a manifest of its own.
fn sized(
    alloc: Global,
    board: &mut MemoryBoard,
    store: &mut LogStore,
    size: usize,
) -> Result<Option<PrepareFault>, Fail> {
    let rows = manifest(alloc, 1, 2, sevens(alloc, size)?, None)?;
    let change = Change {
        leaf: 1,
        rows,
        anchors: None,
    };
    commit(alloc, board, store, &change)
}

// Whether a change of 15,866 bytes is taken and one of 15,867 refused.
fn is_filled(alloc: Global, board: &mut MemoryBoard, store: &mut LogStore) -> Result<bool, Fail> {
    let taken = sized(alloc, board, store, 15_866)?;
    let refused = sized(alloc, board, store, 15_867)?;
    Ok(taken == None && refused == Some(PrepareFault::Room))
}

// How many of so many rounds went so.
fn fill(
    alloc: Global,
    board: &mut MemoryBoard,
    store: &mut LogStore,
    rounds: u64,
) -> Result<u64, Fail> {
    let mut good: u64 = 0;
    for _ in 0..rounds {
        if is_filled(alloc, board, store)? {
            good = good.saturating_add(1);
        }
    }
    Ok(good)
}

fn filled(alloc: Global, board: &mut MemoryBoard, rounds: u64) -> Result<u64, Fail> {
    let mut store = mounted(alloc, board)?;
    fill(alloc, board, &mut store, rounds)
}

#[test]
fn the_quota_is_all_that_bounds_a_state(rt: HostRuntime) -> Result<(), Fail> {
    // 256 and 3 for the manifest, 256 and 3 for the component: 15,866 bytes are left of 16,384. Each change takes about 15,900 of
    // the 98,304 bytes of a half, so the seventh replaces the journal.
    let alloc = rt.alloc();
    let mut board = board_of(alloc, new_image(alloc)?, List::new(alloc))?;
    assert_eq!(rt; filled(alloc, &mut board, 8)?, 8);
    assert_eq!(rt; told_of(alloc, &mut board)?, (1, 16_384, 1));
    Ok(())
}

// What a stop leaves.
fn left(
    alloc: Global,
    board: &MemoryBoard,
    call: u64,
    mode: u8,
) -> Result<(u64, u64, usize), Fail> {
    if mode > 3 {
        return Err(Failed.into());
    }
    let (_, image) = board.crash(call, mode)?;
    told_of(alloc, &mut board_of(alloc, image, List::new(alloc))?)
}

// In how many modes a stop in this call leaves this state.
fn stops(
    alloc: Global,
    board: &MemoryBoard,
    call: u64,
    state: (u64, u64, usize),
) -> Result<u64, Fail> {
    let mut count: u64 = 0;
    for mode in 0..4 {
        if left(alloc, board, call, mode)? == state {
            count = count.saturating_add(1);
        }
    }
    Ok(count)
}

#[test]
fn a_commit_is_stopped_anywhere(rt: HostRuntime) -> Result<(), Fail> {
    let alloc = rt.alloc();
    // after no change the commit appends; behind six of 15,866 bytes it replaces the journal
    for (fill, old) in [(0, (0, 0, 0)), (6, (1, 16_384, 1))] {
        let mut board = board_of(alloc, new_image(alloc)?, List::new(alloc))?;
        assert_eq!(rt; filled(alloc, &mut board, fill)?, fill);
        assert_eq!(rt; updated(alloc, &mut board, 1)?, None);
        // the bytes and a sync, and then the gate or the selector and a sync, which makes it count in two of four modes
        let end = board.calls();
        for (back, want) in [
            (4, (4, 0)),
            (3, (4, 0)),
            (2, (2, 2)),
            (1, (2, 2)),
            (0, (0, 4)),
        ] {
            let call = end.saturating_sub(back);
            let counts = (
                stops(alloc, &board, call, old)?,
                stops(alloc, &board, call, (1, 523, 1))?,
            );
            assert_eq!(rt;
                counts,
                want,
                "{fill} changes and {back} calls from the end"
            );
        }
    }
    Ok(())
}

// Whether a mount and a commit of the update end well where the call of this number fails.
fn failing(alloc: Global, number: u64) -> Result<(bool, bool), Fail> {
    let mut numbers = List::new(alloc);
    numbers.push(number)?;
    let mut board = board_of(alloc, new_image(alloc)?, numbers)?;
    started(alloc, &mut board)
}

// Whether the board is mounted, or a fault is told as the disk's, and whether the update becomes durable.
fn started(alloc: Global, board: &mut MemoryBoard) -> Result<(bool, bool), Fail> {
    match mounted(alloc, board) {
        Ok(store) => durable(alloc, board, store),
        Err(fault) => Ok((false, fault == MountFault::DiskFault)),
    }
}

fn durable(
    alloc: Global,
    board: &mut MemoryBoard,
    mut store: LogStore,
) -> Result<(bool, bool), Fail> {
    let done = is_updated(alloc, board, &mut store)?;
    Ok((true, done))
}

fn is_updated(alloc: Global, board: &mut MemoryBoard, store: &mut LogStore) -> Result<bool, Fail> {
    match prepared(alloc, store, &update(alloc, 1)?)? {
        Ok(prepared) => made_durable(board, store, prepared),
        Err(_) => Ok(false),
    }
}

#[test]
fn a_failing_disk_is_told(rt: HostRuntime) -> Result<(), Fail> {
    // a sync, the head, the selector and a gate; and then two puts with a sync each
    let alloc = rt.alloc();
    for (number, want) in [
        (0, (false, true)),
        (3, (false, true)),
        (4, (true, false)),
        (5, (true, false)),
        (6, (true, false)),
        (7, (true, false)),
        (8, (true, true)),
    ] {
        assert_eq!(rt; failing(alloc, number)?, want, "{number}");
    }
    Ok(())
}

// Whether a leaf alone took four calls and at most 63 bytes of the journal.
fn is_small(
    alloc: Global,
    board: &mut MemoryBoard,
    store: &mut LogStore,
    leaf: u64,
) -> Result<bool, Fail> {
    let calls = board.calls().saturating_add(4);
    let used = store.held.journal.used().saturating_add(63);
    let done = commit(alloc, board, store, &leaf_alone(alloc, leaf))?;
    Ok(done == None && board.calls() == calls && store.held.journal.used() <= used)
}

// How many leaves up to this one were committed so.
fn count_small(
    alloc: Global,
    board: &mut MemoryBoard,
    store: &mut LogStore,
    last: u64,
) -> Result<u64, Fail> {
    let mut good: u64 = 0;
    for leaf in 1..=last {
        if is_small(alloc, board, store, leaf)? {
            good = good.saturating_add(1);
        }
    }
    Ok(good)
}

fn leaves_alone(alloc: Global, board: &mut MemoryBoard, last: u64) -> Result<u64, Fail> {
    let mut store = mounted(alloc, board)?;
    count_small(alloc, board, &mut store, last)
}

#[test]
fn a_leaf_alone_takes_two_syncs_and_few_bytes(rt: HostRuntime) -> Result<(), Fail> {
    let alloc = rt.alloc();
    let mut board = board_of(alloc, new_image(alloc)?, List::new(alloc))?;
    assert_eq!(rt; leaves_alone(alloc, &mut board, 32)?, 32);
    assert_eq!(rt; told_of(alloc, &mut board)?, (32, 0, 0));
    Ok(())
}

// The first byte of the manager's key that differs from key to key.
fn manager(store: &LogStore) -> Option<u8> {
    let key = store.config().anchors.manager.as_slice().first()?;
    key.bytes().get(12).copied()
}

fn manager_of(alloc: Global, board: &mut MemoryBoard) -> Result<Option<u8>, Fail> {
    Ok(manager(&mounted(alloc, board)?))
}

// Changes the anchors, and gives the manager's byte as it is told then.
fn change_anchors(
    alloc: Global,
    board: &mut MemoryBoard,
    store: &mut LogStore,
    fill: u8,
) -> Result<Option<u8>, Fail> {
    let change = Change {
        leaf: 1,
        rows: List::new(alloc),
        anchors: Some(anchors(alloc, fill)?),
    };
    match commit(alloc, board, store, &change)? {
        None => Ok(manager(store)),
        Some(_) => Ok(None),
    }
}

fn with_anchors(alloc: Global, board: &mut MemoryBoard, fill: u8) -> Result<Option<u8>, Fail> {
    let mut store = mounted(alloc, board)?;
    change_anchors(alloc, board, &mut store, fill)
}

#[test]
fn anchors_that_changed_are_there_behind_a_restart(rt: HostRuntime) -> Result<(), Fail> {
    let alloc = rt.alloc();
    let mut board = board_of(alloc, new_image(alloc)?, List::new(alloc))?;
    // new ones, others, these across a journal that is replaced, and the first ones again
    for (fill, rounds) in [(0x44, 0), (0x55, 0), (0x55, 7), (0x11, 7)] {
        assert_eq!(rt; with_anchors(alloc, &mut board, fill)?, Some(fill));
        assert_eq!(rt; filled(alloc, &mut board, rounds)?, rounds);
        assert_eq!(rt; manager_of(alloc, &mut board)?, Some(fill));
    }
    Ok(())
}
