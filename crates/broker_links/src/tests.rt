ghost use Rattle.std.specs.Prelude.{◌<◌};

use crate::{Connection, Dialer, MemoryDialer, MemorySpawner, Spawner};
use base_types::{List, Octets, OrMemory};
use http_link::Link;
use outside_core::Source;
use std::alloc::Global;
use std::test::Fail;

// The numbers of the calls that are to fail.
fn failing(alloc: Global, numbers: &[u64]) -> OrMemory<List<u64>> {
    let mut all = List::new(alloc);
    for number in numbers {
        all.push(*number)?;
    }
    Ok(all)
}

// A dialer with two connections, whose calls of these numbers are to fail.
fn dialer_of(alloc: Global, numbers: &[u64]) -> OrMemory<MemoryDialer> {
    let failing = failing(alloc, numbers)?;
    let mut inputs = List::new(alloc);
    inputs.push(Octets::from_slice(alloc, b"abc")?)?;
    inputs.push(Octets::from_slice(alloc, b"xy")?)?;
    MemoryDialer::new(alloc, inputs, 2, failing)
}

// A spawner whose calls of these numbers are to fail.
fn spawner_of(alloc: Global, numbers: &[u64]) -> OrMemory<MemorySpawner> {
    let failing = failing(alloc, numbers)?;
    MemorySpawner::new(alloc, Octets::from_slice(alloc, b"out")?, 2, failing)
}

// One call of a dialer.
#[derive(Clone, Copy)]
enum DialerCall {
    Dial(u16),
    Read,
    Write,
    Close,
}

// How many bytes a read gave, 0 for another call that worked, and None for one that failed.
fn dialed(dialer: &mut MemoryDialer, call: DialerCall) -> Option<usize> {
    let mut buf = [0u8; 4];
    match call {
        DialerCall::Dial(port) => dialer.dial("manager", port).is_ok().then_some(0),
        DialerCall::Read => dialer.read(&mut buf).ok(),
        DialerCall::Write => dialer.write(b"12345").is_ok().then_some(0),
        DialerCall::Close => {
            dialer.close();
            Some(0)
        }
    }
}

// Whether that connection was begun, to that port, and was written these bytes.
fn is_told(connection: Option<&Connection>, port: u16, written: &[u8]) -> bool {
    match connection {
        Some(it) => it.host() == "manager" && it.port() == port && it.written() == written,
        None => false,
    }
}

// How much was read of a connection, and whether a read and a write of it failed.
fn marks(connection: Option<&Connection>) -> Option<(usize, bool, bool)> {
    match connection {
        Some(it) => Some((it.taken(), it.read_failed(), it.write_failed())),
        None => None,
    }
}

#[test]
fn connections_come_in_order(rt: HostRuntime) -> Result<(), Fail> {
    let mut dialer = dialer_of(rt.alloc(), &[])?;
    let calls = [
        (DialerCall::Read, None),
        (DialerCall::Write, None),
        (DialerCall::Dial(80), Some(0)),
        (DialerCall::Read, Some(2)),
        (DialerCall::Write, Some(0)),
        (DialerCall::Dial(81), Some(0)),
        (DialerCall::Read, Some(2)),
        (DialerCall::Read, Some(0)),
        (DialerCall::Close, Some(0)),
        (DialerCall::Close, Some(0)),
        (DialerCall::Read, None),
        (DialerCall::Write, None),
        (DialerCall::Dial(82), None),
    ];
    for (call, want) in calls {
        assert!(rt; dialed(&mut dialer, call) == want);
    }
    assert!(rt; is_told(dialer.connection(0), 80, b"12345"));
    assert!(rt; is_told(dialer.connection(1), 81, b""));
    assert!(rt; dialer.written(2).is_none());
    Ok(())
}

#[test]
fn each_kind_of_call_fails_by_its_number(rt: HostRuntime) -> Result<(), Fail> {
    let mut dialer = dialer_of(rt.alloc(), &[1, 3, 4])?;
    let calls = [
        (DialerCall::Dial(80), Some(0)),
        (DialerCall::Dial(81), None),
        (DialerCall::Dial(82), Some(0)),
        (DialerCall::Read, None),
        (DialerCall::Write, None),
        (DialerCall::Read, Some(2)),
    ];
    for (call, want) in calls {
        assert!(rt; dialed(&mut dialer, call) == want);
    }
    assert!(rt; is_told(dialer.connection(0), 80, b""));
    assert!(rt; is_told(dialer.connection(1), 82, b"12"));
    assert!(rt; marks(dialer.connection(0)) == Some((0, false, false)));
    assert!(rt; marks(dialer.connection(1)) == Some((2, true, true)));
    Ok(())
}

// One call of a spawner.
#[derive(Clone, Copy)]
enum SpawnerCall {
    Start,
    Read,
    Write,
    Finish,
}

// How many bytes a read gave, 0 for another call that worked, and None for one that failed.
fn spawned(spawner: &mut MemorySpawner, call: SpawnerCall) -> Option<usize> {
    let mut buf = [0u8; 4];
    match call {
        SpawnerCall::Start => spawner.start("agent").is_ok().then_some(0),
        SpawnerCall::Read => spawner.read(&mut buf).ok(),
        SpawnerCall::Write => spawner.write(b"12345").is_ok().then_some(0),
        SpawnerCall::Finish => spawner.finish().is_ok().then_some(0),
    }
}

// Whether the agent was started and was written these bytes.
fn is_written(spawner: &MemorySpawner, want: &[u8]) -> bool {
    match (spawner.program(), spawner.written(0)) {
        (Some(program), Some(written)) => program == "agent" && written == want,
        _ => false,
    }
}

#[test]
fn a_child_is_started_once(rt: HostRuntime) -> Result<(), Fail> {
    let mut spawner = spawner_of(rt.alloc(), &[])?;
    let calls = [
        (SpawnerCall::Finish, None),
        (SpawnerCall::Read, None),
        (SpawnerCall::Write, None),
        (SpawnerCall::Start, Some(0)),
        (SpawnerCall::Start, None),
        (SpawnerCall::Write, Some(0)),
        (SpawnerCall::Read, Some(2)),
        (SpawnerCall::Finish, Some(0)),
        (SpawnerCall::Read, None),
        (SpawnerCall::Write, None),
        (SpawnerCall::Finish, None),
        (SpawnerCall::Start, None),
    ];
    for (call, want) in calls {
        assert!(rt; spawned(&mut spawner, call) == want);
    }
    assert!(rt; is_written(&spawner, b"12345"));
    assert!(rt; spawner.written(1).is_none());
    assert!(rt; spawner.finished() == Some(true));
    Ok(())
}

#[test]
fn a_failing_finish_ends_the_child(rt: HostRuntime) -> Result<(), Fail> {
    let mut spawner = spawner_of(rt.alloc(), &[0, 2, 3, 4])?;
    assert!(rt; spawner.program().is_none());
    let calls = [
        (SpawnerCall::Start, None),
        (SpawnerCall::Start, Some(0)),
        (SpawnerCall::Read, None),
        (SpawnerCall::Write, None),
        (SpawnerCall::Finish, None),
        (SpawnerCall::Read, None),
        (SpawnerCall::Finish, None),
    ];
    for (call, want) in calls {
        assert!(rt; spawned(&mut spawner, call) == want);
    }
    assert!(rt; is_written(&spawner, b"12"));
    assert!(rt; spawner.finished() == Some(false));
    Ok(())
}
