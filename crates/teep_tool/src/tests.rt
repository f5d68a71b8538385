use crate::{MemoryHost, Named, run_tool};
use base_types::{FILE_LIMIT, List, NoMemory, Octets, Utf8};
use std::alloc::Global;
use std::test::Fail;
use std::thread::Threads;

// A file's name and its bytes.
struct Row(&'static str, &'static [u8]);

const FILES: [Row; 4] = [
    Row("item", &[0xa2, 0x01, 0x20, 0x61, 0x61, 0x81, 0xf5]),
    Row("long form", &[0x18, 0x05]),
    Row("two items", &[0x00, 0x00]),
    Row("empty", &[]),
];

// The files of the table.
fn files(alloc: Global) -> Result<List<Named>, NoMemory> {
    let mut files = List::new(alloc);
    for Row(name, bytes) in FILES.iter() {
        let name = Utf8::from_str(alloc, *name)?;
        let bytes = Octets::from_slice(alloc, *bytes)?;
        files.push(Named { name, bytes })?;
    }
    Ok(files)
}

// Runs the tool over these files, where the calls of these numbers fail: the status, and what was
// printed.
fn run<R: Threads + Sync + AllocGlobal>(
    rt: &R,
    words: &[&str],
    files: List<Named>,
    failing: &[u64],
) -> Result<(u8, Utf8), NoMemory> {
    let alloc = rt.alloc();
    let mut line = Vec::new(alloc);
    for word in words {
        line.push(String::from_str(alloc, word)?)?;
    }
    let failing = List::from_vec(Vec::from_slice(alloc, failing)?);
    let mut host = MemoryHost::new(alloc, files, failing);
    let status = run_tool(rt, alloc, &line, &mut host);
    let printed = Utf8::from_str(alloc, host.printed())?;
    Ok((status, printed))
}

#[test]
fn words_and_files_have_their_lines(rt: HostRuntime) -> Result<(), Fail> {
    let item = "{1: -1, \"a\": [true]}\n";
    let table: [(&[&str], &[u64], u8, &str); 13] = [
        (&["show", "item"], &[], 0, item),
        (&["show", "long form"], &[], 1, "refused: LongForm at 0\n"),
        (&["show", "two items"], &[], 1, "refused: Extra at 1\n"),
        (&["show", "empty"], &[], 1, "refused: CutHead at 0\n"),
        (&["show", "nothing"], &[], 3, ""),
        (&["show", "item"], &[0], 3, ""),
        (&["show", "item"], &[1], 3, ""),
        (&["show", "long form"], &[1], 3, ""),
        (&["show", "item"], &[2], 0, item),
        (&[], &[], 2, ""),
        (&["show"], &[], 2, ""),
        (&["show", "item", "item"], &[], 2, ""),
        (&["shows", "item"], &[], 2, ""),
    ];
    let alloc = rt.alloc();
    for (at, (words, failing, number, want)) in table.iter().enumerate() {
        let (status, printed) = run(&rt, words, files(alloc)?, failing)?;
        assert_eq!(rt; status, *number, "row {at}");
        assert_eq!(rt; printed.as_str(), *want, "row {at}");
    }
    Ok(())
}

#[test]
fn a_file_above_the_limit_is_not_shown(rt: HostRuntime) -> Result<(), Fail> {
    let alloc = rt.alloc();
    let mut files = List::new(alloc);
    files.push(Named {
        name: Utf8::from_str(alloc, "long")?,
        bytes: Octets::from_vec(vec![in alloc; 0u8; FILE_LIMIT + 1]?),
    })?;
    let (status, printed) = run(&rt, &["show", "long"], files, &[])?;
    assert_eq!(rt; status, 4);
    assert_eq!(rt; printed.as_str(), "");
    Ok(())
}

#[test]
fn a_host_in_memory_gives_its_files(rt: HostRuntime) -> Result<(), Fail> {
    let alloc = rt.alloc();
    let host = MemoryHost::new(alloc, files(alloc)?, List::new(alloc));
    for Row(name, bytes) in FILES.iter() {
        assert!(rt; host.file(*name) == Some(*bytes));
    }
    assert!(rt; host.file("nothing").is_none());
    assert_eq!(rt; host.printed(), "");
    Ok(())
}
