ghost use Rattle.std.specs.Prelude.{IfOk};
ghost use Rattle.manifest_judge.specs.Openings.{IsFresh};

use base_types::{List, Octets, OrMemory, Utf8};
use device_config::Config;
use device_state::{ManifestRow, PartHead, RowHead};
use evidence::DeviceIds;
use hss_sign::KeyParams;
use hss_verify::HssPublic;
use manifest_judge::{Candidate, Entry, Verdict, Word};
use std::alloc::Global;
use std::test::Fail;
use suit_engine::{Env, Fetched};
use trust_anchors::Anchors;

pub(crate) const HELLO: [u8; 5] = [0x68, 0x65, 0x6c, 0x6c, 0x6f];

// What is kept of the component before: nothing; the manifest itself has it, with this number; another
// manifest has it.
#[derive(Clone, Copy)]
pub(crate) enum Kept {
    Nothing,
    Own(u64),
    Other,
}

// What a manifest comes to.
#[derive(Clone, Copy)]
pub(crate) enum Want<'a> {
    Passes,
    Needs(&'a str),
    Fails(Word),
}

// Pieces of an envelope, one behind the other.
pub(crate) fn joined(alloc: Global, pieces: &[&[u8]]) -> OrMemory<Octets> {
    let mut bytes = Octets::new(alloc);
    for piece in pieces {
        bytes.extend(piece)?;
    }
    Ok(bytes)
}

// A manifest with the identifier of one byte, which has the component `81 41 02`.
fn row(alloc: Global, id: u8, sequence: u64) -> OrMemory<RowHead> {
    let mut components = List::new(alloc);
    components.push(PartHead {
        id: Octets::from_slice(alloc, &[0x81, 0x41, 0x02])?,
        length: 5,
        digest: None,
    })?;
    Ok(RowHead {
        id: Octets::from_slice(alloc, &[0x81, 0x41, id])?,
        sequence,
        present: true,
        components,
    })
}

fn rows(alloc: Global, kept: Kept) -> OrMemory<List<RowHead>> {
    let mut rows = List::new(alloc);
    match kept {
        Kept::Nothing => {}
        Kept::Own(sequence) => rows.push(row(alloc, 1, sequence)?)?,
        Kept::Other => rows.push(row(alloc, 3, 9)?)?,
    }
    Ok(rows)
}

// The vendor is `aa`, the class `bb`, the device `64`.
fn device(alloc: Global) -> OrMemory<DeviceIds> {
    let vendor = Octets::from_slice(alloc, &[0xaa])?;
    let class = Octets::from_slice(alloc, &[0xbb])?;
    let device = Octets::from_slice(alloc, &[0x64])?;
    Ok(DeviceIds {
        vendor,
        class,
        device,
    })
}

// The key is an author's, or a manager's.
fn anchors(alloc: Global, author: &[u8], trusted: bool) -> Result<Anchors, Fail> {
    let mut keys = List::new(alloc);
    keys.push(HssPublic::read(author).ok_or("no public key")?)?;
    let none = List::new(alloc);
    Ok(if trusted {
        Anchors {
            manager: none,
            author: keys,
        }
    } else {
        Anchors {
            manager: keys,
            author: none,
        }
    })
}

fn config(alloc: Global, author: &[u8], trusted: bool) -> Result<Config, Fail> {
    let anchors = anchors(alloc, author, trusted)?;
    Ok(Config {
        device: device(alloc)?,
        quota: 16_384,
        params: KeyParams {
            levels: 1,
            height: 5,
            width: 8,
        },
        key_seed: Octets::new(alloc),
        anchors,
    })
}

// What becomes of an envelope before anything is run.
pub(crate) fn opened(
    alloc: Global,
    place: usize,
    bytes: &[u8],
    author: &[u8],
    trusted: bool,
    kept: Kept,
) -> Result<Entry, Fail>
    ensures { IfOk result IsFresh }
{
    let config = config(alloc, author, trusted)?;
    let rows = rows(alloc, kept)?;
    begun(alloc, place, bytes, &config, rows.as_slice())
}

fn begun(
    alloc: Global,
    place: usize,
    bytes: &[u8],
    config: &Config,
    rows: &[RowHead],
) -> Result<Entry, Fail>
    ensures { IfOk result IsFresh }
{
    Ok(Candidate::begin(alloc, place, bytes, config, rows)?)
}

// The word that comes before anything is run.
pub(crate) fn word_of(entry: &Entry) -> Option<Word> {
    match entry {
        Entry::Goes(_) => None,
        Entry::Fails(word) => Some(*word),
    }
}

// So many payloads of other URIs, and then one of this URI, where one is given, which failed where it has
// no bytes.
pub(crate) fn fetched(
    alloc: Global,
    others: u8,
    uri: &str,
    payload: Option<Option<&[u8]>>,
) -> Result<Env, Fail> {
    let mut env = List::new(alloc);
    for other in 0..others {
        let uri = Utf8::from_string(format!(in alloc; "http://h:2/{other}")?);
        env.push(Fetched { uri, bytes: None })?;
    }
    if let Some(payload) = payload {
        env.push(entry(alloc, uri, payload)?)?;
    }
    Ok(env)
}

pub(crate) fn entry(alloc: Global, uri: &str, payload: Option<&[u8]>) -> OrMemory<Fetched> {
    let uri = Utf8::from_str(alloc, uri)?;
    let bytes = match payload {
        Some(bytes) => Some(Octets::from_slice(alloc, bytes)?),
        None => None,
    };
    Ok(Fetched { uri, bytes })
}

// The row of the worked manifest: present, with its number, and `hello` with its digest.
fn is_worked(row: &ManifestRow) -> bool {
    let [component] = row.components.as_slice() else {
        return false;
    };
    row.id.as_slice() == [0x81, 0x41, 0x01].as_slice()
        && row.sequence == 7
        && row.present
        && component.id.as_slice() == [0x81, 0x41, 0x02].as_slice()
        && component.bytes.as_slice() == HELLO.as_slice()
        && component.digest.is_some()
}

pub(crate) fn is(verdict: &Verdict, want: Want<'_>) -> bool {
    match verdict {
        Verdict::Passes(row) => match want {
            Want::Passes => is_worked(row),
            _ => false,
        },
        Verdict::Needs(uri) => match want {
            Want::Needs(want) => uri.as_str() == want,
            _ => false,
        },
        Verdict::Fails(word) => match want {
            Want::Fails(want) => *word == want,
            _ => false,
        },
    }
}
