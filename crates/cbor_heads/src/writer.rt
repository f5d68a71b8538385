ghost use Rattle.std.specs.Prelude.{◌≡◌, ◌<◌, ◌^◌, ◌++◌, [], ◌∷◌, length, OnOk, OnErr, if◌then◌else◌};
ghost use Rattle.std.specs.Str.{IsUtf8};
ghost use Rattle.base_types.specs.Bytes.{IsBytes};
ghost use Rattle.cbor_heads.specs.Head.{head};

use base_types::{NoMemory, Octets, OrMemory};
use std::alloc::Global;
use std::marker::Model;

/// Encoded items that are being written, which contracts see as the bytes so far.
///
/// Each call puts its part behind them: a whole item without parts, the head that parts are to follow,
/// or a piece that is encoded already. It is refused for want of memory alone, and all is as before
/// then.
#[derive(Drop)]
pub struct Writer {
    out: Vec<u8>,
}

impl Model for Writer {
    ghost use Rattle.std.specs.Prelude.{List, ℕ};

    ghost Value = { List ℕ };

    ghost view = { λ w. w.out.items };
}

impl Writer {
    /// No bytes yet.
    pub fn new(alloc: Global) -> Writer
        ensures { result ≡ [] }
    {
        Writer {
            out: Vec::new(alloc),
        }
    }

    /// The bytes so far.
    pub fn as_slice(&self) -> &[u8]
        ensures { result.now ≡ self.now }
    {
        self.out.as_slice()
    }

    /// How many bytes there are so far.
    pub fn len(&self) -> usize
        ensures { result ≡ length self.now }
    {
        self.out.len()
    }

    /// All bytes, moved.
    pub fn into_octets(self) -> Octets
        ensures { result ≡ self }
    {
        let Writer { out } = self;
        Octets::from_vec(out)
    }

    /// Writes the unsigned integer n.
    pub fn unsigned(&mut self, n: u64) -> OrMemory<()>
        ensures written { OnOk result (self.new ≡ self.old ++ head 0 n) }
        ensures kept { OnErr result (self.new ≡ self.old) }
        ensures range { n < 2 ^ 64 }
    {
        push_head(&mut self.out, 0, n)
    }

    /// Writes the negative integer -1-n.
    pub fn negative(&mut self, n: u64) -> OrMemory<()>
        ensures written { OnOk result (self.new ≡ self.old ++ head 1 n) }
        ensures kept { OnErr result (self.new ≡ self.old) }
        ensures range { n < 2 ^ 64 }
    {
        push_head(&mut self.out, 1, n)
    }

    /// Writes a byte string.
    pub fn bytes(&mut self, bytes: &[u8]) -> OrMemory<()>
        ensures written { OnOk result (self.new ≡ self.old ++ (head 2 (length bytes.now) ++ bytes.now)) }
        ensures kept { OnErr result (self.new ≡ self.old) }
        ensures range { IsBytes bytes.now }
        ensures len { length bytes.now < 2 ^ 64 }
    {
        push_string(&mut self.out, 2, bytes)
    }

    /// Begins a byte string, which the next n bytes are the content of.
    pub fn bytes_head(&mut self, n: u64) -> OrMemory<()>
        ensures written { OnOk result (self.new ≡ self.old ++ head 2 n) }
        ensures kept { OnErr result (self.new ≡ self.old) }
        ensures range { n < 2 ^ 64 }
    {
        push_head(&mut self.out, 2, n)
    }

    /// Writes a text string.
    pub fn text(&mut self, text: &str) -> OrMemory<()>
        ensures written { OnOk result (self.new ≡ self.old ++ (head 3 (length text.now) ++ text.now)) }
        ensures kept { OnErr result (self.new ≡ self.old) }
        ensures range { IsUtf8 text.now }
        ensures len { length text.now < 2 ^ 64 }
    {
        push_string(&mut self.out, 3, text.as_bytes())
    }

    /// Begins an array, which the next n items are the members of.
    pub fn array(&mut self, n: u64) -> OrMemory<()>
        ensures written { OnOk result (self.new ≡ self.old ++ head 4 n) }
        ensures kept { OnErr result (self.new ≡ self.old) }
        ensures range { n < 2 ^ 64 }
    {
        push_head(&mut self.out, 4, n)
    }

    /// Begins a map, which the next n pairs of items are the keys and values of.
    pub fn map(&mut self, n: u64) -> OrMemory<()>
        ensures written { OnOk result (self.new ≡ self.old ++ head 5 n) }
        ensures kept { OnErr result (self.new ≡ self.old) }
        ensures range { n < 2 ^ 64 }
    {
        push_head(&mut self.out, 5, n)
    }

    /// Writes the tag n, which is put on the next item.
    pub fn tag(&mut self, n: u64) -> OrMemory<()>
        ensures written { OnOk result (self.new ≡ self.old ++ head 6 n) }
        ensures kept { OnErr result (self.new ≡ self.old) }
        ensures range { n < 2 ^ 64 }
    {
        push_head(&mut self.out, 6, n)
    }

    /// Writes false or true (RFC 8949, section 3.3).
    pub fn truth(&mut self, b: bool) -> OrMemory<()>
        ensures written { OnOk result (self.new ≡ self.old ++ (if b then 245 else 244) ∷ []) }
        ensures kept { OnErr result (self.new ≡ self.old) }
    {
        self.out.push(truth_byte(b))?;
        Ok(())
    }

    /// Writes null (RFC 8949, section 3.3).
    pub fn null(&mut self) -> OrMemory<()>
        ensures written { OnOk result (self.new ≡ self.old ++ 246 ∷ []) }
        ensures kept { OnErr result (self.new ≡ self.old) }
    {
        self.out.push(246)?;
        Ok(())
    }

    /// Writes bytes that are encoded already.
    pub fn piece(&mut self, bytes: &[u8]) -> OrMemory<()>
        ensures written { OnOk result (self.new ≡ self.old ++ bytes.now) }
        ensures kept { OnErr result (self.new ≡ self.old) }
    {
        self.out.extend_from_slice(bytes)?;
        Ok(())
    }
}

/// The one byte of false or true.
fn truth_byte(b: bool) -> u8
    ensures { result ≡ (if b then 245 else 244) }
{
    if b { 245 } else { 244 }
}

/// Puts two pieces behind the bytes, both or none.
fn push_both(out: &mut Vec<u8>, front: &[u8], behind: &[u8]) -> OrMemory<()>
    ensures written { OnOk result (out.new.items ≡ out.old.items ++ (front.now ++ behind.now)) }
    ensures kept { OnErr result (out.new.items ≡ out.old.items) }
{
    let before = out.len();
    out.extend_from_slice(front)?;
    if let Err(_) = out.extend_from_slice(behind) {
        out.truncate(before);
        return Err(NoMemory);
    }
    Ok(())
}

/// Writes the shortest head of a major type with an argument, or nothing.
#[tactic(auto, unfolding(crate::specs::Head::head))]
fn push_head(out: &mut Vec<u8>, major: u8, n: u64) -> OrMemory<()>
    requires { major < 8 }
    ensures written { OnOk result (out.new.items ≡ out.old.items ++ head major n) }
    ensures kept { OnErr result (out.new.items ≡ out.old.items) }
    ensures range { n < 2 ^ 64 }
{
    let first = 32 * major;
    if n < 24 {
        out.push(first + n as u8)?;
        return Ok(());
    }
    if n < 256 {
        out.extend_from_slice(&[first + 24, n as u8])?;
        return Ok(());
    }
    if n < 65536 {
        return push_both(out, &[first + 25], &(n as u16).to_be_bytes());
    }
    if n < 4294967296 {
        return push_both(out, &[first + 26], &(n as u32).to_be_bytes());
    }
    push_both(out, &[first + 27], &n.to_be_bytes())
}

/// Writes a head and the bytes that it announces, or nothing.
fn push_string(out: &mut Vec<u8>, major: u8, bytes: &[u8]) -> OrMemory<()>
    requires { major < 8 }
    ensures written { OnOk result (out.new.items ≡ out.old.items ++ (head major (length bytes.now) ++ bytes.now)) }
    ensures kept { OnErr result (out.new.items ≡ out.old.items) }
    ensures range { IsBytes bytes.now }
    ensures len { length bytes.now < 2 ^ 64 }
{
    let start = out.len();
    push_head(out, major, bytes.len() as u64)?;
    if let Err(_) = out.extend_from_slice(bytes) {
        out.truncate(start);
        return Err(NoMemory);
    }
    Ok(())
}
