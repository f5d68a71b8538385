// What connections are dialed with.
ghost use Rattle.std.specs.Prelude.{◌≡◌, ℕ};
ghost use Rattle.base_types.specs.Causes.{HasCause};
ghost use Rattle.broker_links.specs.Dials.{Dials, DialsTo, Closes, ReadAlone, WroteAlone, stream_in};

use base_types::Failed;
use http_link::Link;

/// What connections are dialed with: one is open at a time, and it is the link.
///
/// A failed dial raises the count of failed reads and writes. A dialer that tells its contents tells one
/// record for each dial that was Ok, in order: the host and the port, the connection's input, what was
/// taken of it and written to it, and whether a read and whether a write of it failed while it was open.
/// The link's stream is that of the last record. Where no connection is open a read gives no bytes, and
/// a write of some bytes fails.
pub trait Dialer: Link {
    /// The connections that are closed, and the one that is open.
    ghost dials: { Self → Dials };

    /// Closes what is open, and opens a connection to that port of the host.
    ///
    /// `Failed` exactly where the count of failed calls rose in this call; no connection is open then,
    /// and none was begun. At Ok the connection is the last record: nothing of its input is taken, and
    /// nothing is written to it.
    fn dial(&mut self, host: &str, port: u16) -> Result<(), Failed>
        ensures cause { HasCause (Self.faults self.old) (Self.faults self.new) result }
        ensures contents { Self.told → DialsTo host.now port result (dials self.old) (dials self.new) };

    /// Closes what is open, and does nothing where nothing is. It never fails, and all records stay.
    fn close(&mut self)
        ensures steady { Self.faults self.new ≡ Self.faults self.old }
        ensures contents { Self.told → Closes (dials self.old) (dials self.new) };

    /// The link's stream is that of the last record.
    ghost streams: { (d : Self) → Self.told → Self.stream d ≡ stream_in (dials d) };

    /// Reads leave all records but what was taken of the open connection, and its mark of a failed read.
    ghost reads_keep: { (a b : Self) → Self.keeps a b → Self.told → ReadAlone (Self.faults a) (Self.faults b) (dials a) (dials b) };

    /// Writes leave all records but what was written to the open connection, and its mark of a failed write.
    ghost writes_keep: { (a b : Self) → Self.keeps_written a b → Self.told → WroteAlone (Self.faults a) (Self.faults b) (dials a) (dials b) };
}
