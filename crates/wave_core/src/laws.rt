ghost use Rattle.std.specs.Prelude.{◌≡◌};
ghost use Rattle.wave_core.specs.Ledger.{Ledger};
ghost use Rattle.wave_core.specs.Book.{StandsFor};
ghost use Rattle.wave_core.specs.Law.{OpenStays, RisesLowerNone, RiseInTurn, after_all};

use crate::book::WaveBook;
use crate::note::Note;
use base_types::List;

/// Where no number falls from one ledger to another, what is open over the first is open over the other.
/// A number that rises lowers none: no note closes what was open.
pub fn open_stays()
    ensures stays { OpenStays }
    ensures rises { RisesLowerNone }
{}

/// After every list of notes, each of a number that rises in the ledger as it then is, the book stands for
/// the ledger that they leave: `open` and `recorded` then answer by it. No memory is taken.
pub fn any_notes(book: &mut WaveBook, notes: &List<Note>)
    ensures waves { book.new.waves ≡ book.old.waves }
    ensures noted { (ledger : Ledger) → StandsFor book.old ledger → RiseInTurn ledger notes.now → StandsFor book.new (after_all ledger notes.now) }
{
    for note in notes.as_slice() {
        book.note(
            note.device.as_slice(),
            note.id.as_slice(),
            note.before,
            note.after,
        );
    }
}
