// The top call.
ghost use Rattle.std.specs.Prelude.{◌≡◌, ◌⊎◌, ℕ, Bool, true, false, Err, IsTrue, IsSome};
ghost use Rattle.me_disk.specs.Causes.{Rose};
ghost use Rattle.me_disk.specs.Disk.{Image, read_as};
ghost use Rattle.me_disk.specs.Steps.{ReadsOnly};
ghost use Rattle.edit_journal.specs.Settled.{IsDamaged};
ghost use Rattle.me_report.specs.declared.line.Summary.{Summary};
ghost use Rattle.metaedit_top.specs.Answered.{AcceptsWords, AsksToMake, Because, Ends, EndsUnprinted, Finishes, FixesBy, IsOneAgain, MayStandOf, TakesTable, is_before_device, printed};
ghost use Rattle.metaedit_top.specs.Run.{OneImage};
ghost use Rattle.metaedit_top.specs.Tables.{reads_table};
ghost use Rattle.metaedit_top.specs.Words.{request};
ghost use Rattle.metaedit_top.specs.declared.outcome.Stop.TheVariants as stop;
ghost use Rattle.metaedit_top.specs.declared.outcome.UsageFault.{UsageFault};
ghost use Rattle.part_tree.specs.declared.field.Broken.{Broken};
ghost use Rattle.part_tree.specs.declared.why.Why.{Why};

use crate::carry::carry;
use crate::outcome::{Outcome, Stop};
use crate::table::{TableStop, with_edit};
use crate::word::Word;
use crate::words::{RequestFault, read_request};
use me_disk::{Depot, Sink, Source};
use std::alloc::Global;

/// Does all that the program does: reads the words and the table of an edit, settles the file that the depot holds after a
/// crash or makes one, does with it what the words ask for, and prints the report. The words are those behind the program's name.
///
/// What is said of the file, of causes, of counts and of the bytes that are written holds on every depot; what is said of
/// a crash, where what the depot reads as was its one image at entry. There `done` and `one_again` say together that a crash
/// behind the run leaves the new file alone.
pub fn metaedit<D: Depot, S: Source, K: Sink>(
    alloc: Global,
    words: &[Word],
    depot: &mut D,
    table: &mut S,
    out: &mut K,
) -> Outcome
    // Done: the new file stands there, with no journal beside it; it is the old one edited, so many bytes were written,
    // and the report is printed.
    ensures done { (s : Summary) → result ≡ Outcome.Done s
        → Ends words.now (S.left table.old) (D.disk depot.old) (D.disk depot.new) (K.contents out.old)
        (K.contents out.new) s }
    // What the command fixes of the summary holds on every depot.
    ensures fixes { (s : Summary) → result ≡ Outcome.Done s → FixesBy words.now s }

    // A crash at any moment since entry leaves what stands for the same as what stood there, or for the new file.
    ensures any_moment { OneImage (D.disk depot.old) → (i : Image) → (D.disk depot.new).since (D.disk depot.old).clock i
        → MayStandOf words.now (S.left table.old) (D.disk depot.old) i }
    ensures one_again { OneImage (D.disk depot.old) → IsOneAgain result (D.disk depot.new) }
    ensures damaged { IsTrue (D.disk depot.old).tells → IsDamaged (read_as (D.disk depot.old).slots)
        → ReadsOnly (D.disk depot.old) (D.disk depot.new) }
    ensures there { AsksToMake words.now → IsTrue (D.disk depot.old).tells → IsSome (D.disk depot.old).slots.main
        → ReadsOnly (D.disk depot.old) (D.disk depot.new) }

    // Each refusal has its cause, and leaves what stood there.
    ensures usage { (fault : UsageFault) → result ≡ Outcome.Usage fault → request words.now ≡ Err fault }
    ensures all_usage { (fault : UsageFault) → request words.now ≡ Err fault
        → (result ≡ Outcome.Usage fault) ⊎ (result ≡ Outcome.Memory) }
    ensures usage_alone { (fault : UsageFault) → request words.now ≡ Err fault → depot.new ≡ depot.old }
    ensures table_read { result ≡ Outcome.TableReadFault
        → (reads_table words.now ≡ true) × Rose (S.faults table.old) (S.faults table.new) }
    ensures table { TakesTable words.now (S.left table.old) (S.left table.new) result }
    ensures unread { reads_table words.now ≡ false → table.new ≡ table.old }
    ensures untouched { is_before_device result ≡ true → depot.new ≡ depot.old }
    ensures no_file { result ≡ Outcome.NoFile
        → Because words.now (S.left table.old) (D.disk depot.old) (D.disk depot.new) stop.NoFile }
    ensures file_there { result ≡ Outcome.FileThere
        → Because words.now (S.left table.old) (D.disk depot.old) (D.disk depot.new) stop.FileThere }
    ensures journal { (at : ℕ) → result ≡ Outcome.JournalDamaged at
        → Because words.now (S.left table.old) (D.disk depot.old) (D.disk depot.new) (stop.Damaged at) }
    ensures not_supported { (why : Why) → result ≡ Outcome.NotSupported why
        → Because words.now (S.left table.old) (D.disk depot.old) (D.disk depot.new) (stop.NotSupported why) }
    ensures rule_broken { (broken : Broken) → result ≡ Outcome.RuleBroken broken
        → Because words.now (S.left table.old) (D.disk depot.old) (D.disk depot.new) (stop.RuleBroken broken) }
    ensures too_large { (size limit : ℕ) → result ≡ Outcome.TooLarge size limit
        → Because words.now (S.left table.old) (D.disk depot.old) (D.disk depot.new) (stop.TooLarge size limit) }

    // A fault has its cause; a fault of the output leaves the new file.
    ensures depot_fault { (n : ℕ) → result ≡ Outcome.DepotFault n
        → (n ≡ (D.disk depot.new).faults)
        × Because words.now (S.left table.old) (D.disk depot.old) (D.disk depot.new) stop.Depot }
    ensures out_fault { (edited : Bool) → result ≡ Outcome.OutFault edited
        → Rose (K.faults out.old) (K.faults out.new)
        × EndsUnprinted words.now (S.left table.old) (D.disk depot.old) (D.disk depot.new) (K.contents out.old)
        (K.contents out.new) edited }
    ensures memory { result ≡ Outcome.Memory
        → (depot.new ≡ depot.old) ⊎ Because words.now (S.left table.old) (D.disk depot.old) (D.disk depot.new)
        stop.Memory }

    // Where nothing stands against it and nothing fails, the run comes to its end.
    ensures complete { AcceptsWords words.now (S.left table.old) (D.disk depot.old)
        → (Rose (D.disk depot.old).faults (D.disk depot.new).faults → ⊥)
        → (Rose (S.faults table.old) (S.faults table.new) → ⊥)
        → (Rose (K.faults out.old) (K.faults out.new) → ⊥) → Finishes result }

    ensures silent { printed result ≡ false → out.new ≡ out.old }
    ensures tells { (D.disk depot.new).tells ≡ (D.disk depot.old).tells }
{
    let asked = match read_request(alloc, words) {
        Err(RequestFault::Usage(fault)) => return Outcome::Usage(fault),
        Err(RequestFault::Memory) => return Outcome::Memory,
        Ok(asked) => asked,
    };
    let request = match with_edit(alloc, asked, table) {
        Err(TableStop::Read) => return Outcome::TableReadFault,
        Err(TableStop::Fault(fault)) => return Outcome::TableFault(fault),
        Err(TableStop::Memory) => return Outcome::Memory,
        Ok(request) => request,
    };
    match carry(alloc, depot, &request) {
        Ok(finished) => match out.write_all(finished.text.as_slice()) {
            Ok(()) => Outcome::Done(finished.summary),
            Err(_) => Outcome::OutFault {
                edited: finished.summary.changed,
            },
        },
        Err(Stop::Depot) => Outcome::DepotFault {
            faults: depot.faults(),
        },
        Err(Stop::NoFile) => Outcome::NoFile,
        Err(Stop::FileThere) => Outcome::FileThere,
        Err(Stop::Damaged { at }) => Outcome::JournalDamaged { at },
        Err(Stop::NotSupported(why)) => Outcome::NotSupported(why),
        Err(Stop::RuleBroken(broken)) => Outcome::RuleBroken(broken),
        Err(Stop::TooLarge { size, limit }) => Outcome::TooLarge { size, limit },
        Err(Stop::Memory) => Outcome::Memory,
    }
}
