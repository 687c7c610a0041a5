// The chunks of a form one after the other, each with its true size.
ghost use Rattle.std.specs.Prelude.{◌≡◌, ◌≤◌, ◌<◌, ◌+◌, ◌^◌, ℕ, List, IfOk, IfSome, OnOk, length};
ghost use Rattle.me_disk.specs.Causes.{Rose};
ghost use Rattle.me_disk.specs.Steps.{ReadsOnly};
ghost use Rattle.me_disk.specs.Holds.{Holds, Inside};
ghost use Rattle.me_disk.specs.Windows.{IsWindow};
ghost use Rattle.riff_form.specs.Walk.{InOrder};
ghost use Rattle.wave_file.specs.Sized.{StepsAt, TellsSize, count_found, place_found, state_next, state_of, times};

use me_disk::Depot;
use part_tree::{FourCc, NoMemory, ReadFault, Why};
use rf64_ds64::{Ds64, RowMissing};
use riff_form::{ChunkAt, Head, Walker};

/// Where the sizes of chunks stand: `ds64`, and the identifiers of the chunks so far whose sizes stand there.
#[derive(Debug, Drop)]
pub struct Sizing {
    pub ds64: Option<Ds64>,
    pub wides: Vec<FourCc>,
}

/// The size of a chunk's body in bytes, and whether it stands in `ds64`.
#[derive(Clone, Copy, Debug, PartialEq, Eq)]
pub struct Size {
    pub len: u64,
    pub wide: bool,
}

/// A chunk, and whether its size stands in `ds64`.
#[derive(Clone, Copy, Debug, PartialEq, Eq)]
pub struct Found {
    pub chunk: ChunkAt,
    pub wide: bool,
}

impl Sizing {
    // The size of the chunk with this header.
    fn size_of(&self, id: FourCc, field: u32) -> Result<Size, RowMissing>
        requires few { length self.now.wides.items < 2 ^ 32 }
        ensures { TellsSize self.now id field result }
    {
        let Some(ds) = &self.ds64 else {
            return Ok(Size {
                len: u64::from(field),
                wide: false,
            });
        };
        let nth = times_of(&self.wides, id);
        match ds.size_of(id, field, nth) {
            Err(fault) => Err(fault),
            Ok(len) => Ok(Size {
                len,
                wide: field == u32::MAX,
            }),
        }
    }

    // The next chunks are behind one of this identifier.
    fn pass(&mut self, id: FourCc, wide: bool) -> Result<(), NoMemory>
        ensures state { OnOk result (state_of self.new ≡ state_next wide id.0 (state_of self.old)) }
        ensures few { OnOk result (length self.new.wides.items ≤ length self.old.wides.items + 1) }
        ensures same { self.new.ds64 ≡ self.old.ds64 }
    {
        if !wide {
            return Ok(());
        }
        match self.wides.push(id) {
            Err(_) => Err(NoMemory),
            Ok(()) => Ok(()),
        }
    }
}

// How often an identifier is among others.
fn times_of(ids: &[FourCc], id: FourCc) -> u32
    requires { length ids.now < 2 ^ 32 }
    ensures { result ≡ times id.0 ids.now }
{
    let mut count = 0;
    'ids: for other in ids {
        if id.is(&other.0) {
            count += 1;
        }
    }
    count
}

/// Steps over the next chunk. None where fewer than eight bytes are left.
pub fn next_chunk<D: Depot>(
    walker: &mut Walker,
    sizing: &mut Sizing,
    depot: &mut D,
) -> Result<Option<Found>, ReadFault>
    requires inside { Inside walker.old.end (D.disk depot.old) }
    requires window { IsWindow (D.disk depot.old) walker.old.window }
    requires few { length sizing.old.wides.items < 2 ^ 32 }
    ensures steps { (b : List ℕ) → Holds (D.disk depot.old) b
        → StepsAt b walker.old.at walker.old.end sizing.old sizing.new result }
    ensures order { IfOk result (λ found. IfSome found (λ f. InOrder walker.old.at walker.old.end f.chunk)) }
    ensures moved { IfOk result (λ found. walker.new.at ≡ place_found walker.old.at found) }
    ensures end { walker.new.end ≡ walker.old.end }
    ensures window { IsWindow (D.disk depot.new) walker.new.window }
    ensures few { IfOk result (λ found. length sizing.new.wides.items
        ≤ length sizing.old.wides.items + count_found found) }
    ensures same { sizing.new.ds64 ≡ sizing.old.ds64 }
    ensures reads { ReadsOnly (D.disk depot.old) (D.disk depot.new) }
    ensures cause { result ≡ Err ReadFault.Depot → Rose (D.disk depot.old).faults (D.disk depot.new).faults }
{
    let head = match walker.head(depot) {
        Err(_) => return Err(ReadFault::Depot),
        Ok(None) => return Ok(None),
        Ok(Some(head)) => head,
    };
    let size = match sizing.size_of(head.id, head.field) {
        Err(fault) => return Err(ReadFault::Why(Why::RowMissing { id: fault.id })),
        Ok(size) => size,
    };
    let chunk = match walker.pass(head, size.len) {
        Err(fault) => return Err(ReadFault::Why(Why::Truncated { at: fault.at })),
        Ok(chunk) => chunk,
    };
    match sizing.pass(head.id, size.wide) {
        Err(_) => Err(ReadFault::Memory),
        Ok(()) => Ok(Some(Found {
            chunk,
            wide: size.wide,
        })),
    }
}
