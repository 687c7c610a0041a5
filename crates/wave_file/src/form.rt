// The whole file: its form, its sizes and all its chunks.
ghost use Rattle.std.specs.Prelude.{◌≡◌, ◌≤◌, ◌<◌, ◌^◌, [], ℕ, List, IfOk, OnOk, length};
ghost use Rattle.me_disk.specs.Causes.{Rose};
ghost use Rattle.me_disk.specs.Steps.{ReadsOnly};
ghost use Rattle.me_disk.specs.Holds.{Holds, Inside};
ghost use Rattle.me_disk.specs.Windows.{IsWindow};
ghost use Rattle.wave_file.specs.Map.{IsSound, ReadsWave};
ghost use Rattle.wave_file.specs.Form.{IsFront, IsSoundPart, ReadsChunks, ReadsEnd, ReadsForm, ReadsFront, ReadsSizes, kind_from, size_by};
ghost use Rattle.wave_file.specs.Reads.{Begins, IsForm, IsFresh, IsPartial};

use crate::chunk::{Reading, take_chunk};
use crate::map::WaveMap;
use crate::range::{RangeFault, read_range};
use crate::sizing::{Sizing, next_chunk};
use me_disk::{Depot, Slot};
use part_tree::{Fields, FourCc, Kind, Part, ReadFault, Role, Span, Why};
use rf64_ds64::{Ds64, Ds64Fault, read_ds64};
use riff_form::Walker;
use std::alloc::Global;

const MOST_BYTES: u64 = 16_777_216;

/// The first bytes of a form of type WAVE: its kind, whether its sizes stand in `ds64`, and its own size.
#[derive(Clone, Copy, Debug, PartialEq, Eq)]
pub struct Front {
    pub kind: Kind,
    pub big: bool,
    pub field: u32,
}

/// All that is read of the chunks of a form.
#[derive(Debug, Drop)]
pub struct AllRead {
    pub parts: Vec<Part>,
    pub fields: Fields,
    pub sound: Span,
    pub align: u16,
}

// Reads the first bytes of a form of type WAVE.
fn read_front<D: Depot>(depot: &mut D, len: u64) -> Result<Front, ReadFault>
    requires whole { (b : List ℕ) → Holds (D.disk depot.old) b → len ≡ length b }
    ensures front { (b : List ℕ) → Holds (D.disk depot.old) b → ReadsFront b result }
    ensures least { OnOk result (12 ≤ len) }
    ensures reads { ReadsOnly (D.disk depot.old) (D.disk depot.new) }
    ensures cause { result ≡ Err ReadFault.Depot → Rose (D.disk depot.old).faults (D.disk depot.new).faults }
{
    if len < 12 {
        return Err(ReadFault::Why(Why::UnknownKind));
    }
    let mut bytes = [0u8; 12];
    match depot.read_at(Slot::Main, 0, &mut bytes) {
        Err(_) => return Err(ReadFault::Depot),
        Ok(()) => {}
    }
    let id = FourCc([bytes[0], bytes[1], bytes[2], bytes[3]]);
    let word = FourCc([bytes[8], bytes[9], bytes[10], bytes[11]]);
    let bw64 = id.is(b"BW64");
    let big = id.is(b"RF64") | bw64;
    if (id.is(b"RIFF") | big) & word.is(b"WAVE") {
        let field = u32::from_le_bytes([bytes[4], bytes[5], bytes[6], bytes[7]]);
        let kind = kind_by(big, bw64);
        return Ok(Front { kind, big, field });
    }
    Err(ReadFault::Why(Why::UnknownKind))
}

// Reads `ds64`, which stands first in the form.
fn read_sizes<D: Depot>(alloc: Global, depot: &mut D, len: u64) -> Result<Ds64, ReadFault>
    requires whole { (b : List ℕ) → Holds (D.disk depot.old) b → len ≡ length b }
    requires small { len < 2 ^ 63 }
    ensures sizes { (b : List ℕ) → Holds (D.disk depot.old) b → ReadsSizes b result }
    ensures reads { ReadsOnly (D.disk depot.old) (D.disk depot.new) }
    ensures cause { result ≡ Err ReadFault.Depot → Rose (D.disk depot.old).faults (D.disk depot.new).faults }
{
    if len < 20 {
        return Err(ReadFault::Why(Why::NoDs64));
    }
    let mut bytes = [0u8; 8];
    match depot.read_at(Slot::Main, 12, &mut bytes) {
        Err(_) => return Err(ReadFault::Depot),
        Ok(()) => {}
    }
    let id = FourCc([bytes[0], bytes[1], bytes[2], bytes[3]]);
    if !id.is(b"ds64") {
        return Err(ReadFault::Why(Why::NoDs64));
    }
    let size = u64::from(u32::from_le_bytes([bytes[4], bytes[5], bytes[6], bytes[7]]));
    if size > MOST_BYTES {
        return Err(ReadFault::Why(Why::CarrierBig {
            id: FourCc(*b"ds64"),
            len: size,
        }));
    }
    if size > len - 20 {
        return Err(ReadFault::Why(Why::ShortDs64 { len: size }));
    }
    let body = match read_range(alloc, depot, Span { at: 20, len: size }) {
        Err(RangeFault::Depot) => return Err(ReadFault::Depot),
        Err(RangeFault::Memory) => return Err(ReadFault::Memory),
        Ok(body) => body,
    };
    match read_ds64(alloc, body.as_slice()) {
        Err(Ds64Fault::Short { len: _ }) => Err(ReadFault::Why(Why::ShortDs64 { len: size })),
        Err(Ds64Fault::Memory) => Err(ReadFault::Memory),
        Ok(ds) => Ok(ds),
    }
}

// The sizes of a form that has them in `ds64`.
fn read_ds<D: Depot>(
    alloc: Global,
    depot: &mut D,
    len: u64,
    big: bool,
) -> Result<Option<Ds64>, ReadFault>
    requires whole { (b : List ℕ) → Holds (D.disk depot.old) b → len ≡ length b }
    requires small { len < 2 ^ 63 }
    ensures sizes { (b : List ℕ) → Holds (D.disk depot.old) b → ReadsForm b big result }
    ensures reads { ReadsOnly (D.disk depot.old) (D.disk depot.new) }
    ensures cause { result ≡ Err ReadFault.Depot → Rose (D.disk depot.old).faults (D.disk depot.new).faults }
{
    if !big {
        return Ok(None);
    }
    match read_sizes(alloc, depot, len) {
        Err(fault) => Err(fault),
        Ok(ds) => Ok(Some(ds)),
    }
}

// Where a form ends, in a file of this length.
fn form_end(field: u32, ds64: &Option<Ds64>, len: u64) -> Option<u64>
    requires { 12 ≤ len }
    ensures { ReadsEnd field ds64.now len result }
{
    let size = size_of(field, ds64);
    if size < 4 {
        return None;
    }
    if size > len - 8 {
        return None;
    }
    Some(8 + size)
}

// The size of a form: its own, or that of `ds64` where that is FFFFFFFF.
fn size_of(field: u32, ds64: &Option<Ds64>) -> u64
    ensures { result ≡ size_by field ds64.now }
{
    match ds64 {
        None => u64::from(field),
        Some(ds) => {
            if field == u32::MAX {
                ds.riff
            } else {
                u64::from(field)
            }
        }
    }
}

// Passes `ds64`, where the form has it.
fn begin<D: Depot>(
    reading: &mut Reading,
    walker: &mut Walker,
    sizing: &mut Sizing,
    depot: &mut D,
) -> Result<(), ReadFault>
    requires inside { Inside walker.old.end (D.disk depot.old) }
    requires window { IsWindow (D.disk depot.old) walker.old.window }
    requires starts { walker.old.at ≡ 12 }
    requires fresh { IsFresh reading.old sizing.old }
    ensures begins { (b : List ℕ) → Holds (D.disk depot.old) b → IsForm b sizing.old.ds64 walker.old.end
        → Begins b reading.new walker.new.at walker.new.end sizing.new result }
    ensures partial { OnOk result (IsPartial reading.new walker.new.at) }
    ensures few { OnOk result (length sizing.new.wides.items ≤ reading.new.count) }
    ensures end { walker.new.end ≡ walker.old.end }
    ensures window { IsWindow (D.disk depot.new) walker.new.window }
    ensures same { sizing.new.ds64 ≡ sizing.old.ds64 }
    ensures reads { ReadsOnly (D.disk depot.old) (D.disk depot.new) }
    ensures cause { result ≡ Err ReadFault.Depot → Rose (D.disk depot.old).faults (D.disk depot.new).faults }
{
    match &sizing.ds64 {
        None => return Ok(()),
        Some(_) => {}
    }
    let found = match next_chunk(walker, sizing, depot) {
        Err(fault) => return Err(fault),
        Ok(None) => return Ok(()),
        Ok(Some(found)) => found,
    };
    reading.count = 1;
    let part = Part {
        id: found.chunk.id,
        at: found.chunk.at,
        body: found.chunk.body,
        next: found.chunk.next,
        role: Role::Sizes,
    };
    match reading.parts.push(part) {
        Err(_) => Err(ReadFault::Memory),
        Ok(()) => Ok(()),
    }
}

// Reads the chunks of a form.
fn read_chunks<D: Depot>(
    alloc: Global,
    depot: &mut D,
    sizing: &mut Sizing,
    end: u64,
) -> Result<AllRead, ReadFault>
    requires inside { Inside end (D.disk depot.old) }
    requires least { 12 ≤ end }
    requires small { end < 2 ^ 63 }
    requires fresh { sizing.old.wides.items ≡ [] }
    ensures chunks { (b : List ℕ) → Holds (D.disk depot.old) b → IsForm b sizing.old.ds64 end → ReadsChunks b result }
    ensures sound { IfOk result (λ r. IsSoundPart r end) }
    ensures same { sizing.new.ds64 ≡ sizing.old.ds64 }
    ensures reads { ReadsOnly (D.disk depot.old) (D.disk depot.new) }
    ensures cause { result ≡ Err ReadFault.Depot → Rose (D.disk depot.old).faults (D.disk depot.new).faults }
{
    let mut reading = Reading {
        count: 0,
        parts: Vec::new(alloc),
        fields: Fields::new(alloc),
        align: None,
        sound: None,
        has_bext: false,
    };
    let mut walker = Walker::new(12, end);
    match begin(&mut reading, &mut walker, sizing, depot) {
        Err(fault) => return Err(fault),
        Ok(()) => {}
    }
    'chunks: loop {
        let found = match next_chunk(&mut walker, sizing, depot) {
            Err(fault) => return Err(fault),
            Ok(None) => break,
            Ok(Some(found)) => found,
        };
        match take_chunk(&mut reading, alloc, depot, &found) {
            Err(fault) => return Err(fault),
            Ok(()) => {}
        }
    }
    let Some(align) = reading.align else {
        return Err(ReadFault::Why(Why::NoFmt));
    };
    let Some(sound) = reading.sound else {
        return Err(ReadFault::Why(Why::NoData));
    };
    Ok(AllRead {
        parts: reading.parts,
        fields: reading.fields,
        sound,
        align,
    })
}

// The map of the form that was read.
fn read_form<D: Depot>(
    alloc: Global,
    depot: &mut D,
    len: u64,
    front: Front,
) -> Result<WaveMap, ReadFault>
    requires whole { (b : List ℕ) → Holds (D.disk depot.old) b → len ≡ length b }
    requires small { len < 2 ^ 63 }
    requires least { 12 ≤ len }
    ensures wave { (b : List ℕ) → Holds (D.disk depot.old) b → IsFront b front → ReadsWave b result }
    ensures sound { IfOk result (λ map. IsSound map) }
    ensures reads { ReadsOnly (D.disk depot.old) (D.disk depot.new) }
    ensures cause { result ≡ Err ReadFault.Depot → Rose (D.disk depot.old).faults (D.disk depot.new).faults }
{
    let ds64 = match read_ds(alloc, depot, len, front.big) {
        Err(fault) => return Err(fault),
        Ok(ds64) => ds64,
    };
    let end = match form_end(front.field, &ds64, len) {
        None => return Err(ReadFault::Why(Why::Truncated { at: 0 })),
        Some(end) => end,
    };
    let mut sizing = Sizing {
        ds64,
        wides: Vec::new(alloc),
    };
    let all = match read_chunks(alloc, depot, &mut sizing, end) {
        Err(fault) => return Err(fault),
        Ok(all) => all,
    };
    Ok(WaveMap {
        len,
        kind: front.kind,
        form_end: end,
        ds64: sizing.ds64,
        parts: all.parts,
        fields: all.fields,
        sound: all.sound,
        align: all.align,
    })
}

// The kind of a form: whether its sizes stand in `ds64`, and whether it is BW64.
fn kind_by(big: bool, bw64: bool) -> Kind
    ensures { result ≡ kind_from big bw64 }
{
    if !big {
        return Kind::Wave;
    }
    if bw64 { Kind::Bw64 } else { Kind::Rf64 }
}

/// Reads a WAVE, RF64 or BW64 file: its map, or the first reason for which it is refused, with its place. The depot is only read.
/// `Depot` only where the count of the depot's faults rose. Whatever the depot, a map is sound: its ranges lie inside the
/// length, its parts ascend, and its fields are lawful.
pub fn read_wave<D: Depot>(alloc: Global, depot: &mut D) -> Result<WaveMap, ReadFault>
    ensures wave { (b : List ℕ) → Holds (D.disk depot.old) b → ReadsWave b result }
    ensures sound { IfOk result (λ map. IsSound map) }
    ensures reads { ReadsOnly (D.disk depot.old) (D.disk depot.new) }
    ensures cause { result ≡ Err ReadFault.Depot → Rose (D.disk depot.old).faults (D.disk depot.new).faults }
{
    let len = match depot.len(Slot::Main) {
        Err(_) => return Err(ReadFault::Depot),
        Ok(len) => len,
    };
    let front = match read_front(depot, len) {
        Err(fault) => return Err(fault),
        Ok(front) => front,
    };
    read_form(alloc, depot, len, front)
}
