// The forms of a file, one after the other.
ghost use Rattle.std.specs.Prelude.{◌≡◌, ◌+◌, ◌<◌, ◌≤◌, ◌^◌, ◌++◌, ℕ, List, [], IfOk, IfSome, OnOk, length, false, map};
ghost use Rattle.me_disk.specs.Causes.{Rose};
ghost use Rattle.me_disk.specs.Holds.{Holds, Inside as IsInside};
ghost use Rattle.me_disk.specs.Steps.{HasCause, ReadsOnly};
ghost use Rattle.me_disk.specs.Windows.{IsWindow};
ghost use Rattle.container_model.specs.Chunk.{riff, spell};
ghost use Rattle.container_model.specs.Stood.{stood};
ghost use Rattle.riff_form.specs.Walk.{InOrder, chunk_in};
ghost use Rattle.std.specs.Str.{bytes_eq};
ghost use Rattle.avi_model.specs.Avi.{body_span, form_type};
ghost use Rattle.avi_file.specs.Forms.{FindsForm, ReadsFirst, ReadsForms, SizeAt, forms_from, further_told, others_told};
ghost use Rattle.avi_file.specs.Walk.{ArePlaced, KeepsPlaces, Reads, run_told};

use crate::chosen::has_essence;
use crate::kind::Inside;
use crate::list::{Reading, put_rest, read_chunks};
use crate::top::{Top, read_top};
use me_disk::{Depot, DepotFault, HeaderWindow};
use part_tree::{FourCc, ReadFault, Span, Why};
use riff_form::{ChunkAt, StepFault};
use std::alloc::Global;

/// What was read of all forms: the chunks, and the bodies of the forms.
#[derive(Debug, Drop)]
pub struct Forms {
    pub top: Top,
    pub forms: Vec<Span>,
}

// Whether a type is that of the first form, or of a further one.
fn is_form(word: FourCc, first: bool) -> bool
    ensures { result ≡ bytes_eq word.0 (form_type first) }
{
    if first {
        word.is(b"AVI ")
    } else {
        word.is(b"AVIX")
    }
}

// The size of the form whose header stands at a place, in a file of this length.
fn form_size<D: Depot>(
    window: &mut HeaderWindow,
    depot: &mut D,
    at: u64,
    len: u64,
    first: bool,
) -> Result<Option<u64>, DepotFault>
    requires whole { (b : List ℕ) → Holds (D.disk depot.old) b → len ≡ length b }
    requires small { len < 2 ^ 63 }
    requires order { at ≤ len }
    requires window { IsWindow (D.disk depot.old) window.old }
    ensures size { (b : List ℕ) → Holds (D.disk depot.old) b → IfOk result (λ found. SizeAt first b at found) }
    ensures least { IfOk result (λ found. IfSome found (λ size. at + 12 ≤ len)) }
    ensures window { IsWindow (D.disk depot.new) window.new }
    ensures reads { ReadsOnly (D.disk depot.old) (D.disk depot.new) }
    ensures cause { HasCause (D.disk depot.old) (D.disk depot.new) result }
{
    if len - at < 12 {
        return Ok(None);
    }
    let mut bytes = [0u8; 12];
    window.read_at(depot, at, len, &mut bytes)?;
    let id = FourCc([bytes[0], bytes[1], bytes[2], bytes[3]]);
    let word = FourCc([bytes[8], bytes[9], bytes[10], bytes[11]]);
    if !id.is(b"RIFF") {
        return Ok(None);
    }
    if !is_form(word, first) {
        return Ok(None);
    }
    let size = u32::from_le_bytes([bytes[4], bytes[5], bytes[6], bytes[7]]);
    Ok(Some(u64::from(size)))
}

// The form whose header stands at a place. None where there is none.
fn form_at<D: Depot>(
    window: &mut HeaderWindow,
    depot: &mut D,
    at: u64,
    len: u64,
    first: bool,
) -> Result<Option<ChunkAt>, StepFault>
    requires whole { (b : List ℕ) → Holds (D.disk depot.old) b → len ≡ length b }
    requires small { len < 2 ^ 63 }
    requires order { at ≤ len }
    requires window { IsWindow (D.disk depot.old) window.old }
    ensures found { (b : List ℕ) → Holds (D.disk depot.old) b → FindsForm first b at result }
    ensures order { IfOk result (λ found. IfSome found (λ form. InOrder at len form)) }
    ensures ahead { IfOk result (λ found. IfSome found (λ form. at < form.next)) }
    ensures window { IsWindow (D.disk depot.new) window.new }
    ensures reads { ReadsOnly (D.disk depot.old) (D.disk depot.new) }
    ensures cause { result ≡ Err StepFault.Depot → Rose (D.disk depot.old).faults (D.disk depot.new).faults }
{
    let size = match form_size(window, depot, at, len, first) {
        Err(_) => return Err(StepFault::Depot),
        Ok(None) => return Ok(None),
        Ok(Some(size)) => size,
    };
    if size > len - at - 8 {
        return Err(StepFault::Truncated { at });
    }
    let start = at + 8;
    Ok(Some(ChunkAt {
        id: FourCc(*b"RIFF"),
        at,
        body: Span {
            at: start,
            len: size,
        },
        next: len.min(start + size + size % 2),
        padded: (size % 2 == 1) & (start + size < len),
    }))
}

// Reads the chunks of a further form.
fn read_further<D: Depot>(
    reading: &mut Reading,
    depot: &mut D,
    form: &ChunkAt,
) -> Result<(), ReadFault>
    requires inside { IsInside form.now.next (D.disk depot.old) }
    requires small { form.now.next < 2 ^ 63 }
    requires order { InOrder form.now.at form.now.next form.now }
    ensures took { (b : List ℕ) → Holds (D.disk depot.old) b
        → Reads (further_told form.now.at (chunk_in b riff form.now)) reading.old reading.new result }
    ensures placed { OnOk result
        (KeepsPlaces form.now.at form.now.next form.now.next reading.old.parts.items reading.new.parts.items) }
    ensures reads { ReadsOnly (D.disk depot.old) (D.disk depot.new) }
    ensures cause { result ≡ Err ReadFault.Depot → Rose (D.disk depot.old).faults (D.disk depot.new).faults }
{
    if form.body.len < 4 {
        return Err(ReadFault::Why(Why::Truncated { at: form.at }));
    }
    read_chunks(
        reading,
        depot,
        Inside::Further,
        form.body.at + 4,
        form.body.at + form.body.len,
    )
}

// Reads the forms behind the first one, and the tail.
fn read_others<D: Depot>(
    reading: &mut Reading,
    forms: &mut Vec<Span>,
    depot: &mut D,
    start: u64,
    len: u64,
) -> Result<(), ReadFault>
    requires whole { (b : List ℕ) → Holds (D.disk depot.old) b → len ≡ length b }
    requires small { len < 2 ^ 63 }
    requires order { start ≤ len }
    requires least { 8 ≤ start }
    ensures run { (b : List ℕ) → Holds (D.disk depot.old) b
        → Reads (run_told others_told start (forms_from false b start)) reading.old reading.new result }
    ensures spans { (b : List ℕ) → Holds (D.disk depot.old) b
        → OnOk result (forms.new.items ≡ forms.old.items
        ++ map body_span (stood start (forms_from false b start).chunks)) }
    ensures placed { OnOk result (KeepsPlaces start len len reading.old.parts.items reading.new.parts.items) }
    ensures reads { ReadsOnly (D.disk depot.old) (D.disk depot.new) }
    ensures cause { result ≡ Err ReadFault.Depot → Rose (D.disk depot.old).faults (D.disk depot.new).faults }
{
    let mut window = HeaderWindow::new();
    let mut at = start;
    'forms: loop {
        let form = match form_at(&mut window, depot, at, len, false) {
            Err(StepFault::Depot) => return Err(ReadFault::Depot),
            Err(StepFault::Truncated { at }) => {
                return Err(ReadFault::Why(Why::Truncated { at }));
            }
            Ok(None) => return put_rest(reading, at, len),
            Ok(Some(form)) => form,
        };
        match read_further(reading, depot, &form) {
            Err(fault) => return Err(fault),
            Ok(()) => {}
        }
        match forms.push(form.body) {
            Err(_) => return Err(ReadFault::Memory),
            Ok(()) => {}
        }
        at = form.next;
    }
}

// Reads the first form, which begins the file.
fn read_first<D: Depot>(top: &mut Top, depot: &mut D, len: u64) -> Result<ChunkAt, ReadFault>
    requires whole { (b : List ℕ) → Holds (D.disk depot.old) b → len ≡ length b }
    requires small { len < 2 ^ 63 }
    requires met { top.old.reading.met ≡ 0 }
    requires hdrl { top.old.hdrl ≡ false }
    requires idx1 { top.old.idx1 ≡ false }
    ensures first { (b : List ℕ) → Holds (D.disk depot.old) b → ReadsFirst b top.old top.new result }
    ensures order { IfOk result (λ form. InOrder 0 len form) }
    ensures placed { IfOk result
        (λ form. KeepsPlaces 0 form.next form.next top.old.reading.parts.items top.new.reading.parts.items) }
    ensures reads { ReadsOnly (D.disk depot.old) (D.disk depot.new) }
    ensures cause { result ≡ Err ReadFault.Depot → Rose (D.disk depot.old).faults (D.disk depot.new).faults }
{
    let mut window = HeaderWindow::new();
    let form = match form_at(&mut window, depot, 0, len, true) {
        Err(StepFault::Depot) => return Err(ReadFault::Depot),
        Err(StepFault::Truncated { at }) => return Err(ReadFault::Why(Why::Truncated { at })),
        Ok(None) => return Err(ReadFault::Why(Why::UnknownKind)),
        Ok(Some(form)) => form,
    };
    if form.body.len < 4 {
        return Err(ReadFault::Why(Why::Truncated { at: 0 }));
    }
    match read_top(top, depot, 12, 8 + form.body.len) {
        Err(fault) => Err(fault),
        Ok(()) => Ok(form),
    }
}

/// Reads the forms of a file of this length, and its tail. `UnknownKind` where it doesn't begin with a form `AVI `, and `NoHdrl`
/// and `NoMovi` where that form has no such list.
pub fn read_forms<D: Depot>(alloc: Global, depot: &mut D, len: u64) -> Result<Forms, ReadFault>
    requires whole { (b : List ℕ) → Holds (D.disk depot.old) b → len ≡ length b }
    requires small { len < 2 ^ 63 }
    ensures forms { (b : List ℕ) → Holds (D.disk depot.old) b → ReadsForms b result }
    ensures placed { IfOk result (λ forms. ArePlaced len len forms.top.reading.parts.items) }
    ensures reads { ReadsOnly (D.disk depot.old) (D.disk depot.new) }
    ensures cause { result ≡ Err ReadFault.Depot → Rose (D.disk depot.old).faults (D.disk depot.new).faults }
{
    let mut top = Top {
        reading: Reading {
            met: 0,
            parts: Vec::new(alloc),
            streams: Vec::new(alloc),
        },
        hdrl: false,
        idx1: false,
    };
    let first = match read_first(&mut top, depot, len) {
        Err(fault) => return Err(fault),
        Ok(first) => first,
    };
    let movi = has_essence(&top.reading.parts);
    let mut forms = Vec::new(alloc);
    match forms.push(first.body) {
        Err(_) => return Err(ReadFault::Memory),
        Ok(()) => {}
    }
    match read_others(&mut top.reading, &mut forms, depot, first.next, len) {
        Err(fault) => return Err(fault),
        Ok(()) => {}
    }
    if !top.hdrl {
        return Err(ReadFault::Why(Why::NoHdrl));
    }
    if !movi {
        return Err(ReadFault::Why(Why::NoMovi));
    }
    Ok(Forms { top, forms })
}
