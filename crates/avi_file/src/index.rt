// The index chunks: those of the streams, and those that super indexes name.
ghost use Rattle.std.specs.Prelude.{◌≡◌, ◌+◌, ◌-◌, ◌*◌, ◌<◌, ◌≤◌, ◌^◌, ◌∷◌, ◌==◌, [], ℕ, List, IfErr, IfOk, OnOk, drop, false, length, true};
ghost use Rattle.std.specs.List.{AllByRecursion};
ghost use Rattle.me_disk.specs.Causes.{Rose};
ghost use Rattle.me_disk.specs.Holds.{Holds, Inside as IsInside};
ghost use Rattle.me_disk.specs.Steps.{ReadsOnly};
ghost use Rattle.part_tree.specs.Ranges.{Ascends};
ghost use Rattle.container_model.specs.Written.{rows, slice};
ghost use Rattle.opendml_index.specs.Checks.{EndInside};
ghost use Rattle.opendml_index.specs.Index.{place_by};
ghost use Rattle.opendml_index.specs.Heads.{kind_wanted};
ghost use Rattle.avi_file.specs.Indexes.{AreSound, KeepsFirst, KeepsSound, ReadsIndex, ReadsIndexes, ReadsNamed, ReadsPlace, ReadsStreams, index_tests, kept_at, kept_in, kept_of, kept_rows, named_tests, places_tests, rows_tests, table_at};

use me_disk::{Depot, Slot, TableWindow};
use opendml_index::{HeadFault, head_in};
use part_tree::{IndexHead, ReadFault, Span, Why, in_one};
use std::alloc::Global;

const MOST_CHUNKS: usize = 65_536;

/// An index chunk: its body, and whether it is a standard index.
#[derive(Clone, Copy, Debug, PartialEq, Eq)]
pub struct IndexChunk {
    pub body: Span,
    pub standard: bool,
}

/// The index chunks: those of the streams, and the first 65,537 of those that super indexes name.
#[derive(Debug, Drop)]
pub struct Indexes {
    pub streams: Vec<IndexChunk>,
    pub named: Vec<IndexChunk>,
}

// Takes an index chunk that is named, unless there are too many already.
fn put_named(named: &mut Vec<IndexChunk>, body: Span) -> Result<(), ReadFault>
    ensures kept { OnOk result (KeepsFirst (record { body = body; standard = true }
        ∷ []) named.old.items named.new.items) }
    ensures memory { IfErr result (λ fault. fault ≡ ReadFault.Memory) }
    ensures sound { 8 ≤ body.at → body.at + body.len < 2 ^ 63 → KeepsSound named.old.items named.new.items }
{
    if named.len() > MOST_CHUNKS {
        return Ok(());
    }
    match named.push(IndexChunk {
        body,
        standard: true,
    }) {
        Err(_) => Err(ReadFault::Memory),
        Ok(()) => Ok(()),
    }
}

// The head of an index chunk with this body, where any index or a standard one is looked for, or why the file is refused.
fn read_index<D: Depot>(depot: &mut D, body: Span, standard: bool) -> Result<IndexHead, ReadFault>
    requires inside { IsInside (body.at + body.len) (D.disk depot.old) }
    requires small { body.at + body.len < 2 ^ 63 }
    requires least { 8 ≤ body.at }
    ensures head { (b : List ℕ) → Holds (D.disk depot.old) b
        → ReadsIndex (kind_wanted standard) (body.at - 8) (slice b body.at body.len) result }
    ensures room { IfOk result (λ head. head.standard ≡ false → 24 + 16 * head.used ≤ body.len) }
    ensures reads { ReadsOnly (D.disk depot.old) (D.disk depot.new) }
    ensures cause { result ≡ Err ReadFault.Depot → Rose (D.disk depot.old).faults (D.disk depot.new).faults }
{
    let at = body.at - 8;
    if body.len < 24 {
        return Err(ReadFault::Why(Why::IndexShort { at }));
    }
    let mut first = [0u8; 24];
    match depot.read_at(Slot::Main, body.at, &mut first) {
        Err(_) => return Err(ReadFault::Depot),
        Ok(()) => {}
    }
    match head_in(&first, body.len, standard) {
        Err(HeadFault::Short) => Err(ReadFault::Why(Why::IndexShort { at })),
        Err(HeadFault::Wrong) => Err(ReadFault::Why(Why::IndexKind { at })),
        Ok(head) => Ok(head),
    }
}

// The body of the chunk whose header stands at a place that a super entry names.
fn named_body<D: Depot>(depot: &mut D, movis: &[Span], place: u64) -> Result<Span, ReadFault>
    requires ascend { Ascends 0 movis.now }
    requires small { AllByRecursion (EndInside (2 ^ 63 - 1)) movis.now }
    requires inside { (b : List ℕ) → Holds (D.disk depot.old) b → AllByRecursion (EndInside (length b)) movis.now }
    ensures place { (b : List ℕ) → Holds (D.disk depot.old) b → ReadsPlace movis.now b place result }
    ensures inside { IfOk result (λ body. IsInside (body.at + body.len) (D.disk depot.old)) }
    ensures least { IfOk result (λ body. 8 ≤ body.at) }
    ensures small { IfOk result (λ body. body.at + body.len < 2 ^ 63) }
    ensures reads { ReadsOnly (D.disk depot.old) (D.disk depot.new) }
    ensures cause { result ≡ Err ReadFault.Depot → Rose (D.disk depot.old).faults (D.disk depot.new).faults }
{
    if !in_one(movis, place, 8) {
        return Err(ReadFault::Why(Why::IndexPlace { at: place }));
    }
    let mut word = [0u8; 4];
    match depot.read_at(Slot::Main, place + 4, &mut word) {
        Err(_) => return Err(ReadFault::Depot),
        Ok(()) => {}
    }
    let len = u64::from(u32::from_le_bytes(word));
    if !in_one(movis, place, 8 + len) {
        return Err(ReadFault::Why(Why::IndexPlace { at: place }));
    }
    Ok(Span { at: place + 8, len })
}

// Takes the standard index that a super entry names.
fn take_named<D: Depot>(
    named: &mut Vec<IndexChunk>,
    depot: &mut D,
    movis: &[Span],
    place: u64,
) -> Result<(), ReadFault>
    requires ascend { Ascends 0 movis.now }
    requires small { AllByRecursion (EndInside (2 ^ 63 - 1)) movis.now }
    requires inside { (b : List ℕ) → Holds (D.disk depot.old) b → AllByRecursion (EndInside (length b)) movis.now }
    ensures took { (b : List ℕ) → Holds (D.disk depot.old) b
        → ReadsNamed (named_tests movis.now b place) (kept_at b (place ∷ [])) named.old.items named.new.items result }
    ensures sound { KeepsSound named.old.items named.new.items }
    ensures reads { ReadsOnly (D.disk depot.old) (D.disk depot.new) }
    ensures cause { result ≡ Err ReadFault.Depot → Rose (D.disk depot.old).faults (D.disk depot.new).faults }
{
    let body = match named_body(depot, movis, place) {
        Err(fault) => return Err(fault),
        Ok(body) => body,
    };
    match read_index(depot, body, true) {
        Err(fault) => return Err(fault),
        Ok(_) => {}
    }
    put_named(named, body)
}

// Takes the standard index at the place of a super entry, where that is used.
fn take_place<D: Depot>(
    named: &mut Vec<IndexChunk>,
    depot: &mut D,
    movis: &[Span],
    place: u64,
) -> Result<(), ReadFault>
    requires ascend { Ascends 0 movis.now }
    requires small { AllByRecursion (EndInside (2 ^ 63 - 1)) movis.now }
    requires inside { (b : List ℕ) → Holds (D.disk depot.old) b → AllByRecursion (EndInside (length b)) movis.now }
    ensures took { (b : List ℕ) → Holds (D.disk depot.old) b
        → ReadsNamed (places_tests movis.now b (place_by place (place == 0)))
        (kept_at b (place_by place (place == 0))) named.old.items named.new.items result }
    ensures sound { KeepsSound named.old.items named.new.items }
    ensures reads { ReadsOnly (D.disk depot.old) (D.disk depot.new) }
    ensures cause { result ≡ Err ReadFault.Depot → Rose (D.disk depot.old).faults (D.disk depot.new).faults }
{
    if place == 0 {
        return Ok(());
    }
    take_named(named, depot, movis, place)
}

// Takes the standard indexes that a super index of so many entries names.
fn take_all_named<D: Depot>(
    named: &mut Vec<IndexChunk>,
    depot: &mut D,
    movis: &[Span],
    body: Span,
    used: u32,
) -> Result<(), ReadFault>
    requires ascend { Ascends 0 movis.now }
    requires small { AllByRecursion (EndInside (2 ^ 63 - 1)) movis.now }
    requires inside { (b : List ℕ) → Holds (D.disk depot.old) b → AllByRecursion (EndInside (length b)) movis.now }
    requires body { IsInside (body.at + body.len) (D.disk depot.old) }
    requires body_small { body.at + body.len < 2 ^ 63 }
    requires there { 24 + 16 * used ≤ body.len }
    ensures took { (b : List ℕ) → Holds (D.disk depot.old) b
        → ReadsNamed (rows_tests movis.now b (rows 16 used (drop 24 (slice b body.at body.len))))
        (kept_rows b (rows 16 used (drop 24 (slice b body.at body.len)))) named.old.items named.new.items result }
    ensures sound { KeepsSound named.old.items named.new.items }
    ensures reads { ReadsOnly (D.disk depot.old) (D.disk depot.new) }
    ensures cause { result ≡ Err ReadFault.Depot → Rose (D.disk depot.old).faults (D.disk depot.new).faults }
{
    let end = body.at + body.len;
    let mut window = TableWindow::new();
    'entries: for k in 0..u64::from(used) {
        let mut word = [0u8; 8];
        match window.read_at(depot, body.at + 24 + 16 * k, end, &mut word) {
            Err(_) => return Err(ReadFault::Depot),
            Ok(()) => {}
        }
        match take_place(named, depot, movis, u64::from_le_bytes(word)) {
            Err(fault) => return Err(fault),
            Ok(()) => {}
        }
    }
    Ok(())
}

// Takes a stream's index chunk, and the chunks that it names.
fn take_index<D: Depot>(
    indexes: &mut Indexes,
    depot: &mut D,
    movis: &[Span],
    body: Span,
) -> Result<(), ReadFault>
    requires ascend { Ascends 0 movis.now }
    requires small { AllByRecursion (EndInside (2 ^ 63 - 1)) movis.now }
    requires inside { (b : List ℕ) → Holds (D.disk depot.old) b → AllByRecursion (EndInside (length b)) movis.now }
    requires body { IsInside (body.at + body.len) (D.disk depot.old) }
    requires body_small { body.at + body.len < 2 ^ 63 }
    requires least { 8 ≤ body.at }
    ensures took { (b : List ℕ) → Holds (D.disk depot.old) b
        → ReadsStreams (index_tests movis.now b (table_at b body)) (kept_of (table_at b body)
        ∷ []) (kept_in b (table_at b body)) indexes.old indexes.new result }
    ensures streams { KeepsSound indexes.old.streams.items indexes.new.streams.items }
    ensures named { KeepsSound indexes.old.named.items indexes.new.named.items }
    ensures reads { ReadsOnly (D.disk depot.old) (D.disk depot.new) }
    ensures cause { result ≡ Err ReadFault.Depot → Rose (D.disk depot.old).faults (D.disk depot.new).faults }
{
    let head = match read_index(depot, body, false) {
        Err(fault) => return Err(fault),
        Ok(head) => head,
    };
    match indexes.streams.push(IndexChunk {
        body,
        standard: head.standard,
    }) {
        Err(_) => return Err(ReadFault::Memory),
        Ok(()) => {}
    }
    if head.standard {
        return Ok(());
    }
    take_all_named(&mut indexes.named, depot, movis, body, head.used)
}

/// The index chunks of the streams, whose bodies these are, and then those that they name. `TooManyParts` where they are more
/// than 65,536, once all are tested.
pub fn read_indexes<D: Depot>(
    alloc: Global,
    depot: &mut D,
    movis: &[Span],
    bodies: &[Span],
) -> Result<Vec<IndexChunk>, ReadFault>
    requires ascend { Ascends 0 movis.now }
    requires small { AllByRecursion (EndInside (2 ^ 63 - 1)) movis.now }
    requires inside { (b : List ℕ) → Holds (D.disk depot.old) b → AllByRecursion (EndInside (length b)) movis.now }
    requires bodies { (b : List ℕ) → Holds (D.disk depot.old) b → AllByRecursion (EndInside (length b)) bodies.now }
    requires bodies_small { AllByRecursion (EndInside (2 ^ 63 - 1)) bodies.now }
    requires least { AllByRecursion (λ s. 8 ≤ s.at) bodies.now }
    ensures indexes { (b : List ℕ) → Holds (D.disk depot.old) b → ReadsIndexes movis.now b bodies.now result }
    ensures few { IfOk result (λ chunks. length chunks.items ≤ 65536) }
    ensures sound { IfOk result (λ chunks. AreSound chunks.items) }
    ensures reads { ReadsOnly (D.disk depot.old) (D.disk depot.new) }
    ensures cause { result ≡ Err ReadFault.Depot → Rose (D.disk depot.old).faults (D.disk depot.new).faults }
{
    let mut indexes = Indexes {
        streams: Vec::new(alloc),
        named: Vec::new(alloc),
    };
    'indexes: for body in bodies {
        match take_index(&mut indexes, depot, movis, *body) {
            Err(fault) => return Err(fault),
            Ok(()) => {}
        }
    }
    let mut all = indexes.streams;
    if all.len() + indexes.named.len() > MOST_CHUNKS {
        return Err(ReadFault::Why(Why::TooManyParts));
    }
    match all.extend_from_slice(&indexes.named) {
        Err(_) => Err(ReadFault::Memory),
        Ok(()) => Ok(all),
    }
}
