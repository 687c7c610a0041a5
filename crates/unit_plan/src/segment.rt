// The segments of a new file.
ghost use Rattle.std.specs.Prelude.{◌≡◌, ◌≤◌, ◌<◌, ◌+◌, ◌-◌, ◌++◌, ◌^◌, ℕ, List, length, map, take, drop, IfOk, OnOk};
ghost use Rattle.std.specs.List.{flat_map};
ghost use Rattle.part_tree.specs.Moves.{Move};
ghost use Rattle.part_tree.specs.Plans.{AllInside, AllPlain, total_len, segment_bytes};
ghost use Rattle.container_model.specs.Splice.{splice};
ghost use Rattle.unit_plan.specs.Cuts.{SpansAscend, cut_in};
ghost use Rattle.unit_plan.specs.Sized.{spliced_len};

use crate::cut::CutAt;
use part_tree::{Bytes, NoMemory, Segment, Segments, Span};
use std::alloc::Global;

// So many bytes of the old file more.
fn push_copy(segments: &mut Vec<Segment>, at: u64, len: u64) -> Result<(), NoMemory>
    ensures bytes { OnOk result ((ms : List Move) (b : List ℕ)
        → flat_map (segment_bytes ms b) segments.new.items
        ≡ flat_map (segment_bytes ms b) segments.old.items ++ take len (drop at b)) }
    ensures total { OnOk result (total_len segments.new.items ≡ total_len segments.old.items + len) }
    ensures inside { OnOk result ((b : List ℕ) → at + len ≤ length b → AllInside b segments.old.items
        → AllInside b segments.new.items) }
    ensures plain { OnOk result (AllPlain segments.old.items → AllPlain segments.new.items) }
{
    if len == 0 {
        return Ok(());
    }
    match segments.push(Segment::Copy(Span { at, len })) {
        Err(_) => return Err(NoMemory),
        Ok(()) => {}
    }
    Ok(())
}

// These bytes more.
fn push_literal(segments: &mut Vec<Segment>, alloc: Global, bytes: &[u8]) -> Result<(), NoMemory>
    ensures bytes { OnOk result ((ms : List Move) (b : List ℕ)
        → flat_map (segment_bytes ms b) segments.new.items
        ≡ flat_map (segment_bytes ms b) segments.old.items ++ bytes.now) }
    ensures total { OnOk result (total_len segments.new.items ≡ total_len segments.old.items + length bytes.now) }
    ensures inside { OnOk result ((b : List ℕ) → AllInside b segments.old.items → AllInside b segments.new.items) }
    ensures plain { OnOk result (AllPlain segments.old.items → AllPlain segments.new.items) }
{
    if bytes.is_empty() {
        return Ok(());
    }
    let copy = Bytes::new(alloc, bytes)?;
    match segments.push(Segment::Literal(copy)) {
        Err(_) => return Err(NoMemory),
        Ok(()) => {}
    }
    Ok(())
}

// What stands before a span from a place on, and what stands in the span's place.
fn push_cut(
    segments: &mut Vec<Segment>,
    alloc: Global,
    at: u64,
    cut: &CutAt,
) -> Result<(), NoMemory>
    requires before { at ≤ cut.now.span.at }
    requires keep { cut.now.keep ≤ cut.now.span.len }
    requires small { cut.now.span.at + cut.now.span.len < 2 ^ 64 }
    ensures bytes { OnOk result ((ms : List Move) (b : List ℕ)
        → flat_map (segment_bytes ms b) segments.new.items
        ≡ flat_map (segment_bytes ms b) segments.old.items
        ++ (take (cut.now.span.at - at) (drop at b) ++ (cut_in b cut.now).bytes)) }
    ensures total { OnOk result (total_len segments.new.items
        ≡ total_len segments.old.items + ((cut.now.span.at - at) + (length cut.now.bytes + cut.now.keep))) }
    ensures inside { OnOk result ((b : List ℕ) → cut.now.span.at + cut.now.span.len ≤ length b
        → AllInside b segments.old.items → AllInside b segments.new.items) }
    ensures plain { OnOk result (AllPlain segments.old.items → AllPlain segments.new.items) }
{
    push_copy(segments, at, cut.span.at - at)?;
    push_literal(segments, alloc, cut.bytes.as_slice())?;
    push_copy(segments, cut.span.at + cut.span.len - cut.keep, cut.keep)?;
    Ok(())
}

/// The segments of a file of `len` bytes of which spans are replaced; none is empty.
pub fn segments(alloc: Global, cuts: &[CutAt], len: u64) -> Result<Segments, NoMemory>
    requires { SpansAscend 0 cuts.now len }
    ensures bytes { IfOk result (λ s. (ms : List Move) (b : List ℕ) → length b ≡ len
        → flat_map (segment_bytes ms b) s ≡ splice b (map (cut_in b) cuts.now)) }
    ensures total { IfOk result (λ s. total_len s ≡ spliced_len len cuts.now) }
    ensures inside { IfOk result (λ s. (b : List ℕ) → len ≤ length b → AllInside b s) }
    ensures plain { IfOk result AllPlain }
{
    let mut segments = Vec::new(alloc);
    let mut at = 0u64;
    'cuts: for cut in cuts {
        push_cut(&mut segments, alloc, at, cut)?;
        at = cut.span.at + cut.span.len;
    }
    push_copy(&mut segments, at, len - at)?;
    Ok(Segments::new(segments))
}
