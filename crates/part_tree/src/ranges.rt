// Ranges of a file: those that lie in others, and those that keep clear of chunks. They are searched by halving.
ghost use Rattle.std.specs.Prelude.{◌≡◌, ◌≤◌, ◌+◌, ◌==◌, length, true, false};
ghost use Rattle.part_tree.specs.Ranges.{Ascends, begins_by, begins_one, clear_of, in_one as lies_in_one, IsCut, last_by, next_by, passes_by, within};

use crate::names::Span;

/// Whether a range of so many bytes lies inside a span.
pub fn lies_in(span: Span, place: u64, len: u64) -> bool
    ensures { result ≡ within span place len }
{
    place >= span.at && place - span.at <= span.len && len <= span.len - (place - span.at)
}

// How many ranges begin at a place or before it.
fn begun(spans: &[Span], place: u64) -> usize
    requires in_order { Ascends 0 spans.now }
    ensures bound { result ≤ length spans.now }
    ensures cut { IsCut place spans.now result }
{
    spans.partition_point(|span| span.at <= place)
}

// Whether a range lies inside the last of the first spans.
fn last_holds(spans: &[Span], count: usize, place: u64, len: u64) -> bool
    requires { count ≤ length spans.now }
    ensures { result ≡ last_by (λ s. within s place len) false spans.now count }
{
    if count == 0 {
        return false;
    }
    lies_in(spans[count - 1], place, len)
}

/// Whether a range of so many bytes lies inside one of these, which ascend.
pub fn in_one(spans: &[Span], place: u64, len: u64) -> bool
    requires in_order { Ascends 0 spans.now }
    ensures { result ≡ lies_in_one spans.now place len }
{
    let count = begun(spans, place);
    last_holds(spans, count, place, len)
}

// Whether a chunk's header stands at a place or before it.
fn begins_ahead(chunk: Span, place: u64) -> bool
    ensures { result ≡ begins_by (place + 8) chunk }
{
    chunk.at < 8 || chunk.at - 8 <= place
}

// How many chunks have their headers at a place or before it.
fn begun_ahead(chunks: &[Span], place: u64) -> usize
    requires in_order { Ascends 0 chunks.now }
    ensures bound { result ≤ length chunks.now }
    ensures cut { IsCut (place + 8) chunks.now result }
{
    chunks.partition_point(|chunk| begins_ahead(*chunk, place))
}

// Whether the header of the last of the first chunks stands at a place.
fn last_begins(chunks: &[Span], count: usize, place: u64) -> bool
    requires { count ≤ length chunks.now }
    ensures { result ≡ last_by (λ s. s.at == place + 8) false chunks.now count }
{
    if count == 0 {
        return false;
    }
    begins_at(chunks[count - 1], place)
}

// Whether the header of this chunk stands at a place.
fn begins_at(chunk: Span, place: u64) -> bool
    ensures { result ≡ (chunk.at == place + 8) }
{
    chunk.at >= 8 && chunk.at - 8 == place
}

/// Whether the header of one of these chunks stands at a place. They are told by their bodies, which ascend.
pub fn is_head(chunks: &[Span], place: u64) -> bool
    requires in_order { Ascends 0 chunks.now }
    ensures { result ≡ begins_one chunks.now place }
{
    let count = begun_ahead(chunks, place);
    last_begins(chunks, count, place)
}

// Whether no byte of a range is in this chunk.
fn passes(span: Span, place: u64, len: u64) -> bool
    ensures { result ≡ passes_by span place len }
{
    if span.at >= place && span.at - place >= len && span.at - place - len >= 8 {
        return true;
    }
    place >= span.at && span.len <= place - span.at
}

// Whether a range keeps clear of the last of the first chunks.
fn passes_last(chunks: &[Span], count: usize, place: u64, len: u64) -> bool
    requires { count ≤ length chunks.now }
    ensures { result ≡ last_by (λ s. passes_by s place len) true chunks.now count }
{
    if count == 0 {
        return true;
    }
    passes(chunks[count - 1], place, len)
}

// Whether a range keeps clear of the chunk behind the first ones.
fn passes_next(chunks: &[Span], count: usize, place: u64, len: u64) -> bool
    requires { count ≤ length chunks.now }
    ensures { result ≡ next_by (λ s. passes_by s place len) chunks.now count }
{
    if count == chunks.len() {
        return true;
    }
    passes(chunks[count], place, len)
}

/// Whether no byte of a range is in one of these chunks, their headers counted. They are told by their bodies, which ascend.
pub fn is_clear(chunks: &[Span], place: u64, len: u64) -> bool
    requires in_order { Ascends 0 chunks.now }
    ensures { result ≡ clear_of chunks.now place len }
{
    let count = begun(chunks, place);
    let last = passes_last(chunks, count, place, len);
    let next = passes_next(chunks, count, place, len);
    last & next
}
