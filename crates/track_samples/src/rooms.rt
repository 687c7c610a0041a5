// The bytes behind a place in the range that holds it.
ghost use Rattle.std.specs.Prelude.{◌≡◌, ◌≤◌, length};
ghost use Rattle.part_tree.specs.Ranges.{Ascends, IsCut};
ghost use Rattle.track_samples.specs.Left.{room_by, room_in, room_of as room};

use part_tree::Span;

// How many ranges begin at a place or before it.
fn begun(spans: &[Span], place: u64) -> usize
    requires in_order { Ascends 0 spans.now }
    ensures bound { result ≤ length spans.now }
    ensures cut { IsCut place spans.now result }
{
    spans.partition_point(|span| span.at <= place)
}

// The bytes from a place to the end of a range that holds it, none where it doesn't.
fn room_of(span: Span, place: u64) -> u64
    ensures { result ≡ room span place }
{
    if place >= span.at && place - span.at < span.len {
        span.len - (place - span.at)
    } else {
        0
    }
}

// The same of the last of the first ranges.
fn last_room(spans: &[Span], count: usize, place: u64) -> u64
    requires { count ≤ length spans.now }
    ensures { result ≡ room_by spans.now place count }
{
    if count == 0 {
        return 0;
    }
    room_of(spans[count - 1], place)
}

/// The bytes from a place to the end of the one of these ranges, which ascend, that holds it; none where none does.
pub fn room_behind(spans: &[Span], place: u64) -> u64
    requires in_order { Ascends 0 spans.now }
    ensures { result ≡ room_in spans.now place }
{
    let count = begun(spans, place);
    last_room(spans, count, place)
}
