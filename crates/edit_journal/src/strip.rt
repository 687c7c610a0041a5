// The header of a strip or of a patch.
ghost use Rattle.std.specs.Prelude.{◌≡◌, ◌+◌, ◌≤◌, ◌<◌, ◌^◌, max, length, IfSome, IfNone};
ghost use Rattle.me_bytes.specs.Bytes.{IsBytes};
ghost use Rattle.part_tree.specs.Patches.{most_bytes};
ghost use Rattle.edit_journal.specs.Journal.{version_of};
ghost use Rattle.edit_journal.specs.Damage.{strip_tests, head_len, header, body_len, strip_len};
ghost use Rattle.edit_journal.specs.Reads.{Passes, BreaksAt};

use crate::fault::JournalHead;
use me_bytes::{le32_at, le64_at};

/// The patches of a journal have at most so many bytes together.
pub const MOST_BYTES: u64 = 16_777_216;
/// The version that tells runs.
pub(crate) const SECOND: u8 = 2;
/// The kind of a run.
pub(crate) const RUN: u8 = 1;

/// A place in the file, a length in bytes, and the kind: 0 for bytes as they stand, 1 for a run of one byte.
#[derive(Clone, Copy)]
pub struct StripHead {
    pub place: u64,
    pub len: u32,
    pub kind: u8,
}

/// How far a journal was read: the end of the last strip, the bytes of all, and the place.
#[derive(Clone, Copy)]
pub struct Progress {
    pub end: u64,
    pub total: u64,
    pub at: u64,
}

/// How many bytes the header of a strip has in a version.
pub(crate) fn head_size(version: u8) -> usize
    ensures { result ≡ head_len (version_of version) }
{
    if version == SECOND { 13 } else { 12 }
}

/// The numbers of a header.
pub(crate) fn numbers(version: u8, bytes: &[u8]) -> StripHead
    requires { length bytes.now ≡ head_len (version_of version) }
    ensures header { result ≡ header (version_of version) bytes.now }
    ensures bytes { IsBytes bytes.now }
{
    let Some(place) = le64_at(bytes, 0) else {
        unreachable!()
    };
    let Some(len) = le32_at(bytes, 8) else {
        unreachable!()
    };
    let kind = if version == SECOND { bytes[12] } else { 0 };
    StripHead { place, len, kind }
}

/// How many bytes stand behind the header: of a run one.
pub(crate) fn body_size(strip: &StripHead) -> u64
    ensures { result ≡ body_len strip.now }
{
    if strip.kind == RUN {
        1
    } else {
        strip.len as u64
    }
}

/// The first place that breaks this strip, of which so many bytes are left.
pub(crate) fn broken(head: &JournalHead, p: &Progress, left: u64, strip: &StripHead) -> Option<u64>
    requires at { p.now.at + left < 2 ^ 63 }
    requires total { p.now.total ≤ most_bytes }
    ensures breaks { IfSome result
        (λ at. BreaksAt
        (strip_tests (version_of head.now.version) head.now.old_len head.now.new_len p.now.end p.now.total p.now.at left
        strip.now) at) }
    ensures passes { IfNone result
        (Passes
        (strip_tests (version_of head.now.version) head.now.old_len head.now.new_len p.now.end p.now.total p.now.at left
        strip.now)) }
    ensures kind { IfNone result (strip.now.kind ≤ 1) }
    ensures some { IfNone result (0 < strip.now.len) }
    ensures after { IfNone result (p.now.end ≤ strip.now.place) }
    ensures inside { IfNone result (strip.now.place + strip.now.len ≤ head.now.new_len) }
    ensures small { IfNone result (p.now.total + strip.now.len ≤ most_bytes) }
    ensures joined { IfNone result (strip.now.place ≤ max p.now.end head.now.old_len) }
    ensures whole { IfNone result (strip_len (version_of head.now.version) strip.now ≤ left) }
{
    let len = strip.len as u64;
    if strip.kind > RUN {
        return Some(p.at);
    }
    if len < 1 {
        return Some(p.at);
    }
    if strip.place < p.end {
        return Some(p.at);
    }
    if strip.place > head.new_len || head.new_len - strip.place < len {
        return Some(p.at);
    }
    if p.total + len > MOST_BYTES {
        return Some(p.at);
    }
    if strip.place > p.end.max(head.old_len) {
        return Some(p.at);
    }
    if left < head_size(head.version) as u64 + body_size(strip) {
        return Some(p.at + left);
    }
    None
}
