// The head of an index chunk: the 24 bytes before its entries.
ghost use Rattle.std.specs.Prelude.{◌≡◌, ◌+◌, ◌*◌, ◌≤◌, ℕ, List, IfOk, false, length, take};
ghost use Rattle.opendml_index.specs.Heads.{IsFront, ReadsHead, ReadsHeadOf, ReadsKind, ReadsKindOf, kind_wanted, longs, standard, two_fields};

use crate::numbers::{four_in, le32_in, le64_in};
use part_tree::{FourCc, IndexHead};

/// Why the body of an index chunk isn't read.
#[derive(Clone, Copy, Debug, PartialEq, Eq)]
pub enum HeadFault {
    /// It has fewer than 24 bytes, or fewer than its entries need.
    Short,
    /// Its type, subtype and longs are of no kind that is known.
    Wrong,
}

/// The kinds of index chunks: with places of other index chunks, or with entries of one or of two fields.
#[derive(Clone, Copy, Debug, PartialEq, Eq)]
pub enum IndexKind {
    Super,
    Standard,
    TwoFields,
}

// The kind by the longs, the subtype and the type.
pub fn kind_in(first: &[u8; 24]) -> Option<IndexKind>
    ensures { ReadsKind first.now result }
{
    let word = FourCc([first[0], first[1], first[2], first[3]]);
    let plain = word.is(&[4, 0, 0, 0]);
    let fields = word.is(&[4, 0, 1, 0]);
    if plain | fields {
        return Some(IndexKind::Super);
    }
    if word.is(&[2, 0, 0, 1]) {
        return Some(IndexKind::Standard);
    }
    if word.is(&[3, 0, 1, 1]) {
        return Some(IndexKind::TwoFields);
    }
    None
}

// How many longs an entry has.
fn longs_of(kind: IndexKind) -> u16
    ensures { result ≡ longs kind }
{
    match kind {
        IndexKind::Super => 4,
        IndexKind::Standard => 2,
        IndexKind::TwoFields => 3,
    }
}

fn has_two_fields(kind: IndexKind) -> bool
    ensures { result ≡ two_fields kind }
{
    match kind {
        IndexKind::TwoFields => true,
        _ => false,
    }
}

fn is_standard(kind: IndexKind) -> bool
    ensures { result ≡ standard kind }
{
    match kind {
        IndexKind::Super => false,
        _ => true,
    }
}

// The head of a kind.
pub fn head_of(first: &[u8; 24], kind: IndexKind) -> IndexHead
    ensures { IsFront first.now kind result }
{
    IndexHead {
        longs: longs_of(kind),
        two_fields: has_two_fields(kind),
        standard: is_standard(kind),
        used: le32_in(first, 4),
        id: four_in(first, 8),
        base: le64_in(first, 12),
    }
}

// The kind, where any index or a standard one is looked for.
fn kind_of(first: &[u8; 24], standard: bool) -> Option<IndexKind>
    ensures { ReadsKindOf standard first.now result }
{
    match kind_in(first) {
        None => None,
        Some(kind) => {
            if standard && !is_standard(kind) {
                return None;
            }
            Some(kind)
        }
    }
}

/// The head of an index chunk, by the first 24 bytes of its body and the body's length in bytes, where any index or a standard
/// one is looked for. `Wrong` is tested first, and then whether the entries are there.
pub fn head_in(first: &[u8; 24], len: u64, standard: bool) -> Result<IndexHead, HeadFault>
    requires { 24 ≤ len }
    ensures head { (body : List ℕ) → first.now ≡ take 24 body → len ≡ length body
        → ReadsHeadOf (kind_wanted standard) body result }
    ensures room { IfOk result (λ head. 24 + 4 * head.longs * head.used ≤ len) }
    ensures longs { IfOk result (λ head. head.standard ≡ false → head.longs ≡ 4) }
{
    let Some(kind) = kind_of(first, standard) else {
        return Err(HeadFault::Wrong);
    };
    let head = head_of(first, kind);
    if len - 24 < 4 * u64::from(head.longs) * u64::from(head.used) {
        return Err(HeadFault::Short);
    }
    Ok(head)
}

/// The head of an index chunk, by its body. `Wrong` is tested once 24 bytes are there, and then whether the entries are.
pub fn read_head(body: &[u8]) -> Result<IndexHead, HeadFault>
    ensures { ReadsHead body.now result }
{
    if body.len() < 24 {
        return Err(HeadFault::Short);
    }
    let mut first = [0u8; 24];
    first.copy_from_slice(&body[..24]);
    head_in(&first, body.len() as u64, false)
}
