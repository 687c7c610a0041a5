// What a chunk is, by its identifier and the type of a list.
ghost use Rattle.std.specs.Prelude.{◌≡◌, ◌+◌, ◌<◌, ◌≤◌, ◌^◌, ℕ, List, IfOk, true, ◌||◌};
ghost use Rattle.me_disk.specs.Holds.{Holds, Inside as IsInside};
ghost use Rattle.me_disk.specs.Steps.{HasCause, ReadsOnly};
ghost use Rattle.container_model.specs.Chunk.{riff};
ghost use Rattle.carrier_model.specs.Info.{is_type};
ghost use Rattle.riff_form.specs.Walk.{chunk_in};
ghost use Rattle.avi_model.specs.Map.{role_where};
ghost use Rattle.avi_file.specs.Walk.{IsKind, carries, is_hdrl_kind, is_idx1_kind, is_info_kind, list_kind, role_of};

use me_disk::{Depot, DepotFault, Slot};
use part_tree::{FourCc, Role};
use riff_form::ChunkAt;

/// Where chunks stand: in a list of fields, in a stream's list, or in a further form.
#[derive(Clone, Copy, Debug, PartialEq, Eq)]
pub enum Inside {
    Items,
    Stream,
    Further,
}

/// What a chunk of the first form is.
#[derive(Clone, Copy, Debug, PartialEq, Eq)]
pub enum TopKind {
    Padding,
    Info,
    Hdrl,
    Movi,
    Idx1,
    Other,
}

/// Whether a chunk is a `LIST` of a type.
pub fn is_list<D: Depot>(depot: &mut D, chunk: &ChunkAt, word: &[u8; 4]) -> Result<bool, DepotFault>
    requires inside { IsInside (chunk.now.body.at + chunk.now.body.len) (D.disk depot.old) }
    requires small { chunk.now.body.at + chunk.now.body.len < 2 ^ 63 }
    ensures is { (b : List ℕ) → Holds (D.disk depot.old) b
        → IfOk result (λ is. is ≡ is_type word.now (chunk_in b riff chunk.now)) }
    ensures long { IfOk result (λ is. is ≡ true → 4 ≤ chunk.now.body.len) }
    ensures reads { ReadsOnly (D.disk depot.old) (D.disk depot.new) }
    ensures cause { HasCause (D.disk depot.old) (D.disk depot.new) result }
{
    if !chunk.id.is(b"LIST") {
        return Ok(false);
    }
    if chunk.body.len < 4 {
        return Ok(false);
    }
    let mut first = [0u8; 4];
    depot.read_at(Slot::Main, chunk.body.at, &mut first)?;
    Ok(FourCc(first).is(word))
}

// The role where a test holds.
fn role_if(holds: bool, role: Role) -> Role
    ensures { result ≡ role_where holds role }
{
    if holds { role } else { Role::Opaque }
}

/// Whether a chunk is a field by itself: in a stream's list a name is one.
pub fn is_carrier(chunk: &ChunkAt, inside: Inside) -> bool
    ensures { (b : List ℕ) → result ≡ carries inside (chunk_in b riff chunk.now) }
{
    match inside {
        Inside::Stream => chunk.id.is(b"strn"),
        Inside::Items => false,
        Inside::Further => false,
    }
}

/// What a chunk is to an edit.
pub fn role_in<D: Depot>(depot: &mut D, chunk: &ChunkAt, inside: Inside) -> Result<Role, DepotFault>
    requires inside { IsInside (chunk.now.body.at + chunk.now.body.len) (D.disk depot.old) }
    requires small { chunk.now.body.at + chunk.now.body.len < 2 ^ 63 }
    ensures role { (b : List ℕ) → Holds (D.disk depot.old) b
        → IfOk result (λ role. role ≡ role_of inside (chunk_in b riff chunk.now)) }
    ensures reads { ReadsOnly (D.disk depot.old) (D.disk depot.new) }
    ensures cause { HasCause (D.disk depot.old) (D.disk depot.new) result }
{
    match inside {
        Inside::Items => Ok(Role::Opaque),
        Inside::Stream => Ok(role_if(chunk.id.is(b"indx"), Role::Tables)),
        Inside::Further => {
            let movi = is_list(depot, chunk, b"movi")?;
            Ok(role_if(movi, Role::Essence))
        }
    }
}

// Whether a kind is that of `hdrl`.
pub fn is_hdrl(kind: TopKind) -> bool
    ensures { result ≡ is_hdrl_kind kind }
{
    match kind {
        TopKind::Hdrl => true,
        _ => false,
    }
}

// Whether a kind is that of `idx1`.
pub fn is_idx1(kind: TopKind) -> bool
    ensures { result ≡ is_idx1_kind kind }
{
    match kind {
        TopKind::Idx1 => true,
        _ => false,
    }
}

// The kind of a list by its type.
fn kind_by(word: FourCc) -> TopKind
    ensures { result ≡ list_kind word.0 }
{
    if word.is(b"INFO") {
        TopKind::Info
    } else if word.is(b"hdrl") {
        TopKind::Hdrl
    } else if word.is(b"movi") {
        TopKind::Movi
    } else {
        TopKind::Other
    }
}

// What a chunk of the first form is.
pub fn top_kind<D: Depot>(depot: &mut D, chunk: &ChunkAt) -> Result<TopKind, DepotFault>
    requires inside { IsInside (chunk.now.body.at + chunk.now.body.len) (D.disk depot.old) }
    requires small { chunk.now.body.at + chunk.now.body.len < 2 ^ 63 }
    ensures kind { (b : List ℕ) → Holds (D.disk depot.old) b
        → IfOk result (λ kind. IsKind (chunk_in b riff chunk.now) kind) }
    ensures long { IfOk result (λ kind. (is_info_kind kind || is_hdrl_kind kind) ≡ true → 4 ≤ chunk.now.body.len) }
    ensures reads { ReadsOnly (D.disk depot.old) (D.disk depot.new) }
    ensures cause { HasCause (D.disk depot.old) (D.disk depot.new) result }
{
    if chunk.id.is(b"JUNK") {
        return Ok(TopKind::Padding);
    }
    if chunk.id.is(b"idx1") {
        return Ok(TopKind::Idx1);
    }
    if !chunk.id.is(b"LIST") {
        return Ok(TopKind::Other);
    }
    if chunk.body.len < 4 {
        return Ok(TopKind::Other);
    }
    let mut word = [0u8; 4];
    depot.read_at(Slot::Main, chunk.body.at, &mut word)?;
    Ok(kind_by(FourCc(word)))
}
