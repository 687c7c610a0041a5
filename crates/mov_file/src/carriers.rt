// The carriers of fields in `moov`: its first user data, and its first `meta` that is a key table.
ghost use Rattle.std.specs.Prelude.{◌≡◌, ◌≤◌, ◌<◌, ◌+◌, ◌^◌, ℕ, List, IfOk, IfErr, IfSome};
ghost use Rattle.me_disk.specs.Causes.{Rose};
ghost use Rattle.me_disk.specs.Steps.{ReadsOnly};
ghost use Rattle.me_disk.specs.Holds.{Holds, Inside};
ghost use Rattle.container_model.specs.Chunk.{ends};
ghost use Rattle.container_model.specs.Sizes.{inside as Inner};
ghost use Rattle.mov_model.specs.Keys.{is_meta};
ghost use Rattle.qt_atoms.specs.Walk.{InOrder, atom_in, row};
ghost use Rattle.qt_keys.specs.Read.{IsRead};
ghost use Rattle.qt_text.specs.User.{udta};
ghost use Rattle.mov_file.specs.Carriers.{IsTable, kids_in, table_of};
ghost use Rattle.mov_file.specs.Map.{IsKid, StandsIn, first_that};
ghost use Rattle.mov_file.specs.Range.{IsNoWhy};

use crate::range::read_range;
use me_disk::Depot;
use part_tree::{ReadFault, Span, Why};
use qt_atoms::{AtomAt, AtomFault, AtomWalker, Parent};
use qt_keys::{KeyTable, read_keys};
use std::alloc::Global;

// The most bytes that the body of a `meta` has that is a key table.
const MOST_META: u64 = 16_777_216;

/// A `meta` and the key table that its body is.
#[derive(Debug, Drop)]
pub struct Meta {
    pub atom: AtomAt,
    pub table: KeyTable,
}

// The first user data in `moov`, whose body this is.
pub fn find_user<D: Depot>(depot: &mut D, span: Span) -> Result<Option<AtomAt>, ReadFault>
    requires inside { Inside (span.at + span.len) (D.disk depot.old) }
    requires small { span.at + span.len < 2 ^ 63 }
    ensures user { (b : List ℕ) → Holds (D.disk depot.old) b
        → IfOk result (λ found. IsKid b (first_that udta.is (kids_in b span.at (span.at + span.len))) found) }
    ensures stands { IfOk result (λ found. StandsIn span.at (span.at + span.len) found) }
    ensures why { (b : List ℕ) → Holds (D.disk depot.old) b → (row Inner b span.at (span.at + span.len)).stop ≡ ends
        → IfErr result IsNoWhy }
    ensures reads { ReadsOnly (D.disk depot.old) (D.disk depot.new) }
    ensures cause { result ≡ Err ReadFault.Depot → Rose (D.disk depot.old).faults (D.disk depot.new).faults }
{
    let mut walker = AtomWalker::new(span.at, span.at + span.len, Parent::Atom);
    'kids: loop {
        let atom = match walker.next(depot) {
            Err(AtomFault::Depot) => return Err(ReadFault::Depot),
            Err(AtomFault::SizeSmall { at }) => return Err(ReadFault::Why(Why::SizeSmall { at })),
            Err(AtomFault::Truncated { at }) => return Err(ReadFault::Why(Why::Truncated { at })),
            Ok(None) => return Ok(None),
            Ok(Some(atom)) => atom,
        };
        if atom.kind.is(b"udta") {
            return Ok(Some(atom));
        }
    }
}

// The key table that an atom is.
fn read_table<D: Depot>(
    alloc: Global,
    depot: &mut D,
    atom: &AtomAt,
) -> Result<Option<KeyTable>, ReadFault>
    requires inside { Inside (atom.now.body.at + atom.now.body.len) (D.disk depot.old) }
    requires small { atom.now.body.at + atom.now.body.len < 2 ^ 63 }
    ensures table { (b : List ℕ) → Holds (D.disk depot.old) b
        → IfOk result (λ found. found ≡ table_of (atom_in b atom.now)) }
    ensures read { IfOk result (λ found. IfSome found IsRead) }
    ensures why { IfErr result IsNoWhy }
    ensures reads { ReadsOnly (D.disk depot.old) (D.disk depot.new) }
    ensures cause { result ≡ Err ReadFault.Depot → Rose (D.disk depot.old).faults (D.disk depot.new).faults }
{
    if !atom.kind.is(b"meta") {
        return Ok(None);
    }
    if atom.body.len > MOST_META {
        return Ok(None);
    }
    let body = match read_range(alloc, depot, atom.body) {
        Err(fault) => return Err(fault),
        Ok(body) => body,
    };
    match read_keys(alloc, body.as_slice()) {
        Err(_) => Err(ReadFault::Memory),
        Ok(table) => Ok(table),
    }
}

// The first `meta` in `moov`, whose body this is, that is a key table.
pub fn find_meta<D: Depot>(
    alloc: Global,
    depot: &mut D,
    span: Span,
) -> Result<Option<Meta>, ReadFault>
    requires inside { Inside (span.at + span.len) (D.disk depot.old) }
    requires small { span.at + span.len < 2 ^ 63 }
    ensures meta { (b : List ℕ) → Holds (D.disk depot.old) b
        → IfOk result (λ found. IsTable b (first_that is_meta (kids_in b span.at (span.at + span.len))) found) }
    ensures stands { IfOk result (λ found. IfSome found (λ meta. (span.at ≤ meta.atom.at)
        × InOrder meta.atom.at (span.at + span.len) meta.atom)) }
    ensures read { IfOk result (λ found. IfSome found (λ meta. IsRead meta.table)) }
    ensures why { (b : List ℕ) → Holds (D.disk depot.old) b → (row Inner b span.at (span.at + span.len)).stop ≡ ends
        → IfErr result IsNoWhy }
    ensures reads { ReadsOnly (D.disk depot.old) (D.disk depot.new) }
    ensures cause { result ≡ Err ReadFault.Depot → Rose (D.disk depot.old).faults (D.disk depot.new).faults }
{
    let mut walker = AtomWalker::new(span.at, span.at + span.len, Parent::Atom);
    'kids: loop {
        let atom = match walker.next(depot) {
            Err(AtomFault::Depot) => return Err(ReadFault::Depot),
            Err(AtomFault::SizeSmall { at }) => return Err(ReadFault::Why(Why::SizeSmall { at })),
            Err(AtomFault::Truncated { at }) => return Err(ReadFault::Why(Why::Truncated { at })),
            Ok(None) => return Ok(None),
            Ok(Some(atom)) => atom,
        };
        match read_table(alloc, depot, &atom) {
            Err(fault) => return Err(fault),
            Ok(None) => {}
            Ok(Some(table)) => return Ok(Some(Meta { atom, table })),
        }
    }
}
