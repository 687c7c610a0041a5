// The texts of user data.
ghost use Rattle.std.specs.Prelude.{◌≡◌, ◌≤◌, ◌<◌, ◌+◌, ◌^◌, ◌∷◌, [], ℕ, List, IfErr, OnOk, IsTrue};
ghost use Rattle.me_disk.specs.Causes.{Rose};
ghost use Rattle.me_disk.specs.Steps.{ReadsOnly};
ghost use Rattle.me_disk.specs.Holds.{Holds, Inside};
ghost use Rattle.part_tree.specs.Names.{is_user_type};
ghost use Rattle.container_model.specs.Chunk.{ends};
ghost use Rattle.container_model.specs.Sizes.{user};
ghost use Rattle.qt_atoms.specs.Walk.{atom_in, row};
ghost use Rattle.mov_file.specs.Fields.{Grows, StayLawful, texts_held, under};
ghost use Rattle.mov_file.specs.Range.{IsNoWhy};

use crate::range::read_range;
use me_disk::Depot;
use part_tree::{FieldName, Fields, FourCc, NoMemory, ReadFault, Span, Value, Why, is_user};
use qt_atoms::{AtomAt, AtomFault, AtomWalker, Parent};
use qt_text::read_user;
use std::alloc::Global;

// Puts the texts of a type of user items behind the fields.
fn add_texts(
    fields: &mut Fields,
    alloc: Global,
    kind: FourCc,
    texts: &[Value],
) -> Result<(), NoMemory>
    requires { IsTrue (is_user_type kind.0) }
    ensures { OnOk result (Grows fields.old fields.new (under (FieldName.User kind) texts.now)) }
{
    'texts: for text in texts {
        fields.add(FieldName::User(kind), text.copy(alloc)?)?;
    }
    Ok(())
}

// Puts the texts of a user item behind the fields.
fn take_item<D: Depot>(
    fields: &mut Fields,
    alloc: Global,
    depot: &mut D,
    atom: &AtomAt,
) -> Result<(), ReadFault>
    requires inside { Inside (atom.now.body.at + atom.now.body.len) (D.disk depot.old) }
    requires small { atom.now.body.at + atom.now.body.len < 2 ^ 63 }
    ensures texts { (b : List ℕ) → Holds (D.disk depot.old) b
        → OnOk result (Grows fields.old fields.new (texts_held (atom_in b atom.now ∷ []))) }
    ensures lawful { OnOk result (StayLawful fields.old fields.new) }
    ensures why { IfErr result IsNoWhy }
    ensures reads { ReadsOnly (D.disk depot.old) (D.disk depot.new) }
    ensures cause { result ≡ Err ReadFault.Depot → Rose (D.disk depot.old).faults (D.disk depot.new).faults }
{
    if !is_user(&atom.kind) {
        return Ok(());
    }
    let body = match read_range(alloc, depot, atom.body) {
        Err(fault) => return Err(fault),
        Ok(body) => body,
    };
    let texts = match read_user(alloc, body.as_slice()) {
        Err(_) => return Err(ReadFault::Memory),
        Ok(None) => return Ok(()),
        Ok(Some(texts)) => texts,
    };
    match add_texts(fields, alloc, atom.kind, texts.as_slice()) {
        Err(_) => Err(ReadFault::Memory),
        Ok(()) => Ok(()),
    }
}

// Puts the texts of user data, whose body this is, behind the fields.
pub fn take_user<D: Depot>(
    fields: &mut Fields,
    alloc: Global,
    depot: &mut D,
    span: Span,
) -> Result<(), ReadFault>
    requires inside { Inside (span.at + span.len) (D.disk depot.old) }
    requires small { span.at + span.len < 2 ^ 63 }
    ensures texts { (b : List ℕ) → Holds (D.disk depot.old) b
        → OnOk result (Grows fields.old fields.new (texts_held (row user b span.at (span.at + span.len)).chunks)) }
    ensures lawful { OnOk result (StayLawful fields.old fields.new) }
    ensures why { (b : List ℕ) → Holds (D.disk depot.old) b → (row user b span.at (span.at + span.len)).stop ≡ ends
        → IfErr result IsNoWhy }
    ensures reads { ReadsOnly (D.disk depot.old) (D.disk depot.new) }
    ensures cause { result ≡ Err ReadFault.Depot → Rose (D.disk depot.old).faults (D.disk depot.new).faults }
{
    let mut walker = AtomWalker::new(span.at, span.at + span.len, Parent::UserData);
    'items: loop {
        let atom = match walker.next(depot) {
            Err(AtomFault::Depot) => return Err(ReadFault::Depot),
            Err(AtomFault::SizeSmall { at }) => return Err(ReadFault::Why(Why::SizeSmall { at })),
            Err(AtomFault::Truncated { at }) => return Err(ReadFault::Why(Why::Truncated { at })),
            Ok(None) => return Ok(()),
            Ok(Some(atom)) => atom,
        };
        match take_item(fields, alloc, depot, &atom) {
            Err(fault) => return Err(fault),
            Ok(()) => {}
        }
    }
}
