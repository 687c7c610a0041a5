// Worked rows: files, changes, and the places that they make.
ghost use Rattle.edit_planner.specs.Cells.{AreFine, IsFine};
ghost use Rattle.std.specs.Prelude.{IfOk, ◌≡◌, ◌+◌, ◌≤◌, ◌^◌, length};
ghost use Rattle.part_tree.specs.declared.field.Value.{Value};

use crate::{PlaceFault, PlaceRow, places_of};
use bext_fields::RawChange;
use me_disk::{MemoryDepot, Room};
use part_tree::{BextField, Bytes, FieldName, FourCc, NoMemory, Value};
use std::alloc::Global;
use std::test::Fail;
use unit_plan::{Place, What};
use wave_file::read_wave;

// A form of WAVE of this size with these chunks behind `fmt ` and `data`.
fn file_of(alloc: Global, size: u16, more: &[u8]) -> Result<Vec<u8>, Fail> {
    let mut file = Vec::new(alloc);
    file.extend_from_slice(b"RIFF")?;
    file.extend_from_slice(&u32::from(size).to_le_bytes())?;
    file.extend_from_slice(
        b"WAVEfmt \x10\0\0\0\x01\0\x01\0\x44\xac\0\0\x88\x58\x01\0\x02\0\x10\0",
    )?;
    file.extend_from_slice(b"data\x04\0\0\0\x01\x02\x03\x04")?;
    file.extend_from_slice(more)?;
    Ok(file)
}

// An RF64 file whose sizes of the form and of `data` stand in `ds64`.
const RF64_84: [u8; 84] = [
    0x52, 0x46, 0x36, 0x34, 0xFF, 0xFF, 0xFF, 0xFF, 0x57, 0x41, 0x56, 0x45, 0x64, 0x73, 0x36, 0x34,
    0x1C, 0x00, 0x00, 0x00, 0x4C, 0x00, 0x00, 0x00, 0x00, 0x00, 0x00, 0x00, 0x04, 0x00, 0x00, 0x00,
    0x00, 0x00, 0x00, 0x00, 0x02, 0x00, 0x00, 0x00, 0x00, 0x00, 0x00, 0x00, 0x00, 0x00, 0x00, 0x00,
    0x66, 0x6D, 0x74, 0x20, 0x10, 0x00, 0x00, 0x00, 0x01, 0x00, 0x01, 0x00, 0x44, 0xAC, 0x00, 0x00,
    0x88, 0x58, 0x01, 0x00, 0x02, 0x00, 0x10, 0x00, 0x64, 0x61, 0x74, 0x61, 0xFF, 0xFF, 0xFF, 0xFF,
    0x01, 0x02, 0x03, 0x04,
];

// The title becomes `Hi`.
fn title(alloc: Global) -> Result<RawChange, NoMemory>
    ensures { IfOk result (λ c. IsFine c.name c.value) }
{
    let raw = Bytes::new(alloc, b"Hi\0")?;
    Ok(RawChange {
        name: FieldName::Info(FourCc(*b"INAM")),
        value: Some(Value { lang: 0, raw }),
    })
}

// `axml` becomes `C`.
fn axml(alloc: Global) -> Result<RawChange, NoMemory>
    ensures { IfOk result (λ c. IsFine c.name c.value) }
{
    let raw = Bytes::new(alloc, b"C")?;
    Ok(RawChange {
        name: FieldName::Whole(FourCc(*b"axml")),
        value: Some(Value { lang: 0, raw }),
    })
}

// The date of `bext`.
fn date(alloc: Global) -> Result<RawChange, NoMemory>
    ensures { IfOk result (λ c. IsFine c.name c.value) }
{
    let raw = Bytes::new(alloc, b"2024-01-31")?;
    Ok(RawChange {
        name: FieldName::Bext(BextField::OriginationDate),
        value: Some(Value { lang: 0, raw }),
    })
}

fn row_of(alloc: Global, file: Vec<u8>, change: RawChange) -> Result<PlaceRow, Fail>
    requires { IsFine change.name change.value }
{
    let room = Room {
        calls: 100,
        bytes: 1000,
    };
    let mut depot = MemoryDepot::new(alloc, Some(file), None, room, Vec::new(alloc))?;
    let map = read_wave(alloc, &mut depot)?;
    let row = places_of(alloc, &mut depot, &map, &[change])?;
    Ok(row)
}

// A place: from where to where, how many parts, and whether it stays, is padding, or changes.
fn shown(place: &Place) -> (u64, u64, u64, u8) {
    let kind = match &place.what {
        What::Stays => 0,
        What::Pads => 1,
        What::Changes(_) => 2,
    };
    (place.at, place.next, place.parts, kind)
}

// The bytes that a place changes to.
fn bytes_of(place: &Place) -> &[u8] {
    match &place.what {
        What::Changes(bytes) => bytes.as_slice(),
        _ => &[],
    }
}

const LIST: &[u8] = b"LIST\x10\0\0\0INFOINAM\x03\0\0\0Hi\0\0";

#[test]
fn a_new_list_stands_behind_all_but_padding(rt: HostRuntime) -> Result<(), Fail> {
    let alloc = rt.alloc();
    let plain = row_of(alloc, file_of(alloc, 40, b"")?, title(alloc)?)?;
    assert_eq!(rt; plain.places.len(), 3);
    assert_eq!(rt; shown(&plain.places[1]), (36, 48, 1, 0));
    assert_eq!(rt; shown(&plain.places[2]), (48, 48, 2, 2));
    assert_eq!(rt; bytes_of(&plain.places[2]), LIST);
    assert_eq!(rt; (plain.from, plain.end), (12, 48));
    let padded = row_of(
        alloc,
        file_of(alloc, 52, b"JUNK\x04\0\0\0abcd")?,
        title(alloc)?,
    )?;
    assert_eq!(rt; padded.places.len(), 4);
    assert_eq!(rt; shown(&padded.places[2]), (48, 48, 2, 2));
    assert_eq!(rt; shown(&padded.places[3]), (48, 60, 1, 1));
    Ok(())
}

#[test]
fn a_list_is_edited_once(rt: HostRuntime) -> Result<(), Fail> {
    let alloc = rt.alloc();
    // two titles, of which the first becomes the new one
    let more = b"LIST\x18\0\0\0INFOINAM\x02\0\0\0A\0INAM\x02\0\0\0B\0";
    let row = row_of(alloc, file_of(alloc, 72, more)?, title(alloc)?)?;
    assert_eq!(rt; row.places.len(), 3);
    assert_eq!(rt; shown(&row.places[2]), (48, 80, 2, 2));
    assert_eq!(rt; bytes_of(&row.places[2]), LIST);
    Ok(())
}

#[test]
fn a_long_list_is_read_again(rt: HostRuntime) -> Result<(), Fail> {
    let alloc = rt.alloc();
    // a comment of 4,288 bytes
    let mut more = b"LIST\xCC\x10\0\0INFOICMT\xC0\x10\0\0".to_vec(alloc)?;
    more.extend_from_slice(&[b'a'; 4_288])?;
    let row = row_of(alloc, file_of(alloc, 4_348, &more)?, title(alloc)?)?;
    assert_eq!(rt; row.places.len(), 3);
    assert_eq!(rt; shown(&row.places[2]), (48, 4_356, 3, 2));
    assert_eq!(rt; bytes_of(&row.places[2]).len(), 4_320);
    Ok(())
}

#[test]
fn one_chunk_of_a_whole_field_is_left(rt: HostRuntime) -> Result<(), Fail> {
    let alloc = rt.alloc();
    let more = b"axml\x01\0\0\0A\0axml\x02\0\0\0BB";
    let row = row_of(alloc, file_of(alloc, 60, more)?, axml(alloc)?)?;
    assert_eq!(rt; row.places.len(), 4);
    assert_eq!(rt; shown(&row.places[2]), (48, 58, 1, 2));
    assert_eq!(rt; bytes_of(&row.places[2]), b"axml\x01\0\0\0C\0".as_slice());
    assert_eq!(rt; shown(&row.places[3]), (58, 68, 0, 2));
    assert_eq!(rt; bytes_of(&row.places[3]).len(), 0);
    Ok(())
}

#[test]
fn a_new_bext_stands_before_the_format(rt: HostRuntime) -> Result<(), Fail> {
    let alloc = rt.alloc();
    let row = row_of(alloc, file_of(alloc, 40, b"")?, date(alloc)?)?;
    assert_eq!(rt; row.places.len(), 3);
    assert_eq!(rt; shown(&row.places[0]), (12, 12, 1, 2));
    let bytes = bytes_of(&row.places[0]);
    assert_eq!(rt; bytes.len(), 610);
    assert_eq!(rt; bytes.get(..8), Some(b"bext\x5a\x02\0\0".as_slice()));
    assert_eq!(rt; bytes.get(328..338), Some(b"2024-01-31".as_slice()));
    assert_eq!(rt; shown(&row.places[1]), (12, 36, 1, 0));
    Ok(())
}

#[test]
fn ds64_stands_before_the_places(rt: HostRuntime) -> Result<(), Fail> {
    let alloc = rt.alloc();
    let file = Vec::from_slice(alloc, &RF64_84)?;
    let row = row_of(alloc, file, title(alloc)?)?;
    assert_eq!(rt; (row.from, row.end), (48, 84));
    assert_eq!(rt; row.places.len(), 3);
    assert_eq!(rt; shown(&row.places[0]), (48, 72, 1, 0));
    assert_eq!(rt; shown(&row.places[1]), (72, 84, 1, 0));
    assert_eq!(rt; shown(&row.places[2]), (84, 84, 2, 2));
    Ok(())
}
