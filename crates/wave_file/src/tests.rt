// Worked files and their maps, and malicious ones and why they are refused.
use crate::{WaveMap, read_wave};
use me_disk::{MemoryDepot, Room};
use part_tree::{BextField, FieldName, FourCc, Kind, ReadFault, Role, Why};
use std::alloc::{AllocError, Global};
use std::test::Fail;

// A plain file with the title `Hi`.
const F72: [u8; 72] = [
    0x52, 0x49, 0x46, 0x46, 0x40, 0x00, 0x00, 0x00, 0x57, 0x41, 0x56, 0x45, 0x66, 0x6D, 0x74, 0x20,
    0x10, 0x00, 0x00, 0x00, 0x01, 0x00, 0x01, 0x00, 0x44, 0xAC, 0x00, 0x00, 0x88, 0x58, 0x01, 0x00,
    0x02, 0x00, 0x10, 0x00, 0x64, 0x61, 0x74, 0x61, 0x04, 0x00, 0x00, 0x00, 0x01, 0x02, 0x03, 0x04,
    0x4C, 0x49, 0x53, 0x54, 0x10, 0x00, 0x00, 0x00, 0x49, 0x4E, 0x46, 0x4F, 0x49, 0x4E, 0x41, 0x4D,
    0x03, 0x00, 0x00, 0x00, 0x48, 0x69, 0x00, 0x00,
];

// An RF64 file whose sizes of the form and of `data` stand in `ds64`.
const RF64_84: [u8; 84] = [
    0x52, 0x46, 0x36, 0x34, 0xFF, 0xFF, 0xFF, 0xFF, 0x57, 0x41, 0x56, 0x45, 0x64, 0x73, 0x36, 0x34,
    0x1C, 0x00, 0x00, 0x00, 0x4C, 0x00, 0x00, 0x00, 0x00, 0x00, 0x00, 0x00, 0x04, 0x00, 0x00, 0x00,
    0x00, 0x00, 0x00, 0x00, 0x02, 0x00, 0x00, 0x00, 0x00, 0x00, 0x00, 0x00, 0x00, 0x00, 0x00, 0x00,
    0x66, 0x6D, 0x74, 0x20, 0x10, 0x00, 0x00, 0x00, 0x01, 0x00, 0x01, 0x00, 0x44, 0xAC, 0x00, 0x00,
    0x88, 0x58, 0x01, 0x00, 0x02, 0x00, 0x10, 0x00, 0x64, 0x61, 0x74, 0x61, 0xFF, 0xFF, 0xFF, 0xFF,
    0x01, 0x02, 0x03, 0x04,
];

// The bytes of a file with others from a place on in place of as many, or of none.
fn changed(
    alloc: Global,
    file: &[u8],
    at: usize,
    cut: usize,
    bytes: &[u8],
) -> Result<Vec<u8>, AllocError> {
    let mut new = Vec::new(alloc);
    if let Some(front) = file.get(..at) {
        new.extend_from_slice(front)?;
    }
    new.extend_from_slice(bytes)?;
    if let Some(back) = file.get(at.saturating_add(cut)..) {
        new.extend_from_slice(back)?;
    }
    Ok(new)
}

fn read(alloc: Global, file: Vec<u8>) -> Result<Result<WaveMap, ReadFault>, AllocError> {
    let room = Room {
        calls: 100,
        bytes: 1000,
    };
    match MemoryDepot::new(alloc, Some(file), None, room, Vec::new(alloc)) {
        Ok(mut depot) => Ok(read_wave(alloc, &mut depot)),
        Err(_) => Err(AllocError),
    }
}

#[test]
fn refuses_by_the_first_reason(rt: HostRuntime) -> Result<(), Fail> {
    let alloc = rt.alloc();
    let no_row = Why::RowMissing {
        id: FourCc(*b"abcd"),
    };
    // the file, the place of four other bytes, these, and the refusal
    let rows: [(&[u8], usize, &[u8; 4], Why); 15] = [
        (&F72, 16, b"\xff\xff\xff\xff", Why::Truncated { at: 12 }),
        (&F72, 4, b"\x03\0\0\0", Why::Truncated { at: 0 }),
        (&F72, 4, b"\x41\0\0\0", Why::Truncated { at: 0 }),
        (&F72, 4, b"\x27\0\0\0", Why::Truncated { at: 36 }),
        (&F72, 40, b"\x1d\0\0\0", Why::Truncated { at: 36 }),
        (&F72, 64, b"\x05\0\0\0", Why::Truncated { at: 60 }),
        (&F72, 0, b"RIFX", Why::UnknownKind),
        (&F72, 12, b"fmtx", Why::NoFmt),
        (&F72, 32, b"\0\0\x10\0", Why::BlockZero),
        (&F72, 36, b"fmt ", Why::TwoFmt),
        (&F72, 36, b"daty", Why::NoData),
        (&F72, 48, b"data", Why::TwoData),
        (&F72, 48, b"bext", Why::ShortBext { len: 16 }),
        (&RF64_84, 12, b"JUNK", Why::NoDs64),
        (
            &RF64_84,
            44,
            b"\xff\xff\xff\xff",
            Why::ShortDs64 { len: 28 },
        ),
    ];
    for (file, at, bytes, why) in rows.iter() {
        let fault = match read(alloc, changed(alloc, file, *at, 4, *bytes)?)? {
            Ok(_) => None,
            Err(fault) => Some(fault),
        };
        assert_eq!(rt; fault, Some(ReadFault::Why(*why)));
    }
    let longer = changed(alloc, &RF64_84, 20, 1, b"\x54")?;
    let file = changed(alloc, &longer, 48, 0, b"abcd\xff\xff\xff\xff")?;
    let fault = match read(alloc, file)? {
        Ok(_) => None,
        Err(fault) => Some(fault),
    };
    assert_eq!(rt; fault, Some(ReadFault::Why(no_row)));
    Ok(())
}

#[test]
fn maps_a_title(rt: HostRuntime) -> Result<(), Fail> {
    let alloc = rt.alloc();
    let map = read(alloc, changed(alloc, &F72, 0, 0, b"")?)??;
    assert_eq!(rt; map.kind, Kind::Wave);
    assert_eq!(rt; (map.len, map.form_end), (72, 72));
    assert_eq!(rt; (map.sound.at, map.sound.len, map.align), (44, 4, 2));
    assert_eq!(rt; map.parts.len(), 3);
    assert_eq!(rt; map.parts[2].role, Role::Info);
    assert_eq!(rt; (map.parts[2].at, map.parts[2].next), (48, 72));
    let title = map.fields.get(&FieldName::Info(FourCc(*b"INAM")));
    assert_eq!(rt; title.len(), 1);
    assert_eq!(rt; title[0].raw.as_slice(), b"Hi\0".as_slice());
    Ok(())
}

#[test]
fn maps_sizes_of_64_bits(rt: HostRuntime) -> Result<(), Fail> {
    let alloc = rt.alloc();
    let map = read(alloc, changed(alloc, &RF64_84, 0, 0, b"")?)??;
    assert_eq!(rt; map.kind, Kind::Rf64);
    assert_eq!(rt; (map.len, map.form_end), (84, 84));
    assert_eq!(rt; (map.sound.at, map.sound.len, map.align), (80, 4, 2));
    assert_eq!(rt; map.parts.len(), 3);
    assert_eq!(rt; map.parts[0].role, Role::Sizes);
    assert_eq!(rt; map.parts[2].role, Role::Essence);
    let twin = read(alloc, changed(alloc, &RF64_84, 0, 4, b"BW64")?)??;
    assert_eq!(rt; twin.kind, Kind::Bw64);
    Ok(())
}

#[test]
fn maps_bext_and_a_whole_chunk(rt: HostRuntime) -> Result<(), Fail> {
    let alloc = rt.alloc();
    let mut chunks = Vec::new(alloc);
    chunks.extend_from_slice(b"bext\x5c\x02\0\0")?;
    chunks.extend_from_slice(&[7; 602])?;
    chunks.extend_from_slice(b"CHiXML\x03\0\0\0<a>\0JUNK\0\0\0\0")?;
    let longer = changed(alloc, &F72, 4, 2, b"\xb8\x02")?;
    let map = read(alloc, changed(alloc, &longer, 12, 0, &chunks)?)??;
    assert_eq!(rt; map.parts.len(), 6);
    assert_eq!(rt; map.parts[0].role, Role::Bext);
    assert_eq!(rt; map.parts[2].role, Role::Padding);
    let history = map.fields.get(&FieldName::Bext(BextField::CodingHistory));
    assert_eq!(rt; history.len(), 1);
    assert_eq!(rt; history[0].raw.as_slice(), b"CH".as_slice());
    let name = map.fields.get(&FieldName::Bext(BextField::Originator));
    assert_eq!(rt; name.len(), 1);
    assert_eq!(rt; name[0].raw.as_slice(), [7; 32].as_slice());
    let text = map.fields.get(&FieldName::Whole(FourCc(*b"iXML")));
    assert_eq!(rt; text.len(), 1);
    assert_eq!(rt; text[0].raw.as_slice(), b"<a>".as_slice());
    Ok(())
}
