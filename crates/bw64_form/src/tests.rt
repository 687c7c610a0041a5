// A worked BW64 file, and files that are refused.
use crate::read_bw64;
use me_disk::{MemoryDepot, Room};
use part_tree::{Kind, ReadFault, Why};
use std::alloc::{AllocError, Global};
use std::test::Fail;
use wave_file::WaveMap;

// A BW64 file whose sizes of the form and of `data` stand in `ds64`.
const BW64_84: [u8; 84] = [
    0x42, 0x57, 0x36, 0x34, 0xFF, 0xFF, 0xFF, 0xFF, 0x57, 0x41, 0x56, 0x45, 0x64, 0x73, 0x36, 0x34,
    0x1C, 0x00, 0x00, 0x00, 0x4C, 0x00, 0x00, 0x00, 0x00, 0x00, 0x00, 0x00, 0x04, 0x00, 0x00, 0x00,
    0x00, 0x00, 0x00, 0x00, 0x02, 0x00, 0x00, 0x00, 0x00, 0x00, 0x00, 0x00, 0x00, 0x00, 0x00, 0x00,
    0x66, 0x6D, 0x74, 0x20, 0x10, 0x00, 0x00, 0x00, 0x01, 0x00, 0x01, 0x00, 0x44, 0xAC, 0x00, 0x00,
    0x88, 0x58, 0x01, 0x00, 0x02, 0x00, 0x10, 0x00, 0x64, 0x61, 0x74, 0x61, 0xFF, 0xFF, 0xFF, 0xFF,
    0x01, 0x02, 0x03, 0x04,
];

// What is read of the file with other bytes at a place.
fn read(alloc: Global, at: usize, bytes: &[u8]) -> Result<Result<WaveMap, ReadFault>, AllocError> {
    let mut file = Vec::new(alloc);
    if let Some(front) = BW64_84.get(..at) {
        file.extend_from_slice(front)?;
    }
    file.extend_from_slice(bytes)?;
    if let Some(back) = BW64_84.get(at.saturating_add(bytes.len())..) {
        file.extend_from_slice(back)?;
    }
    let room = Room {
        calls: 100,
        bytes: 1000,
    };
    match MemoryDepot::new(alloc, Some(file), None, room, Vec::new(alloc)) {
        Ok(mut depot) => Ok(read_bw64(alloc, &mut depot)),
        Err(_) => Err(AllocError),
    }
}

#[test]
fn reads_the_form_with_ds64_first_alone(rt: HostRuntime) -> Result<(), Fail> {
    let alloc = rt.alloc();
    let map = read(alloc, 0, b"BW64")??;
    assert_eq!(rt; map.kind, Kind::Bw64);
    assert_eq!(rt; (map.sound.at, map.sound.len, map.align), (80, 4, 2));
    let rows: [(usize, &[u8], Why); 3] = [
        (12, b"JUNK", Why::NoDs64),
        (0, b"RF64", Why::UnknownKind),
        (8, b"AVI ", Why::UnknownKind),
    ];
    for (at, bytes, why) in rows.iter() {
        let fault = match read(alloc, *at, *bytes)? {
            Ok(_) => None,
            Err(fault) => Some(fault),
        };
        assert_eq!(rt; fault, Some(ReadFault::Why(*why)));
    }
    Ok(())
}
