// Files of a few rows.
use crate::{MakeFault, limit_of, make};
use me_disk::{FailAt, MemoryDepot, Room, Slot};
use part_tree::Kind;
use std::test::Fail;

const ROOM: Room = Room {
    calls: 16,
    bytes: 600_000,
};

// Whether bytes stand at a place.
fn stands(bytes: &[u8], at: usize, part: &[u8]) -> bool {
    match bytes.get(at..) {
        Some(rest) => rest.len() >= part.len() && &rest[..part.len()] == part,
        None => false,
    }
}

#[test]
fn pictures(rt: HostRuntime) -> Result<(), Fail> {
    let mut depot = MemoryDepot::new(rt.alloc(), None, None, ROOM, Vec::new(rt.alloc()))?;
    let made = make(rt.alloc(), &mut depot, Kind::Avi, 2);
    assert_eq!(rt; made, Ok(296));
    let bytes = depot.content(Slot::Main).expect(&rt, "a file");
    assert_eq!(rt; bytes.len(), 296);
    assert!(rt;
        stands(
            bytes,
            0,
            b"RIFF \x01\0\0AVI LIST\xc0\0\0\0hdrlavih8\0\0\0\0"
        )
    );
    assert!(rt; stands(bytes, 88, b"LISTt\0\0\0strlstrh8\0\0\0vids\0"));
    assert!(rt; stands(bytes, 164, b"strf(\0\0\0\0"));
    assert!(rt;
        stands(
            bytes,
            212,
            b"LIST$\0\0\0movi00db\x08\0\0\0\0\0\0\0\0\0\0\000db\x08\0\0\0\x01\0\0\0\0\0\0\0"
        )
    );
    assert!(rt;
        stands(
            bytes,
            256,
            b"idx1 \0\0\000db\x10\0\0\0\x04\0\0\0\x08\0\0\000db\x10\0\0\0\x14\0\0\0\x08\0\0\0"
        )
    );
    Ok(())
}

#[test]
fn samples(rt: HostRuntime) -> Result<(), Fail> {
    let mut depot = MemoryDepot::new(rt.alloc(), None, None, ROOM, Vec::new(rt.alloc()))?;
    let made = make(rt.alloc(), &mut depot, Kind::Mov, 2);
    assert_eq!(rt; made, Ok(204));
    let bytes = depot.content(Slot::Main).expect(&rt, "a file");
    let file =
        b"\0\0\0\x14ftypqt  \0\0\0\0qt  \0\0\0\x88moov\0\0\0htrak\0\0\0`mdia\0\0\0Xminf\0\0\0Pstbl\
        \0\0\0\x1cstsc\0\0\0\0\0\0\0\x01\0\0\0\x01\0\0\0\x01\0\0\0\x01\0\0\0\x14stsz\0\0\0\0\0\0\0\x08\0\0\0\x02\
        \0\0\0\x18stco\0\0\0\0\0\0\0\x02\0\0\0\xbc\0\0\0\xc4\0\0\0\x18udta\0\0\0\x10\xa9nam\0\x04\x15\xc7Reel\
        \0\0\0\x18free\0\0\0\0\0\0\0\0\0\0\0\0\0\0\0\0\0\0\0\x18mdat\0\0\0\0\0\0\0\0\0\0\0\0\0\0\0\x01";
    assert_eq!(rt; bytes, file.as_slice());
    Ok(())
}

#[test]
fn seconds(rt: HostRuntime) -> Result<(), Fail> {
    let mut depot = MemoryDepot::new(rt.alloc(), None, None, ROOM, Vec::new(rt.alloc()))?;
    let made = make(rt.alloc(), &mut depot, Kind::Wave, 2);
    assert_eq!(rt; made, Ok(577_032));
    let bytes = depot.content(Slot::Main).expect(&rt, "a file");
    assert_eq!(rt; bytes.len(), 577_032);
    assert!(rt; stands(bytes, 0, b"RIFF\0\xce\x08\0WAVEbextw\x02\0\0Reel 2\0"));
    assert!(rt; stands(bytes, 276, b"Archive\0"));
    assert!(rt; stands(bytes, 340, b"2024-01-3112:00:00\0\0\0\0\0\0\0\0\x01\0\0"));
    assert!(rt;
        stands(
            bytes,
            622,
            b"A=PCM,F=48000,W=24,M=stereo\r\n\0fmt \x10\0\0\0\x01\0\x02\0\x80\xbb\0\0\0e\x04\0\x06\0\x18\0"
        )
    );
    assert!(rt;
        stands(
            bytes,
            676,
            b"iXML\x09\0\0\0<BWFXML/>\0LIST\x12\0\0\0INFOINAM\x05\0\0\0Reel\0\0JUNK(\x01\0\0\0"
        )
    );
    assert!(rt; stands(bytes, 1024, b"data\0\xca\x08\0\0\0\0"));
    assert!(rt; stands(bytes, 289_031, b"\0\x01\0\0"));
    Ok(())
}

#[test]
fn a_call_fails(rt: HostRuntime) -> Result<(), Fail> {
    for call in 1..5 {
        let mut failing = Vec::new(rt.alloc());
        failing.push(FailAt { call, done: false })?;
        let mut depot = MemoryDepot::new(rt.alloc(), None, None, ROOM, failing)?;
        assert_eq!(rt;
            make(rt.alloc(), &mut depot, Kind::Avi, 1),
            Err(MakeFault::Depot)
        );
        assert!(rt; depot.content(Slot::Main).is_none());
    }
    assert_eq!(rt; limit_of(Kind::Wave) + limit_of(Kind::Mov), 1_014_000);
    Ok(())
}
