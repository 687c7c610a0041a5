// A movie worked by hand, one with keys, and movies of which an atom or a chunk is refused.
use crate::chunks::astray_in;
use crate::texts::take_user;
use crate::{MovMap, read_mov};
use me_disk::{Depot, DepotFault, MemoryDepot, Room, Slot};
use part_tree::{FieldName, Fields, FourCc, KeyName, ReadFault, Role, Span, Track, Why};
use std::alloc::{AllocError, Global};
use std::test::Fail;

// `ftyp`; `moov` with a track whose `stbl` has a place, and a name; `mdat`.
const MOVIE: [u8; 119] =
    *b"\0\0\0\x0Cftypqt  \0\0\0_moov\0\0\04trak\0\0\0,mdia\0\0\0$minf\0\0\0\x1Cstbl\0\0\0\x14stco\0\0\0\0\0\0\0\x01\0\0\0w\0\0\0\x08free\0\0\0\x1Budta\0\0\0\x0F\xA9nam\0\x03\x15\xC7abc\0\0\0\0\0\0\0\x0Cmdat\x01\x02\x03\x04";

// `ftyp`; `moov` with a `meta` that is no key table, and one with two keys, of which the second is a field.
const KEYS: [u8; 170] =
    *b"\0\0\0\x0Cftypqt  \0\0\0\x9Emoov\0\0\0\x0Cmeta\0\0\0\0\0\0\0\x8Ameta\0\0\0!hdlr\0\0\0\0\0\0\0\0mdta\0\0\0\0\0\0\0\0\0\0\0\0\0\0\0\0%keys\0\0\0\0\0\0\0\x02\0\0\0\x0Cmdtaa b \0\0\0\x09mdtaa\0\0\0<ilst\0\0\0\x1A\0\0\0\x02\0\0\0\x12data\0\0\0\x01\0\0\0\0Hi\0\0\0\x1A\0\0\0\x01\0\0\0\x12data\0\0\0\x01\0\0\0\0no";

fn depot_of(alloc: Global, file: &[u8]) -> Result<MemoryDepot, AllocError> {
    let room = Room {
        calls: 10,
        bytes: 200,
    };
    match MemoryDepot::new(
        alloc,
        Some(file.to_vec(alloc)?),
        None,
        room,
        Vec::new(alloc),
    ) {
        Ok(depot) => Ok(depot),
        Err(_) => Err(AllocError),
    }
}

fn read(alloc: Global, file: &[u8]) -> Result<MovMap, ReadFault> {
    match depot_of(alloc, file) {
        Err(_) => Err(ReadFault::Memory),
        Ok(mut depot) => read_mov(alloc, &mut depot),
    }
}

#[test]
fn reads_a_movie(rt: HostRuntime) -> Result<(), Fail> {
    let mut movie = MOVIE;
    movie[71] = 115;
    let map = read(rt.alloc(), &movie)?;
    let places = [0, 12, 107, 20, 28, 36, 44, 52, 72, 80, 88, 103];
    assert_eq!(rt; map.parts.len(), places.len());
    for (part, at) in map.parts.iter().zip(&places) {
        assert_eq!(rt; part.at, *at);
    }
    assert_eq!(rt; map.parts[2].role, Role::Essence);
    assert_eq!(rt; map.parts[7].role, Role::Tables);
    assert_eq!(rt; map.parts[8].role, Role::Padding);
    assert_eq!(rt; map.parts[9].role, Role::UserData);
    assert_eq!(rt; map.parts[11].role, Role::Rest);
    let essence = [Span { at: 115, len: 4 }];
    assert_eq!(rt; map.mdats.as_slice(), essence.as_slice());
    let track = Track {
        chunks: Span { at: 60, len: 12 },
        wide: false,
        stsc: None,
        stsz: None,
    };
    assert_eq!(rt; map.tracks.as_slice(), [track].as_slice());
    assert_eq!(rt; map.moov.body, Span { at: 20, len: 87 });
    assert_eq!(rt; map.user.map(|atom| atom.at), Some(80));
    assert_eq!(rt; map.meta, None);
    let texts = map.fields.get(&FieldName::User(FourCc(*b"\xA9nam")));
    assert_eq!(rt; texts.len(), 1);
    assert_eq!(rt; texts[0].raw.as_slice(), b"abc".as_slice());
    Ok(())
}

#[test]
fn reads_keys(rt: HostRuntime) -> Result<(), Fail> {
    let map = read(rt.alloc(), &KEYS)?;
    assert_eq!(rt; map.meta.map(|atom| atom.at), Some(32));
    let Some(name) = KeyName::new(b"a") else {
        return Ok(());
    };
    let values = map.fields.get(&FieldName::Key(name));
    assert_eq!(rt; values.len(), 1);
    assert_eq!(rt;
        values[0].raw.as_slice(),
        b"\0\0\0\x01\0\0\0\0Hi".as_slice()
    );
    assert_eq!(rt; map.fields.name_at(1), None);
    Ok(())
}

#[test]
fn refuses_by_the_first_reason(rt: HostRuntime) -> Result<(), Fail> {
    // the place of four other bytes, these, and the refusal
    let rows: [(usize, [u8; 4], Why); 13] = [
        (4, *b"xtyp", Why::UnknownKind),
        (111, *b"moof", Why::Fragments { at: 107 }),
        (16, *b"xoov", Why::NoMoov),
        (111, *b"moov", Why::TwoMoov),
        (76, *b"cmov", Why::Compressed),
        (76, *b"rmra", Why::Reference),
        (76, *b"mvex", Why::Fragments { at: 72 }),
        (56, *b"saio", Why::OtherOffsets { track: 1 }),
        (64, *b"\0\0\0\x02", Why::TableShort { at: 52 }),
        (72, *b"\0\0\0\x07", Why::SizeSmall { at: 72 }),
        (88, *b"\0\0\0\x20", Why::Truncated { at: 88 }),
        (68, *b"\0\0\0\x72", Why::ChunkAstray { track: 1, chunk: 1 }),
        (68, *b"\0\0\0\x77", Why::ChunkAstray { track: 1, chunk: 1 }),
    ];
    for (at, word, why) in rows {
        let mut file = MOVIE;
        if at <= 115 {
            file[at] = word[0];
            file[at + 1] = word[1];
            file[at + 2] = word[2];
            file[at + 3] = word[3];
        }
        let fault = match read(rt.alloc(), &file) {
            Ok(_) => None,
            Err(fault) => Some(fault),
        };
        assert_eq!(rt; fault, Some(ReadFault::Why(why)));
    }
    Ok(())
}

// The first chunk that stands in no `mdat`, of a file that is the body of a table. The essence stands from 16 to 24.
fn astray<D: Depot>(depot: &mut D, wide: bool) -> Result<Option<u32>, DepotFault> {
    let len = depot.len(Slot::Main)?;
    let mdats = [Span { at: 16, len: 8 }];
    astray_in(depot, &mdats, wide, Span { at: 0, len })
}

#[test]
fn finds_a_chunk_astray(rt: HostRuntime) -> Result<(), Fail> {
    let rows: [(&[u8], bool, Option<u32>); 4] = [
        (b"\0\0\0\0\0\0\0\x02\0\0\0\x10\0\0\0\x17", false, None),
        (b"\0\0\0\0\0\0\0\x02\0\0\0\x10\0\0\0\x18", false, Some(2)),
        (b"\0\0\0\0\0\0\0\x01\0\0\0\0\0\0\0\x10", true, None),
        (b"\0\0\0\0\0\0\0\x01\0\0\0\0\0\0\0\x0F", true, Some(1)),
    ];
    for (body, wide, wanted) in rows {
        let mut depot = depot_of(rt.alloc(), body)?;
        assert_eq!(rt; astray(&mut depot, wide)?, wanted);
    }
    Ok(())
}

// The fields of user data, of a file that is its body.
fn fields_of<D: Depot>(alloc: Global, depot: &mut D) -> Result<Fields, ReadFault> {
    let len = match depot.len(Slot::Main) {
        Err(_) => return Err(ReadFault::Depot),
        Ok(len) => len,
    };
    let mut fields = Fields::new(alloc);
    take_user(&mut fields, alloc, depot, Span { at: 0, len })?;
    Ok(fields)
}

#[test]
fn reads_texts_of_user_data(rt: HostRuntime) -> Result<(), Fail> {
    // two texts in one item, one in another, an atom of another type, and an item that no texts fill
    let body =
        *b"\0\0\0\x13\xA9nam\0\x02\x15\xC7Hi\0\x01\0\x05!\0\0\0\x0D\xA9nam\0\x01\0\0?\0\0\0\x0Cabcd\0\0\0\0\0\0\0\x0B\xA9day\0\0\0";
    let mut depot = depot_of(rt.alloc(), &body)?;
    let fields = fields_of(rt.alloc(), &mut depot)?;
    let texts = fields.get(&FieldName::User(FourCc(*b"\xA9nam")));
    assert_eq!(rt; texts.len(), 3);
    assert_eq!(rt; texts[0].lang, 0x15C7);
    assert_eq!(rt; texts[0].raw.as_slice(), b"Hi".as_slice());
    assert_eq!(rt; texts[1].lang, 5);
    assert_eq!(rt; texts[2].raw.as_slice(), b"?".as_slice());
    assert_eq!(rt; fields.get(&FieldName::User(FourCc(*b"\xA9day"))).len(), 0);
    Ok(())
}
