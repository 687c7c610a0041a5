// Worked files.
use crate::{AviMap, Inside, Reading, read_avi, read_chunks};
use me_disk::{Run, SparseDepot};
use part_tree::{Base, FieldName, FourCc, NoMemory, ReadFault, Span, Why};
use std::alloc::Global;
use std::test::Fail;

// A frame, a movi and the header of a chunk that passes the end.
const LIST: [u8; 34] = *b"00db\x03\0\0\0abc.LIST\x04\0\0\0movi00db\x09\0\0\0..";

// A form with a stream that has an index, with a list of fields, a movi and an index; a further form; and a tail.
const SHORT: &[u8] =
    b"RIFF\x6a\0\0\0AVI LIST\x20\0\0\0hdrlLIST\x14\0\0\0strlindx\x08\0\0\0\0\0\0\0\0\0\0\0LIST\x0e\0\0\0INFOINAM\x02\0\0\0A\0LIST\x10\0\0\0movi00db\x04\0\0\0abcdidx1\0\0\0\0idx1\0\0\0\0RIFF\x10\0\0\0AVIXLIST\x04\0\0\0movi..";

// A form with a list of fields, a movi of one frame and an index of it; a further form; and a tail.
const FILE: &[u8] =
    b"RIFF\x56\0\0\0AVI LIST\x04\0\0\0hdrlLIST\x0e\0\0\0INFOINAM\x02\0\0\0A\0LIST\x10\0\0\0movi00db\x04\0\0\0abcdidx1\x10\0\0\x0000db\x10\0\0\0\x04\0\0\0\x04\0\0\0RIFF\x10\0\0\0AVIXLIST\x04\0\0\0movi..";

// The same index, whose frame stands nowhere.
const LOST: &[u8] =
    b"RIFF\x40\0\0\0AVI LIST\x04\0\0\0hdrlLIST\x10\0\0\0movi00db\x04\0\0\0abcdidx1\x10\0\0\x0001db\x10\0\0\0\x04\0\0\0\x04\0\0\0";

// Two streams, of which the first has a name.
const NAMED: &[u8] =
    b"RIFF\x40\0\0\0AVI LIST\x28\0\0\0hdrlLIST\x10\0\0\0strlstrn\x03\0\0\0Hi\0\0LIST\x04\0\0\0strlLIST\x04\0\0\0movi";

const NO_MOVI: &[u8] = b"RIFF\x10\0\0\0AVI LIST\x04\0\0\0hdrl";

// A depot that holds these bytes.
fn held(alloc: Global, bytes: &[u8]) -> Result<SparseDepot, NoMemory> {
    let Ok(runs) = vec![in alloc; Run::Bytes(Vec::from_slice(alloc, bytes)?)] else {
        return Err(NoMemory);
    };
    SparseDepot::new(alloc, Some(runs))
}

fn read(alloc: Global, bytes: &[u8]) -> Result<AviMap, ReadFault> {
    let mut depot = held(alloc, bytes)?;
    read_avi(alloc, &mut depot)
}

// So many chunks were met.
fn met(alloc: Global, met: u64) -> Reading {
    Reading {
        met,
        parts: Vec::new(alloc),
        streams: Vec::new(alloc),
    }
}

#[test]
fn chunks_are_read_up_to_the_end(rt: HostRuntime) -> Result<(), Fail> {
    let mut depot = held(rt.alloc(), &LIST)?;
    let mut reading = met(rt.alloc(), 65_534);
    let rows = [
        (12, 24, Ok(())),
        (24, 34, Err(ReadFault::Why(Why::Truncated { at: 24 }))),
        (12, 24, Ok(())),
        (12, 24, Err(ReadFault::Why(Why::TooManyParts))),
    ];
    for (start, end, wanted) in rows {
        let read = read_chunks(&mut reading, &mut depot, Inside::Further, start, end);
        assert_eq!(rt; read, wanted);
    }
    Ok(())
}

#[test]
fn files_are_refused(rt: HostRuntime) -> Result<(), Fail> {
    let rows = [
        (SHORT, Why::IndexShort { at: 36 }),
        (LOST, Why::IndexBase),
        (NO_MOVI, Why::NoMovi),
        (&FILE[..110], Why::Truncated { at: 94 }),
        (&FILE[..11], Why::UnknownKind),
    ];
    for (bytes, wanted) in rows {
        let why = match read(rt.alloc(), bytes) {
            Err(ReadFault::Why(why)) => Some(why),
            _ => None,
        };
        assert_eq!(rt; why, Some(wanted));
    }
    Ok(())
}

#[test]
fn a_file_has_its_map(rt: HostRuntime) -> Result<(), Fail> {
    let map = read(rt.alloc(), FILE)?;
    assert_eq!(rt; map.forms.len(), 2);
    assert_eq!(rt; map.parts.len(), 7);
    assert_eq!(rt; map.movis.last().copied(), Some(Span { at: 114, len: 4 }));
    assert_eq!(rt; map.idx1.map(|old| old.base), Some(Base::Movi(54)));
    assert_eq!(rt; map.entries, 1);
    let names = map.fields.get(&FieldName::Info(FourCc(*b"INAM")));
    assert_eq!(rt; names.len(), 1);
    assert_eq!(rt; names[0].raw.as_slice(), b"A\0".as_slice());
    Ok(())
}

#[test]
fn streams_have_their_names(rt: HostRuntime) -> Result<(), Fail> {
    let map = read(rt.alloc(), NAMED)?;
    assert_eq!(rt; map.streams.len(), 2);
    let names = map.fields.get(&FieldName::Stream(0));
    assert_eq!(rt; names.len(), 1);
    assert_eq!(rt; names[0].raw.as_slice(), b"Hi\0".as_slice());
    assert_eq!(rt; map.fields.get(&FieldName::Stream(1)).len(), 0);
    Ok(())
}
