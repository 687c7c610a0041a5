// Worked edits of the names of streams.
use crate::{FormAt, NamesAt, StreamName, name_spans};
use avi_names::NamesFault;
use me_disk::{Run, SparseDepot};
use part_tree::{Bytes, NoMemory, Span};
use std::alloc::Global;
use std::test::Fail;

// Two streams, of which the first has a name.
const FILE: &[u8] =
    b"RIFF\x40\0\0\0AVI LIST\x28\0\0\0hdrlLIST\x10\0\0\0strlstrn\x03\0\0\0Hi\0\0LIST\x04\0\0\0strlLIST\x04\0\0\0movi";

const STREAMS: [Span; 2] = [Span { at: 36, len: 12 }, Span { at: 60, len: 0 }];

// A depot that holds these bytes.
fn held(alloc: Global, bytes: &[u8]) -> Result<SparseDepot, NoMemory> {
    let Ok(runs) = vec![in alloc; Run::Bytes(Vec::from_slice(alloc, bytes)?)] else {
        return Err(NoMemory);
    };
    SparseDepot::new(alloc, Some(runs))
}

// What an edit of one stream's name makes of the file.
fn edited(alloc: Global, stream: u32, body: Option<Bytes>) -> Result<NamesAt, NamesFault> {
    let Ok(mut depot) = held(alloc, FILE) else {
        return Err(NamesFault::Memory);
    };
    let form = FormAt {
        len: 72,
        size: 64,
        others: 3,
    };
    let hdrl = Span { at: 20, len: 40 };
    let names = [StreamName { stream, body }];
    name_spans(alloc, &mut depot, &form, hdrl, &STREAMS, &names)
}

#[test]
fn a_name_of_the_same_length_is_one_span(rt: HostRuntime) -> Result<(), Fail> {
    let body = Bytes::new(rt.alloc(), b"Ho\0")?;
    let named = edited(rt.alloc(), 0, Some(body))?;
    assert_eq!(rt; (named.at, named.next), (12, 60));
    assert_eq!(rt; (named.fits, named.lacks_pad), (true, false));
    assert_eq!(rt; (named.was, named.now), (1, 1));
    assert_eq!(rt; named.cuts.len(), 1);
    assert_eq!(rt; named.cuts[0].span, Span { at: 36, len: 12 });
    assert_eq!(rt;
        named.cuts[0].bytes.as_slice(),
        b"strn\x03\0\0\0Ho\0\0".as_slice()
    );
    Ok(())
}

#[test]
fn a_new_name_stands_in_its_list_with_the_sizes_round_it(rt: HostRuntime) -> Result<(), Fail> {
    let body = Bytes::new(rt.alloc(), b"B\0")?;
    let named = edited(rt.alloc(), 1, Some(body))?;
    assert_eq!(rt; (named.fits, named.was, named.now), (false, 0, 1));
    let rows = [
        (Span { at: 16, len: 4 }, b"\x32\0\0\0".as_slice()),
        (Span { at: 52, len: 4 }, b"\x0e\0\0\0".as_slice()),
        (Span { at: 60, len: 0 }, b"strn\x02\0\0\0B\0".as_slice()),
    ];
    assert_eq!(rt; named.cuts.len(), rows.len());
    for i in 0..rows.len() {
        assert_eq!(rt; named.cuts[i].span, rows[i].0);
        assert_eq!(rt; named.cuts[i].bytes.as_slice(), rows[i].1);
    }
    Ok(())
}

#[test]
fn a_name_that_goes_leaves_padding(rt: HostRuntime) -> Result<(), Fail> {
    let named = edited(rt.alloc(), 0, None)?;
    assert_eq!(rt; (named.fits, named.was, named.now), (true, 1, 1));
    assert_eq!(rt; named.cuts.len(), 1);
    assert_eq!(rt; named.cuts[0].span, Span { at: 36, len: 12 });
    assert_eq!(rt;
        named.cuts[0].bytes.as_slice(),
        b"JUNK\x04\0\0\0".as_slice()
    );
    assert_eq!(rt; named.cuts[0].keep, 4);
    Ok(())
}

#[test]
fn a_stream_that_isnt_there_has_no_spans(rt: HostRuntime) -> Result<(), Fail> {
    let body = Bytes::new(rt.alloc(), b"B\0")?;
    let named = edited(rt.alloc(), 2, Some(body))?;
    assert_eq!(rt; (named.fits, named.was, named.now), (true, 0, 0));
    assert_eq!(rt; named.cuts.len(), 0);
    Ok(())
}
