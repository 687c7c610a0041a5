// Runs of the depots and streams, compared with what the model says of them.
ghost use Rattle.std.specs.Prelude.{◌<◌, length};

use crate::{
    Depot, DepotFault, FailAt, MemoryDepot, MemorySink, MemorySource, Pick, Room, Run, Sink, Slot,
    Source, SparseDepot, StdSink, StdSource,
};
use std::alloc::Global;
use std::io;
use std::io::{Read, Write};
use std::process::Abort;
use std::test::Fail;

const AMPLE: Room = Room {
    calls: 100,
    bytes: 1000,
};

// What a rewrite to `new` leaves: the first listed call or the room decides.
#[derive(Clone, Copy)]
struct Rewrite {
    room: Room,
    failing: FailAt,
    done: bool,
    main: &'static str,
    written: u64,
}

const fn calls(calls: u64, bytes: u64) -> Room {
    Room { calls, bytes }
}

fn depot_of(alloc: Global, main: &[u8], room: Room, failing: FailAt) -> Result<MemoryDepot, Fail> {
    let main = main.to_vec(alloc)?;
    let failing = [failing].to_vec(alloc)?;
    Ok(MemoryDepot::new(alloc, Some(main), None, room, failing)?)
}

fn install_new(depot: &mut MemoryDepot) -> Result<(), DepotFault> {
    depot.begin_work()?;
    depot.append_work(b"new")?;
    depot.sync_work()?;
    depot.install_main()
}

fn check_rewrite(rt: &impl Abort, depot: &mut MemoryDepot, row: Rewrite) {
    assert_eq!(rt; install_new(depot).is_ok(), row.done);
    assert_eq!(rt; depot.content(Slot::Main), Some(row.main.as_bytes()));
    assert_eq!(rt; depot.written(), row.written);
    assert_eq!(rt; depot.faults(), if row.done { 0 } else { 1 });
}

#[test]
fn a_depot_in_memory_fails_where_it_is_listed_or_has_no_room(rt: HostRuntime) -> Result<(), Fail> {
    let never = FailAt {
        call: 9,
        done: false,
    };
    let rows = [
        Rewrite {
            room: AMPLE,
            failing: never,
            done: true,
            main: "new",
            written: 3,
        },
        Rewrite {
            room: AMPLE,
            failing: FailAt {
                call: 1,
                done: false,
            },
            done: false,
            main: "old!",
            written: 0,
        },
        Rewrite {
            room: AMPLE,
            failing: FailAt {
                call: 2,
                done: false,
            },
            done: false,
            main: "old!",
            written: 0,
        },
        Rewrite {
            room: AMPLE,
            failing: FailAt {
                call: 2,
                done: true,
            },
            done: false,
            main: "old!",
            written: 3,
        },
        Rewrite {
            room: AMPLE,
            failing: FailAt {
                call: 4,
                done: false,
            },
            done: false,
            main: "old!",
            written: 3,
        },
        Rewrite {
            room: AMPLE,
            failing: FailAt {
                call: 4,
                done: true,
            },
            done: false,
            main: "new",
            written: 3,
        },
        Rewrite {
            room: calls(4, 3),
            failing: never,
            done: true,
            main: "new",
            written: 3,
        },
        Rewrite {
            room: calls(3, 3),
            failing: never,
            done: false,
            main: "old!",
            written: 3,
        },
        Rewrite {
            room: calls(4, 2),
            failing: never,
            done: false,
            main: "old!",
            written: 0,
        },
        Rewrite {
            room: calls(0, 9),
            failing: never,
            done: false,
            main: "old!",
            written: 0,
        },
    ];
    for row in rows {
        let mut depot = depot_of(rt.alloc(), b"old!", row.room, row.failing)?;
        check_rewrite(&rt, &mut depot, row);
    }
    Ok(())
}

// Writes where `Main` is long enough.
fn overwrite(depot: &mut MemoryDepot, at: u64, bytes: &[u8]) -> Result<(), DepotFault> {
    let long_enough = match depot.content(Slot::Main) {
        Some(main) => at as usize <= main.len(),
        None => false,
    };
    if !long_enough {
        return Err(DepotFault);
    }
    depot.write_main(at, bytes)
}

fn overwrite_twice(depot: &mut MemoryDepot) -> Result<(), DepotFault> {
    overwrite(depot, 1, b"XY")?;
    overwrite(depot, 5, b"ZZZ")?;
    depot.sync_main()
}

#[test]
fn a_stopped_depot_opens_again_on_what_the_crash_left(rt: HostRuntime) -> Result<(), Fail> {
    let never = FailAt {
        call: 9,
        done: false,
    };
    let rows = [
        (0, Pick::After, "abcdef"),
        (1, Pick::Before, "abcdef"),
        (1, Pick::After, "aXYdef"),
        (1, Pick::Torn(1), "aXcdef"),
        (2, Pick::Before, "abcdef"),
        (2, Pick::Torn(0), "abcdef"),
        (2, Pick::Torn(3), "aXYdeZ"),
        (2, Pick::Torn(4), "aXYdeZZ"),
        (2, Pick::After, "aXYdeZZZ"),
        (3, Pick::Before, "aXYdeZZZ"),
    ];
    for (stop, pick, want) in rows {
        let mut depot = depot_of(rt.alloc(), b"abcdef", calls(5, 8), never)?;
        depot.stop_after(stop);
        assert_eq!(rt; overwrite_twice(&mut depot).is_ok(), stop == 3);
        let mut again = depot.reopen(pick);
        assert_eq!(rt;
            again.content(Slot::Main),
            Some(want.as_bytes()),
            "stopped after {stop}"
        );
        assert_eq!(rt; (again.faults(), again.written()), (0, 0));
        assert_eq!(rt; again.has(Slot::Work)?, false);
    }
    Ok(())
}

#[test]
fn the_room_that_is_left_is_kept(rt: HostRuntime) -> Result<(), Fail> {
    let failing = FailAt {
        call: 1,
        done: false,
    };
    let mut depot = depot_of(rt.alloc(), b"old!", calls(4, 3), failing)?;
    assert!(rt; depot.begin_work().is_err());
    let mut again = depot.reopen(Pick::After);
    assert!(rt; install_new(&mut again).is_err());
    assert_eq!(rt; again.content(Slot::Main), Some(b"old!".as_slice()));
    Ok(())
}

fn put_journal(depot: &mut impl Depot, bytes: &[u8]) -> Result<(), DepotFault>
    requires { length bytes.now < 100 }
{
    depot.begin_work()?;
    depot.append_work(bytes)?;
    depot.sync_work()?;
    depot.install_journal()
}

#[test]
fn the_journal_is_taken_and_given_away(rt: HostRuntime) -> Result<(), Fail> {
    let never = FailAt {
        call: 99,
        done: false,
    };
    let mut depot = depot_of(rt.alloc(), b"abc", AMPLE, never)?;
    put_journal(&mut depot, b"redo")?;
    assert_eq!(rt; depot.content(Slot::Journal), Some(b"redo".as_slice()));
    assert_eq!(rt; depot.content(Slot::Work), None);
    depot.drop_journal()?;
    assert_eq!(rt; depot.content(Slot::Journal), None);
    Ok(())
}

#[test]
fn work_is_made_and_given_away(rt: HostRuntime) -> Result<(), Fail> {
    let never = FailAt {
        call: 99,
        done: false,
    };
    let mut depot = depot_of(rt.alloc(), b"abc", AMPLE, never)?;
    depot.begin_work()?;
    assert_eq!(rt; depot.content(Slot::Work), Some(b"".as_slice()));
    depot.drop_work()?;
    assert_eq!(rt; depot.content(Slot::Work), None);
    Ok(())
}

#[test]
fn a_source_gives_its_bytes_in_order(rt: HostRuntime) -> Result<(), Fail> {
    let bytes = b"abcde".to_vec(rt.alloc())?;
    let failing = [2].to_vec(rt.alloc())?;
    let mut source = MemorySource::new(bytes, failing);
    let mut into = [0u8; 3];
    assert_eq!(rt; source.read(&mut into).ok(), Some(3));
    assert_eq!(rt; &into, b"abc");
    assert!(rt; source.read(&mut into).is_err());
    assert_eq!(rt; source.read(&mut into).ok(), Some(2));
    assert_eq!(rt; &into, b"dec");
    assert_eq!(rt; source.read(&mut into).ok(), Some(0));
    Ok(())
}

// A reader that gives a byte a call, and a writer that takes one. The call with this number fails.
#[derive(Drop)]
struct Drip {
    bytes: &'static [u8],
    calls: u64,
    failing: u64,
}

impl Read for Drip {
    fn read(&mut self, buf: &mut [u8]) -> io::Result<usize> {
        self.calls = self.calls.saturating_add(1);
        if self.calls == self.failing {
            return Err(io::ErrorKind::Other.into());
        }
        match (self.bytes.split_first(), buf.first_mut()) {
            (Some((byte, rest)), Some(place)) => {
                *place = *byte;
                self.bytes = rest;
                Ok(1)
            }
            _ => Ok(0),
        }
    }
}

#[derive(Drop)]
struct Narrow<'a> {
    taken: &'a mut Vec<u8>,
    calls: u64,
    failing: u64,
    flushes: bool,
}

impl Write for Narrow<'_> {
    fn write(&mut self, buf: &[u8]) -> io::Result<usize> {
        self.calls = self.calls.saturating_add(1);
        if self.calls == self.failing {
            return Err(io::ErrorKind::Other.into());
        }
        match buf.first() {
            Some(byte) => {
                self.taken.push(*byte)?;
                Ok(1)
            }
            None => Ok(0),
        }
    }

    fn flush(&mut self) -> io::Result<()> {
        if self.flushes {
            return Ok(());
        }
        Err(io::ErrorKind::Other.into())
    }
}

#[test]
fn a_source_over_a_reader_tells_its_errors(rt: HostRuntime) -> Result<(), Fail> {
    let mut source = StdSource::new(Drip {
        bytes: b"abc",
        calls: 0,
        failing: 2,
    });
    let mut into = [0u8; 3];
    for (count, byte) in [
        (Some(1), b'a'),
        (None, b'a'),
        (Some(1), b'b'),
        (Some(1), b'c'),
        (Some(0), b'c'),
    ] {
        assert_eq!(rt; source.read(&mut into).ok(), count);
        assert_eq!(rt; into[0], byte);
    }
    Ok(())
}

#[test]
fn a_sink_over_a_writer_takes_each_piece_whole_or_tells_a_fault(
    rt: HostRuntime,
) -> Result<(), Fail> {
    for (failing, flushes, ok, left) in [
        (0, true, true, b"abc".as_slice()),
        (3, true, false, b"ab"),
        (0, false, false, b"abc"),
    ] {
        let mut taken = Vec::new(rt.alloc());
        let mut sink = StdSink::new(Narrow {
            taken: &mut taken,
            calls: 0,
            failing,
            flushes,
        });
        assert_eq!(rt; sink.write_all(b"abc").is_ok(), ok);
        drop(sink);
        assert_eq!(rt; taken.as_slice(), left);
    }
    Ok(())
}

#[test]
fn a_sink_takes_whole_pieces(rt: HostRuntime) -> Result<(), Fail> {
    let failing = [2].to_vec(rt.alloc())?;
    let mut sink = MemorySink::new(rt.alloc(), 5, failing)?;
    assert!(rt; sink.write_all(b"abc").is_ok());
    assert!(rt; sink.write_all(b"d").is_err());
    assert!(rt; sink.write_all(b"def").is_err());
    assert!(rt; sink.write_all(b"de").is_ok());
    assert_eq!(rt; sink.written(), b"abcde".as_slice());
    Ok(())
}

// Bytes of `Main`, from a place on.
#[derive(Clone, Copy)]
struct Shown {
    at: u64,
    bytes: &'static [u8],
}

const fn shows(at: u64, bytes: &'static [u8]) -> Shown {
    Shown { at, bytes }
}

fn check_read(rt: &impl Abort, depot: &mut SparseDepot, row: Shown) {
    let mut into = [7u8; 8];
    let count = row.bytes.len().min(8);
    assert!(rt;
        depot
            .read_at(Slot::Main, row.at, &mut into[..count])
            .is_ok()
    );
    assert_eq!(rt; &into[..count], row.bytes);
}

fn check_reads(rt: &impl Abort, depot: &mut SparseDepot, rows: &[Shown], sum: u64) {
    for row in rows {
        check_read(rt, depot, *row);
    }
    assert_eq!(rt; depot.bytes_read(), sum);
}

fn check_counts(rt: &impl Abort, depot: &SparseDepot, written: u64, faults: u64) {
    assert_eq!(rt; depot.written(), written);
    assert_eq!(rt; depot.faults(), faults);
}

// 5,000,000,000 zeros with `abcd` before and `xyz` after.
fn large_depot(alloc: Global) -> Result<SparseDepot, Fail> {
    let mut runs = Vec::new(alloc);
    runs.push(Run::Bytes(b"abcd".to_vec(alloc)?))?;
    runs.push(Run::Zero(5_000_000_000))?;
    runs.push(Run::Bytes(b"xyz".to_vec(alloc)?))?;
    Ok(SparseDepot::new(alloc, Some(runs))?)
}

#[test]
fn a_sparse_depot_reads_over_runs(rt: HostRuntime) -> Result<(), Fail> {
    let mut depot = large_depot(rt.alloc())?;
    let rows = [
        shows(0, b"abcd\0"),
        shows(2_500_000_000, b"\0\0\0"),
        shows(5_000_000_002, b"\0\0xyz"),
        shows(5_000_000_007, b""),
    ];
    check_reads(&rt, &mut depot, &rows, 13);
    check_counts(&rt, &depot, 0, 0);
    Ok(())
}

fn write_over(depot: &mut SparseDepot) -> Result<(), DepotFault> {
    depot.write_main(2, b"PQRS")?;
    depot.write_main(3, b"T")?;
    depot.write_main(100, b"in")?;
    depot.write_main(5_000_000_006, b"longer")
}

fn cut_and_lengthen(depot: &mut SparseDepot) -> Result<(), DepotFault> {
    depot.set_main_len(101)?;
    depot.write_main(101, b"end")
}

#[test]
fn a_sparse_depot_writes_over_runs(rt: HostRuntime) -> Result<(), Fail> {
    let mut depot = large_depot(rt.alloc())?;
    assert!(rt; write_over(&mut depot).is_ok());
    let rows = [
        shows(0, b"abPTRS\0"),
        shows(99, b"\0in\0"),
        shows(5_000_000_004, b"xylonger"),
    ];
    check_reads(&rt, &mut depot, &rows, 19);
    assert_eq!(rt; depot.len(Slot::Main).ok(), Some(5_000_000_012));
    check_counts(&rt, &depot, 13, 0);
    Ok(())
}

#[test]
fn a_cut_sparse_depot_grows_again(rt: HostRuntime) -> Result<(), Fail> {
    let mut depot = large_depot(rt.alloc())?;
    assert!(rt; write_over(&mut depot).is_ok());
    assert!(rt; cut_and_lengthen(&mut depot).is_ok());
    let rows = [shows(98, b"\0\0iend"), shows(0, b"abPTRS\0\0")];
    check_reads(&rt, &mut depot, &rows, 14);
    assert_eq!(rt; depot.len(Slot::Main).ok(), Some(104));
    check_counts(&rt, &depot, 16, 0);
    Ok(())
}

fn append_blocks(depot: &mut SparseDepot) -> Result<(), DepotFault> {
    depot.begin_work()?;
    depot.append_work(b"ab")?;
    depot.append_work(b"cd")?;
    depot.append_work(&[0; 65_536])?;
    depot.append_work(&[0; 65_536])?;
    depot.append_work(b"e")?;
    depot.sync_work()?;
    depot.install_main()
}

fn check_lens(rt: &impl Abort, depot: &mut SparseDepot, main: u64, journal: u64) {
    assert_eq!(rt; depot.len(Slot::Main).ok(), Some(main));
    assert_eq!(rt; depot.len(Slot::Journal).ok(), Some(journal));
    assert_eq!(rt; depot.has(Slot::Journal).ok(), Some(journal > 0));
    assert_eq!(rt; depot.has(Slot::Work).ok(), Some(false));
}

#[test]
fn a_sparse_depot_installs_what_it_made(rt: HostRuntime) -> Result<(), Fail> {
    let mut depot = SparseDepot::new(rt.alloc(), None)?;
    assert_eq!(rt; depot.has(Slot::Main).ok(), Some(false));
    check_lens(&rt, &mut depot, 0, 0);
    assert!(rt; append_blocks(&mut depot).is_ok());
    check_lens(&rt, &mut depot, 131_077, 0);
    let rows = [shows(1, b"bcd\0"), shows(131_073, b"\0\0\0e")];
    check_reads(&rt, &mut depot, &rows, 8);
    check_counts(&rt, &depot, 131_077, 0);
    Ok(())
}

#[test]
fn a_sparse_depot_keeps_a_journal(rt: HostRuntime) -> Result<(), Fail> {
    let mut depot = large_depot(rt.alloc())?;
    assert!(rt; put_journal(&mut depot, b"redo").is_ok());
    check_lens(&rt, &mut depot, 5_000_000_007, 4);
    assert!(rt; depot.sync_main().is_ok());
    assert!(rt; depot.drop_journal().is_ok());
    assert!(rt; depot.drop_work().is_ok());
    check_lens(&rt, &mut depot, 5_000_000_007, 0);
    check_counts(&rt, &depot, 4, 0);
    Ok(())
}

#[test]
fn a_sparse_depot_counts_reads_past_the_end(rt: HostRuntime) -> Result<(), Fail> {
    let mut depot = large_depot(rt.alloc())?;
    let mut into = [7u8; 4];
    assert!(rt; depot.read_at(Slot::Main, 5_000_000_004, &mut into).is_err());
    assert!(rt;
        depot
            .read_at(Slot::Main, 6_000_000_000, &mut into[..0])
            .is_err()
    );
    assert!(rt; depot.read_at(Slot::Journal, 0, &mut into).is_err());
    check_counts(&rt, &depot, 0, 3);
    assert_eq!(rt; depot.bytes_read(), 0);
    Ok(())
}

#[test]
fn a_sparse_depot_counts_lengths_past_the_last(rt: HostRuntime) -> Result<(), Fail> {
    let mut depot = large_depot(rt.alloc())?;
    assert!(rt; depot.write_main(u64::MAX, b"a").is_err());
    assert!(rt; depot.write_main((1 << 63) - 1, b"a").is_err());
    assert!(rt; depot.set_main_len(1 << 63).is_err());
    check_counts(&rt, &depot, 0, 3);
    check_lens(&rt, &mut depot, 5_000_000_007, 0);
    Ok(())
}

#[test]
fn a_longer_file_has_no_length(rt: HostRuntime) -> Result<(), Fail> {
    let mut runs = Vec::new(rt.alloc());
    runs.push(Run::Zero(1 << 63))?;
    let mut depot = SparseDepot::new(rt.alloc(), Some(runs))?;
    assert!(rt; depot.len(Slot::Main).is_err());
    check_counts(&rt, &depot, 0, 1);
    Ok(())
}
