// Sources in memory.
use crate::{ReadStop, read_to_end};
use me_disk::{MemorySource, Source};
use std::test::Fail;

#[test]
fn sources(rt: HostRuntime) -> Result<(), Fail> {
    let mut bytes = Vec::new(rt.alloc());
    for _ in 0..10_000 {
        bytes.push(7)?;
    }
    let mut source = MemorySource::new(bytes, Vec::new(rt.alloc()));
    match read_to_end(rt.alloc(), &mut source) {
        Ok(read) => {
            assert_eq!(rt; read.as_slice().len(), 10_000);
            assert_eq!(rt; read.as_slice()[9_999], 7);
        }
        Err(_) => assert!(rt; false, "not read"),
    }
    let mut more = [0u8; 4];
    assert_eq!(rt; source.read(&mut more), Ok(0));
    Ok(())
}

#[test]
fn a_read_fails(rt: HostRuntime) -> Result<(), Fail> {
    let bytes = Vec::from_slice(rt.alloc(), b"FileName\n")?;
    let mut failing = Vec::new(rt.alloc());
    failing.push(2)?;
    let mut source = MemorySource::new(bytes, failing);
    match read_to_end(rt.alloc(), &mut source) {
        Ok(_) => assert!(rt; false, "read"),
        Err(stop) => assert_eq!(rt; stop, ReadStop::Read),
    }
    Ok(())
}
