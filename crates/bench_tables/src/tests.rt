// A table of a million rows over a depot that keeps zeros as lengths; and that this depot keeps every other byte.
use crate::anew::{Rows, make_anew};
use me_disk::{Depot, DepotFault, Run, Slot, SparseDepot};
use std::process::Abort;
use std::test::Fail;

// So many zeros at once are kept as a length.
const ZEROS: [u8; 4096] = [0; 4096];

#[test]
fn a_million_rows_are_made_anew_page_by_page(rt: HostRuntime) -> Result<(), Fail> {
    for (rows, len) in [(Rows::Chunks, 4_000_000), (Rows::Index, 16_000_000)] {
        let runs = vec![in rt.alloc(); Run::Zero(len)]?;
        let mut depot = SparseDepot::new(rt.alloc(), Some(runs))?;
        assert!(rt; make_anew(rt.alloc(), &mut depot, rows) == Ok(len));
        assert_eq!(rt; depot.bytes_read(), len);
        assert_eq!(rt; depot.written(), len);
    }
    Ok(())
}

// Cuts the file behind its third byte, and writes zeros there that are kept as a length.
fn cut_and_clear(depot: &mut SparseDepot) -> Result<(), DepotFault> {
    depot.set_main_len(3)?;
    depot.write_main(3, &ZEROS)
}

#[test]
fn what_a_cut_takes_away_is_gone(rt: HostRuntime) -> Result<(), Fail> {
    let runs = vec![in rt.alloc(); Run::Bytes(b"abcdef".to_vec(rt.alloc())?)]?;
    let mut depot = SparseDepot::new(rt.alloc(), Some(runs))?;
    assert!(rt; cut_and_clear(&mut depot).is_ok());
    let mut into = [7_u8; 6];
    assert!(rt; depot.read_at(Slot::Main, 0, &mut into).is_ok());
    assert_eq!(rt; &into[..], b"abc\0\0\0".as_slice());
    Ok(())
}

// Makes the file anew of zeros and of a block as long that ends with another byte.
fn lay_a_block(depot: &mut SparseDepot, block: &[u8]) -> Result<(), DepotFault> {
    depot.begin_work()?;
    depot.append_work(&ZEROS)?;
    depot.append_work(block)?;
    depot.sync_work()?;
    depot.install_main()
}

#[test]
fn a_long_block_keeps_its_last_byte(rt: HostRuntime) -> Result<(), Fail> {
    let mut depot = SparseDepot::new(rt.alloc(), Some(Vec::new(rt.alloc())))?;
    let mut block = ZEROS;
    block[4095] = 7;
    assert!(rt; lay_a_block(&mut depot, &block).is_ok());
    let mut into = [9_u8; 2];
    assert!(rt; depot.read_at(Slot::Main, 8190, &mut into).is_ok());
    assert_eq!(rt; &into[..], b"\0\x07".as_slice());
    Ok(())
}
