// How the program ends: the status and the line of what its run answered.
use crate::{BatchOutcome, Outcome, Summary, UsageFault, Why, batch_line, code, finish, line_of};
use me_disk::MemorySink;
use std::process::Abort;
use std::test::Fail;

fn check(
    rt: &(impl Abort + AllocGlobal),
    outcome: &Outcome,
    status: u8,
    line: &[u8],
) -> Result<(), Fail> {
    let alloc = rt.alloc();
    assert!(rt; code(outcome) == status);
    assert!(rt; line_of(alloc, outcome)?.as_slice() == line);
    let mut err = MemorySink::new(alloc, 64, Vec::new(alloc))?;
    assert!(rt; finish(alloc, outcome, &mut err) == status);
    assert!(rt; err.written() == line);
    // a standard error that fails changes no status
    let mut closed = MemorySink::new(alloc, 0, Vec::new(alloc))?;
    assert!(rt; finish(alloc, outcome, &mut closed) == status);
    assert!(rt; closed.written().is_empty());
    Ok(())
}

#[test]
fn runs_are_told(rt: HostRuntime) -> Result<(), Fail> {
    let done = Summary {
        changed: true,
        in_place: true,
        payload: 4,
        findings: 0,
    };
    check(&rt, &Outcome::Done(done), 0, b"")?;
    let found = Summary {
        findings: 2,
        ..done
    };
    check(&rt, &Outcome::Done(found), 1, b"")?;
    let twice = Outcome::Usage(UsageFault::Twice { n: 2 });
    check(&rt, &twice, 2, b"refused 2 Usage Twice 2\n")?;
    check(&rt, &Outcome::NoFile, 3, b"refused 3 NoFile\n")?;
    let damaged = Outcome::JournalDamaged { at: 75 };
    check(&rt, &damaged, 4, b"refused 4 JournalDamaged 75\n")?;
    let cut_short = Outcome::NotSupported(Why::Truncated { at: 36 });
    check(&rt, &cut_short, 5, b"refused 5 NotSupported Truncated 36\n")?;
    let too_large = Outcome::TooLarge {
        size: 4_294_967_304,
        limit: 4_294_967_295,
    };
    let line = b"refused 8 TooLarge 4294967304 4294967295\n";
    check(&rt, &too_large, 8, line)?;
    let failed = Outcome::DepotFault { faults: 1 };
    check(&rt, &failed, 9, b"refused 9 DepotFault 1\n")?;
    let unprinted = Outcome::OutFault { edited: true };
    check(&rt, &unprinted, 11, b"refused 11 OutFault true\n")?;
    check(&rt, &Outcome::Memory, 12, b"refused 12 Memory\n")?;
    let same = BatchOutcome::Usage(UsageFault::SameFile { n: 2 });
    assert!(rt;
        batch_line(rt.alloc(), &same)?.as_slice() == b"refused 2 Usage SameFile 2\n".as_slice()
    );
    Ok(())
}
