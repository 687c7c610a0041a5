// Worked batches.
use crate::batches::{BatchFile, BatchRow, batch_goes, batch_ran, tells_ends, tells_stop};
use crate::files::{JOURNAL, PLAIN, SHORT, TITLED, WRITTEN_JOURNAL};
use crate::rows::{Held, Row, goes};
use crate::stops::{is_recovered, pick_of};
use me_disk::FailAt;
use metaedit_top::{FileEnd, Outcome, Summary, UsageFault};
use std::process::Abort;
use std::test::Fail;

const ONE: &[&str] = &["batch", "INAM=Hi", "f.wav"];

const TWO: &[&str] = &["batch", "INAM=Hi", "f.wav", "g.wav"];

const THREE: &[&str] = &["batch", "INAM=Hi", "f.wav", "g.wav", "h.wav"];

const CHANGED: Summary = Summary {
    changed: true,
    in_place: true,
    payload: 4,
    findings: 0,
};

const LEFT: Summary = Summary {
    changed: false,
    in_place: false,
    payload: 4,
    findings: 0,
};

const NOTHING: Held<'static> = Held {
    main: None,
    journal: None,
};

const PLAINLY: Held<'static> = Held {
    main: Some(PLAIN),
    journal: None,
};

// The batch goes as the row says.
fn check_row(rt: &(impl Abort + AllocGlobal), row: &BatchRow<'_>) -> Result<(), Fail> {
    assert!(rt; batch_goes(rt.alloc(), row, &[])?);
    Ok(())
}

#[test]
fn each_file_of_a_batch_has_its_own_end(rt: HostRuntime) -> Result<(), Fail> {
    let files = [
        BatchFile::leaving(PLAIN, TITLED),
        BatchFile::kept(NOTHING),
        BatchFile::leaving(TITLED, TITLED),
    ];
    let printed =
        "f.wav done changed in-place essence 4\ng.wav refused 3 NoFile\nh.wav done unchanged essence 4\nfiles 3 done 2\n";
    let row = BatchRow::ran(THREE, &files, 1, printed);
    check_row(&rt, &row)?;
    let ran = batch_ran(rt.alloc(), &row, &[])?;
    let ends = [FileEnd::Done(CHANGED), FileEnd::NoFile, FileEnd::Done(LEFT)];
    assert!(rt; tells_ends(&ran.outcome, &ends));
    Ok(())
}

#[test]
fn refusals_of_a_batch_are_told(rt: HostRuntime) -> Result<(), Fail> {
    let damaged = Held {
        main: Some(PLAIN),
        journal: Some(&JOURNAL[..75]),
    };
    let files = [
        BatchFile::kept(damaged),
        BatchFile::leaving(SHORT, SHORT),
        BatchFile::leaving(PLAIN, TITLED),
    ];
    let printed =
        "f.wav refused 4 JournalDamaged 75\ng.wav refused 5 NotSupported Truncated 36\nh.wav done changed in-place essence 4\nfiles 3 done 1\n";
    check_row(&rt, &BatchRow::ran(THREE, &files, 1, printed))
}

#[test]
fn a_rule_refuses_each_file_of_a_batch(rt: HostRuntime) -> Result<(), Fail> {
    let words = ["batch", "@nam=x", "f.wav", "a b.wav"];
    let files = [
        BatchFile::leaving(PLAIN, PLAIN),
        BatchFile::leaving(TITLED, TITLED),
    ];
    let printed =
        "f.wav refused 7 BASE-KIND @nam\na b.wav refused 7 BASE-KIND @nam\nfiles 2 done 0\n";
    check_row(&rt, &BatchRow::ran(&words, &files, 1, printed))
}

#[test]
fn a_journal_is_redone_before_a_batch(rt: HostRuntime) -> Result<(), Fail> {
    let before = Held {
        main: Some(PLAIN),
        journal: Some(JOURNAL),
    };
    let file = BatchFile {
        before,
        ..BatchFile::leaving(PLAIN, TITLED)
    };
    let printed = "f.wav done unchanged essence 4\nfiles 1 done 1\n";
    check_row(&rt, &BatchRow::ran(ONE, &[file], 0, printed))
}

#[test]
fn a_fault_of_one_device_ends_its_own_file_alone(rt: HostRuntime) -> Result<(), Fail> {
    let failing = [FailAt {
        call: 3,
        done: false,
    }];
    let files = [
        BatchFile::leaving(PLAIN, TITLED),
        BatchFile::failing(PLAIN, &failing),
        BatchFile::leaving(PLAIN, TITLED),
    ];
    let printed =
        "f.wav done changed in-place essence 4\ng.wav refused 9 DepotFault 1\nh.wav done changed in-place essence 4\nfiles 3 done 2\n";
    check_row(&rt, &BatchRow::ran(THREE, &files, 1, printed))
}

#[test]
fn a_batch_whose_output_fails_has_edited_its_files(rt: HostRuntime) -> Result<(), Fail> {
    let files = [
        BatchFile::leaving(PLAIN, TITLED),
        BatchFile::leaving(TITLED, TITLED),
    ];
    let row = BatchRow {
        line: "refused 11 OutFault\n",
        ..BatchRow::ran(TWO, &files, 11, "")
    };
    assert!(rt; batch_goes(rt.alloc(), &row, &[1])?);
    let row = BatchRow {
        printed: "f.wav ",
        ..row
    };
    assert!(rt; batch_goes(rt.alloc(), &row, &[2])?);
    let ran = batch_ran(rt.alloc(), &row, &[2])?;
    let ends = [FileEnd::Done(CHANGED), FileEnd::Done(LEFT)];
    assert!(rt; tells_ends(&ran.outcome, &ends));
    Ok(())
}

// A file that is left as it is.
const SAME: BatchFile<'static> = BatchFile {
    before: PLAINLY,
    failing: &[],
    after: PLAINLY,
};

const BOTH: &[BatchFile<'static>] = &[SAME, SAME];

// The words are refused with this line, and both files are left.
fn check_words(rt: &(impl Abort + AllocGlobal), words: &[&str], line: &str) -> Result<(), Fail> {
    check_row(rt, &BatchRow::words(words, BOTH, line))
}

#[test]
fn words_that_are_no_batch_are_refused(rt: HostRuntime) -> Result<(), Fail> {
    let rows: [&[&str]; 5] = [
        &["batch"],
        &["batch", "INAM=Hi"],
        &["batch", "-x=Hi", "f.wav", "g.wav"],
        &["batch", "INAM=Hi", "f.wav", "-g.wav"],
        &["batch", "--rules", "ebu", "INAM=Hi", "f.wav"],
    ];
    for words in rows {
        check_words(&rt, words, "refused 2 Usage Words\n")?;
    }
    Ok(())
}

#[test]
fn an_item_of_a_batch_that_is_none_is_refused(rt: HostRuntime) -> Result<(), Fail> {
    let rows: [(&[&str], &str); 3] = [
        (&["batch", "INAM", "f.wav"], "refused 2 Usage Item 1\n"),
        (&["batch", "=Hi", "f.wav"], "refused 2 Usage Item 1\n"),
        (
            &["batch", "XXXX=1", "f.wav", "f.wav"],
            "refused 2 Usage Field 1\n",
        ),
    ];
    for (words, line) in rows {
        check_words(&rt, words, line)?;
    }
    Ok(())
}

#[test]
fn a_file_is_named_once_in_a_batch(rt: HostRuntime) -> Result<(), Fail> {
    let words = ["batch", "INAM=Hi", "f.wav", "f.wav"];
    check_words(&rt, &words, "refused 2 Usage SameFile 2\n")?;
    let words = ["batch", "INAM=Hi", "f.wav", "g.wav", "f.wav", "g.wav"];
    check_words(&rt, &words, "refused 2 Usage SameFile 3\n")
}

// Sixty-four files are a batch, and one more is none.
#[test]
fn a_batch_has_at_most_64_files(rt: HostRuntime) -> Result<(), Fail> {
    let mut words = ["f.wav"; 67];
    words[0] = "batch";
    words[1] = "INAM=Hi";
    check_words(&rt, &words[..66], "refused 2 Usage SameFile 2\n")?;
    check_words(&rt, &words, "refused 2 Usage Words\n")
}

#[test]
fn a_batch_is_no_run_of_one_file(rt: HostRuntime) -> Result<(), Fail> {
    let row = Row::refused(ONE, PLAIN, 2, "refused 2 Usage UnknownCommand\n");
    assert!(rt;
        goes(
            rt.alloc(),
            &row,
            &Outcome::Usage(UsageFault::UnknownCommand)
        )?
    );
    Ok(())
}

#[test]
fn four_rounds_leave_each_file_beside_its_journal(rt: HostRuntime) -> Result<(), Fail> {
    let after = Held {
        main: Some(PLAIN),
        journal: Some(WRITTEN_JOURNAL),
    };
    let file = BatchFile {
        after,
        ..BatchFile::leaving(PLAIN, TITLED)
    };
    let files = [file, file];
    let row = BatchRow::stopped(TWO, &files, 4);
    check_row(&rt, &row)?;
    let ran = batch_ran(rt.alloc(), &row, &[])?;
    assert!(rt; tells_stop(&ran.outcome, &[None, None]));
    Ok(())
}

#[test]
fn a_stop_tells_the_ends_that_there_are(rt: HostRuntime) -> Result<(), Fail> {
    let files = [
        BatchFile::kept(NOTHING),
        BatchFile::leaving(PLAIN, PLAIN),
        BatchFile::leaving(TITLED, TITLED),
    ];
    let row = BatchRow::stopped(THREE, &files, 0);
    check_row(&rt, &row)?;
    let ran = batch_ran(rt.alloc(), &row, &[])?;
    let ends = [Some(FileEnd::NoFile), None, Some(FileEnd::Done(LEFT))];
    assert!(rt; tells_stop(&ran.outcome, &ends));
    Ok(())
}

#[test]
fn eight_rounds_end_an_edit_in_place(rt: HostRuntime) -> Result<(), Fail> {
    let file = BatchFile::leaving(PLAIN, TITLED);
    let files = [file, file];
    let printed =
        "f.wav done changed in-place essence 4\ng.wav done changed in-place essence 4\nfiles 2 done 2\n";
    let row = BatchRow {
        rounds: Some(8),
        ..BatchRow::ran(TWO, &files, 0, printed)
    };
    check_row(&rt, &row)
}

// So many rounds are made of two files, and then the k-th crash: each is recovered as this file.
fn check_crash(
    rt: &(impl Abort + AllocGlobal),
    rounds: u64,
    k: u64,
    want: &[u8],
) -> Result<(), Fail> {
    let file = BatchFile::leaving(PLAIN, want);
    let files = [file, file];
    let row = BatchRow::stopped(TWO, &files, rounds);
    let ran = batch_ran(rt.alloc(), &row, &[])?;
    assert!(rt; ran.depots.len() == 2);
    for depot in ran.depots {
        assert!(rt; is_recovered(rt.alloc(), depot.reopen(pick_of(k)), want)?);
    }
    Ok(())
}

#[test]
fn a_batch_stopped_after_any_round_leaves_each_file_old_or_new(
    rt: HostRuntime,
) -> Result<(), Fail> {
    for rounds in 0..9 {
        let want = if rounds < 4 { PLAIN } else { TITLED };
        for k in 0..31 {
            check_crash(&rt, rounds, k, want)?;
        }
    }
    Ok(())
}
