// Worked runs, by what each shows.
use crate::files::{
    CHECKED, DATED, EMPTY, EMPTY_TITLED, FRAMES, JOURNAL, LARGE, LARGE_TITLED, LOUD, LOUD_JOURNAL,
    MOVIE, NUMBERED, ODD, ODD_TITLED, PLAIN, RENAMED, SHORT, TITLED, TITLES, VERSION_AT, described,
    with_bext,
};
use crate::rows::{Held, Row, goes};
use crate::runs::{depot_of, holds, paper, run_on, run_told, words_of};
use crate::sparse::{
    FULL_WIDENED, HELLO, HI, ROOMY_WIDENED, WIDE_SOUND, cut_and_lengthened, five_gigabytes,
    full_wave, has_len, narrow_wave, roomy_wave, shows,
};
use crate::stops::{Edit, NO_EDIT, RECOVER, calls_of, survives_fault};
use me_disk::FailAt;
use metaedit_top::{Outcome, Summary, UsageFault, Why};
use part_tree::{BextField, Broken, FieldName, FourCc};
use std::process::Abort;
use std::test::Fail;

const TITLE: &[&str] = &["set", "f.wav", "INAM=Hi"];

const IN_PLACE: Summary = Summary {
    changed: true,
    in_place: true,
    payload: 4,
    findings: 0,
};

const REWRITTEN: Summary = Summary {
    changed: true,
    in_place: false,
    payload: 4,
    findings: 0,
};

const READ: Summary = Summary {
    changed: false,
    in_place: false,
    payload: 4,
    findings: 0,
};

const CHANGED: &str = "done changed in-place essence 4\n";

#[test]
fn a_title_is_set_in_place(rt: HostRuntime) -> Result<(), Fail> {
    let row = Row::leaving(TITLE, PLAIN, CHANGED, TITLED, 106);
    assert!(rt; goes(rt.alloc(), &row, &Outcome::Done(IN_PLACE))?);
    Ok(())
}

#[test]
fn movies_and_avi_files_are_shown(rt: HostRuntime) -> Result<(), Fail> {
    let rows = [
        (
            MOVIE,
            16,
            "kind mov\nessence 16\ntrack 1 chunks 2 samples 2\n@nam=Reel\n",
        ),
        (FRAMES, 32, "kind avi\nessence 32\nindex 2\n"),
    ];
    for (file, payload, printed) in rows.iter() {
        let row = Row::done(&["show", "f.wav"], *file, *printed);
        let summary = Summary {
            payload: *payload,
            ..READ
        };
        assert!(rt; goes(rt.alloc(), &row, &Outcome::Done(summary))?);
    }
    Ok(())
}

#[test]
fn a_movie_is_renamed_in_place(rt: HostRuntime) -> Result<(), Fail> {
    let summary = Summary {
        payload: 16,
        ..IN_PLACE
    };
    let words = ["set", "f.wav", "@nam=Hi"];
    let printed = "done changed in-place essence 16\n";
    let row = Row::leaving(&words, MOVIE, printed, RENAMED, 118);
    assert!(rt; goes(rt.alloc(), &row, &Outcome::Done(summary))?);
    Ok(())
}

#[test]
fn a_title_that_stands_is_not_set_again(rt: HostRuntime) -> Result<(), Fail> {
    let row = Row::done(TITLE, TITLED, "done unchanged essence 4\n");
    assert!(rt; goes(rt.alloc(), &row, &Outcome::Done(READ))?);
    Ok(())
}

#[test]
fn a_title_goes_behind_a_sound_of_no_bytes(rt: HostRuntime) -> Result<(), Fail> {
    let summary = Summary {
        payload: 0,
        ..IN_PLACE
    };
    let printed = "done changed in-place essence 0\n";
    let row = Row::leaving(TITLE, EMPTY, printed, EMPTY_TITLED, 106);
    assert!(rt; goes(rt.alloc(), &row, &Outcome::Done(summary))?);
    Ok(())
}

#[test]
fn a_title_goes_behind_the_pad_of_an_odd_sound(rt: HostRuntime) -> Result<(), Fail> {
    let summary = Summary {
        payload: 3,
        ..IN_PLACE
    };
    let printed = "done changed in-place essence 3\n";
    let row = Row::leaving(TITLE, ODD, printed, ODD_TITLED, 108);
    assert!(rt; goes(rt.alloc(), &row, &Outcome::Done(summary))?);
    Ok(())
}

#[test]
fn a_description_of_256_letters_is_a_new_chunk(rt: HostRuntime) -> Result<(), Fail> {
    let item = described(rt.alloc(), 256)?;
    let words = ["set", "f.wav", item.as_str()];
    let after = with_bext(rt.alloc(), 0, &[b'x'; 256])?;
    let printed = "done changed rewrite essence 4\n";
    let row = Row::leaving(&words, PLAIN, printed, &after, 658);
    assert!(rt; goes(rt.alloc(), &row, &Outcome::Done(REWRITTEN))?);
    Ok(())
}

fn breaks(rule: u8, field: FieldName) -> Outcome {
    Outcome::RuleBroken(Broken { rule, field })
}

#[test]
fn a_description_of_257_letters_is_too_wide(rt: HostRuntime) -> Result<(), Fail> {
    let item = described(rt.alloc(), 257)?;
    let words = ["set", "f.wav", item.as_str()];
    let outcome = breaks(5, FieldName::Bext(BextField::Description));
    let line = "refused 7 BASE-WIDTH Description\n";
    let row = Row::refused(&words, PLAIN, 7, line);
    assert!(rt; goes(rt.alloc(), &row, &outcome)?);
    Ok(())
}

#[test]
fn a_loudness_raises_the_version(rt: HostRuntime) -> Result<(), Fail> {
    let words = ["set", "f.wav", "LoudnessValue=-23.00"];
    let before = with_bext(rt.alloc(), 0, &[])?;
    let after = with_bext(rt.alloc(), VERSION_AT, LOUD)?;
    let row = Row::leaving(&words, &before, CHANGED, &after, 732);
    assert!(rt; goes(rt.alloc(), &row, &Outcome::Done(IN_PLACE))?);
    Ok(())
}

#[test]
fn a_umid_of_128_letters_is_64_bytes(rt: HostRuntime) -> Result<(), Fail> {
    let item =
        "UMID=AAAAAAAAAAAAAAAAAAAAAAAAAAAAAAAAAAAAAAAAAAAAAAAAAAAAAAAAAAAAAAAAAAAAAAAAAAAAAAAAAAAAAAAAAAAAAAAAAAAAAAAAAAAAAAAAAAAAAAAAAAAAAAAA";
    let words = ["set", "f.wav", item];
    let before = with_bext(rt.alloc(), 0, &[])?;
    let after = with_bext(rt.alloc(), VERSION_AT, NUMBERED)?;
    let row = Row::leaving(&words, &before, CHANGED, &after, 710);
    assert!(rt; goes(rt.alloc(), &row, &Outcome::Done(IN_PLACE))?);
    Ok(())
}

#[test]
fn a_list_keeps_its_titles_in_their_order(rt: HostRuntime) -> Result<(), Fail> {
    let words = ["set", "f.wav", "ICRD=2024"];
    let row = Row::leaving(&words, TITLES, CHANGED, DATED, 150);
    assert!(rt; goes(rt.alloc(), &row, &Outcome::Done(IN_PLACE))?);
    Ok(())
}

#[test]
fn an_rf64_file_keeps_its_form(rt: HostRuntime) -> Result<(), Fail> {
    let words = ["set", "r.wav", "INAM=Hi"];
    let row = Row::leaving(&words, LARGE, CHANGED, LARGE_TITLED, 114);
    assert!(rt; goes(rt.alloc(), &row, &Outcome::Done(IN_PLACE))?);
    Ok(())
}

#[test]
fn the_fields_of_a_file_are_shown_in_field_order(rt: HostRuntime) -> Result<(), Fail> {
    let rows: [(&[u8], &str); 2] = [
        (DATED, "kind wave\nessence 4\nICRD=2024\nINAM=A\nINAM=B\n"),
        (LARGE_TITLED, "kind rf64\nessence 4\nINAM=Hi\n"),
    ];
    for (file, printed) in rows {
        let row = Row::done(&["show", "f.wav"], file, printed);
        assert!(rt; goes(rt.alloc(), &row, &Outcome::Done(READ))?);
    }
    Ok(())
}

#[test]
fn checksums_are_told_and_compared(rt: HostRuntime) -> Result<(), Fail> {
    let rows: [(&[u8], u64, u32, &str); 3] = [
        (
            ODD,
            3,
            0,
            "stored none\ncomputed 900150983cd24fb0d6963f7d28e17f72\n",
        ),
        (
            EMPTY,
            0,
            0,
            "stored none\ncomputed d41d8cd98f00b204e9800998ecf8427e\n",
        ),
        (
            CHECKED,
            3,
            1,
            "stored 00000000000000000000000000000000\ncomputed 900150983cd24fb0d6963f7d28e17f72\n",
        ),
    ];
    for (file, payload, findings, printed) in rows {
        let summary = Summary {
            payload,
            findings,
            ..READ
        };
        let row = Row::finding(&["md5", "f.wav"], file, printed, findings > 0);
        assert!(rt; goes(rt.alloc(), &row, &Outcome::Done(summary))?);
    }
    Ok(())
}

#[test]
fn rules_that_a_file_breaks_are_told(rt: HostRuntime) -> Result<(), Fail> {
    let summary = Summary {
        findings: 3,
        ..READ
    };
    let printed =
        "rule FADGI-DESCRIPTION Description\nrule FADGI-ORIGINATOR Originator\nrule FADGI-DATE OriginationDate\nfindings 3\n";
    let row = Row::finding(&["validate", "f.wav"], PLAIN, printed, true);
    assert!(rt; goes(rt.alloc(), &row, &Outcome::Done(summary))?);
    Ok(())
}

#[test]
fn a_file_that_is_cut_short_is_refused(rt: HostRuntime) -> Result<(), Fail> {
    let outcome = Outcome::NotSupported(Why::Truncated { at: 36 });
    let line = "refused 5 NotSupported Truncated 36\n";
    let row = Row::refused(TITLE, SHORT, 5, line);
    assert!(rt; goes(rt.alloc(), &row, &outcome)?);
    Ok(())
}

fn check_words(
    rt: &(impl Abort + AllocGlobal),
    words: &[&str],
    fault: UsageFault,
    line: &str,
) -> Result<(), Fail> {
    let row = Row::refused(words, PLAIN, 2, line);
    assert!(rt; goes(rt.alloc(), &row, &Outcome::Usage(fault))?);
    Ok(())
}

#[test]
fn words_without_a_command_are_refused(rt: HostRuntime) -> Result<(), Fail> {
    let line = "refused 2 Usage NoCommand\n";
    check_words(&rt, &[], UsageFault::NoCommand, line)?;
    let line = "refused 2 Usage UnknownCommand\n";
    check_words(&rt, &["sett", "f.wav"], UsageFault::UnknownCommand, line)
}

#[test]
fn words_that_a_command_does_not_take_are_refused(rt: HostRuntime) -> Result<(), Fail> {
    let line = "refused 2 Usage Words\n";
    let rows: [&[&str]; 4] = [
        &["show"],
        &["recover"],
        &["set", "-f.wav", "INAM=Hi"],
        &["set", "f.wav", "--rules", "eby", "INAM=Hi"],
    ];
    for words in rows {
        check_words(&rt, words, UsageFault::Words, line)?;
    }
    Ok(())
}

#[test]
fn words_that_are_no_items_are_refused(rt: HostRuntime) -> Result<(), Fail> {
    let words = ["set", "f.wav", "INAM"];
    check_words(
        &rt,
        &words,
        UsageFault::Item { n: 1 },
        "refused 2 Usage Item 1\n",
    )?;
    let words = ["set", "f.wav", "INAM=a", "=Hi"];
    check_words(
        &rt,
        &words,
        UsageFault::Item { n: 2 },
        "refused 2 Usage Item 2\n",
    )?;
    let words = ["set", "f.wav", "XXXX=1"];
    check_words(
        &rt,
        &words,
        UsageFault::Field { n: 1 },
        "refused 2 Usage Field 1\n",
    )?;
    let words = ["set", "f.wav", "INAM=a", "INAM=b"];
    check_words(
        &rt,
        &words,
        UsageFault::Twice { n: 2 },
        "refused 2 Usage Twice 2\n",
    )
}

fn check_rule(
    rt: &(impl Abort + AllocGlobal),
    words: &[&str],
    outcome: Outcome,
    line: &str,
) -> Result<(), Fail> {
    let row = Row::refused(words, PLAIN, 7, line);
    assert!(rt; goes(rt.alloc(), &row, &outcome)?);
    Ok(())
}

#[test]
fn an_edit_that_breaks_a_rule_is_refused(rt: HostRuntime) -> Result<(), Fail> {
    let words = ["set", "f.wav", "--rules", "ebu", "CodingHistory=A=PCM"];
    let outcome = breaks(14, FieldName::Bext(BextField::CodingHistory));
    check_rule(
        &rt,
        &words,
        outcome,
        "refused 7 EBU-HISTORY CodingHistory\n",
    )?;
    let words = ["set", "f.wav", "--rules=fadgi", "Description=x"];
    let outcome = breaks(23, FieldName::Bext(BextField::Originator));
    check_rule(
        &rt,
        &words,
        outcome,
        "refused 7 FADGI-ORIGINATOR Originator\n",
    )?;
    let outcome = breaks(1, FieldName::User(FourCc(*b"\xa9nam")));
    check_rule(
        &rt,
        &["set", "f.wav", "@nam=x"],
        outcome,
        "refused 7 BASE-KIND @nam\n",
    )
}

// Also where the output would fail, which is never come to.
#[test]
fn a_device_that_fails_leaves_the_file(rt: HostRuntime) -> Result<(), Fail> {
    let failing = FailAt {
        call: 3,
        done: false,
    };
    for writes in [&[] as &[u64], &[1]] {
        let words = words_of(rt.alloc(), TITLE)?;
        let mut depot = depot_of(rt.alloc(), Some(PLAIN), None, &[failing])?;
        let mut out = paper(rt.alloc(), writes)?;
        let outcome = run_on(rt.alloc(), &words, &mut depot, &mut out);
        assert!(rt; outcome == Outcome::DepotFault { faults: 1 });
        assert!(rt; out.written().is_empty());
        assert!(rt; holds(&depot, Some(PLAIN), None));
    }
    Ok(())
}

// Whatever call of a run that edits nothing fails, it tells a device fault, and no want of memory.
fn check_faults(rt: &(impl Abort + AllocGlobal), words: &[&str]) -> Result<(), Fail> {
    let run = Edit {
        words,
        before: PLAIN,
        after: PLAIN,
        behind: 0,
        bytes: 0,
    };
    let calls = calls_of(rt.alloc(), &run)?;
    assert!(rt; 3 < calls && calls < 100);
    for call in 1..calls + 1 {
        for done in [false, true] {
            assert!(rt; survives_fault(rt.alloc(), &run, FailAt { call, done }, 0, PLAIN)?);
        }
    }
    Ok(())
}

#[test]
fn each_call_that_fails_is_told(rt: HostRuntime) -> Result<(), Fail> {
    check_faults(&rt, &["md5", "f.wav"])?;
    check_faults(&rt, &["show", "f.wav"])
}

#[test]
fn an_output_that_fails_leaves_the_new_file(rt: HostRuntime) -> Result<(), Fail> {
    for (file, edited) in [(PLAIN, true), (TITLED, false)] {
        let words = words_of(rt.alloc(), TITLE)?;
        let mut depot = depot_of(rt.alloc(), Some(file), None, &[])?;
        let mut out = paper(rt.alloc(), &[1])?;
        let outcome = run_on(rt.alloc(), &words, &mut depot, &mut out);
        assert!(rt; outcome == Outcome::OutFault { edited });
        assert!(rt; holds(&depot, Some(TITLED), None));
    }
    Ok(())
}

#[test]
fn a_journal_is_redone(rt: HostRuntime) -> Result<(), Fail> {
    let before = Held {
        main: Some(PLAIN),
        journal: Some(JOURNAL),
    };
    let row = Row::leaving(RECOVER, PLAIN, "recovered redone\n", TITLED, 28);
    assert!(rt; goes(rt.alloc(), &Row { before, ..row }, &Outcome::Done(NO_EDIT))?);
    Ok(())
}

// A run in a journal is written out.
#[test]
fn a_journal_with_runs_is_redone(rt: HostRuntime) -> Result<(), Fail> {
    let main = with_bext(rt.alloc(), 0, &[])?;
    let after = with_bext(rt.alloc(), VERSION_AT, LOUD)?;
    let before = Held {
        main: Some(&main),
        journal: Some(LOUD_JOURNAL),
    };
    let row = Row::leaving(RECOVER, &main, "recovered redone\n", &after, 610);
    assert!(rt; goes(rt.alloc(), &Row { before, ..row }, &Outcome::Done(NO_EDIT))?);
    Ok(())
}

#[test]
fn a_journal_that_is_cut_short_is_damaged(rt: HostRuntime) -> Result<(), Fail> {
    let held = Held {
        main: Some(PLAIN),
        journal: Some(&JOURNAL[..75]),
    };
    let outcome = Outcome::JournalDamaged { at: 75 };
    let row = Row::refused(RECOVER, PLAIN, 4, "refused 4 JournalDamaged 75\n");
    let row = Row {
        before: held,
        after: held,
        ..row
    };
    assert!(rt; goes(rt.alloc(), &row, &outcome)?);
    Ok(())
}

#[test]
fn a_recovery_needs_a_file(rt: HostRuntime) -> Result<(), Fail> {
    let held = Held {
        main: None,
        journal: None,
    };
    let row = Row::refused(RECOVER, PLAIN, 3, "refused 3 NoFile\n");
    let row = Row {
        before: held,
        after: held,
        ..row
    };
    assert!(rt; goes(rt.alloc(), &row, &Outcome::NoFile)?);
    Ok(())
}

#[test]
fn a_sound_of_five_gigabytes_is_not_read(rt: HostRuntime) -> Result<(), Fail> {
    let mut depot = five_gigabytes(rt.alloc())?;
    let ran = run_told(rt.alloc(), &["set", "f.wav", "INAM=Hello"], &mut depot)?;
    let summary = Summary {
        payload: 5_000_000_000,
        ..IN_PLACE
    };
    assert!(rt; ran.outcome == Outcome::Done(summary));
    assert!(rt; ran.out.written() == b"done changed in-place essence 5000000000\n".as_slice());
    assert!(rt; depot.written() == 105);
    assert!(rt; depot.bytes_read() <= 1_048_576);
    assert!(rt; shows(&mut depot, 72, HELLO));
    assert!(rt; has_len(&mut depot, 5_000_001_128));
    Ok(())
}

// Without room behind its type a full file gets a new `ds64` there.
#[test]
fn a_wave_file_that_passes_four_gigabytes_becomes_rf64(rt: HostRuntime) -> Result<(), Fail> {
    let mut depot = full_wave(rt.alloc())?;
    let ran = run_told(rt.alloc(), TITLE, &mut depot)?;
    let summary = Summary {
        payload: 4_294_967_244,
        ..REWRITTEN
    };
    assert!(rt; ran.outcome == Outcome::Done(summary));
    assert!(rt; ran.out.written() == b"done changed rewrite essence 4294967244\n".as_slice());
    assert!(rt; has_len(&mut depot, 4_294_967_348));
    assert!(rt; shows(&mut depot, 0, FULL_WIDENED));
    assert!(rt; shows(&mut depot, 48, WIDE_SOUND));
    assert!(rt; shows(&mut depot, 80, &[7; 64]));
    assert!(rt; shows(&mut depot, 5_076, b"\x07\x07\x07\x07\0\0\0\0"));
    assert!(rt; shows(&mut depot, 4_294_967_324, HI));
    Ok(())
}

#[test]
fn a_cut_takes_all_bytes_behind_it(rt: HostRuntime) -> Result<(), Fail> {
    let mut depot = full_wave(rt.alloc())?;
    assert!(rt; cut_and_lengthened(&mut depot).is_ok());
    assert!(rt; shows(&mut depot, 98, b"\x07\x07\0\0x"));
    assert!(rt; has_len(&mut depot, 103));
    Ok(())
}

#[test]
fn a_reserved_junk_becomes_ds64(rt: HostRuntime) -> Result<(), Fail> {
    let mut depot = roomy_wave(rt.alloc())?;
    let ran = run_told(rt.alloc(), TITLE, &mut depot)?;
    let summary = Summary {
        payload: 4_294_967_200,
        ..REWRITTEN
    };
    assert!(rt; ran.outcome == Outcome::Done(summary));
    assert!(rt; has_len(&mut depot, 4_294_967_304));
    assert!(rt; shows(&mut depot, 0, ROOMY_WIDENED));
    assert!(rt; shows(&mut depot, 48, WIDE_SOUND));
    assert!(rt; shows(&mut depot, 4_294_967_280, HI));
    Ok(())
}

#[test]
fn a_size_that_32_bits_just_tell_stays_there(rt: HostRuntime) -> Result<(), Fail> {
    let mut depot = narrow_wave(rt.alloc())?;
    let ran = run_told(rt.alloc(), TITLE, &mut depot)?;
    let summary = Summary {
        payload: 4_294_967_198,
        ..IN_PLACE
    };
    assert!(rt; ran.outcome == Outcome::Done(summary));
    assert!(rt; has_len(&mut depot, 4_294_967_302));
    assert!(rt; shows(&mut depot, 0, b"RIFF\xfe\xff\xff\xffWAVEJUNK"));
    assert!(rt; shows(&mut depot, 4_294_967_278, HI));
    Ok(())
}
