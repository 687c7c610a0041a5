// Worked runs with tables.
use crate::files::{PLAIN, TITLED};
use crate::tables::{TableRow, goes_by, stops_at_the_table};
use std::process::Abort;
use std::test::Fail;

const CSV: &[&str] = &["apply", "f.wav", "--as", "csv"];

const XML: &[&str] = &["apply", "f.wav", "--rules=base", "--as=xml"];

const HI: &[u8] = b"FileName,INAM\nf.wav,Hi\n";

const HI_LINES: &[u8] =
    b"<?xml version=\"1.0\" encoding=\"UTF-8\"?>\n<Core>\n<File name=\"f.wav\">\n<Field name=\"INAM\">Hi</Field>\n</File>\n</Core>\n";

const LINES_TOLD: &str =
    "<?xml version=\"1.0\" encoding=\"UTF-8\"?>\n<Core>\n<File name=\"f.wav\">\n<Field name=\"INAM\">Hi</Field>\n</File>\n</Core>\n";

const WRONG_LINE: &[u8] =
    b"<?xml version=\"1.0\" encoding=\"UTF-8\"?>\n<Core>\n<File name=\"f.wav\">\n<Field name=\"NAME\">Hi</Field>\n</File>\n</Core>\n";

const SET: &str = "done changed in-place essence 4\n";

const LEFT: &str = "done unchanged essence 4\n";

// The plain file with a chunk `axml` of one byte behind its sound.
const MARKED: &[u8] =
    b"RIFF2\x00\x00\x00WAVEfmt \x10\x00\x00\x00\x01\x00\x01\x00D\xac\x00\x00\x88X\x01\x00\x02\x00\x10\x00data\x04\x00\x00\x00\x01\x02\x03\x04axml\x01\x00\x00\x00\xff\x00";

// The run goes as the row says, where its table is read.
fn check_row(rt: &(impl Abort + AllocGlobal), row: &TableRow<'_>) -> Result<(), Fail> {
    assert!(rt; goes_by(rt.alloc(), row, &[])?);
    Ok(())
}

#[test]
fn the_fields_of_a_file_are_printed_as_a_table(rt: HostRuntime) -> Result<(), Fail> {
    let words = ["export", "f.wav", "--as", "csv"];
    let printed = "FileName,INAM\nf.wav,Hi\n";
    check_row(&rt, &TableRow::done(&words, b"", TITLED, printed, TITLED))?;
    let words = ["export", "f.wav", "--as=xml"];
    check_row(
        &rt,
        &TableRow::done(&words, b"", TITLED, LINES_TOLD, TITLED),
    )
}

#[test]
fn a_table_is_applied(rt: HostRuntime) -> Result<(), Fail> {
    check_row(&rt, &TableRow::done(CSV, HI, TITLED, LEFT, TITLED))?;
    check_row(&rt, &TableRow::done(XML, HI_LINES, TITLED, LEFT, TITLED))?;
    check_row(&rt, &TableRow::done(CSV, HI, PLAIN, SET, TITLED))?;
    let table = b"FileName,axml\nf.wav,\\xFF\n";
    check_row(&rt, &TableRow::done(CSV, table, PLAIN, SET, MARKED))
}

// The table leaves the file with the title as it is, with this line.
fn check_fault(
    rt: &(impl Abort + AllocGlobal),
    words: &[&str],
    table: &[u8],
    line: &str,
) -> Result<(), Fail> {
    check_row(rt, &TableRow::refused(words, table, TITLED, 6, line))
}

#[test]
fn a_table_that_is_none_is_refused(rt: HostRuntime) -> Result<(), Fail> {
    let line = "refused 6 TableFault UnknownColumn 2\n";
    check_fault(&rt, CSV, b"FileName,NAME\nf.wav,Hi\n", line)?;
    let line = "refused 6 TableFault TwoRows 1 2\n";
    check_fault(&rt, CSV, b"FileName,INAM\nf.wav,Hi\nf.wav,Hi\n", line)?;
    let line = "refused 6 TableFault BadEscape 1 2\n";
    check_fault(&rt, CSV, b"FileName,INAM\nf.wav,\\x4\n", line)?;
    check_fault(&rt, XML, WRONG_LINE, "refused 6 TableFault Line 4\n")
}

#[test]
fn a_table_with_bytes_for_a_text_is_refused(rt: HostRuntime) -> Result<(), Fail> {
    let table = b"FileName,INAM\nf.wav,\\xFF\n";
    let line = "refused 7 BASE-UTF8 INAM\n";
    check_row(&rt, &TableRow::refused(CSV, table, PLAIN, 7, line))
}

#[test]
fn words_of_tables_and_of_made_files_are_refused(rt: HostRuntime) -> Result<(), Fail> {
    let rows: [&[&str]; 4] = [
        &["export", "f.wav"],
        &["export", "f.wav", "--as", "json"],
        &["apply", "f.wav", "--as", "csv", "--as", "csv"],
        &["make", "f.wav", "wave"],
    ];
    for words in rows {
        check_row(&rt, &TableRow::words(words, "refused 2 Usage Words\n"))?;
    }
    Ok(())
}

#[test]
fn kinds_and_seconds_that_are_not_made_are_refused(rt: HostRuntime) -> Result<(), Fail> {
    let rows: [&[&str]; 5] = [
        &["make", "f.wav", "ogg", "1"],
        &["make", "f.wav", "wave", "0"],
        &["make", "f.wav", "wave", "01"],
        &["make", "f.wav", "wave", "14001"],
        &["make", "f.wav", "mov", "1000001"],
    ];
    for words in rows {
        check_row(&rt, &TableRow::words(words, "refused 2 Usage Value\n"))?;
    }
    Ok(())
}

#[test]
fn no_file_is_made_over_another(rt: HostRuntime) -> Result<(), Fail> {
    let words = ["make", "f.wav", "wave", "1"];
    let line = "refused 13 FileThere\n";
    check_row(&rt, &TableRow::refused(&words, b"", PLAIN, 13, line))
}

// A table is two reads: its bytes, and its end.
#[test]
fn a_table_that_cannot_be_read_is_told(rt: HostRuntime) -> Result<(), Fail> {
    let row = TableRow::refused(CSV, HI, PLAIN, 10, "refused 10 TableReadFault\n");
    for call in 1..3 {
        assert!(rt; goes_by(rt.alloc(), &row, &[call])?);
        assert!(rt; stops_at_the_table(rt.alloc(), &row, &[call])?);
    }
    Ok(())
}
