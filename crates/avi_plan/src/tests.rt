// Worked spans and tables, in numbers.
use crate::{Change, moves_between, segments_with};
use part_tree::{Base, Bytes, Segment, Span, TableForm};
use std::test::Fail;
use unit_plan::CutAt;

// In a file of 100 bytes six bytes stand in the place of four; behind them is a row of `idx1` that counts from the start of the
// file.
#[test]
fn a_row_behind_a_span(rt: HostRuntime) -> Result<(), Fail> {
    let alloc = rt.alloc();
    let bytes = Bytes::new(alloc, &[1, 2, 3, 4, 5, 6])?;
    let span = Span { at: 10, len: 4 };
    let cuts = [CutAt {
        span,
        bytes,
        keep: 0,
    }];
    let moves = moves_between(alloc, &cuts, 100)?;
    assert_eq!(rt;
        (moves.place(9), moves.place(12), moves.place(14)),
        (Some(9), None, Some(16))
    );
    let form = TableForm::Idx1(Base::FileStart);
    let changes = [Change::Rows {
        form,
        from: 20,
        rows: 1,
    }];
    let segments = segments_with(alloc, &cuts, &changes, 100, 102)?;
    let mut found = Vec::new(alloc);
    for segment in segments.as_slice() {
        match segment {
            Segment::Copy(span) => found.push((span.at, span.len))?,
            Segment::Literal(bytes) => found.push((0, bytes.as_slice().len() as u64))?,
            Segment::Table { from, rows, .. } => found.push((*from, *rows))?,
        }
    }
    assert_eq!(rt;
        found.as_slice(),
        [(0, 10), (0, 6), (14, 6), (20, 1), (36, 64)].as_slice()
    );
    Ok(())
}
