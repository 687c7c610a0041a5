// Worked rows.
use crate::{escape, unescape};
use std::test::Fail;

#[test]
fn texts(rt: HostRuntime) -> Result<(), Fail> {
    let rows: [(&[u8], &[u8]); 8] = [
        (b"", b""),
        (b"a\\b", b"a\\\\b"),
        (b"1\n2\r3\t4", b"1\\n2\\r3\\t4"),
        (b"\0\x1f \x7e\x7f", b"\\x00\\x1F ~\\x7F"),
        // two bytes and three of valid UTF-8 stay
        (b"\xc3\xa9\xe2\x82\xac", b"\xc3\xa9\xe2\x82\xac"),
        // a character cut short, a byte that only continues, and a surrogate
        (b"\xe2\x82A", b"\\xE2\\x82A"),
        (b"\x80\xc3\xa9", b"\\x80\xc3\xa9"),
        (b"\xed\xa0\x80", b"\\xED\\xA0\\x80"),
    ];
    for (raw, text) in rows.iter() {
        assert_eq!(rt; escape(rt.alloc(), raw)?.as_slice(), *text);
        let back = unescape(rt.alloc(), text)?.expect(&rt, "bytes");
        assert_eq!(rt; back.as_slice(), *raw);
    }
    Ok(())
}

#[test]
fn bytes(rt: HostRuntime) -> Result<(), Fail> {
    let rows: [(&[u8], Option<&[u8]>); 8] = [
        (b"\\x4a\\x4A", Some(b"JJ")),
        (b"\\xc3\\xA9", Some(b"\xc3\xa9")),
        (b"a\xff", Some(b"a\xff")),
        (b"\\", None),
        (b"\\a", None),
        (b"\\N", None),
        (b"\\x4", None),
        (b"\\x4g", None),
    ];
    for (text, raw) in rows.iter() {
        let found = unescape(rt.alloc(), text)?;
        assert_eq!(rt; found.as_ref().map(|b| b.as_slice()), *raw);
    }
    Ok(())
}
