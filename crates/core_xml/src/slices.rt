// What stands round a text.
ghost use Rattle.std.specs.Prelude.{◌≡◌, ◌≤◌, length};
ghost use Rattle.std.specs.List.{position_or_len};
ghost use Rattle.std.specs.Option.{option_copied};
ghost use Rattle.core_xml.specs.Lines as spec;

/// What stands behind a beginning. None where the text has another.
pub(crate) fn behind<'a>(front: &[u8], text: &'a [u8]) -> Option<&'a [u8]>
    ensures { option_copied result ≡ spec.behind front.now text.now }
{
    if text.len() < front.len() || &text[..front.len()] != front {
        return None;
    }
    Some(&text[front.len()..])
}

/// What stands before an end. None where the text has another.
pub(crate) fn before<'a>(back: &[u8], text: &'a [u8]) -> Option<&'a [u8]>
    ensures { option_copied result ≡ spec.before back.now text.now }
{
    if text.len() < back.len() {
        return None;
    }
    let end = text.len() - back.len();
    if &text[end..] != back {
        return None;
    }
    Some(&text[..end])
}

/// What stands between a beginning and an end. None where the text hasn't both.
pub(crate) fn between<'a>(front: &[u8], back: &[u8], text: &'a [u8]) -> Option<&'a [u8]>
    ensures { option_copied result ≡ spec.between front.now back.now text.now }
{
    let rest = behind(front, text)?;
    before(back, rest)
}

/// The place of the first quotation mark, or the length where there is none.
pub(crate) fn quote_place(text: &[u8]) -> usize
    ensures place { result ≡ position_or_len spec.is_quote text.now }
    ensures inside { result ≤ length text.now }
{
    let mut k = 0;
    for x in text {
        if *x == b'"' {
            return k;
        }
        k += 1;
    }
    k
}
