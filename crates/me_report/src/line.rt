// The line of what was done.
ghost use Rattle.std.specs.Prelude.{◌≡◌, ◌≤◌, ◌+◌, ◌++◌, length, decimal};
ghost use Rattle.me_report.specs.Done.{done_line as done, done_words};

use itoa::Buffer;
use std::marker::Model;

/// At most 128 bytes, seen as their list.
#[derive(Debug, Drop)]
pub struct Line {
    bytes: [u8; 128],
    len: u8,
}

impl Model for Line {
    ghost use Rattle.std.specs.Prelude.{ℕ, List, take, ◌≤◌};

    ghost Value = { List ℕ };

    ghost view = { λ l. take l.len l.bytes };

    ghost invariant = { λ l. l.len ≤ 128 };
}

impl Line {
    fn of(bytes: &[u8]) -> Line
        requires { length bytes.now ≤ 128 }
        ensures { result ≡ bytes.now }
    {
        let len = bytes.len();
        let mut held = [0; 128];
        held[..len].copy_from_slice(bytes);
        Line {
            bytes: held,
            len: len as u8,
        }
    }

    fn extend(&mut self, bytes: &[u8])
        requires { length self.old + length bytes.now ≤ 128 }
        ensures { self.new ≡ self.old ++ bytes.now }
    {
        let len = self.len as usize;
        let end = len + bytes.len();
        self.bytes[len..end].copy_from_slice(bytes);
        self.len = end as u8;
    }

    pub fn as_slice(&self) -> &[u8]
        ensures { result.now ≡ self.now }
    {
        &self.bytes[..self.len as usize]
    }
}

/// What a run did: whether an item of the edit had an effect and the file was changed in place, the length of the
/// sound or pictures in bytes, and how many findings there were.
#[derive(Clone, Copy, Debug, PartialEq, Eq)]
pub struct Summary {
    pub changed: bool,
    pub in_place: bool,
    pub payload: u64,
    pub findings: u32,
}

fn words(s: &Summary) -> &'static [u8]
    ensures words { result.now ≡ done_words s.now }
    ensures few { length result.now ≤ 30 }
{
    match (s.changed, s.in_place) {
        (false, _) => b"done unchanged essence ",
        (true, true) => b"done changed in-place essence ",
        (true, false) => b"done changed rewrite essence ",
    }
}

/// The line of a run that was done, with its LF. It takes no memory.
pub fn done_line(s: &Summary) -> Line
    ensures { result ≡ done s.now }
{
    let mut buffer = Buffer::new();
    let mut line = Line::of(words(s));
    line.extend(buffer.format(s.payload).as_bytes());
    line.extend(b"\n");
    line
}
