// A file as it was looked up.
use std::fs::Metadata;
use std::os::unix::fs::MetadataExt;

// Which file it is, how long, and whose. The length is in bytes.
#[derive(Clone, Copy, PartialEq, Eq)]
pub(crate) struct Seen {
    device: u64,
    number: u64,
    pub(crate) len: u64,
    // its kind and its permissions
    pub(crate) mode: u32,
    pub(crate) owner: u32,
    pub(crate) group: u32,
}

impl Seen {
    pub(crate) fn of(metadata: &Metadata) -> Seen {
        Seen {
            device: metadata.dev(),
            number: metadata.ino(),
            len: metadata.len(),
            mode: metadata.mode(),
            owner: metadata.uid(),
            group: metadata.gid(),
        }
    }

    // The same file, whatever it holds.
    pub(crate) fn is_file(&self, other: &Seen) -> bool {
        self.device == other.device && self.number == other.number
    }

    // The same file, of the same length.
    pub(crate) fn is_unchanged(&self, other: &Seen) -> bool {
        self.is_file(other) && self.len == other.len
    }

    // What may be given to a file: its permissions without its kind.
    pub(crate) fn rights(&self) -> u32 {
        self.mode & 0o7777
    }
}
