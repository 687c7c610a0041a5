//! The items of a `LIST` of type `INFO` (Multimedia Programming Interface and Data Specifications 1.0, "INFO list chunk"):
//! read from a body, changed by fields' names, and spelled as a list. It knows no text of a field and no kind of file.
#![tactic(auto)]

ghost use Rattle.std.specs.Prelude.{◌≡◌, ℕ, List, [], IfErr, IfOk, length, min, ◌<◌, ◌^◌, ◌-◌, ◌+◌, ◌≤◌, take, drop, ◌++◌, OnOk, OnErr};
ghost use Rattle.container_model.specs.Chunk.{Chunk, spell};
ghost use Rattle.container_model.specs.Items.{Item, edit_carrier, put_all};
ghost use Rattle.carrier_model.specs.Info.{info, info_items};
ghost use Rattle.carrier_model.specs.Lists.{items_of};
ghost use Rattle.info_list.specs.declared.InfoList.{InfoList};
ghost use Rattle.info_list.specs.Info.{IsInfo, IsSpellable, IsWithin, ReadsInfo, chunks_of, inner, item_bytes, list_chunk, pad_of, tokens_of};

mod edit;
mod fields;

pub use edit::InfoChange;
pub use fields::add_items;
use me_bytes::put_le32;
use part_tree::{Bytes, FourCc, NoMemory};
use riff_form::Walker;
use std::alloc::Global;
use std::marker::Model;

/// An item: its identifier and its body, without its pad.
#[derive(Debug, Drop)]
pub struct InfoItem {
    pub id: FourCc,
    pub raw: Bytes,
}

/// Items, seen as the list of them.
#[derive(Debug, Drop)]
pub struct InfoItems {
    held: Vec<InfoItem>,
}

impl Model for InfoItems {
    ghost use Rattle.std.specs.Prelude.{List};
    ghost use Rattle.info_list.specs.declared.InfoItem.{InfoItem};

    ghost Value = { List InfoItem };

    ghost view = { λ i. i.held.items };
}

impl InfoItems {
    /// These items, without taking memory.
    pub fn new(items: Vec<InfoItem>) -> InfoItems
        ensures { result ≡ items.items }
    {
        InfoItems { held: items }
    }

    pub fn as_slice(&self) -> &[InfoItem]
        ensures { result.now ≡ self.now }
    {
        &self.held
    }
}

/// The items of a list in their order, and the bytes behind them that are no item.
#[derive(Debug, Drop)]
pub struct InfoList {
    pub items: InfoItems,
    pub rest: Bytes,
}

/// Why a list isn't read. `at` is a place in the body behind the word `INFO`.
#[derive(Clone, Copy, Debug, PartialEq, Eq)]
pub enum InfoFault {
    /// The item at `at` ends past the body.
    Truncated { at: u64 },
    Memory,
}

/// Reads the items behind the word `INFO`. `Truncated` exactly where an item ends past the body.
pub fn read_info(alloc: Global, body: &[u8]) -> Result<InfoList, InfoFault>
    ensures list { ReadsInfo body.now result }
    ensures place { IfErr result (λ fault. IsWithin fault (length body.now)) }
{
    let mut items = Vec::new(alloc);
    let mut walker = Walker::new(0, body.len() as u64);
    loop {
        let chunk = match walker.step_in(body) {
            Err(fault) => return Err(InfoFault::Truncated { at: fault.at }),
            Ok(None) => break,
            Ok(Some(chunk)) => chunk,
        };
        let start = chunk.body.at as usize;
        let raw = match Bytes::new(alloc, &body[start..start + chunk.body.len as usize]) {
            Err(_) => return Err(InfoFault::Memory),
            Ok(raw) => raw,
        };
        match items.push(InfoItem { id: chunk.id, raw }) {
            Err(_) => return Err(InfoFault::Memory),
            Ok(()) => {}
        }
    }
    match Bytes::new(alloc, &body[walker.at as usize..]) {
        Err(_) => Err(InfoFault::Memory),
        Ok(rest) => Ok(InfoList {
            items: InfoItems::new(items),
            rest,
        }),
    }
}

impl InfoList {
    /// The length of the list's body in bytes, with the word `INFO` and each pad. 2 ^ 64 - 1 where it is longer.
    pub fn body_len(&self) -> u64
        ensures { result ≡ min (length (list_chunk self.now).body) (2 ^ 64 - 1) }
    {
        let mut len = 4_u64;
        for item in self.items.as_slice() {
            len = len.saturating_add(item_len(item));
        }
        len.saturating_add(self.rest.as_slice().len() as u64)
    }
}

// The length of an item's spelling.
fn item_len(item: &InfoItem) -> u64
    ensures { result ≡ length (item_bytes item.now) }
{
    let len = item.raw.as_slice().len() as u64;
    head_len(item.id) + len + len % 2
}

// The length of an identifier and a size.
fn head_len(id: FourCc) -> u64
    ensures len { result ≡ length id.0 + 4 }
    ensures small { result ≡ 8 }
{
    id.0.len() as u64 + 4
}

/// The whole chunk `LIST` of these items and this rest; each pad is 0.
pub fn spell_info(alloc: Global, list: &InfoList) -> Result<Bytes, NoMemory>
    requires { length (list_chunk list.now).body < 2 ^ 32 }
    ensures { IfOk result (λ bytes. bytes ≡ spell (list_chunk list.now)) }
{
    let body = list_body(alloc, list)?;
    let mut out = Vec::new(alloc);
    out.extend_from_slice(b"LIST")?;
    put_le32(alloc, &mut out, body.len() as u32)?;
    out.extend_from_slice(&body)?;
    put_pad(alloc, &mut out, body.len())?;
    Ok(Bytes::of(out))
}

// The body: the word `INFO`, the items and the rest.
fn list_body(alloc: Global, list: &InfoList) -> Result<Vec<u8>, NoMemory>
    requires { length (list_chunk list.now).body < 2 ^ 32 }
    ensures { IfOk result (λ body. body.items ≡ (list_chunk list.now).body) }
{
    let mut body = Vec::new(alloc);
    body.extend_from_slice(b"INFO")?;
    for item in list.items.as_slice() {
        put_item(alloc, &mut body, item)?;
    }
    body.extend_from_slice(list.rest.as_slice())?;
    Ok(body)
}

// Appends the spelling of an item.
fn put_item(alloc: Global, out: &mut Vec<u8>, item: &InfoItem) -> Result<(), NoMemory>
    requires { length item.now.raw < 2 ^ 32 }
    ensures { OnOk result (out.new.items ≡ out.old.items ++ item_bytes item.now) }
{
    let raw = item.raw.as_slice();
    out.extend_from_slice(&item.id.0)?;
    put_le32(alloc, out, raw.len() as u32)?;
    out.extend_from_slice(raw)?;
    put_pad(alloc, out, raw.len())
}

// Appends a 0 behind an odd number of bytes.
fn put_pad(_alloc: Global, out: &mut Vec<u8>, len: usize) -> Result<(), NoMemory>
    ensures { OnOk result (out.new.items ≡ out.old.items ++ pad_of len) }
{
    if len % 2 == 1 {
        out.extend_from_slice(&[0])?;
    }
    Ok(())
}

/// Where a list was read from a chunk, the chunk of the changed list is the edited chunk, and the marks of its items are those
/// of the chunk. The chunk of a list that was made anew is the fresh one.
pub fn lists_are_edited()
    ensures edited { (c : Chunk) (e : List (Item (List ℕ))) (old new : InfoList) → IsInfo (drop 4 c.body) old
        → chunks_of new ≡ put_all info_items e (chunks_of old) → new.rest ≡ old.rest
        → list_chunk new ≡ edit_carrier info info_items e c }
    ensures fresh { (e : List (Item (List ℕ))) (new : InfoList) → chunks_of new ≡ put_all info_items e []
        → new.rest ≡ []
        → list_chunk new ≡ info.fresh (put_all info_items e []) }
    ensures marks { (c : Chunk) (list : InfoList) → IsInfo (drop 4 c.body) list
        → tokens_of list ≡ items_of info info_items c }
{}

/// What is spelled is read back: behind the word `INFO` of the spelling stand the items and the rest, whatever these are.
pub fn spelled_is_read()
    ensures { (list : InfoList) → IsSpellable list → IsInfo (inner list) list }
{}

#[cfg(test)]
mod tests {
    use super::*;
    use std::test::Fail;

    // Two items with one name, the first of an odd length, a third one, and a rest.
    const BODY: &[u8] = b"INAM\x01\0\0\0A\0INAM\x02\0\0\0B\0ICRD\x05\0\0\x002024\0\0abc";

    #[test]
    fn reads(rt: HostRuntime) -> Result<(), Fail> {
        let list = read_info(rt.alloc(), BODY)?;
        let items = list.items.as_slice();
        assert_eq!(rt; items.len(), 3);
        assert_eq!(rt; items[0].raw.as_slice(), b"A".as_slice());
        assert_eq!(rt; items[1].raw.as_slice(), b"B\0".as_slice());
        assert_eq!(rt; items[2].raw.as_slice(), b"2024\0".as_slice());
        assert_eq!(rt; list.rest.as_slice(), b"abc".as_slice());
        Ok(())
    }

    #[test]
    fn refuses_an_item_past_the_end(rt: HostRuntime) {
        let fault = match read_info(rt.alloc(), b"INAM\x02\0\0\0A\0INAM\x03\0\0\0B\0") {
            Ok(_) => None,
            Err(fault) => Some(fault),
        };
        assert_eq!(rt; fault, Some(InfoFault::Truncated { at: 10 }));
    }

    // The spelling of the list, where its size can be told.
    fn spelled(rt: HostRuntime, list: &InfoList) -> Result<Bytes, Fail> {
        if list.body_len() > 0xffff_ffff {
            return Ok(Bytes::of(Vec::new(rt.alloc())));
        }
        Ok(spell_info(rt.alloc(), list)?)
    }

    #[test]
    fn edits(rt: HostRuntime) -> Result<(), Fail> {
        // the identifier, its new value, the length of the body after it, and the whole list after it
        let rows: [(&[u8; 4], Option<&[u8]>, u64, &[u8]); 4] = [
            (
                b"INAM",
                Some(b"Hi\0"),
                33,
                b"LIST\x21\0\0\0INFOINAM\x03\0\0\0Hi\0\0ICRD\x05\0\0\x002024\0\0abc\0",
            ),
            (
                b"INAM",
                None,
                21,
                b"LIST\x15\0\0\0INFOICRD\x05\0\0\x002024\0\0abc\0",
            ),
            (
                b"ISFT",
                Some(b"x\0"),
                51,
                b"LIST\x33\0\0\0INFOINAM\x01\0\0\0A\0INAM\x02\0\0\0B\0ICRD\x05\0\0\x002024\0\0ISFT\x02\0\0\0x\0abc\0",
            ),
            (
                b"XXXX",
                None,
                41,
                b"LIST\x29\0\0\0INFOINAM\x01\0\0\0A\0INAM\x02\0\0\0B\0ICRD\x05\0\0\x002024\0\0abc\0",
            ),
        ];
        for (id, value, len, whole) in rows.iter() {
            let value = match value {
                None => None,
                Some(raw) => Some(Bytes::new(rt.alloc(), raw)?),
            };
            let mut list = read_info(rt.alloc(), BODY)?;
            list.put(&FourCc(**id), value)?;
            assert_eq!(rt; list.body_len(), *len);
            assert_eq!(rt; spelled(rt, &list)?.as_slice(), *whole);
        }
        Ok(())
    }

    #[test]
    fn makes_a_list(rt: HostRuntime) -> Result<(), Fail> {
        let changes = [
            InfoChange {
                id: FourCc(*b"ICRD"),
                value: Some(Bytes::new(rt.alloc(), b"2024\0")?),
            },
            InfoChange {
                id: FourCc(*b"IART"),
                value: None,
            },
            InfoChange {
                id: FourCc(*b"INAM"),
                value: Some(Bytes::new(rt.alloc(), b"A\0")?),
            },
            InfoChange {
                id: FourCc(*b"ICRD"),
                value: None,
            },
        ];
        let mut list = InfoList::new(rt.alloc());
        list.put_all(rt.alloc(), &changes)?;
        assert_eq!(rt; list.count(), 1);
        assert!(rt; list.has_item(&FourCc(*b"INAM")));
        assert!(rt; !list.has_item(&FourCc(*b"ICRD")));
        assert_eq!(rt;
            spelled(rt, &list)?.as_slice(),
            b"LIST\x0e\0\0\0INFOINAM\x02\0\0\0A\0".as_slice()
        );
        Ok(())
    }
}
