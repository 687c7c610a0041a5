// The body of user data after an edit of its texts.
ghost use Rattle.std.specs.Prelude.{◌≡◌, ◌≤◌, ◌<◌, ◌+◌, ◌-◌, ◌++◌, ◌^◌, length, map, drop, min, filter, not, IfOk, OnOk, Some};
ghost use Rattle.std.specs.List.{AllByRecursion, position_or_len};
ghost use Rattle.container_model.specs.Chunk.{header_bytes, spell, spell_all};
ghost use Rattle.container_model.specs.Items.{hits, put_all, put_value};
ghost use Rattle.qt_atoms.specs.Walk.{form_of};
ghost use Rattle.qt_text.specs.User.{text_size, user_items};
ghost use Rattle.mov_plan.specs.Users.{CanSet, IsEdited, changes_of, chunk_of, opened};
ghost use Rattle.mov_plan.specs.Users as spec;

use part_tree::{Bytes, FourCc, NoMemory, Value, is_user};
use qt_atoms::{AtomWalker, Parent, SizeForm};
use std::alloc::Global;

const MOST_BYTES: u64 = 16_777_216;

/// One type of user items gets a text, or has none.
#[derive(Debug, Drop)]
pub struct UserChange {
    pub kind: FourCc,
    pub value: Option<Value>,
}

/// The body of user data, and how many atoms are in it.
#[derive(Debug, Drop)]
pub struct UserBody {
    pub bytes: Bytes,
    pub items: u64,
}

/// Why there is no new body: it would have `size` bytes, which are more than 16 MiB.
#[derive(Clone, Copy, Debug, PartialEq, Eq)]
pub enum UserFault {
    TooLarge { size: u64 },
    Memory,
}

/// An atom of user data.
#[derive(Debug, Drop)]
pub struct UserItem {
    pub form: SizeForm,
    pub kind: FourCc,
    pub body: Bytes,
}

/// The atoms of user data in their order, and the bytes behind them that are none.
#[derive(Debug, Drop)]
pub struct UserItems {
    pub items: Vec<UserItem>,
    pub rest: Bytes,
}

// The number in two bytes.
fn size_at(body: &[u8], at: usize) -> usize
    requires { at + 2 ≤ length body.now }
    ensures size { result ≡ text_size (drop at body.now) }
    ensures small { result < 2 ^ 16 }
{
    let mut word = [0u8; 2];
    word.copy_from_slice(&body[at..at + 2]);
    u16::from_be_bytes(word) as usize
}

// Whether a body is one or more texts that fill it.
fn has_texts(body: &[u8]) -> bool
    ensures { result ≡ spec.has_texts body.now }
{
    let mut at = 0;
    'texts: while at < body.len() {
        if body.len() - at < 4 {
            return false;
        }
        let len = size_at(body, at);
        if body.len() - at - 4 < len {
            return false;
        }
        at += 4 + len;
    }
    at > 0
}

// Whether an atom is an item of this type, with a text.
fn is_named(item: &UserItem, kind: &FourCc) -> bool
    ensures { result ≡ hits user_items kind.now.0 (chunk_of item.now) }
{
    kind.is(&item.kind.0) && (is_user(&item.kind) && has_texts(item.body.as_slice()))
}

// The number of the first item of a type, or how many atoms there are.
fn first_named(items: &[UserItem], kind: &FourCc) -> usize
    ensures place { result ≡ position_or_len (λ i. hits user_items kind.now.0 (chunk_of i)) items.now }
    ensures bound { result ≤ length items.now }
{
    let mut k = 0;
    for item in items {
        if is_named(item, kind) {
            return k;
        }
        k += 1;
    }
    k
}

// Takes the items of a type away.
fn drop_named(items: &mut Vec<UserItem>, kind: &FourCc)
    ensures { items.new.items ≡ filter (λ i. not (hits user_items kind.now.0 (chunk_of i))) items.old.items }
{
    items.retain(|item| !is_named(item, kind));
}

// The item stands where the first of its type stood, or last, and the others of that type are gone.
fn put_item(items: &mut Vec<UserItem>, item: UserItem, text: &Value) -> Result<(), NoMemory>
    requires { chunk_of item ≡ user_items.make item.kind.0 text.now }
    ensures { OnOk result (map chunk_of items.new.items
        ≡ put_value user_items item.kind.0 (Some text.now) (map chunk_of items.old.items)) }
{
    let k = first_named(items, &item.kind);
    drop_named(items, &item.kind);
    match items.insert(k, item) {
        Ok(()) => Ok(()),
        Err(_) => Err(NoMemory),
    }
}

// An item with this text.
fn item_with(alloc: Global, kind: FourCc, text: &Value) -> Result<UserItem, NoMemory>
    requires { length text.now.raw < 2 ^ 16 }
    ensures kind { IfOk result (λ i. i.kind ≡ kind) }
    ensures chunk { IfOk result (λ i. chunk_of i ≡ user_items.make kind.0 text.now) }
{
    let raw = text.raw.as_slice();
    let mut body = Vec::new(alloc);
    body.extend_from_slice(&(raw.len() as u16).to_be_bytes())?;
    body.extend_from_slice(&text.lang.to_be_bytes())?;
    body.extend_from_slice(raw)?;
    Ok(UserItem {
        form: SizeForm::Short,
        kind,
        body: Bytes::of(body),
    })
}

// The items of a type get this text alone, or go.
fn put(items: &mut Vec<UserItem>, alloc: Global, change: &UserChange) -> Result<(), NoMemory>
    requires { CanSet change.now }
    ensures { OnOk result (map chunk_of items.new.items
        ≡ put_value user_items change.now.kind.0 change.now.value (map chunk_of items.old.items)) }
{
    match &change.value {
        None => {
            drop_named(items, &change.kind);
            Ok(())
        }
        Some(text) => {
            let item = item_with(alloc, change.kind, text)?;
            put_item(items, item, text)?;
            Ok(())
        }
    }
}

// The changes one after the other.
fn put_changes(
    items: &mut Vec<UserItem>,
    alloc: Global,
    changes: &[UserChange],
) -> Result<(), NoMemory>
    requires { AllByRecursion CanSet changes.now }
    ensures { OnOk result (map chunk_of items.new.items
        ≡ put_all user_items (changes_of changes.now) (map chunk_of items.old.items)) }
{
    'changes: for change in changes {
        put(items, alloc, change)?;
    }
    Ok(())
}

// These atoms, and the bytes of a body from a place on.
fn with_rest(
    alloc: Global,
    items: Vec<UserItem>,
    body: &[u8],
    at: u64,
) -> Result<UserItems, NoMemory>
    requires { at ≤ length body.now }
    ensures items { IfOk result (λ u. u.items ≡ items) }
    ensures rest { IfOk result (λ u. u.rest ≡ drop at body.now) }
{
    let rest = Bytes::new(alloc, &body[at as usize..])?;
    Ok(UserItems { items, rest })
}

// The atoms of a body.
fn read_items(alloc: Global, body: &[u8]) -> Result<UserItems, NoMemory>
    ensures items { IfOk result (λ u. map chunk_of u.items.items ≡ (opened body.now).chunks) }
    ensures rest { IfOk result (λ u. u.rest ≡ (opened body.now).left) }
{
    let mut items = Vec::new(alloc);
    let mut walker = AtomWalker::new(0, body.len() as u64, Parent::UserData);
    'atoms: loop {
        let atom = match walker.next_in(body) {
            Err(_) => return with_rest(alloc, items, body, walker.at),
            Ok(None) => return with_rest(alloc, items, body, walker.at),
            Ok(Some(atom)) => atom,
        };
        let start = atom.body.at as usize;
        let raw = Bytes::new(alloc, &body[start..start + atom.body.len as usize])?;
        match items.push(UserItem {
            form: atom.form,
            kind: atom.kind,
            body: raw,
        }) {
            Err(_) => return Err(NoMemory),
            Ok(()) => {}
        }
    }
}

/// How many letters a type has.
pub fn kind_len(kind: FourCc) -> u64
    ensures len { result ≡ length kind.0 }
    ensures small { result ≡ 4 }
{
    kind.0.len() as u64
}

// How many bytes an atom has.
fn item_len(item: &UserItem) -> u64
    ensures { result ≡ length (spell (chunk_of item.now)) }
{
    let len = item.body.as_slice().len() as u64 + kind_len(item.kind);
    match item.form {
        SizeForm::Short => 4 + len,
        SizeForm::Long => 12 + len,
        SizeForm::ToEnd => 4 + len,
    }
}

// How many bytes atoms and what is behind them have. 2 ^ 64 - 1 where they have more.
fn body_len(items: &[UserItem], rest: u64) -> u64
    ensures { result ≡ min (length (spell_all (map chunk_of items.now)) + rest) (2 ^ 64 - 1) }
{
    let mut len = 0_u64;
    'items: for item in items {
        len = len.saturating_add(item_len(item));
    }
    len.saturating_add(rest)
}

/// Appends the header of an atom with a body of `len` bytes.
pub fn put_header(out: &mut Vec<u8>, form: SizeForm, kind: FourCc, len: u64) -> Result<(), NoMemory>
    requires { len < 2 ^ 31 }
    ensures { OnOk result (out.new.items ≡ out.old.items ++ header_bytes (form_of form) kind.0 len) }
{
    match form {
        SizeForm::Short => {
            out.extend_from_slice(&(len as u32 + 8).to_be_bytes())?;
            out.extend_from_slice(&kind.0)?;
        }
        SizeForm::Long => {
            out.extend_from_slice(&1_u32.to_be_bytes())?;
            out.extend_from_slice(&kind.0)?;
            out.extend_from_slice(&(len + 16).to_be_bytes())?;
        }
        SizeForm::ToEnd => {
            out.extend_from_slice(&0_u32.to_be_bytes())?;
            out.extend_from_slice(&kind.0)?;
        }
    }
    Ok(())
}

// Appends an atom.
fn put_atom(out: &mut Vec<u8>, item: &UserItem) -> Result<(), NoMemory>
    requires { length item.now.body ≤ 2 ^ 24 }
    ensures { OnOk result (out.new.items ≡ out.old.items ++ spell (chunk_of item.now)) }
{
    let body = item.body.as_slice();
    put_header(out, item.form, item.kind, body.len() as u64)?;
    out.extend_from_slice(body)?;
    Ok(())
}

// Atoms one after the other.
fn spell_items(alloc: Global, items: &[UserItem]) -> Result<Vec<u8>, NoMemory>
    requires { length (spell_all (map chunk_of items.now)) ≤ 2 ^ 24 }
    ensures { IfOk result (λ out. out.items ≡ spell_all (map chunk_of items.now)) }
{
    let mut out = Vec::new(alloc);
    'items: for item in items {
        put_atom(&mut out, item)?;
    }
    Ok(out)
}

/// The body of user data with these changes made one after the other: an item that is set stands where the first of its type
/// stood, or last, and the others of that type go; each other atom and the bytes behind the atoms stay. `TooLarge` where the new
/// body passes 16 MiB.
pub fn edit_user(alloc: Global, body: &[u8], changes: &[UserChange]) -> Result<UserBody, UserFault>
    requires { AllByRecursion CanSet changes.now }
    ensures { IsEdited (changes_of changes.now) body.now result }
{
    let Ok(UserItems { items, rest }) = read_items(alloc, body) else {
        return Err(UserFault::Memory);
    };
    let mut items = items;
    if put_changes(&mut items, alloc, changes).is_err() {
        return Err(UserFault::Memory);
    }
    let size = body_len(&items, rest.as_slice().len() as u64);
    if size == u64::MAX {
        return Err(UserFault::Memory);
    }
    if size > MOST_BYTES {
        return Err(UserFault::TooLarge { size });
    }
    let Ok(bytes) = spell_items(alloc, &items) else {
        return Err(UserFault::Memory);
    };
    let mut bytes = bytes;
    if bytes.extend_from_slice(rest.as_slice()).is_err() {
        return Err(UserFault::Memory);
    }
    Ok(UserBody {
        bytes: Bytes::of(bytes),
        items: items.len() as u64,
    })
}
