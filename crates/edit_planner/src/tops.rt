// The chunks of the first form of an AVI file, among all parts of the file.
ghost use Rattle.std.specs.Prelude.{◌≡◌, ◌≤◌, ◌<◌, ◌+◌, ◌∷◌, ◌++◌, ◌^◌, [], ℕ, List, IfOk, IfSome, OnOk, false, true};
ghost use Rattle.part_tree.specs.declared.part.Part.{Part};
ghost use Rattle.avi_plan.specs.Form.{IsSoundForm};
ghost use Rattle.wave_file.specs.Map.{Ascend};
ghost use Rattle.edit_planner.specs.Tops.{EndsIn, begins as begins_at, first_len, is_listed as holds_fields, is_rest as names_rest, others, plain_part, plain_role as role_as, stands_apart as is_apart, tops};

use avi_file::AviMap;
use avi_plan::FormAt;
use part_tree::{NoMemory, Part, Role};
use std::alloc::Global;

/// The chunks of the first form so far, the byte behind the last one, whether that is a list of fields, and how many chunks stand
/// elsewhere in the file.
#[derive(Debug, Drop)]
pub struct Tops {
    pub parts: Vec<Part>,
    pub at: u64,
    pub listed: bool,
    pub others: u64,
}

fn is_rest(role: Role) -> bool
    ensures { result ≡ names_rest role }
{
    match role {
        Role::Rest => true,
        _ => false,
    }
}

fn is_listed(role: Role) -> bool
    ensures { result ≡ holds_fields role }
{
    match role {
        Role::Info => true,
        _ => false,
    }
}

// What a role is to an edit of lists of fields.
fn plain_role(role: Role) -> Role
    ensures { result ≡ role_as role }
{
    match role {
        Role::Padding => Role::Padding,
        Role::Info => Role::Info,
        _ => Role::Opaque,
    }
}

// A part as an edit of lists of fields knows it.
fn plain(part: &Part) -> Part
    ensures { result ≡ plain_part part.now }
{
    Part {
        id: part.id,
        at: part.at,
        body: part.body,
        next: part.next,
        role: plain_role(part.role),
    }
}

// Whether a part is a chunk that begins at a byte.
fn begins(part: &Part, at: u64) -> bool
    ensures { result ≡ begins_at at part.now }
{
    part.at == at && !is_rest(part.role)
}

// Whether a part is a chunk that stands elsewhere: not in the last chunk, where that is a list of fields.
fn stands_apart(part: &Part, at: u64, listed: bool) -> bool
    ensures { result ≡ is_apart listed at part.now }
{
    !is_rest(part.role) && !(listed && part.at < at)
}

// Whether a chunk that begins at a byte ends at or before another.
fn ends_in(part: &Part, at: u64, end: u64) -> bool
    ensures { result ≡ true → EndsIn at end part.now }
{
    let Some(head) = part.body.at.checked_sub(at) else {
        return false;
    };
    let Some(room) = part.next.checked_sub(part.body.at) else {
        return false;
    };
    head == 8 && part.body.len <= room && part.next <= end
}

impl Tops {
    // One chunk more of the form. There is no memory for one that ends behind the form: the map is of no such file.
    fn push(&mut self, part: &Part, end: u64) -> Result<(), NoMemory>
        requires begins { begins_at self.old.at part.now ≡ true }
        ensures tops { OnOk result (self.new.parts.items ≡ self.old.parts.items ++ plain_part part.now ∷ []) }
        ensures at { OnOk result (self.new.at ≡ part.now.next) }
        ensures listed { OnOk result (self.new.listed ≡ holds_fields part.now.role) }
        ensures others { OnOk result (self.new.others ≡ self.old.others) }
        ensures inside { OnOk result (EndsIn self.old.at end part.now) }
    {
        if !ends_in(part, self.at, end) {
            return Err(NoMemory);
        }
        match self.parts.push(plain(part)) {
            Err(_) => return Err(NoMemory),
            Ok(()) => {}
        }
        self.at = part.next;
        self.listed = is_listed(part.role);
        Ok(())
    }

    // One part more: a chunk of the form that ends at or before a byte, or another part.
    fn take(&mut self, part: &Part, end: u64) -> Result<(), NoMemory>
        ensures tops { OnOk result ((rest : List Part) → self.new.parts.items ++ tops self.new.at rest
            ≡ self.old.parts.items ++ tops self.old.at (part.now ∷ rest)) }
        ensures others { OnOk result ((rest : List Part) → self.new.others + others self.new.listed self.new.at rest
            ≡ self.old.others + others self.old.listed self.old.at (part.now ∷ rest)) }
        ensures ascend { OnOk result (Ascend 12 self.old.parts.items self.old.at
            → Ascend 12 self.new.parts.items self.new.at) }
        ensures end { OnOk result (self.old.at ≤ end → self.new.at ≤ end) }
    {
        if begins(part, self.at) {
            self.push(part, end)?;
            return Ok(());
        }
        if !stands_apart(part, self.at, self.listed) {
            return Ok(());
        }
        let Some(count) = self.others.checked_add(1) else {
            return Err(NoMemory);
        };
        self.others = count;
        Ok(())
    }
}

/// The chunks of the first form, which ends at a byte, among the parts of a file, and how many chunks stand elsewhere than among
/// these and in lists of fields.
pub fn tops_of(alloc: Global, parts: &[Part], end: u64) -> Result<Tops, NoMemory>
    requires { 12 ≤ end }
    ensures tops { IfOk result (λ t. t.parts.items ≡ tops 12 parts.now) }
    ensures others { IfOk result (λ t. t.others ≡ others false 12 parts.now) }
    ensures ascend { IfOk result (λ t. Ascend 12 t.parts.items t.at) }
    ensures end { IfOk result (λ t. t.at ≤ end) }
{
    let mut found = Tops {
        parts: Vec::new(alloc),
        at: 12,
        listed: false,
        others: 0,
    };
    'parts: for part in parts {
        match found.take(part, end) {
            Err(_) => return Err(NoMemory),
            Ok(()) => {}
        }
    }
    Ok(found)
}

/// The length of the first form's body. None where the map is of no file that has such a form.
pub fn form_size(map: &AviMap) -> Option<u64>
    ensures size { IfSome result (λ n. n ≡ first_len map.now.forms.items) }
    ensures sound { map.now.len < 2 ^ 63 → IfSome result (λ n. (others : ℕ)
        → IsSoundForm (record { len = map.now.len; size = n; others = others })) }
{
    if map.forms.is_empty() {
        return None;
    }
    let size = map.forms[0].len;
    let Some(most) = map.len.checked_sub(8) else {
        return None;
    };
    if 4 <= size && size <= most {
        Some(size)
    } else {
        None
    }
}
