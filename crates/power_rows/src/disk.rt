// Files in memory, by what they held since they were last made safe.
ghost use Rattle.std.specs.Prelude.{◌≡◌, ◌+◌, ◌-◌, ◌<◌, ◌∷◌, ◌++◌, [], nat_lt, is_ok, IfOk, IfSome, OnOk, None, Some, option_copied, length, map};
ghost use Rattle.std.specs.Option.{option_map};
ghost use Rattle.me_disk.specs.Memory.{items_of};
ghost use Rattle.me_disk.specs.declared.depot.Slot.TheVariants.{Main, Journal, Work};
ghost use Rattle.power_rows.specs.Power.{file_left, file_of, from_back, garbled, held, kept_byte, left_under, torn};

use me_bytes::NoMemory;
use me_disk::{DepotFault, Slot};
use std::alloc::Global;
use std::marker::Model;

// What stands where the power was cut within a write.
const GARBAGE: u8 = 0xee;

/// Which of all that a power cut may leave it leaves: the file that each name stood for, counted from the last one back, and
/// how far the changes of each file went, in steps from the oldest content on, whole ones and torn ones in turn.
#[derive(Clone, Copy, Debug)]
pub struct Left {
    pub main: usize,
    pub journal: usize,
    pub main_bytes: usize,
    pub journal_bytes: usize,
}

/// Three names, and files that keep each content since they were last made safe, the newest last. After so many calls that
/// change it each further one fails.
#[derive(Drop)]
pub struct PowerDisk {
    alloc: Global,
    files: Vec<Vec<Vec<u8>>>,
    main: Vec<Option<usize>>,
    journal: Vec<Option<usize>>,
    work: Vec<Option<usize>>,
    calls: u64,
}

impl Model for PowerDisk {
    ghost use Rattle.std.specs.Prelude.{map};
    ghost use Rattle.power_rows.specs.Power.{Power, contents_of};

    ghost Value = { Power };

    ghost view = { λ d. record {
      files = map contents_of d.files.items;
      main = d.main.items;
      journal = d.journal.items;
      work = d.work.items;
      calls = d.calls;
    } };
}

// A list that holds this alone.
fn only<T: Drop>(alloc: Global, item: T) -> Result<Vec<T>, NoMemory>
    ensures { IfOk result (λ v. v.items ≡ item ∷ []) }
{
    let mut items = Vec::new(alloc);
    match items.push(item) {
        Ok(()) => Ok(items),
        Err(_) => Err(NoMemory),
    }
}

impl PowerDisk {
    /// A disk that holds these, all of it safe, and has no work file.
    ///
    /// # Errors
    ///
    /// `NoMemory` where there is none for the lists.
    pub fn new(
        alloc: Global,
        main: Option<Vec<u8>>,
        journal: Option<Vec<u8>>,
    ) -> Result<PowerDisk, NoMemory>
        ensures main { IfOk result (λ d. held Main d ≡ items_of main) }
        ensures journal { IfOk result (λ d. held Journal d ≡ items_of journal) }
        ensures work { IfOk result (λ d. held Work d ≡ None) }
    {
        PowerDisk::with_work(alloc, main, journal, None)
    }

    // A disk that holds these, all of it safe.
    fn with_work(
        alloc: Global,
        main: Option<Vec<u8>>,
        journal: Option<Vec<u8>>,
        work: Option<Vec<u8>>,
    ) -> Result<PowerDisk, NoMemory>
        ensures main { IfOk result (λ d. held Main d ≡ items_of main) }
        ensures journal { IfOk result (λ d. held Journal d ≡ items_of journal) }
        ensures work { IfOk result (λ d. held Work d ≡ items_of work) }
    {
        let mut disk = PowerDisk {
            alloc,
            files: Vec::new(alloc),
            main: only(alloc, None)?,
            journal: only(alloc, None)?,
            work: only(alloc, None)?,
            calls: u64::MAX,
        };
        if let Some(bytes) = main {
            let file = disk.add(bytes)?;
            disk.main = only(alloc, Some(file))?;
        }
        if let Some(bytes) = journal {
            let file = disk.add(bytes)?;
            disk.journal = only(alloc, Some(file))?;
        }
        if let Some(bytes) = work {
            let file = disk.add(bytes)?;
            disk.work = only(alloc, Some(file))?;
        }
        Ok(disk)
    }

    /// Cuts the power after so many more calls that change it.
    pub fn cut_after(&mut self, calls: u64)
        ensures { self.new ≡ record self.old { calls = calls } }
    {
        self.calls = calls;
    }

    // A new file, which is safe.
    fn add(&mut self, bytes: Vec<u8>) -> Result<usize, NoMemory>
        ensures number { IfOk result (λ n. n ≡ length self.old.files) }
        ensures added { OnOk result
            (self.new ≡ record self.old { files = self.old.files ++ (bytes.items ∷ []) ∷ [] }) }
    {
        let contents = only(self.alloc, bytes)?;
        let number = self.files.len();
        match self.files.push(contents) {
            Ok(()) => Ok(number),
            Err(_) => Err(NoMemory),
        }
    }

    fn name(&mut self, name: Slot) -> &mut Vec<Option<usize>> {
        match name {
            Slot::Main => &mut self.main,
            Slot::Journal => &mut self.journal,
            Slot::Work => &mut self.work,
        }
    }

    pub(crate) fn file(&self, name: Slot) -> Option<usize>
        ensures { result ≡ file_of name self.now }
    {
        let names = match name {
            Slot::Main => &self.main,
            Slot::Journal => &self.journal,
            Slot::Work => &self.work,
        };
        names.last().copied().flatten()
    }

    /// What a read of the name gives, None where it stands for nothing.
    pub fn held(&self, name: Slot) -> Option<&[u8]>
        ensures { option_copied result ≡ held name self.now }
    {
        let contents = self.files.get(self.file(name)?)?;
        Some(contents.last()?.as_slice())
    }

    // A call that changes it, which fails once the power is cut.
    pub(crate) fn count(&mut self) -> Result<(), DepotFault>
        ensures answer { is_ok result ≡ nat_lt 0 self.old.calls }
        ensures counted { self.new ≡ record self.old { calls = self.old.calls - 1 } }
    {
        match self.calls.checked_sub(1) {
            Some(left) => {
                self.calls = left;
                Ok(())
            }
            None => Err(DepotFault),
        }
    }

    // The name stands for another file from now on, or for none.
    pub(crate) fn point(&mut self, name: Slot, file: Option<usize>) -> Result<(), DepotFault> {
        match self.name(name).push(file) {
            Ok(()) => Ok(()),
            Err(_) => Err(DepotFault),
        }
    }

    // A new file, which is empty.
    pub(crate) fn make(&mut self, name: Slot) -> Result<(), DepotFault> {
        if self.file(name).is_some() {
            return Err(DepotFault);
        }
        match self.add(Vec::new(self.alloc)) {
            Ok(number) => self.point(name, Some(number)),
            Err(_) => Err(DepotFault),
        }
    }

    // The file's content once more, for a change.
    fn copied(&self, name: Slot) -> Result<Vec<u8>, DepotFault> {
        match self.held(name) {
            Some(bytes) => match bytes.to_vec(self.alloc) {
                Ok(copy) => Ok(copy),
                Err(_) => Err(DepotFault),
            },
            None => Err(DepotFault),
        }
    }

    fn change(&mut self, name: Slot, content: Vec<u8>) -> Result<(), DepotFault> {
        let Some(number) = self.file(name) else {
            return Err(DepotFault);
        };
        match self.files.get_mut(number) {
            Some(contents) => match contents.push(content) {
                Ok(()) => Ok(()),
                Err(_) => Err(DepotFault),
            },
            None => Err(DepotFault),
        }
    }

    // Writes over the bytes from this place on, and past the end.
    pub(crate) fn write(&mut self, name: Slot, at: usize, bytes: &[u8]) -> Result<(), DepotFault> {
        let mut content = self.copied(name)?;
        let end = at.saturating_add(bytes.len());
        if content.len() < end && content.resize(end, 0).is_err() {
            return Err(DepotFault);
        }
        for (k, byte) in bytes.iter().enumerate() {
            match content.get_mut(at.saturating_add(k)) {
                Some(place) => *place = *byte,
                None => return Err(DepotFault),
            }
        }
        self.change(name, content)
    }

    pub(crate) fn resize(&mut self, name: Slot, n: usize) -> Result<(), DepotFault> {
        let mut content = self.copied(name)?;
        if content.resize(n, 0).is_err() {
            return Err(DepotFault);
        }
        self.change(name, content)
    }

    // Of the file's contents only the newest is left.
    pub(crate) fn sync(&mut self, name: Slot) -> Result<(), DepotFault> {
        let content = self.copied(name)?;
        let Some(number) = self.file(name) else {
            return Err(DepotFault);
        };
        match (self.files.get_mut(number), only(self.alloc, content)) {
            (Some(contents), Ok(safe)) => {
                *contents = safe;
                Ok(())
            }
            _ => Err(DepotFault),
        }
    }

    // Of what each name stood for only the newest is left.
    pub(crate) fn sync_names(&mut self) -> Result<(), DepotFault> {
        for name in [Slot::Main, Slot::Journal, Slot::Work] {
            let file = self.file(name);
            match only(self.alloc, file) {
                Ok(safe) => *self.name(name) = safe,
                Err(_) => return Err(DepotFault),
            }
        }
        Ok(())
    }

    // What is left of the file of this number.
    fn file_left(&self, number: usize, step: usize) -> Result<Option<Vec<u8>>, NoMemory>
        ensures { IfOk result (λ left. items_of left ≡ file_left self.now.files number step) }
    {
        match self.files.get(number) {
            None => Ok(None),
            Some(contents) => torn(self.alloc, contents, step),
        }
    }

    // What is left under a name, None where there is no such remainder.
    fn left_of(
        &self,
        names: &[Option<usize>],
        back: usize,
        step: usize,
    ) -> Result<Option<Option<Vec<u8>>>, NoMemory>
        ensures { IfOk result
            (λ left. option_map items_of left ≡ left_under self.now.files names.now back step) }
    {
        match from_back(names, back) {
            None => Ok(None),
            Some(None) => Ok(if step == 0 { Some(None) } else { None }),
            Some(Some(number)) => match self.file_left(number, step)? {
                None => Ok(None),
                Some(bytes) => Ok(Some(Some(bytes))),
            },
        }
    }

    /// The disk after the power was cut, with the work file as it was. None where there is no such remainder.
    ///
    /// # Errors
    ///
    /// `NoMemory` where there is none for the copy.
    pub fn after_cut(&self, left: Left) -> Result<Option<PowerDisk>, NoMemory>
        ensures main { IfOk result (λ cut. IfSome cut (λ d. left_under self.now.files self.now.main left.main left.main_bytes
            ≡ Some (held Main d))) }
        ensures journal { IfOk result (λ cut. IfSome cut (λ d. left_under self.now.files self.now.journal left.journal
            left.journal_bytes ≡ Some (held Journal d))) }
        ensures work { IfOk result (λ cut. IfSome cut (λ d. held Work d ≡ held Work self.now)) }
    {
        let Some(main) = self.left_of(&self.main, left.main, left.main_bytes)? else {
            return Ok(None);
        };
        let Some(journal) = self.left_of(&self.journal, left.journal, left.journal_bytes)? else {
            return Ok(None);
        };
        let work = match self.held(Slot::Work) {
            Some(bytes) => Some(bytes.to_vec(self.alloc)?),
            None => None,
        };
        Ok(Some(PowerDisk::with_work(self.alloc, main, journal, work)?))
    }
}

// The one that is so many before the newest.
fn from_back(names: &[Option<usize>], back: usize) -> Option<Option<usize>>
    ensures { result ≡ from_back names.now back }
{
    if back < names.len() {
        Some(names[names.len() - 1 - back])
    } else {
        None
    }
}

// The content that is left: at an even step one of those that it had, at an odd one what a cut within the change to the next
// leaves, which is garbage wherever the two differ and in all that the longer one has more.
fn torn(alloc: Global, contents: &[Vec<u8>], step: usize) -> Result<Option<Vec<u8>>, NoMemory>
    ensures { IfOk result (λ left. items_of left ≡ torn (map (λ v. v.items) contents.now) step) }
{
    let Some(before) = contents.get(step / 2) else {
        return Ok(None);
    };
    if step % 2 == 0 {
        return Ok(Some(before.to_vec(alloc)?));
    }
    let Some(after) = contents.get((step / 2).saturating_add(1)) else {
        return Ok(None);
    };
    if before.len() < after.len() {
        Ok(Some(garbled(alloc, after, before)?))
    } else {
        Ok(Some(garbled(alloc, before, after)?))
    }
}

// The first of the two, with garbage wherever the second is another or none.
fn garbled(alloc: Global, bytes: &[u8], other: &[u8]) -> Result<Vec<u8>, NoMemory>
    ensures { IfOk result (λ v. v.items ≡ garbled bytes.now other.now) }
{
    let mut mixed = Vec::with_capacity(alloc, bytes.len())?;
    for (k, byte) in bytes.iter().enumerate() {
        if mixed.push(kept_byte(*byte, other.get(k).copied())).is_err() {
            return Err(NoMemory);
        }
    }
    Ok(mixed)
}

// The byte, or garbage where the other is not the same.
fn kept_byte(byte: u8, other: Option<u8>) -> u8
    ensures { result ≡ kept_byte byte other }
{
    match other {
        Some(other) if other == byte => byte,
        _ => GARBAGE,
    }
}
