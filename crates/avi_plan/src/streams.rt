// The names of an AVI file's streams, edited.
ghost use Rattle.std.specs.Prelude.{◌≡◌, ◌≤◌, ◌<◌, ◌+◌, ◌-◌, ◌%◌, ◌^◌, ◌++◌, ◌∷◌, [], ◌&&◌, ◌==◌, ◌⊎◌, ℕ, List, IfOk, IfSome, IfNone, OnOk, length, min, option_copied, false, true};
ghost use Rattle.std.specs.List.{AllByRecursion};
ghost use Rattle.me_bytes.specs.Bytes.{IsBytes};
ghost use Rattle.me_disk.specs.Causes.{Rose};
ghost use Rattle.me_disk.specs.Holds.{Holds, Inside};
ghost use Rattle.me_disk.specs.Steps.{ReadsOnly};
ghost use Rattle.unit_plan.specs.Cuts.{FitsIn, IsExact, SpansAscend};
ghost use Rattle.avi_names.specs.Names.{IsWhole};
ghost use Rattle.container_model.specs.Chunk.{spell};
ghost use Rattle.container_model.specs.Items.{listed};
ghost use Rattle.avi_model.specs.Named.{Names, Site, names_after};
ghost use Rattle.avi_plan.specs.Form.{IsSoundForm};
ghost use Rattle.avi_plan.specs.Lists.{IsSoundList, behind, keeps_pad, lacks_then, len_then, list_cuts, size_then};
ghost use Rattle.avi_plan.specs.NamesAt.{AreNames, StandNames};
ghost use Rattle.avi_plan.specs.Streams.{AreInside, AreSites, IsSite, LiesIn, NameIs, StreamsEnd, StreamsTold, TellsStreams, named_among, told};

use crate::form::FormAt;
use crate::list::{ListAt, ListThen, list_then};
use crate::names::NamesAt;
use crate::strl::{StrlUnits, strl_units};
use avi_names::NamesFault;
use me_disk::Depot;
use part_tree::{Bytes, NoMemory, Span};
use std::alloc::Global;
use unit_plan::{CutAt, UnitCuts};

/// What becomes of a stream's name: the whole body of its chunk, or none. Streams count from 0.
#[derive(Debug, Drop)]
pub struct StreamName {
    pub stream: u32,
    pub body: Option<Bytes>,
}

/// The spans of streams' lists so far, whether each unit fits its slot, how many chunks the edited lists have and how many then,
/// and the byte behind the last of these lists.
#[derive(Debug, Drop)]
pub struct StreamSpans {
    pub cuts: Vec<CutAt>,
    pub fits: bool,
    pub was: u64,
    pub now: u64,
    pub at: u64,
}

// The last of some changes that is of a stream.
fn name_of(names: &[StreamName], stream: u64) -> Option<&StreamName>
    ensures { NameIs (told names.now) stream (option_copied result) }
{
    let mut i = names.len();
    'names: while i > 0 {
        i -= 1;
        if u64::from(names[i].stream) == stream {
            return Some(&names[i]);
        }
    }
    None
}

// The list of a stream, by its body behind the type, where it stands behind a place and in `hdrl`, whose body ends there.
fn strl_at(from: u64, end: u64, strl: Span) -> Option<ListAt>
    requires order { from ≤ end }
    requires small { end < 2 ^ 63 }
    ensures sound { IfSome result (λ l. IsSoundList l) }
    ensures is { IfSome result (λ l. (l.at + 12 ≡ strl.at) × (l.size ≡ strl.len + 4)
        × (l.next ≡ min end (strl.at + strl.len + (strl.len + 4) % 2))) }
    ensures inside { IfSome result (λ l. (from ≤ l.at) × (l.at + 8 + l.size ≤ end) × (l.next ≤ end)) }
    ensures none { IfNone result ((strl.at < from + 12) ⊎ (end < strl.at + strl.len)) }
{
    if strl.at < from + 12 || strl.at > end {
        return None;
    }
    if strl.len > end - strl.at {
        return None;
    }
    let size = strl.len + 4;
    let next = end.min(strl.at + strl.len + size % 2);
    Some(ListAt {
        at: strl.at - 12,
        size,
        next,
    })
}

// The list `hdrl` in a form, by its body.
fn hdrl_at(form: &FormAt, hdrl: Span) -> ListAt
    requires sound { IsSoundForm form.now }
    requires lies { LiesIn form.now hdrl }
    ensures sound { IsSoundList result }
    ensures is { (result.at + 8 ≡ hdrl.at) × (result.size ≡ hdrl.len)
        × (result.next ≡ min (8 + form.now.size) (hdrl.at + hdrl.len + hdrl.len % 2)) }
{
    let next = (8 + form.size).min(hdrl.at + hdrl.len + hdrl.len % 2);
    ListAt {
        at: hdrl.at - 8,
        size: hdrl.len,
        next,
    }
}

impl StreamSpans {
    // The spans of one list more.
    fn add(&mut self, alloc: Global, list: &ListAt, found: StrlUnits) -> Result<(), NoMemory>
        requires sound { IsSoundList list.now }
        requires ascend { SpansAscend (list.now.at + 12) found.units.cuts.items (list.now.at + 8 + list.now.size) }
        ensures cuts { OnOk result (self.new.cuts.items ≡ self.old.cuts.items
            ++ list_cuts list.now found.units.cuts.items) }
        ensures fits { OnOk result (self.new.fits ≡ (self.old.fits
            && (found.units.fits && keeps_pad list.now (size_then list.now found.units.cuts.items)))) }
        ensures was { OnOk result (self.new.was ≡ self.old.was + found.was) }
        ensures now { OnOk result (self.new.now ≡ self.old.now + found.units.parts) }
        ensures at { OnOk result (self.new.at ≡ list.now.next) }
    {
        let StrlUnits { units, was } = found;
        let UnitCuts { cuts, fits, parts } = units;
        let Some(was) = self.was.checked_add(was) else {
            return Err(NoMemory);
        };
        let Some(now) = self.now.checked_add(parts) else {
            return Err(NoMemory);
        };
        let ListThen { cuts, stays, .. } = list_then(alloc, list, cuts)?;
        let mut cuts = cuts;
        match self.cuts.append(&mut cuts) {
            Err(_) => return Err(NoMemory),
            Ok(()) => {}
        }
        self.fits = self.fits & (fits & stays);
        self.was = was;
        self.now = now;
        self.at = list.next;
        Ok(())
    }

    // The list of a stream whose name becomes this one, or goes.
    fn put<D: Depot>(
        &mut self,
        alloc: Global,
        depot: &mut D,
        list: &ListAt,
        body: &Option<Bytes>,
        len: u64,
    ) -> Result<(), NamesFault>
        requires inside { Inside len (D.disk depot.old) }
        requires small { len < 2 ^ 63 }
        requires sound { IsSoundList list.now }
        requires within { list.now.next ≤ len }
        requires order { self.old.at ≤ list.now.at }
        requires whole { IsWhole (D.disk depot.old) (behind list.now) }
        ensures inside { OnOk result ((from end : ℕ) → AreInside from end len self.old → list.now.next ≤ end
            → AreInside from end len self.new) }
        ensures told { (b : List ℕ) (e : Names) (end : ℕ) (s : Site) (ss : List Site) → Holds (D.disk depot.old) b
            → IsBytes b → IsSite b end len (behind list.now) s → list.now.next ≡ s.at + length (spell s.chunk)
            → names_after e s.stream [] ≡ listed body.now → StreamsTold b e ss self.old
            → OnOk result (StreamsTold b e (ss ++ s ∷ []) self.new) }
        ensures at { OnOk result (self.new.at ≡ list.now.next) }
        ensures reads { ReadsOnly (D.disk depot.old) (D.disk depot.new) }
        ensures cause { result ≡ Err NamesFault.Depot → Rose (D.disk depot.old).faults (D.disk depot.new).faults }
    {
        let strl = Span {
            at: list.at + 12,
            len: list.size - 4,
        };
        let found = match strl_units(alloc, depot, strl, body, len) {
            Err(fault) => return Err(fault),
            Ok(found) => found,
        };
        match self.add(alloc, list, found) {
            Err(_) => Err(NamesFault::Memory),
            Ok(()) => Ok(()),
        }
    }

    // The list of the next stream, by what becomes of its name, in `hdrl`, whose body ends there. There is no memory for one that
    // doesn't stand where it is told: the depot gives other bytes than those that it was told of.
    fn take<D: Depot>(
        &mut self,
        alloc: Global,
        depot: &mut D,
        strl: Span,
        name: Option<&StreamName>,
        end: u64,
        len: u64,
    ) -> Result<(), NamesFault>
        requires inside { Inside len (D.disk depot.old) }
        requires small { len < 2 ^ 63 }
        requires order { self.old.at ≤ end }
        requires within { end ≤ len }
        requires whole { IsWhole (D.disk depot.old) strl }
        ensures inside { OnOk result ((from : ℕ) → AreInside from end len self.old → AreInside from end len self.new) }
        ensures told { (b : List ℕ) (e : Names) (s : Site) (ss : List Site) → Holds (D.disk depot.old) b
            → IsBytes b → IsSite b end len strl s → NameIs e s.stream (option_copied name.entry) → self.old.at ≤ s.at
            → StreamsTold b e ss self.old → OnOk result (StreamsTold b e (ss ++ named_among e (s ∷ [])) self.new
            × (self.new.at ≤ s.at + length (spell s.chunk))) }
        ensures order { OnOk result (self.new.at ≤ end) }
        ensures reads { ReadsOnly (D.disk depot.old) (D.disk depot.new) }
        ensures cause { result ≡ Err NamesFault.Depot → Rose (D.disk depot.old).faults (D.disk depot.new).faults }
    {
        let Some(name) = name else {
            return Ok(());
        };
        let Some(list) = strl_at(self.at, end, strl) else {
            return Err(NamesFault::Memory);
        };
        match self.put(alloc, depot, &list, &name.body, len) {
            Err(fault) => Err(fault),
            Ok(()) => Ok(()),
        }
    }
}

// The spans of the streams' lists in `hdrl`, whose body stands here.
fn streams_spans<D: Depot>(
    alloc: Global,
    depot: &mut D,
    hdrl: Span,
    streams: &[Span],
    names: &[StreamName],
    len: u64,
) -> Result<StreamSpans, NamesFault>
    requires inside { Inside len (D.disk depot.old) }
    requires small { len < 2 ^ 63 }
    requires typed { 4 ≤ hdrl.len }
    requires within { hdrl.at + hdrl.len ≤ len }
    requires whole { (b : List ℕ) → Holds (D.disk depot.old) b → StreamsEnd b streams.now }
    ensures inside { IfOk result (λ r. AreInside (hdrl.at + 4) (hdrl.at + hdrl.len) len r) }
    ensures told { (b : List ℕ) (ss : List Site) → Holds (D.disk depot.old) b → IsBytes b
        → AreSites b (hdrl.at + hdrl.len) len 0 (hdrl.at + 4) streams.now ss
        → IfOk result (λ r. StreamsTold b (told names.now) (named_among (told names.now) ss) r) }
    ensures reads { ReadsOnly (D.disk depot.old) (D.disk depot.new) }
    ensures cause { result ≡ Err NamesFault.Depot → Rose (D.disk depot.old).faults (D.disk depot.new).faults }
{
    let mut found = StreamSpans {
        cuts: Vec::new(alloc),
        fits: true,
        was: 0,
        now: 0,
        at: hdrl.at + 4,
    };
    let end = hdrl.at + hdrl.len;
    let mut stream: u64 = 0;
    'streams: for strl in streams {
        let name = name_of(names, stream);
        match found.take(alloc, depot, *strl, name, end, len) {
            Err(fault) => return Err(fault),
            Ok(()) => {}
        }
        stream += 1;
    }
    Ok(found)
}

// What the spans of the streams' lists make of `hdrl`.
fn names_at(alloc: Global, list: &ListAt, found: StreamSpans) -> Result<NamesAt, NoMemory>
    requires sound { IsSoundList list.now }
    requires ascend { SpansAscend (list.now.at + 12) found.cuts.items (list.now.at + 8 + list.now.size) }
    ensures place { IfOk result (λ n. (n.at ≡ list.now.at) × (n.next ≡ list.now.next)) }
    ensures cuts { IfOk result (λ n. n.cuts.items ≡ list_cuts list.now found.cuts.items) }
    ensures fits { IfOk result (λ n. n.fits ≡ (found.fits
        && keeps_pad list.now (size_then list.now found.cuts.items))) }
    ensures len { IfOk result (λ n. n.len ≡ len_then list.now (size_then list.now found.cuts.items)) }
    ensures lacks { IfOk result (λ n. n.lacks_pad
        ≡ lacks_then list.now (size_then list.now found.cuts.items)) }
    ensures parts { IfOk result (λ n. (n.was ≡ found.was) × (n.now ≡ found.now)) }
{
    let StreamSpans {
        cuts,
        fits,
        was,
        now,
        ..
    } = found;
    let ListThen { cuts, size, stays } = list_then(alloc, list, cuts)?;
    let pad = if stays { list.pad() } else { size % 2 };
    let Some(len) = size.checked_add(8 + pad) else {
        return Err(NoMemory);
    };
    let lacks_pad = list.size % 2 == 1 && size % 2 == 1 && list.pad() == 0;
    Ok(NamesAt {
        at: list.at,
        next: list.next,
        cuts,
        fits: fits & stays,
        len,
        lacks_pad,
        was,
        now,
    })
}

/// What an edit of the names of streams makes of `hdrl`: its body is told, and those of the streams' lists behind their types. Of
/// two changes of a stream the last one counts. It takes no more memory than the new names, and the places in one stream's list.
pub fn name_spans<D: Depot>(
    alloc: Global,
    depot: &mut D,
    form: &FormAt,
    hdrl: Span,
    streams: &[Span],
    names: &[StreamName],
) -> Result<NamesAt, NamesFault>
    requires sound { IsSoundForm form.now }
    requires inside { Inside form.now.len (D.disk depot.old) }
    requires lies { LiesIn form.now hdrl }
    requires tells { (b : List ℕ) → Holds (D.disk depot.old) b → TellsStreams b form.now hdrl streams.now }
    ensures names { (b : List ℕ) → Holds (D.disk depot.old) b → IsBytes b
        → IfOk result (λ n. AreNames b (told names.now) n) }
    ensures stand { IfOk result (λ n. StandNames form.now.len n) }
    ensures reads { ReadsOnly (D.disk depot.old) (D.disk depot.new) }
    ensures cause { result ≡ Err NamesFault.Depot → Rose (D.disk depot.old).faults (D.disk depot.new).faults }
{
    let list = hdrl_at(form, hdrl);
    let found = match streams_spans(alloc, depot, hdrl, streams, names, form.len) {
        Err(fault) => return Err(fault),
        Ok(found) => found,
    };
    match names_at(alloc, &list, found) {
        Err(_) => Err(NamesFault::Memory),
        Ok(named) => Ok(named),
    }
}
