// The spans of names and those of lists of fields.
ghost use Rattle.std.specs.Prelude.{◌≡◌, ◌≤◌, ◌<◌, ◌+◌, ◌++◌, ◌^◌, ℕ, List, length, take, drop, true, IfOk, IfSome};
ghost use Rattle.unit_plan.specs.declared.cut.CutAt.{CutAt};
ghost use Rattle.avi_plan.specs.Row.{IsBeside, IsJoined};

use crate::names::NamesAt;
use part_tree::NoMemory;
use unit_plan::{CutAt, UnitCuts};

// Whether a span ends at a place or before it.
fn ends_by(cut: &CutAt, at: u64) -> bool
    ensures { result ≡ true → cut.now.span.at + cut.now.span.len ≤ at }
{
    match cut.span.at.checked_add(cut.span.len) {
        None => false,
        Some(end) => end <= at,
    }
}

// How many spans stand before a range of a file. None where one touches it, or where it goes on behind `end`.
fn before_range(cuts: &[CutAt], at: u64, next: u64, end: u64) -> Option<usize>
    ensures beside { IfSome result (λ j. IsBeside at next end (take j cuts.now) (drop j cuts.now)) }
    ensures few { IfSome result (λ j. j ≤ length cuts.now) }
{
    if next > end {
        return None;
    }
    let mut j = 0usize;
    'low: while j < cuts.len() {
        if cuts[j].span.at > at {
            break;
        }
        if !ends_by(&cuts[j], at) {
            return None;
        }
        j += 1;
    }
    let mut i = j;
    'high: while i < cuts.len() {
        if cuts[i].span.at < next {
            return None;
        }
        i += 1;
    }
    Some(j)
}

// Spans put among others, behind the first so many.
fn put_between(j: usize, names: Vec<CutAt>, units: Vec<CutAt>) -> Result<Vec<CutAt>, NoMemory>
    requires { j ≤ length units.items }
    ensures { IfOk result (λ all. all.items ≡ take j units.items ++ (names.items ++ drop j units.items)) }
{
    let mut all = units;
    let mut between = names;
    let mut tail = match all.split_off(j) {
        Err(_) => return Err(NoMemory),
        Ok(tail) => tail,
    };
    match all.append(&mut between) {
        Err(_) => return Err(NoMemory),
        Ok(()) => {}
    }
    match all.append(&mut tail) {
        Err(_) => return Err(NoMemory),
        Ok(()) => {}
    }
    Ok(all)
}

// All parts: those of the form's chunks, the others of the file, and those that the streams' lists gain. None where 64 bits don't
// hold the number.
fn all_parts(parts: u64, others: u64, was: u64, now: u64) -> Option<u64>
    ensures { IfSome result (λ n. n + was ≡ parts + others + now) }
{
    let Some(sum) = parts.checked_add(others) else {
        return None;
    };
    let Some(more) = sum.checked_add(now) else {
        return None;
    };
    more.checked_sub(was)
}

/// What the units of a row and the names come to together, where the row ends at a place. No memory holds spans that overlap.
pub fn joined(names: NamesAt, units: UnitCuts, others: u64, end: u64) -> Result<UnitCuts, NoMemory>
    ensures { IfOk result (λ u. IsJoined others end names units u) }
{
    let NamesAt {
        at,
        next,
        cuts: between,
        fits: names_fit,
        was,
        now,
        ..
    } = names;
    let UnitCuts { cuts, fits, parts } = units;
    let Some(j) = before_range(&cuts, at, next, end) else {
        return Err(NoMemory);
    };
    let Some(sum) = all_parts(parts, others, was, now) else {
        return Err(NoMemory);
    };
    let all = put_between(j, between, cuts)?;
    Ok(UnitCuts {
        cuts: all,
        fits: names_fit & fits,
        parts: sum,
    })
}
