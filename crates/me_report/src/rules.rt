// The lines of broken rules.
ghost use Rattle.std.specs.Prelude.{◌≡◌, ◌++◌, ◌<◌, ◌^◌, length, IfOk, OnOk};
ghost use Rattle.std.specs.List.{flat_map};
ghost use Rattle.me_report.specs.Findings.{finding_line, findings_text};

use crate::text::{put, put_count, put_name};
use part_tree::{Broken, Bytes, NoMemory, rule_name};
use std::alloc::Global;

fn put_finding(alloc: Global, out: &mut Vec<u8>, broken: &Broken) -> Result<(), NoMemory>
    ensures { OnOk result (out.new.items ≡ out.old.items ++ finding_line broken.now) }
{
    put(out, b"rule ")?;
    put(out, rule_name(broken.rule).as_bytes())?;
    put(out, b" ")?;
    put_name(alloc, out, &broken.field)?;
    put(out, b"\n")
}

/// A line for each finding, and their number. A number that no rule has and a field without a text give no bytes in
/// their place.
pub fn validate_text(alloc: Global, broken: &[Broken]) -> Result<Bytes, NoMemory>
    ensures { IfOk result (λ text. text ≡ findings_text broken.now) }
{
    let mut out = Vec::new(alloc);
    'findings: for finding in broken {
        put_finding(alloc, &mut out, finding)?;
    }
    put_count(&mut out, b"findings ", broken.len() as u64)?;
    Ok(Bytes::of(out))
}
