// Worked edits of a file of 48 bytes, by the places of its chunks.
ghost use Rattle.std.specs.Prelude.{◌≡◌, IfOk};
ghost use Rattle.unit_plan.specs.Places.{Follow};

use crate::{FormAt, Widening, plan_row};
use me_disk::{MemoryDepot, Room};
use part_tree::{Bytes, NoMemory, Plan, PlanFault, Span};
use std::alloc::{AllocError, Global};
use std::test::Fail;
use unit_plan::{Place, What};

const F48: [u8; 48] = [
    0x52, 0x49, 0x46, 0x46, 0x28, 0x00, 0x00, 0x00, 0x57, 0x41, 0x56, 0x45, 0x66, 0x6D, 0x74, 0x20,
    0x10, 0x00, 0x00, 0x00, 0x01, 0x00, 0x01, 0x00, 0x44, 0xAC, 0x00, 0x00, 0x88, 0x58, 0x01, 0x00,
    0x02, 0x00, 0x10, 0x00, 0x64, 0x61, 0x74, 0x61, 0x04, 0x00, 0x00, 0x00, 0x01, 0x02, 0x03, 0x04,
];

// A chunk of one part that stays.
fn stays(at: u64, next: u64) -> Place
    ensures at { result.at ≡ at }
    ensures next { result.next ≡ next }
{
    Place {
        at,
        next,
        lacks_pad: false,
        parts: 1,
        what: What::Stays,
    }
}

// So many bytes of 7 at a place where nothing stood, of so many parts.
fn sevens(alloc: Global, at: u64, count: usize, parts: u64) -> Result<Place, NoMemory>
    ensures at { IfOk result (λ p. p.at ≡ at) }
    ensures next { IfOk result (λ p. p.next ≡ at) }
{
    let mut bytes = Vec::new(alloc);
    for _ in 0..count {
        bytes.extend_from_slice(&[7])?;
    }
    Ok(Place {
        at,
        next: at,
        lacks_pad: false,
        parts,
        what: What::Changes(Bytes::of(bytes)),
    })
}

// The plan of these places of the file.
fn planned(alloc: Global, places: &[Place]) -> Result<Result<Plan, PlanFault>, Fail>
    requires { Follow 12 places.now 48 }
{
    let mut file = Vec::new(alloc);
    file.extend_from_slice(&F48)?;
    let room = Room {
        calls: 100,
        bytes: 1000,
    };
    let mut depot = match MemoryDepot::new(alloc, Some(file), None, room, Vec::new(alloc)) {
        Err(_) => return Err(Fail::from(AllocError)),
        Ok(depot) => depot,
    };
    let form = FormAt {
        big: false,
        len: 48,
        end: 48,
    };
    let widening = Widening {
        reserved: None,
        sound: Span { at: 44, len: 4 },
        align: 2,
    };
    Ok(plan_row(alloc, &mut depot, form, &widening, places, 12, 48))
}

// A list of 24 bytes at the end; 610 bytes before `fmt `; and more parts than a file may have.
#[test]
fn plans(rt: HostRuntime) -> Result<(), Fail> {
    let alloc = rt.alloc();
    let last = [stays(12, 36), stays(36, 48), sevens(alloc, 48, 24, 2)?];
    match planned(alloc, &last)?? {
        Plan::Rewrite { .. } => return Err(Fail::from(AllocError)),
        Plan::InPlace {
            old_len,
            new_len,
            patches,
        } => {
            assert_eq!(rt; (old_len, new_len), (48, 72));
            let mut found = Vec::new(alloc);
            for patch in patches.as_slice() {
                let bytes = patch.bytes.as_slice();
                found.push((patch.at, bytes.len(), bytes.first().copied()))?;
            }
            assert_eq!(rt;
                found.as_slice(),
                [(4, 4, Some(64)), (48, 24, Some(7))].as_slice()
            );
        }
    }
    let first = [sevens(alloc, 12, 610, 1)?, stays(12, 36), stays(36, 48)];
    match planned(alloc, &first)?? {
        Plan::InPlace { .. } => return Err(Fail::from(AllocError)),
        Plan::Rewrite {
            new_len,
            segments,
            ..
        } => {
            assert_eq!(rt; new_len, 658);
            assert_eq!(rt; segments.as_slice().len(), 5);
        }
    }
    let many = [stays(12, 36), stays(36, 48), sevens(alloc, 48, 24, 65_535)?];
    let fault = match planned(alloc, &many)? {
        Err(fault) => Some(fault),
        Ok(_) => None,
    };
    let large = PlanFault::TooLarge {
        size: 65_537,
        limit: 65_536,
    };
    assert_eq!(rt; fault, Some(large));
    Ok(())
}
