// The table of the rules.
ghost use Rattle.std.specs.Prelude.{◌≡◌, map};
ghost use Rattle.part_tree.specs.Names.{rule_names};

use part_tree::RuleSet;

/// A rule: its number, the set that it belongs to, and its name.
#[derive(Clone, Copy, Debug)]
pub struct RuleRow {
    pub id: u8,
    pub set: RuleSet,
    pub name: &'static str,
}

/// The rules, in their order.
pub const RULES: [RuleRow; 24] = [
    RuleRow {
        id: 1,
        set: RuleSet::Base,
        name: "BASE-KIND",
    },
    RuleRow {
        id: 2,
        set: RuleSet::Base,
        name: "BASE-VERSION",
    },
    RuleRow {
        id: 3,
        set: RuleSet::Base,
        name: "BASE-NUL",
    },
    RuleRow {
        id: 4,
        set: RuleSet::Base,
        name: "BASE-ASCII",
    },
    RuleRow {
        id: 5,
        set: RuleSet::Base,
        name: "BASE-WIDTH",
    },
    RuleRow {
        id: 6,
        set: RuleSet::Base,
        name: "BASE-DATE",
    },
    RuleRow {
        id: 7,
        set: RuleSet::Base,
        name: "BASE-TIME",
    },
    RuleRow {
        id: 8,
        set: RuleSet::Base,
        name: "BASE-TIMEREF",
    },
    RuleRow {
        id: 9,
        set: RuleSet::Base,
        name: "BASE-LOUDNESS",
    },
    RuleRow {
        id: 10,
        set: RuleSet::Base,
        name: "BASE-UMID",
    },
    RuleRow {
        id: 11,
        set: RuleSet::Base,
        name: "BASE-MD5",
    },
    RuleRow {
        id: 12,
        set: RuleSet::Base,
        name: "BASE-UTF8",
    },
    RuleRow {
        id: 13,
        set: RuleSet::Base,
        name: "BASE-LONG",
    },
    RuleRow {
        id: 14,
        set: RuleSet::Ebu,
        name: "EBU-HISTORY",
    },
    RuleRow {
        id: 15,
        set: RuleSet::Ebu,
        name: "EBU-DATE",
    },
    RuleRow {
        id: 16,
        set: RuleSet::Ebu,
        name: "EBU-TIME",
    },
    RuleRow {
        id: 17,
        set: RuleSet::Ebu,
        name: "EBU-RANGE",
    },
    RuleRow {
        id: 18,
        set: RuleSet::Ebu,
        name: "EBU-TEXT",
    },
    RuleRow {
        id: 19,
        set: RuleSet::Info,
        name: "INFO-ONCE",
    },
    RuleRow {
        id: 20,
        set: RuleSet::Info,
        name: "INFO-END",
    },
    RuleRow {
        id: 21,
        set: RuleSet::Info,
        name: "INFO-DATE",
    },
    RuleRow {
        id: 22,
        set: RuleSet::Fadgi,
        name: "FADGI-DESCRIPTION",
    },
    RuleRow {
        id: 23,
        set: RuleSet::Fadgi,
        name: "FADGI-ORIGINATOR",
    },
    RuleRow {
        id: 24,
        set: RuleSet::Fadgi,
        name: "FADGI-DATE",
    },
];

// Each row has its place, from 1, as its number, and is of this set.
macro_rules! rows_are {
    ($($k:literal $set:ident),*) => {
        true $(&& RULES[$k].id == $k + 1 && RULES[$k].set as u8 == RuleSet::$set as u8)*
    };
}

// The numbers are 1 to 24, in order.
const _: () = prove!(rows_are!(
    0 Base, 1 Base, 2 Base, 3 Base, 4 Base, 5 Base, 6 Base, 7 Base, 8 Base, 9 Base, 10 Base, 11 Base, 12 Base,
    13 Ebu, 14 Ebu, 15 Ebu, 16 Ebu, 17 Ebu,
    18 Info, 19 Info, 20 Info,
    21 Fadgi, 22 Fadgi, 23 Fadgi
));

/// The rules, each with the name that every report tells it by.
pub fn rule_rows() -> &'static [RuleRow]
    ensures { map (λ row. row.name.now) result.now ≡ rule_names }
{
    &RULES
}
