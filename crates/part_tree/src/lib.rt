//! The words that all layers share: identifiers, ranges, bytes, fields, refusals, and plans to change a file.
//! It knows no format and no device.
#![tactic(auto)]

mod bytes;
mod field;
mod fields;
mod index;
mod key;
mod kind;
mod moves;
mod names;
mod part;
mod plan;
mod ranges;
mod shows;
mod table;
#[cfg(test)]
mod tests;
mod why;

pub use bytes::Bytes;
pub use field::{
    BextField, Broken, Change, EditItem, FieldName, Form, INFO_IDS, RuleSet, Value, WHOLE_IDS,
    is_user, rule_name,
};
pub use fields::{Entry, Fields, Values};
pub use index::IndexFault;
pub use key::{KeyName, MOST_KEY_BYTES, is_key};
pub use kind::kind_of;
pub use me_bytes::NoMemory;
pub use moves::Moves;
pub use names::{FourCc, Kind, Span};
pub use part::{Part, Role};
pub use plan::{Patch, Patches, Plan, PlanFault, Segment, Segments};
pub use ranges::{in_one, is_clear, is_head, lies_in};
pub use shows::{Shows, Track};
pub use table::{Base, IndexHead, TableForm};
pub use why::{ReadFault, Why};
