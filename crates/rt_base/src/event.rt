// What an audited call notes in its environment.

use crate::items::Items;
use crate::text::Text;

/// An event: a label and the byte fields that the digest takes in, in order.
#[derive(Debug, Drop, PartialEq, Eq)]
pub struct Event {
    pub label: Text,
    pub fields: Items<Items<u8>>,
}
