// The name of a context: its label and its attributes.
ghost use Rattle.std.specs.Prelude.{◌≡◌, IfOk, OnErr, OnOk, length, take, drop, ◌<◌, ◌≤◌, ℕ, List, slice_get};
ghost use Rattle.rt_base.specs.Attributes.{with_attribute, IsSortedByKey, PutAt};

use crate::items::Items;
use crate::no_memory::NoMemory;
use crate::text::Text;
use std::alloc::Global;
use std::cmp::Ordering;

/// The label and the attributes of a context, sorted by key.
#[derive(Debug, Drop, PartialEq, Eq)]
pub struct Name {
    pub label: Text,
    pub attributes: Items<(Text, Text)>,
}

impl Name {
    /// Returns an equal name.
    pub fn clone_value(&self) -> Result<Name, NoMemory>
        ensures { IfOk result (λ name. name ≡ self.now) }
    {
        Ok(Name {
            label: self.label.clone_value()?,
            attributes: clone_attributes(self.attributes.allocator(), self.attributes.as_slice())?,
        })
    }
}

/// Returns a copy of these attributes.
pub fn clone_attributes(
    alloc: Global,
    attributes: &[(Text, Text)],
) -> Result<Items<(Text, Text)>, NoMemory>
    ensures { IfOk result (λ copy. copy ≡ attributes.now) }
{
    let mut copy = Vec::new(alloc);
    for (key, value) in attributes {
        copy.push((key.clone_value()?, value.clone_value()?))?;
    }
    Ok(Items::of(copy))
}

/// Gives the key this value. The list stays sorted by key; a key that is there keeps its place, and any other is
/// inserted.
///
/// Nothing has changed after `NoMemory`.
pub fn add_attribute(
    alloc: Global,
    attributes: &mut Vec<(Text, Text)>,
    key: &str,
    value: &str,
) -> Result<(), NoMemory>
    ensures added { OnOk result (attributes.new.items ≡ with_attribute attributes.old.items key.now value.now) }
    ensures sorted { IsSortedByKey attributes.old.items → IsSortedByKey attributes.new.items }
    ensures unchanged { OnErr result (attributes.new.items ≡ attributes.old.items) }
{
    let value = Text::of(String::from_str(alloc, value)?);
    match place_of(attributes.as_slice(), key) {
        Ok(at) => attributes[at].1 = value,
        Err(at) => {
            let key = Text::of(String::from_str(alloc, key)?);
            attributes.insert(at, (key, value))?;
        }
    }
    Ok(())
}

// Where the key is, or where it would go.
fn place_of(attributes: &[(Text, Text)], key: &str) -> Result<usize, usize>
    ensures { PutAt attributes.now key.now result }
{
    for (at, attribute) in attributes.iter().enumerate() {
        match key.cmp(attribute.0.as_str()) {
            Ordering::Less => return Err(at),
            Ordering::Equal => return Ok(at),
            Ordering::Greater => {}
        }
    }
    Err(attributes.len())
}
