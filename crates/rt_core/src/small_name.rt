//! The name of a context.

ghost use Rattle.std.specs.Prelude.{◌≡◌, [], IfOk, OnErr, OnOk};
ghost use Rattle.rt_base.specs.Attributes.{with_attribute};
ghost use Rattle.rt_core.specs.Contexts.{child_name};

use rt_base::{Items, Name, NoMemory, SmallText, Text, add_attribute, clone_attributes};
use std::alloc::Global;
use std::marker::Model;

/// The name of a context. Each task has one, so its label takes no memory where it has at most 22 bytes. Contracts
/// see the name.
#[derive(Drop)]
pub struct SmallName {
    label: SmallText,
    attributes: Items<(Text, Text)>,
}

impl Model for SmallName {
    ghost use Rattle.rt_base.specs.declared.name.Name.{Name};

    ghost Value = { Name };

    ghost view = { λ n. record { label = n.label; attributes = n.attributes } };
}

impl SmallName {
    /// Makes the name of a run's root.
    pub fn empty(alloc: Global) -> SmallName
        ensures { result ≡ record { label = []; attributes = [] } }
    {
        SmallName {
            label: SmallText::empty(),
            attributes: Items::of(Vec::new(alloc)),
        }
    }

    /// Returns the name of a child with this label.
    pub fn child_name(&self, alloc: Global, label: &str) -> Result<SmallName, NoMemory>
        ensures { IfOk result (λ name. name ≡ child_name self.now label.now) }
    {
        Ok(SmallName {
            label: SmallText::prefixed(alloc, self.label.as_str(), label)?,
            attributes: clone_attributes(alloc, self.attributes.as_slice())?,
        })
    }

    /// Returns a copy of the name.
    pub fn to_name(&self, alloc: Global) -> Result<Name, NoMemory>
        ensures { IfOk result (λ name. name ≡ self.now) }
    {
        Ok(Name {
            label: Text::of(self.label.as_str().to_owned(alloc)?),
            attributes: clone_attributes(alloc, self.attributes.as_slice())?,
        })
    }

    /// Returns the name with this attribute. It is refused with `NoMemory` alone, and then it is as it was.
    pub fn with_attribute(
        self,
        alloc: Global,
        key: &str,
        value: &str,
    ) -> (SmallName, Result<(), NoMemory>)
        ensures ok { OnOk result.1 (result.0 ≡ record self { attributes = with_attribute self.attributes key.now value.now }) }
        ensures err { OnErr result.1 (result.0 ≡ self) }
    {
        let SmallName { label, attributes } = self;
        let mut attributes = attributes.into_inner();
        let added = add_attribute(alloc, &mut attributes, key, value);
        let name = SmallName {
            label,
            attributes: Items::of(attributes),
        };
        (name, added)
    }
}
