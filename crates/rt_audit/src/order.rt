//! The numbers of a round.

ghost use Rattle.std.specs.Prelude.{◌≡◌, length, IfOk, IsOk};

use rt_base::{Items, NoMemory};
use std::alloc::Global;
use std::marker::Model;

/// How the numbers are kept. One alone is kept in place, since most rounds have one.
#[derive(Debug, Drop)]
pub enum OrderKind {
    One([u64; 1]),
    Many(Items<u64>),
}

/// The numbers that a round visits, in order. Contracts see their list.
#[derive(Debug, Drop)]
pub struct Order {
    kind: OrderKind,
}

impl Model for Order {
    ghost use Rattle.std.specs.Prelude.{ℕ, List};
    ghost use Rattle.rt_audit.specs.EntryParts.{order_of};

    ghost Value = { List ℕ };

    ghost view = { λ o. order_of o.kind };
}

impl Order {
    /// Makes an order of a copy of these numbers. One alone takes no memory.
    pub fn of(alloc: Global, numbers: &[u64]) -> Result<Order, NoMemory>
        ensures order { IfOk result (λ order. order ≡ numbers.now) }
        ensures one { length numbers.now ≡ 1 → IsOk result }
    {
        let kind = match numbers {
            [one] => OrderKind::One([*one]),
            _ => OrderKind::Many(Items::of(numbers.to_vec(alloc)?)),
        };
        Ok(Order { kind })
    }

    /// Makes an order of the numbers of a `Vec`. It takes no memory.
    pub fn from_vec(numbers: Vec<u64>) -> Order
        ensures { result ≡ numbers.items }
    {
        Order {
            kind: OrderKind::Many(Items::of(numbers)),
        }
    }

    /// Returns the numbers in order, borrowed.
    #[inline(always)]
    pub fn as_slice(&self) -> &[u64]
        ensures { result.now ≡ self.now }
    {
        match &self.kind {
            OrderKind::One(one) => one.as_slice(),
            OrderKind::Many(numbers) => numbers.as_slice(),
        }
    }
}
