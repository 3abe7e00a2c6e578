//! The nodes that a journal tells.

ghost use Rattle.std.specs.Prelude.{◌≡◌, ◌<◌, ◌∷◌, ◌++◌, ◌&&◌, [], ℕ, List, IfOk, OnOk, vec_len, vec_capacity, filter, filter_map, is_some, map, not, ◌==◌, if◌then◌else◌};
ghost use Rattle.std.specs.List.{flat_map};
ghost use Rattle.rt_super.specs.Ancestry.{NodeState, TreeRecord, new_node, first_record, links, nodes_below, is_known, is_live, is_ended, newly_ended, node_at, subtree, task_on, tasks_on, with_child, with_task, with_release, with_end};
ghost use Rattle.rt_model.specs.Effects.{flagged_by, unflagged};
ghost use Rattle.rt_model.specs.Rules.{is_free};
ghost use Rattle.std.specs.Option.{option_copied};

use crate::below::subtree;
use crate::family::Family;
use crate::places::Places;
use rt_base::NoMemory;
use std::alloc::Global;
use std::marker::Model;

/// A node, as a journal tells it.
#[derive(Drop)]
struct NodeRow {
    number: u64,
    parent: Option<u64>,
    born_ended: bool,
    live: bool,
    task: Option<u64>,
}

impl Model for NodeRow {
    ghost use Rattle.rt_super.specs.Ancestry.{NodeState};

    ghost Value = { NodeState };

    ghost view = { λ n. record { number = n.number; parent = n.parent; born_ended = n.born_ended; live = n.live; task = n.task } };
}

/// The nodes that were made, by the numbers that the journal tells. Those may be any fresh ones, and the tree of a
/// run numbers its nodes itself, so it can't be used here. A map leads from a number to its place, so none is looked
/// for in a list.
#[derive(Drop)]
pub struct Nodes {
    rows: Vec<NodeRow>,
    places: Places,
    family: Family,
    /// The nodes whose end was asked for.
    ends: Vec<u64>,
    /// The nodes that have ended.
    ended: Places,
}

impl Model for Nodes {
    ghost use Rattle.rt_super.specs.Ancestry.{TreeRecord};
    ghost use Rattle.rt_walk.specs.Nodes.{record_of, IsRight};

    ghost Value = { TreeRecord };

    ghost view = { record_of };

    ghost invariant = { IsRight };
}

impl Nodes {
    /// Makes a record of node 0 alone, which isn't ended.
    pub fn new(alloc: Global) -> Result<Nodes, NoMemory>
        ensures { IfOk result (λ nodes. nodes ≡ first_record) }
    {
        let mut rows = Vec::new(alloc);
        rows.push(NodeRow {
            number: 0,
            parent: None,
            born_ended: false,
            live: true,
            task: None,
        })?;
        let mut places = Places::new(alloc);
        places.reserve(1)?;
        places.push(0);
        Ok(Nodes {
            rows,
            places,
            family: Family::new(alloc),
            ends: Vec::new(alloc),
            ended: Places::new(alloc),
        })
    }

    /// The node with this number.
    #[tactic(auto, using(crate::proofs::Rows::at_laws))]
    fn at(&self, number: u64) -> Option<&NodeRow>
        ensures { option_copied result ≡ node_at self.now number }
    {
        match self.places.place(number) {
            Some(place) => Some(&self.rows[place]),
            None => None,
        }
    }

    /// Returns whether the node was made.
    pub fn is_known(&self, node: u64) -> bool
        ensures { result ≡ is_known self.now node }
    {
        self.at(node).is_some()
    }

    /// Returns whether the node was made and not given up.
    pub fn is_live(&self, node: u64) -> bool
        ensures { result ≡ is_live self.now node }
    {
        match self.at(node) {
            Some(row) => row.live,
            None => false,
        }
    }

    /// The task on a node.
    fn task_on(&self, node: u64) -> Option<u64>
        ensures { result ≡ task_on self.now node }
    {
        self.at(node)?.task
    }

    /// Returns whether a task can be put on the node.
    pub fn is_free(&self, node: u64) -> bool
        ensures { result ≡ is_free self.now node }
    {
        self.is_live(node) && self.task_on(node).is_none()
    }

    /// Returns whether the node has ended, by an end of its own or of an ancestor's, or at its birth.
    pub fn is_ended(&self, node: u64) -> bool
        ensures { result ≡ is_ended self.now node }
    {
        self.ended.has(node)
    }

    /// Adds a child that was made. It is refused with `NoMemory` also where the number was told before, as a node's
    /// or as a parent's.
    pub fn add_child(&mut self, number: u64, parent: u64) -> Result<(), NoMemory>
        ensures { OnOk result (self.new ≡ with_child self.old number parent) }
    {
        if self.places.has(number) || !self.family.may_add(parent, number) {
            return Err(NoMemory);
        }
        self.rows.reserve(1)?;
        self.places.reserve(1)?;
        self.ended.reserve(1)?;
        if self.is_ended(parent) {
            self.ended.push(number);
            push_row(&mut self.rows, &mut self.places, number, None, true);
            return Ok(());
        }
        let alloc = *self.rows.allocator();
        self.family.add(alloc, parent, number)?;
        push_row(
            &mut self.rows,
            &mut self.places,
            number,
            Some(parent),
            false,
        );
        Ok(())
    }

    /// Puts a task on a node.
    #[tactic(auto, using(crate::proofs::Rows::at_laws))]
    pub fn put_task(&mut self, node: u64, task: u64)
        ensures { self.new ≡ with_task self.old node task }
    {
        match self.places.place(node) {
            Some(place) => self.rows[place].task = Some(task),
            None => {}
        }
    }

    /// Gives up a node.
    #[tactic(auto, using(crate::proofs::Rows::at_laws))]
    pub fn release(&mut self, node: u64)
        ensures { self.new ≡ with_release self.old node }
    {
        match self.places.place(node) {
            Some(place) => self.rows[place].live = false,
            None => {}
        }
    }

    /// Returns the children of a node, the eldest first.
    pub fn children(&self, node: u64) -> &[u64]
        ensures { nodes_below node (links self.now) ≡ flat_map (subtree (links self.now)) result.now }
    {
        let children = self.family.children(node);
        children
    }

    /// Ends a node and all below it. Answers the tasks on those that hadn't ended, an ancestor's before its descendants'.
    pub fn end(&mut self, node: u64) -> Result<Vec<u64>, NoMemory>
        ensures flagged { IfOk result (λ flagged. flagged.items ≡ flagged_by self.old node) }
        ensures ended { OnOk result (self.new ≡ unflagged (with_end self.old node)) }
    {
        if !self.is_known(node) {
            return Ok(Vec::new(*self.rows.allocator()));
        }
        let fresh = self.newly_ended(node)?;
        let flagged = self.tasks_on(fresh.as_slice())?;
        self.ends.reserve(1)?;
        self.ended.reserve(fresh.len())?;
        self.ended.push_all(fresh.as_slice());
        self.ends.push_reserved(node);
        Ok(flagged)
    }

    /// The nodes that an end of this one ends.
    fn newly_ended(&self, node: u64) -> Result<Vec<u64>, NoMemory>
        ensures { IfOk result (λ fresh. fresh.items ≡ newly_ended self.now node) }
    {
        let below = subtree(*self.rows.allocator(), self, node)?;
        self.without_ended(below.as_slice())
    }

    /// Those of these nodes that haven't ended.
    fn without_ended(&self, nodes: &[u64]) -> Result<Vec<u64>, NoMemory>
        ensures { IfOk result (λ fresh. fresh.items ≡ filter (λ m. not (is_ended self.now m)) nodes.now) }
    {
        let mut fresh = Vec::new(*self.rows.allocator());
        for node in nodes {
            if !self.is_ended(*node) {
                fresh.push(*node)?;
            }
        }
        Ok(fresh)
    }

    /// The tasks on these nodes.
    fn tasks_on(&self, nodes: &[u64]) -> Result<Vec<u64>, NoMemory>
        ensures { IfOk result (λ tasks. tasks.items ≡ tasks_on self.now nodes.now) }
    {
        let mut tasks = Vec::new(*self.rows.allocator());
        for node in nodes {
            if let Some(task) = self.task_on(*node) {
                tasks.push(task)?;
            }
        }
        Ok(tasks)
    }
}

/// Adds a node without a task, for which there is room.
fn push_row(
    rows: &mut Vec<NodeRow>,
    places: &mut Places,
    number: u64,
    parent: Option<u64>,
    born_ended: bool,
)
    requires rows { vec_len rows.old < vec_capacity rows.old }
    requires room { 0 < places.old.room }
    requires spare { 0 < places.old.spare }
    ensures rows { rows.new.items ≡ rows.old.items ++ new_node number parent born_ended ∷ [] }
    ensures places { places.new.numbers ≡ places.old.numbers ++ number ∷ [] }
{
    places.push(number);
    rows.push_reserved(NodeRow {
        number,
        parent,
        born_ended,
        live: true,
        task: None,
    });
}
