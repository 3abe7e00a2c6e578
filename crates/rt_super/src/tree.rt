// Which contexts end with which.
ghost use Rattle.std.specs.Prelude.{◌≡◌, ℕ, ◌||◌, ◌==◌, ◌⊎◌, ◌<◌, ◌≤◌, ◌↔◌, ◌&&◌, [], length, slice_get, Err, None, IfOk, IfErr, OnErr, OnOk, true, false, vec_capacity};
ghost use Rattle.rt_super.specs.Ancestry.{first_record, is_known, is_live, is_ended, AreEnded, live_task, with_new, with_child, with_task, with_release, with_end, with_flag_taken};
ghost use Rattle.rt_super.specs.Inside.{parents, states, children_lists, adopted};
ghost use Rattle.std.specs.Option.{ForSome};
ghost use Rattle.std.specs.VecDeque.{deque_capacity};

use crate::children::Children;
use crate::ending::end_subtree;
use crate::history::{Change, History};
use crate::node::Node;
use rt_base::{Error, NoMemory, PackedOption};
use std::alloc::Global;
use std::collections::VecDeque;
use std::marker::Model;

/// The tree of contexts. A node ends with its parent: an `end` reaches the node and every node below it, and the tasks
/// on the newly ended nodes are then taken by `next_flag`.
///
/// `end`, `next_flag` and `release` take no memory, since each node has its room from its making on, and none of them
/// calls itself. An `end` visits the nodes that it ends and their children. Flags have room for twice the nodes, since
/// their queue grows by the length that is asked for, and would else be copied at each child.
#[derive(Drop)]
pub struct Tree {
    nodes: Vec<Node>,
    /// Beside each node, whether it has ended.
    ended: Vec<bool>,
    /// Nodes that an end has still to visit, the next one last. Empty between calls.
    pending: Vec<usize>,
    /// Tasks of ended nodes that nobody took yet.
    flags: VecDeque<u64>,
    /// What clauses see of the tree.
    history: History,
}

impl Model for Tree {
    ghost use Rattle.rt_super.specs.Ancestry.{TreeRecord};

    ghost Value = { TreeRecord };

    ghost use Rattle.rt_super.specs.TreeInside.{IsWhole};

    ghost view = { λ t. t.history.told };

    ghost invariant = { IsWhole };
}

impl Tree {
    /// Makes a tree of one node, number 0, which isn't ended.
    pub fn new(alloc: Global) -> Result<Tree, NoMemory>
        ensures { IfOk result (λ tree. tree ≡ first_record) }
    {
        let mut tree = Tree {
            nodes: Vec::new(alloc),
            ended: Vec::new(alloc),
            pending: Vec::new(alloc),
            flags: VecDeque::new(alloc),
            history: History::new(),
        };
        tree.add(None, false)?;
        Ok(tree)
    }

    /// Returns the number of the first node, which is 0.
    pub fn root(&self) -> u64
        ensures { result ≡ 0 }
    {
        0
    }

    /// Returns whether a live node was ended, by an end of its own or of an ancestor's, or at its birth. It returns
    /// false for a node that isn't live.
    pub fn is_ended(&self, node: u64) -> bool
        ensures { result ≡ (is_live self.now node && is_ended self.now node) }
    {
        self.lives(node) && self.has_ended(node)
    }

    /// Returns whether the node was made and not released.
    pub fn lives(&self, node: u64) -> bool
        ensures { result ≡ is_live self.now node }
    {
        match self.nodes.get(node as usize) {
            Some(place) => place.live,
            None => false,
        }
    }

    /// Returns whether the node, live or released, was ended: by an end of its own or of an ancestor's, or at its
    /// birth.
    pub fn has_ended(&self, node: u64) -> bool
        ensures { result ≡ is_ended self.now node }
    {
        match self.ended.get(node as usize) {
            Some(ended) => *ended,
            None => false,
        }
    }

    // Whether a live node was ended.
    fn was_ended(&self, node: u64) -> bool
        requires { is_live self.now node ≡ true }
        ensures { result ≡ is_ended self.now node }
    {
        self.ended[node as usize]
    }

    /// Returns whether the first node was ended, and so every node.
    pub fn is_over(&self) -> bool
        ensures first { result ≡ is_ended self.now 0 }
        ensures all { result ≡ true → AreEnded self.now }
    {
        let over = self.has_ended(0);
        let _ = &self.ended;
        over
    }

    /// Makes a node below a live one, and returns its number and whether its parent is ended; then the child is born
    /// ended, and has no parent. The number is the count of the nodes before it.
    ///
    /// Errors: `UnknownToken` where the parent isn't live, `NoMemory`. Nothing has changed after an error.
    pub fn child(&mut self, parent: u64) -> Result<(u64, bool), Error>
        ensures flag { IfOk result (λ made. made.1 ≡ is_ended self.old parent) }
        ensures made { IfOk result (λ made. self.new ≡ with_child self.old made.0 parent) }
        ensures numbered { IfOk result (λ made. made.0 ≡ length self.old.nodes) }
        ensures fresh { IfOk result (λ made. is_known self.old made.0 ≡ false) }
        ensures born { IfOk result (λ made. (n : ℕ) → is_ended self.new n ≡ (is_ended self.old n || (made.0 == n && made.1))) }
        ensures free { IfOk result (λ made. live_task self.new made.0 ≡ None) }
        ensures unknown { (result ≡ Err Error.UnknownToken) ↔ (is_live self.old parent ≡ false) }
        ensures causes { IfErr result (λ e. (e ≡ Error.UnknownToken) ⊎ (e ≡ Error.NoMemory)) }
        ensures refused { OnErr result (self.new ≡ self.old) }
    {
        if !self.lives(parent) {
            return Err(Error::UnknownToken);
        }
        let ended = self.was_ended(parent);
        let number = self.add((!ended).then_some(parent), ended)?;
        Ok((number, ended))
    }

    /// Puts a task on a live node that has none, and returns whether the node is ended.
    ///
    /// Error: `UnknownToken` where the node isn't live. Nothing has changed after it.
    pub fn register(&mut self, node: u64, task: u64) -> Result<bool, Error>
        requires free { live_task self.old node ≡ None }
        ensures flag { IfOk result (λ ended. ended ≡ is_ended self.old node) }
        ensures put { OnOk result (self.new ≡ with_task self.old node task) }
        ensures unknown { (result ≡ Err Error.UnknownToken) ↔ (is_live self.old node ≡ false) }
        ensures causes { IfErr result (λ e. e ≡ Error.UnknownToken) }
        ensures refused { OnErr result (self.new ≡ self.old) }
    {
        if !self.lives(node) {
            return Err(Error::UnknownToken);
        }
        let ended = self.was_ended(node);
        self.history = History::after(&self.history, &Change::Registered(node, task));
        self.nodes[node as usize].task = PackedOption::of(Some(task));
        Ok(ended)
    }

    /// Returns the task on a live node. Where there is none, `register` may put one.
    pub fn task_of(&self, node: u64) -> Option<u64>
        ensures { result ≡ live_task self.now node }
    {
        match self.nodes.get(node as usize) {
            Some(place) if place.live => place.task.get(),
            _ => None,
        }
    }

    /// Ends a node, live or released, and every node below it, and flags the tasks of those that it newly ends, in
    /// preorder. An end of the first node ends all nodes. Where the node was ended, no task is flagged; where it was
    /// never made, nothing changes.
    pub fn end(&mut self, node: u64)
        ensures ended { self.new ≡ with_end self.old node }
        ensures again { is_ended self.old node ≡ true → self.new.flags ≡ self.old.flags }
        ensures all { node ≡ 0 → AreEnded self.new }
    {
        self.history = History::after(&self.history, &Change::Ended(node));
        if node < self.nodes.len() as u64 {
            end_subtree(
                &self.nodes,
                node as usize,
                &mut self.ended,
                &mut self.pending,
                &mut self.flags,
            );
        }
    }

    /// Takes the first flag: the next task of the nodes that have ended and whose tasks weren't taken yet. First come
    /// those of the earlier ends, and of one end in preorder, so an ancestor's before its descendants' and an elder
    /// child's before a younger one's.
    pub fn next_flag(&mut self) -> Option<u64>
        ensures first { result ≡ slice_get self.old.flags 0 }
        ensures taken { self.new ≡ with_flag_taken self.old }
    {
        self.history = History::after(&self.history, &Change::FlagTaken);
        self.flags.pop_front()
    }

    /// Gives a live node up. It stays as an ancestor of what is below it, and its task stays on it. It does nothing
    /// where the node isn't live.
    pub fn release(&mut self, node: u64)
        ensures { self.new ≡ with_release self.old node }
    {
        self.history = History::after(&self.history, &Change::Released(node));
        if node < self.nodes.len() as u64 {
            self.nodes[node as usize].live = false;
        }
    }

    /// Adds a live node without a task.
    fn add(&mut self, parent: Option<u64>, ended: bool) -> Result<u64, NoMemory>
        requires live { ForSome parent (λ p. is_live self.old p ≡ true) }
        requires rooted { parent ≡ None → (ended ≡ true) ⊎ (self.old.nodes ≡ []) }
        requires lasting { ForSome parent (λ p. is_ended self.old p ≡ false) }
        ensures number { IfOk result (λ number. number ≡ length self.old.nodes) }
        ensures added { IfOk result (λ number. self.new ≡ with_new self.old number parent ended) }
        ensures fresh { IfOk result (λ number. is_known self.old number ≡ false) }
        ensures free { IfOk result (λ number. live_task self.new number ≡ None) }
        ensures born { IfOk result (λ number. (n : ℕ) → is_ended self.new n ≡ (is_ended self.old n || (number == n && ended))) }
        ensures refused { OnErr result (self.new ≡ self.old) }
    {
        let places = self.nodes.len() + 1;
        let number = self.nodes.len();
        self.nodes.reserve(1)?;
        self.ended.reserve(1)?;
        self.pending.reserve(places)?;
        reserve_flags(&mut self.flags, places)?;
        adopt(&mut self.nodes, parent, number)?;
        self.nodes.push_reserved(Node {
            live: true,
            parent: PackedOption::of(parent),
            task: PackedOption::of(None),
            children: Children::new(),
        });
        self.ended.push_reserved(ended);
        let added = Change::Added(number as u64, parent, ended);
        self.history = History::after(&self.history, &added);
        Ok(number as u64)
    }
}

/// Adds a place to its parent's children.
fn adopt(nodes: &mut Vec<Node>, parent: Option<u64>, child: usize) -> Result<(), NoMemory>
    requires known { ForSome parent (λ p. p < length nodes.old.items) }
    ensures parents { parents nodes.new.items ≡ parents nodes.old.items }
    ensures states { states nodes.new.items ≡ states nodes.old.items }
    ensures adopted { OnOk result (children_lists nodes.new.items ≡ adopted (children_lists nodes.old.items) parent child) }
    ensures refused { OnErr result (children_lists nodes.new.items ≡ children_lists nodes.old.items) }
    ensures room { vec_capacity nodes.new ≡ vec_capacity nodes.old }
{
    if let Some(parent) = parent {
        let alloc = *nodes.allocator();
        nodes[parent as usize].children.push(alloc, child)?;
    }
    Ok(())
}

/// Takes room for so many flags.
fn reserve_flags(flags: &mut VecDeque<u64>, places: usize) -> Result<(), NoMemory>
    requires few { length flags.old.items ≤ places }
    ensures items { flags.new.items ≡ flags.old.items }
    ensures room { OnOk result (places ≤ deque_capacity flags.new) }
    ensures kept { deque_capacity flags.old ≤ deque_capacity flags.new }
{
    if places > flags.capacity() {
        // Twice the room, so that a growing tree seldom comes back for more.
        flags.reserve(places.saturating_mul(2) - flags.len())?;
    }
    Ok(())
}
