//! The table of nodes, and the first node of each list. Which nodes are hidden or spare is kept by `Links`.

ghost use Rattle.std.specs.Prelude.{◌≡◌, ◌<◌, length, Some, slice_set};
ghost use Rattle.std.specs.Option.{ForSome};
ghost use Rattle.ucon_links.specs.Table.{with_first, with_next, joined};

use crate::NodeId;

/// What a node is at the moment.
#[derive(Clone, Copy)]
pub enum State {
    Listed,
    /// The node that was hidden before this one. It isn't followed from the oldest one.
    Hidden(Option<NodeId>),
    /// The next spare node.
    Spare(Option<NodeId>),
}

/// A node with its list and its neighbours there. A hidden one keeps those that it had.
#[derive(Clone, Copy)]
pub struct Node {
    pub owner: u32,
    pub list: u32,
    pub previous: Option<NodeId>,
    pub next: Option<NodeId>,
    pub state: State,
}

impl State {
    ghost use Rattle.ucon_links.specs.Layout.{below_of};

    /// The node below on the stack.
    pub fn below(self) -> Option<NodeId>
        ensures { result ≡ below_of self }
    {
        match self {
            State::Listed => None,
            State::Hidden(below) | State::Spare(below) => below,
        }
    }
}

impl Node {
    ghost use Rattle.ucon_links.specs.Layout.{spare_node};

    /// A spare node above another.
    pub fn spare(below: Option<NodeId>) -> Node
        ensures { result ≡ spare_node below }
    {
        Node {
            owner: 0,
            list: 0,
            previous: None,
            next: None,
            state: State::Spare(below),
        }
    }
}

/// The nodes by number, from 0, and of each list its first node. None for an empty list.
#[derive(Drop)]
pub struct Table {
    pub nodes: Vec<Node>,
    pub firsts: Vec<Option<NodeId>>,
}

impl Table {
    // Lets `next` stand after `before`, or at the front of the list.
    fn set_next(&mut self, list: u32, before: Option<NodeId>, next: Option<NodeId>)
        requires list { list < length self.old.firsts.items }
        requires before { ForSome before (λ b. b < length self.old.nodes.items) }
        ensures nodes { self.new.nodes.items ≡ with_next self.old.nodes.items before next }
        ensures firsts { self.new.firsts.items ≡ with_first self.old.firsts.items list before next }
    {
        match before {
            None => self.firsts[list as usize] = next,
            Some(before) => self.nodes[before as usize].next = next,
        }
    }

    /// Lets `before` and `after` stand next to each other, where none stands for the list's end on that side.
    pub fn join(&mut self, list: u32, before: Option<NodeId>, after: Option<NodeId>)
        requires list { list < length self.old.firsts.items }
        requires before { ForSome before (λ b. b < length self.old.nodes.items) }
        requires after { ForSome after (λ a. a < length self.old.nodes.items) }
        ensures nodes { self.new.nodes.items ≡ joined self.old.nodes.items before after before after }
        ensures firsts { self.new.firsts.items ≡ with_first self.old.firsts.items list before after }
    {
        self.set_next(list, before, after);
        if let Some(after) = after {
            self.nodes[after as usize].previous = before;
        }
    }

    /// Puts a node between the neighbours that it names.
    pub fn insert(&mut self, id: NodeId, node: Node)
        requires id { id < length self.old.nodes.items }
        requires list { node.list < length self.old.firsts.items }
        requires before { ForSome node.previous (λ b. b < length self.old.nodes.items) }
        requires after { ForSome node.next (λ a. a < length self.old.nodes.items) }
        ensures nodes { self.new.nodes.items ≡ slice_set (joined self.old.nodes.items node.previous (Some id) (Some id) node.next) id node }
        ensures firsts { self.new.firsts.items ≡ with_first self.old.firsts.items node.list node.previous (Some id) }
    {
        self.set_next(node.list, node.previous, Some(id));
        if let Some(after) = node.next {
            self.nodes[after as usize].previous = Some(id);
        }
        self.nodes[id as usize] = node;
    }
}
