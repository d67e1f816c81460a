//! Lists linked by index.

ghost use Rattle.std.specs.Prelude.{◌≡◌, ◌+◌, ◌-◌, ◌^◌, ◌<◌, ◌≤◌, [], ◌∷◌, ◌++◌, max, length, replicate, option_map, Some, None, IsSome, IfOk, OnOk};
ghost use Rattle.std.specs.Prelude.{OnErr};
ghost use Rattle.ucon_links.specs.Lists.{node_count, list_at, list_of, first_or, last_or, place_of, owner_of, nodes_of, newest, oldest, IsListed};
ghost use Rattle.ucon_links.specs.Lists.{IsAbsent, IsDistinct, IsGap, CanUnhide, link_behind, hide, unlink, unhide, free_oldest, free_newest};
ghost use Rattle.ucon_links.specs.Lists.{hide_all, Lists, AllListed, AreHidden, WereHidden};

use crate::table::{Node, State, Table};
use std::alloc::{AllocError, Global};
use std::marker::Model;
use ucon_base::NoMemory;

/// The number of a node in the table.
pub type NodeId = u32;

/// Many lists in one table of nodes, each with an owner.
#[derive(Drop)]
pub struct Links {
    table: Table,
    // The top of the stack of hidden nodes, and how many there are.
    newest: Option<NodeId>,
    hidden_count: u32,
    // The top of the stack of spare nodes, and how many there are.
    unused: Option<NodeId>,
    spare_count: u32,
}

impl Model for Links {
    ghost use Rattle.ucon_links.specs.Lists.{Lists};

    ghost Value = { Lists };

    ghost use Rattle.ucon_links.specs.Layout.{seen, IsSound};

    ghost view = { λ l. seen l.table.nodes.items l.table.firsts.items l.newest l.hidden_count l.spare_count };

    ghost invariant = { λ l. IsSound l.table.nodes.items l.table.firsts.items l.newest l.hidden_count l.unused l.spare_count };
}

impl Links {
    /// So many empty lists, numbered from 0.
    pub fn new(alloc: Global, lists: u32) -> Result<Links, NoMemory>
        ensures { IfOk result (λ l. l ≡ record { lists = replicate lists []; hidden = []; spare = 0 }) }
    {
        let mut links = Links {
            table: Table {
                nodes: Vec::new(alloc),
                firsts: Vec::new(alloc),
            },
            newest: None,
            hidden_count: 0,
            unused: None,
            spare_count: 0,
        };
        links.more_lists(lists)?;
        Ok(links)
    }

    // Adds empty lists behind the others.
    fn more_lists(&mut self, n: u32) -> Result<(), NoMemory>
        requires { length self.old.lists + n < 2 ^ 32 }
        ensures ok { OnOk result (self.new ≡ record self.old { lists = self.old.lists ++ replicate n [] }) }
        ensures err { OnErr result (self.new ≡ self.old) }
    {
        let len = self.table.firsts.len();
        self.table.firsts.resize(len + n as usize, None)?;
        Ok(())
    }

    /// Makes the lists at least so many.
    pub fn grow(&mut self, lists: u32) -> Result<(), NoMemory>
        ensures ok { OnOk result (self.new ≡ record self.old { lists = self.old.lists ++ replicate (lists - length self.old.lists) [] }) }
        ensures err { OnErr result (self.new ≡ self.old) }
    {
        let more = lists.saturating_sub(self.list_count());
        self.more_lists(more)
    }

    /// How many lists there are.
    pub fn list_count(&self) -> u32
        ensures { result ≡ length self.now.lists }
    {
        self.table.firsts.len() as u32
    }

    /// The first node of a list.
    pub fn first(&self, list: u32) -> Option<NodeId>
        requires { list < length self.now.lists }
        ensures first { result ≡ first_or None (list_at self.now.lists list) }
        ensures distinct { IsDistinct (nodes_of self.now) }
    {
        self.table.firsts[list as usize]
    }

    /// The node behind a listed one.
    pub fn next(&self, node: NodeId) -> Option<NodeId>
        requires { IsListed self.now node }
        ensures next { option_map (λ place. place.after) (place_of self.now node) ≡ Some result }
        ensures distinct { IsDistinct (nodes_of self.now) }
    {
        self.table.nodes[node as usize].next
    }

    /// The node in front of a listed one.
    pub fn previous(&self, node: NodeId) -> Option<NodeId>
        requires { IsListed self.now node }
        ensures previous { option_map (λ place. place.before) (place_of self.now node) ≡ Some result }
        ensures distinct { IsDistinct (nodes_of self.now) }
    {
        self.table.nodes[node as usize].previous
    }

    /// The owner of a node that is listed or hidden.
    pub fn owner(&self, node: NodeId) -> u32
        requires { IsSome (owner_of self.now node) }
        ensures owner { owner_of self.now node ≡ Some result }
        ensures distinct { IsDistinct (nodes_of self.now) }
    {
        self.table.nodes[node as usize].owner
    }

    /// For how many more nodes there is room.
    pub fn spare(&self) -> u32
        ensures { result ≡ self.now.spare }
    {
        self.spare_count
    }

    /// How many nodes are listed or hidden.
    pub fn node_count(&self) -> u32
        ensures { result ≡ node_count self.now }
    {
        self.table.nodes.len() as u32 - self.spare_count
    }

    // Makes room for one more node.
    fn add_spare(&mut self) -> Result<(), NoMemory>
        requires { node_count self.old + self.old.spare < 2 ^ 32 - 2 }
        ensures ok { OnOk result (self.new ≡ record self.old { spare = self.old.spare + 1 }) }
        ensures err { OnErr result (self.new ≡ self.old) }
    {
        let id = self.table.nodes.len() as u32;
        self.table.nodes.push(Node::spare(self.unused))?;
        self.unused = Some(id);
        self.spare_count += 1;
        Ok(())
    }

    /// Makes room for so many nodes. More than can be numbered are answered as out of memory.
    pub fn reserve(&mut self, n: u32) -> Result<(), NoMemory>
        ensures kept { self.new ≡ record self.old { spare = self.new.spare } }
        ensures spare { self.old.spare ≤ self.new.spare }
        ensures most { self.new.spare ≤ max self.old.spare n }
        ensures ok { OnOk result (n ≤ self.new.spare) }
    {
        if self.node_count() >= u32::MAX - n {
            return Err(NoMemory::from(AllocError));
        }
        while self.spare() < n {
            self.add_spare()?;
        }
        Ok(())
    }

    // Takes a spare node, and lets it stand between two neighbours.
    fn link_between(
        &mut self,
        list: u32,
        before: Option<NodeId>,
        after: Option<NodeId>,
        owner: u32,
    ) -> NodeId
        requires room { 1 ≤ self.old.spare }
        requires list { list < length self.old.lists }
        requires gap { IsGap before after (list_at self.old.lists list) }
        ensures fresh { IsAbsent result (nodes_of self.old) }
        ensures within { result < node_count self.old + self.old.spare }
        ensures linked { self.new ≡ link_behind self.old list before result owner }
    {
        let Some(id) = self.unused else {
            unreachable!();
        };
        self.unused = self.table.nodes[id as usize].state.below();
        self.spare_count -= 1;
        self.table.insert(
            id,
            Node {
                owner,
                list,
                previous: before,
                next: after,
                state: State::Listed,
            },
        );
        id
    }

    /// Puts a new node at the front of a list.
    pub fn link(&mut self, list: u32, owner: u32) -> NodeId
        requires room { 1 ≤ self.old.spare }
        requires list { list < length self.old.lists }
        ensures fresh { IsAbsent result (nodes_of self.old) }
        ensures within { result < node_count self.old + self.old.spare }
        ensures linked { self.new ≡ link_behind self.old list None result owner }
    {
        let first = self.first(list);
        self.link_between(list, None, first, owner)
    }

    /// Puts a new node directly behind a listed one, in its list.
    pub fn link_after(&mut self, node: NodeId, owner: u32) -> NodeId
        requires room { 1 ≤ self.old.spare }
        requires listed { IsListed self.old node }
        ensures fresh { IsAbsent result (nodes_of self.old) }
        ensures within { result < node_count self.old + self.old.spare }
        ensures linked { self.new ≡ link_behind self.old (list_of self.old node) (Some node) result owner }
    {
        let list = self.table.nodes[node as usize].list;
        let next = self.next(node);
        self.link_between(list, Some(node), next, owner)
    }

    /// Takes a listed node out of its list and puts it on the stack of hidden nodes, where it keeps its neighbours.
    pub fn hide(&mut self, node: NodeId)
        requires { IsListed self.old node }
        ensures hidden { self.new ≡ hide self.old node }
        ensures distinct { IsDistinct (nodes_of self.old) }
    {
        let taken = self.table.nodes[node as usize];
        self.table.join(taken.list, taken.previous, taken.next);
        self.table.nodes[node as usize] = Node {
            state: State::Hidden(self.newest),
            ..taken
        };
        self.newest = Some(node);
        self.hidden_count += 1;
    }

    /// Puts the newest hidden node back where it was.
    pub fn unhide(&mut self, node: NodeId)
        requires { CanUnhide self.old node }
        ensures back { self.new ≡ unhide self.old }
        ensures distinct { IsDistinct (nodes_of self.old) }
    {
        let hidden = self.table.nodes[node as usize];
        self.newest = hidden.state.below();
        self.hidden_count -= 1;
        self.table.insert(
            node,
            Node {
                state: State::Listed,
                ..hidden
            },
        );
    }

    /// Frees the oldest hidden node.
    pub fn free(&mut self, node: NodeId)
        requires { oldest self.old.hidden ≡ Some node }
        ensures { self.new ≡ free_oldest self.old }
    {
        self.hidden_count -= 1;
        let freed = Node::spare(self.unused);
        self.table.nodes[node as usize] = freed;
        self.unused = Some(node);
        self.spare_count += 1;
    }

    /// Frees the newest hidden node.
    pub fn free_newest(&mut self, node: NodeId)
        requires { newest self.old.hidden ≡ Some node }
        ensures { self.new ≡ free_newest self.old }
    {
        self.newest = self.table.nodes[node as usize].state.below();
        self.hidden_count -= 1;
        self.table.nodes[node as usize] = Node::spare(self.unused);
        self.unused = Some(node);
        self.spare_count += 1;
    }

    /// Takes a listed node out and frees it: what undoes `link` and `link_after`.
    pub fn unlink(&mut self, node: NodeId)
        requires { IsListed self.old node }
        ensures unlinked { self.new ≡ unlink self.old node }
        ensures distinct { IsDistinct (nodes_of self.old) }
    {
        self.hide(node);
        self.free_newest(node);
    }

    /// The node that was hidden last.
    pub fn newest_hidden(&self) -> Option<NodeId>
        ensures { result ≡ newest self.now.hidden }
    {
        if self.hidden_count == 0 {
            return None;
        }
        self.newest
    }

    /// Frees all hidden nodes.
    pub fn free_all(&mut self)
        ensures { self.new ≡ record self.old { hidden = []; spare = self.old.spare + length self.old.hidden } }
    {
        while let Some(node) = self.newest_hidden() {
            self.free_newest(node);
        }
    }

    /// Hides nodes in this order.
    pub fn hide_all(&mut self, nodes: &[NodeId])
        requires { AllListed self.old nodes.now }
        ensures { self.new ≡ hide_all self.old nodes.now }
    {
        for node in nodes {
            self.hide(*node);
        }
    }

    /// Puts nodes that were hidden in this order back, in reverse order.
    pub fn unhide_all(&mut self, nodes: &[NodeId])
        requires { WereHidden nodes.now self.old }
        ensures { (v : Lists) → AreHidden v nodes.now self.old → self.new ≡ v }
    {
        let mut hidden = nodes;
        while let Some((last, earlier)) = hidden.split_last() {
            self.unhide(*last);
            hidden = earlier;
        }
    }
}
