//! The lists, as rings of nodes.
//!
//! What must stay true when this file is changed: the node of list l's end stands at `numbers + l`, and each list is a ring that
//! begins and ends there, linked both ways. So neither a push nor a removal has a case for an empty list, a first or a last one,
//! and a number is taken out without being told of which list.
ghost use Rattle.std.specs.Prelude.{◌≡◌, ℕ, ◌+◌, ◌-◌, ◌<◌, length, Some, false, IsTrue, IfOk, IfSome, slice_get};
ghost use Rattle.index_lists.specs.Lists.{all_empty, list_at, before_place, stands, pushed, pushed_front, inserted, removed, IsSound};
ghost use Rattle.index_lists.specs.InsideNodes.{joined, number_of};

use crate::node::Node;
use page_base::OutOfMemory;
use std::alloc::Global;
use std::marker::Model;

/// Doubly linked lists over the numbers below a bound. A number stands in one list at the most.
#[derive(Drop)]
pub struct IndexLists {
    nodes: Vec<Node>,
    numbers: u32,
}

impl Model for IndexLists {
    ghost use Rattle.index_lists.specs.Lists.{ListsSeen};
    ghost use Rattle.index_lists.specs.InsideNodes.{lists_in, IsTied};

    ghost Value = { ListsSeen };

    ghost view = { λ l. record { numbers = l.numbers; lists = lists_in l.nodes.items l.numbers } };

    ghost invariant = { λ l. IsTied l.nodes.items l.numbers (lists_in l.nodes.items l.numbers) };
}

/// Makes two nodes neighbours.
fn join(nodes: &mut Vec<Node>, previous: u32, next: u32)
    requires previous { previous < length nodes.old.items }
    requires next { next < length nodes.old.items }
    ensures joined { nodes.new.items ≡ joined nodes.old.items previous next }
{
    nodes[previous as usize].next = next;
    nodes[next as usize].previous = previous;
}

impl IndexLists {
    /// So many empty lists over the numbers below `numbers`. It takes all memory that the lists ever take.
    pub fn new(alloc: Global, lists: u32, numbers: u32) -> Result<IndexLists, OutOfMemory>
        requires few { numbers + lists < 4294967296 }
        ensures empty { IfOk result (λ l. l ≡ all_empty lists numbers) }
    {
        let ends = numbers + lists;
        let mut nodes = Vec::with_capacity(alloc, ends as usize)?;
        for at in 0..ends {
            nodes.push_reserved(Node {
                previous: at,
                next: at,
            });
        }
        Ok(IndexLists { nodes, numbers })
    }

    /// The first number of a list, none where the list is empty.
    pub fn first(&self, list: u32) -> Option<u32>
        requires within { list < length self.now.lists }
        ensures exact { result ≡ slice_get (list_at self.now list) 0 }
        ensures within { IfSome result (λ number. number < self.now.numbers) }
    {
        let end = self.numbers + list;
        self.number(self.nodes[end as usize].next)
    }

    /// The last number of a list, none where the list is empty.
    pub fn last(&self, list: u32) -> Option<u32>
        requires within { list < length self.now.lists }
        ensures exact { result ≡ slice_get (list_at self.now list) (length (list_at self.now list) - 1) }
        ensures within { IfSome result (λ number. number < self.now.numbers) }
    {
        let end = self.numbers + list;
        self.number(self.nodes[end as usize].previous)
    }

    /// The number that stands behind this one in its list, none behind the last.
    pub fn next(&self, number: u32) -> Option<u32>
        requires within { number < self.now.numbers }
        ensures exact { (list place : ℕ) → slice_get (list_at self.now list) place ≡ Some number
            → result ≡ slice_get (list_at self.now list) (place + 1) }
        ensures within { IfSome result (λ next. next < self.now.numbers) }
    {
        self.number(self.nodes[number as usize].next)
    }

    /// The number that stands before this one in its list, none before the first.
    pub fn previous(&self, number: u32) -> Option<u32>
        requires within { number < self.now.numbers }
        ensures exact { (list place : ℕ) → slice_get (list_at self.now list) place ≡ Some number
            → result ≡ before_place (list_at self.now list) place }
        ensures within { IfSome result (λ previous. previous < self.now.numbers) }
    {
        self.number(self.nodes[number as usize].previous)
    }

    /// Puts a number that stands in no list at the end of one.
    pub fn push_back(&mut self, list: u32, number: u32)
        requires list { list < length self.old.lists }
        requires within { number < self.old.numbers }
        requires fresh { stands self.old number ≡ false }
        ensures pushed { self.new ≡ pushed self.old list number }
    {
        let end = self.numbers + list;
        let last = self.nodes[end as usize].previous;
        join(&mut self.nodes, last, number);
        join(&mut self.nodes, number, end);
    }

    /// Puts a number that stands in no list at the front of one.
    pub fn push_front(&mut self, list: u32, number: u32)
        requires list { list < length self.old.lists }
        requires within { number < self.old.numbers }
        requires fresh { stands self.old number ≡ false }
        ensures pushed { self.new ≡ pushed_front self.old list number }
    {
        let end = self.numbers + list;
        let first = self.nodes[end as usize].next;
        join(&mut self.nodes, end, number);
        join(&mut self.nodes, number, first);
    }

    /// Puts a number that stands in no list behind one that stands in a list.
    pub fn insert_behind(&mut self, place: u32, number: u32)
        requires place { IsTrue (stands self.old place) }
        requires within { number < self.old.numbers }
        requires fresh { stands self.old number ≡ false }
        ensures inserted { self.new ≡ inserted self.old place number }
    {
        let next = self.nodes[place as usize].next;
        join(&mut self.nodes, place, number);
        join(&mut self.nodes, number, next);
    }

    /// Takes a number out of the list in which it stands.
    pub fn remove(&mut self, number: u32)
        requires stands { IsTrue (stands self.old number) }
        ensures removed { self.new ≡ removed self.old number }
    {
        let Node { previous, next } = self.nodes[number as usize];
        join(&mut self.nodes, previous, next);
    }

    /// The numbers of the lists are below the bound, and each stands in one list at the most, once.
    pub fn sound(&self)
        ensures sound { IsSound self.now }
    {
        let _numbers = self.numbers;
    }

    /// The number of a node, none where the node is the end of a list.
    fn number(&self, node: u32) -> Option<u32>
        ensures within { IfSome result (λ number. number < self.now.numbers) }
        ensures exact { result ≡ number_of self.now.numbers node }
    {
        if node < self.numbers {
            Some(node)
        } else {
            None
        }
    }
}
