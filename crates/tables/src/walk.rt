// The walk of a term, node by node: one running count of the terms still owed tells where it ends.
ghost use Rattle.std.specs.Prelude.{◌≡◌, ◌+◌, ◌≤◌, length};
ghost use Rattle.std.specs.Iterator.{at_most};
ghost use Rattle.tables.specs.Parts.{Begins};
ghost use Rattle.tables.specs.Nodes.{Stands, starts, is_metavariable, goes_past, node_gives, words_left};

use crate::node::{ABSTRACTION, FIRST_METAVARIABLE};

// A node: its two words, and the part behind it, where its arguments begin.
#[derive(Clone, Copy)]
pub struct Node<'a> {
    pub word: u32,
    pub count: u32,
    pub behind: &'a [u32],
}

impl<'a> Node<'a> {
    pub fn is_metavariable(self) -> bool
        ensures { result ≡ is_metavariable self.entry.word }
    {
        FIRST_METAVARIABLE <= self.word && self.word < ABSTRACTION
    }
}

// The nodes of the terms that a part begins with, in prefix order.
#[derive(Clone, Copy)]
pub struct Nodes<'a> {
    part: &'a [u32],
    at: usize,
    owed: usize,
}

impl<'a> Nodes<'a> {
    // Those of the subterm that it begins with.
    pub fn of(part: &'a [u32]) -> Self
        requires { Begins 1 part.now }
        ensures { starts part.now result }
    {
        Nodes {
            part,
            at: 0,
            owed: 1,
        }
    }

    // Goes on behind the first terms that are owed, so many, of so many words together, which somebody else has gone over.
    pub fn pass(&mut self, terms: usize, words: usize)
        requires { (terms ≤ self.old.owed) × (self.old.at + words ≤ length self.old.part.now) }
        ensures { goes_past self.old terms words self.new }
    {
        self.at += words;
        self.owed -= terms;
    }

    // How many words were gone over.
    pub fn passed(&self) -> usize
        ensures { result ≡ self.now.at }
    {
        let words = self.at;
        words
    }
}

impl<'a> Iterator for Nodes<'a> {
    type Item = Node<'a>;

    ghost can_next = { Stands };

    ghost next_gives = { node_gives };

    ghost remaining = { λ walk. at_most (words_left walk) };

    fn next(&mut self) -> Option<Node<'a>> {
        if self.owed == 0 {
            return None;
        }
        let part = self.part;
        let word = part[self.at];
        let count = part[self.at + 1];
        self.at += 2;
        self.owed = self.owed - 1 + count as usize;
        Some(Node {
            word,
            count,
            behind: &part[self.at..],
        })
    }
}
