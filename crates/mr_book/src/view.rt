//! What seats know. No value of these types is made: they are what contracts and the rule speak of.
use std::collections::LinkedList;

/// What a seat knows.
pub struct Known<E> {
    /// The number under which the seat may add entries, if it has one.
    pub number: Option<u64>,
    /// The list as it was last seen.
    pub seen: LinkedList<E>,
    /// For each number that the seat answers for, its own and those of seats that it met, all
    /// entries that were made under it, in order.
    pub owns: LinkedList<(u64, LinkedList<E>)>,
}

/// A seat as the rule sees it.
pub struct View<E> {
    /// Whether it may count: then it has seen the whole list.
    pub right: bool,
    pub known: Known<E>,
    /// Lists that were seen before a join, and are not compared with `known.seen` yet.
    pub olds: LinkedList<LinkedList<E>>,
}
