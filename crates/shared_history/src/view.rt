//! What a seat knows. No value of these types is made.
use carbon_history::Entry;
use std::collections::LinkedList;

/// What a pass saw of a class: its entries, how many of its drains were settled, how many runs were
/// written, and how often the pass had looked.
pub struct Look {
    pub class: u32,
    pub list: LinkedList<Entry>,
    pub settled: u64,
    pub runs: u64,
    pub times: u64,
}

/// What a pass is: its number, its own entries, its looks, the last one first, and how often it has
/// seen the whole history.
pub struct Own {
    pub number: u32,
    pub mine: LinkedList<Entry>,
    pub looks: LinkedList<Look>,
    pub sights: u64,
}

/// The right to append: the history, how many passes and classes were made, and the entry that
/// waits for its class to count it.
pub struct Lead {
    pub all: LinkedList<Entry>,
    pub passes: u32,
    pub classes: u32,
    pub waits: Option<Entry>,
}

/// The right of a class: its entries, how many of its drains are settled, and how many runs were
/// written.
pub struct Branch {
    pub class: u32,
    pub list: LinkedList<Entry>,
    pub settled: u64,
    pub runs: u64,
}

/// What a seat knows: the list that it has seen, a list that it was told, and the rights that it
/// has.
pub struct View {
    pub seen: LinkedList<Entry>,
    pub heard: LinkedList<Entry>,
    pub own: Option<Own>,
    pub lead: Option<Lead>,
    pub branch: Option<Branch>,
}
