//! The moments of places, and the first place whose moment has come.

ghost use Rattle.std.specs.Prelude.{◌≡◌, ℕ, ◌<◌, ◌≤◌, ◌+◌, ◌*◌, ◌/◌, ◌^◌, true, cond, length, drop, position, replicate, slice_set, Some, None, IfOk};
ghost use Rattle.session_table.specs.Sessions.{has_come};
ghost use Rattle.session_table.specs.Waking.{IsTree, IsTreeBut, earlier, node};

use stanza_tree::NoMemory;
use std::alloc::Global;
use std::marker::Model;

/// Moments by place, each of which may be missing, in a tree: to set one and to find the first that has come takes
/// time logarithmic in the places.
#[derive(Drop)]
pub(crate) struct Wakes {
    // Below node i are the nodes 2i and 2i + 1; it has the earlier of their moments. Node 0 is not used, and the
    // second half has the places.
    nodes: Vec<Option<u64>>,
    // How many nodes are above each place: there are 2 to this power of places, and as many other nodes.
    levels: u32,
}

impl Model for Wakes {
    ghost use Rattle.std.specs.Prelude.{◌≡◌, ℕ, ◌<◌, ◌*◌, ◌^◌, List, Option, drop, length};
    ghost use Rattle.session_table.specs.Waking.{IsWide, places_of, IsTree};

    ghost Value = { List (Option ℕ) };

    ghost view = { λ w. places_of w.nodes.items w.levels };

    ghost invariant = { λ w. IsWide w.nodes.items w.levels × IsTree w.nodes.items };
}

// The earlier of two moments, each of which may be missing.
fn sooner(one: Option<u64>, other: Option<u64>) -> Option<u64>
    ensures { result ≡ earlier one other }
{
    match (one, other) {
        (None, _) => other,
        (_, None) => one,
        (Some(one), Some(other)) => Some(one.min(other)),
    }
}

// Whether a moment has come.
fn has_come(moment: Option<u64>, now: u64) -> bool
    ensures { result ≡ has_come now moment }
{
    moment.is_some_and(|moment| moment <= now)
}

// Brings the nodes from this one up to date, after what is below it has changed.
fn mend(nodes: &mut [Option<u64>], from: usize)
    requires below { 2 * from + 1 < length nodes.old }
    requires tree { IsTreeBut from nodes.old }
    ensures tree { IsTree nodes.new }
    ensures length { length nodes.new ≡ length nodes.old }
    ensures places { (half : ℕ) → length nodes.old ≤ 2 * half → drop half nodes.new ≡ drop half nodes.old }
{
    let mut at = from;
    while at > 0 {
        let least = sooner(nodes[2 * at], nodes[2 * at + 1]);
        if nodes[at] == least {
            return;
        }
        nodes[at] = least;
        at /= 2;
    }
}

// Of the two nodes below this one the first whose moment has come, or else the other.
fn child(nodes: &[Option<u64>], at: usize, now: u64) -> usize
    requires { 2 * at + 1 < length nodes.now }
    ensures { result ≡ cond (has_come now (node nodes.now (2 * at))) (2 * at) (2 * at + 1) }
{
    if has_come(nodes[2 * at], now) {
        2 * at
    } else {
        2 * at + 1
    }
}

// The first place whose moment has come; that of the uppermost node has.
fn descend(nodes: &[Option<u64>], levels: u32, now: u64) -> usize
    requires length { length nodes.now ≡ 2 * 2 ^ levels }
    requires tree { IsTree nodes.now }
    requires due { has_come now (node nodes.now 1) ≡ true }
    ensures { position (has_come now) (drop (2 ^ levels) nodes.now) ≡ Some result }
{
    let mut at = 1;
    for _level in 0..levels {
        at = child(nodes, at, now);
    }
    at - nodes.len() / 2
}

impl Wakes {
    ghost use Rattle.std.specs.Prelude.{[]};

    /// No places.
    pub(crate) fn new(alloc: Global) -> Wakes
        ensures { result ≡ [] }
    {
        Wakes {
            nodes: Vec::new(alloc),
            levels: 0,
        }
    }

    /// Two to the power of `levels` places, none of which has a moment.
    pub(crate) fn of(alloc: Global, levels: u32) -> Result<Wakes, NoMemory>
        requires { levels ≤ 40 }
        ensures { IfOk result (λ w. w ≡ replicate (2 ^ levels) None) }
    {
        let mut nodes = Vec::new(alloc);
        nodes.resize(2usize << levels, None)?;
        Ok(Wakes { nodes, levels })
    }

    /// How many places there are.
    pub(crate) fn len(&self) -> usize
        ensures { result ≡ length self.now }
    {
        self.nodes.len() / 2
    }

    /// Sets the moment of a place.
    pub(crate) fn set(&mut self, place: usize, moment: Option<u64>)
        requires { place < length self.old }
        ensures { self.new ≡ slice_set self.old place moment }
    {
        let at = self.nodes.len() / 2 + place;
        self.nodes[at] = moment;
        mend(&mut self.nodes, at / 2);
    }

    /// The first place whose moment has come.
    pub(crate) fn first(&self, now: u64) -> Option<usize>
        ensures { result ≡ position (has_come now) self.now }
    {
        if self.nodes.is_empty() {
            return None;
        }
        if !has_come(self.nodes[1], now) {
            return None;
        }
        Some(descend(&self.nodes, self.levels, now))
    }
}
