//! The nodes of a graph, as numbers and flat sets.
ghost use Rattle.std.specs.Prelude.{◌≡◌, ◌≢◌, ℕ, ◌<◌, ◌^◌, Bool, true, false, ◌&&◌, ◌==◌, if◌then◌else◌, nat_lt, OnOk};
ghost use Rattle.std.specs.Prelude.{IfOk, IfSome, IfNone, Some, None, ◌⊎◌, length};
ghost use Rattle.std.specs.List.{list_any};
ghost use Rattle.std.specs.Ordering.{nat_cmp};
ghost use Rattle.std.specs.BTreeSet as tree;
ghost use Rattle.graph_search.specs.Flows.{Flow, edge, IsBounded};
ghost use Rattle.graph_reduction.specs.Labels.{Labelled};
ghost use Rattle.graph_reduction.specs.Reduction.{State, first_below, fits_one, fits_two, giver_of, close, put_into};
ghost use Rattle.graph_reduction.specs.Reduction.{start, IsReduced};
ghost use Rattle.graph_reduction.specs.Advances.{Advanced};
ghost use Rattle.graph_reduction.specs.ClosingEdges.{AreClosings};
ghost use Rattle.graph_reduction.specs.Sets.{edge_cmp, HasExactly, in_set};
ghost use Rattle.graph_reduction.specs.Nodes.{number_in, state_of, AreHeld, AreNumbers, AreMembers, AreReady};
ghost use Rattle.graph_reduction.specs.Nodes.{Refreshes};
ghost use Rattle.graph_reduction.specs.FirstNodes.{row_added};
ghost use Rattle.graph_reduction.specs.NodeStates.{state_in, AreWhole};

use crate::closers::add_closings;
use crate::edges::{first_node, giver, move_row};
use crate::fitting::{least, set};
use graph_search::FlowGraph;
use std::alloc::{AllocError, Global};
use std::collections::BTreeSet;

/// The number at a place of the list.
pub fn number_at(list: &[u32], place: u32) -> u32
    ensures { result ≡ number_in list.now place }
{
    match list.get(place as usize) {
        Some(number) => *number,
        None => place,
    }
}

/// The least source of an edge from one node to a target.
pub fn first_source(into: &BTreeSet<(u32, u32, u32)>, target: u32, node: u32) -> Option<u32>
    ensures some { IfSome result (λ u. in_set into.now target node u ≡ true) }
    ensures none { IfNone result ((u : ℕ) → u < 2 ^ 32 → in_set into.now target node u ≡ false) }
{
    match into
        .range((target, node, 0)..=(target, node, u32::MAX))
        .next()
    {
        Some(edge) => Some(edge.2),
        None => None,
    }
}

/// Whether a block is a head to which an edge leads from its own node.
pub fn has_self(into: &BTreeSet<(u32, u32, u32)>, label: &[u32], owner: &[u32], x: u32) -> bool
    ensures { (flow : Flow) → IsBounded flow → AreHeld flow (number_in label.now) into.now → AreNumbers flow
        (number_in label.now) (number_in owner.now)
        → result ≡ fits_one flow (state_of flow (number_in label.now) (number_in owner.now) into.now) x }
{
    let own = number_at(label, x);
    if number_at(owner, own) == x {
        match first_source(into, x, own) {
            Some(_) => true,
            None => false,
        }
    } else {
        false
    }
}

/// Whether a block is a head that can be put into another node.
pub fn has_giver(
    into: &BTreeSet<(u32, u32, u32)>,
    label: &[u32],
    owner: &[u32],
    entry: u32,
    x: u32,
) -> bool
    ensures { (flow : Flow) → IsBounded flow → flow.entry ≡ entry → AreHeld flow (number_in label.now) into.now
        → AreNumbers flow (number_in label.now) (number_in owner.now)
        → result ≡ fits_two flow (state_of flow (number_in label.now) (number_in owner.now) into.now) x }
{
    let own = number_at(label, x);
    if number_at(owner, own) == x {
        let first = number_at(label, entry);
        if number_at(owner, first) == x {
            false
        } else {
            match giver(into, x, own) {
                Some(_) => true,
                None => false,
            }
        }
    } else {
        false
    }
}

/// Puts a number at a place of the list.
pub fn put_at(list: &mut Vec<u32>, place: u32, value: u32)
    requires { place < length list.old.items }
    ensures size { length list.new.items ≡ length list.old.items }
    ensures there { (q : ℕ) → number_in list.new.items q ≡ (if q == place then value else number_in list.old.items q) }
{
    list[place as usize] = value;
}

/// Tests a block anew.
pub fn refresh(
    into: &BTreeSet<(u32, u32, u32)>,
    label: &[u32],
    owner: &[u32],
    entry: u32,
    ones: &mut BTreeSet<u32>,
    twos: &mut BTreeSet<u32>,
    x: u32,
) -> Result<(), AllocError>
    ensures one { OnOk result ((flow : Flow) → IsBounded flow → flow.entry ≡ entry → AreHeld flow
        (number_in label.now) into.now → AreNumbers flow (number_in label.now) (number_in owner.now)
        → (q : ℕ) → tree.contains nat_cmp ones.new q ≡ (if q == x then fits_one flow
        (state_of flow (number_in label.now) (number_in owner.now) into.now) q
        else tree.contains nat_cmp ones.old q)) }
    ensures two { OnOk result ((flow : Flow) → IsBounded flow → flow.entry ≡ entry → AreHeld flow
        (number_in label.now) into.now → AreNumbers flow (number_in label.now) (number_in owner.now)
        → (q : ℕ) → tree.contains nat_cmp twos.new q ≡ (if q == x then fits_two flow
        (state_of flow (number_in label.now) (number_in owner.now) into.now) q
        else tree.contains nat_cmp twos.old q)) }
{
    set(ones, x, has_self(into, label, owner, x))?;
    set(twos, x, has_giver(into, label, owner, entry, x))?;
    Ok(())
}

/// Takes out the edges from one node to a target.
pub fn close_row(into: &mut BTreeSet<(u32, u32, u32)>, target: u32, node: u32)
    ensures gone { (u : ℕ) → u < 2 ^ 32 → in_set into.new target node u ≡ false }
    ensures less { (x n u : ℕ) → in_set into.new x n u ≡ true → in_set into.old x n u ≡ true }
    ensures others { (x n u : ℕ) → ((x == target) && (n == node)) ≡ false → in_set into.new x n u
        ≡ in_set into.old x n u }
{
    while let Some(source) = first_source(into, target, node) {
        into.remove(&(target, node, source));
    }
}

/// Gives each block of one node the number of another, and answers which blocks they were.
pub fn move_members<G: FlowGraph>(
    alloc: Global,
    graph: &G,
    label: &mut Vec<u32>,
    into: &mut BTreeSet<(u32, u32, u32)>,
    members: &mut BTreeSet<(u32, u32, u32)>,
    from: u32,
    to: u32,
) -> Result<Vec<u32>, AllocError>
    requires apart { from ≢ to }
    requires bounded { IsBounded (G.flow graph.now) }
    requires size { length label.old.items ≡ (G.flow graph.now).count }
    requires held { AreHeld (G.flow graph.now) (number_in label.old.items) into.old }
    requires members { AreMembers (G.flow graph.now) (number_in label.old.items) members.old }
    requires from_is { from < (G.flow graph.now).count }
    ensures size { OnOk result (length label.new.items ≡ length label.old.items) }
    ensures labels { OnOk result ((w : ℕ) → number_in label.new.items w ≡
        (if number_in label.old.items w == from then to else number_in label.old.items w)) }
    ensures moved { IfOk result (λ moved. (w : ℕ) → number_in label.old.items w ≡ from → w < (G.flow graph.now).count
        → list_any (λ u. u == w) moved.items ≡ true) }
    ensures inside { IfOk result (λ moved. (w : ℕ) → list_any (λ u. u == w) moved.items ≡ true → w <
        (G.flow graph.now).count) }
    ensures held { OnOk result (AreHeld (G.flow graph.now) (number_in label.new.items) into.new) }
    ensures open { OnOk result ((t u : ℕ) → in_set into.new t (number_in label.new.items u) u ≡ in_set into.old t
        (number_in label.old.items u) u) }
    ensures members { OnOk result (AreMembers (G.flow graph.now) (number_in label.new.items) members.new) }
{
    let mut moved = Vec::new(alloc);
    while let Some(block) = first_node(members, from) {
        members.remove(&(from, block, 0));
        members.insert((to, block, 0))?;
        moved.push(block)?;
        put_at(label, block, to);
        move_row(into, graph.row(block), block, from, to)?;
    }
    Ok(moved)
}

/// Tests each block of a row anew.
pub fn refresh_row<G: FlowGraph>(
    graph: &G,
    into: &BTreeSet<(u32, u32, u32)>,
    label: &[u32],
    owner: &[u32],
    ones: &mut BTreeSet<u32>,
    twos: &mut BTreeSet<u32>,
    row: &[u32],
) -> Result<(), AllocError>
    requires { AreReady (G.flow graph.now) (number_in label.now) (number_in owner.now) into.now }
    ensures { OnOk result (Refreshes (G.flow graph.now) (state_of (G.flow graph.now) (number_in label.now)
        (number_in owner.now) into.now) (λ q. list_any (λ t. t == q) row.now) ones.old ones.new twos.old twos.new) }
{
    for x in row {
        refresh(into, label, owner, graph.entry(), ones, twos, *x)?;
    }
    Ok(())
}

/// Tests each block anew to which edges of these blocks lead.
pub fn refresh_rows<G: FlowGraph>(
    graph: &G,
    into: &BTreeSet<(u32, u32, u32)>,
    label: &[u32],
    owner: &[u32],
    ones: &mut BTreeSet<u32>,
    twos: &mut BTreeSet<u32>,
    blocks: &[u32],
) -> Result<(), AllocError>
    requires ready { AreReady (G.flow graph.now) (number_in label.now) (number_in owner.now) into.now }
    requires inside { (w : ℕ) → list_any (λ u. u == w) blocks.now ≡ true → w < (G.flow graph.now).count }
    ensures { OnOk result (Refreshes (G.flow graph.now) (state_of (G.flow graph.now) (number_in label.now)
        (number_in owner.now) into.now)
        (λ q. list_any (λ u. list_any (λ t. t == q) ((G.flow graph.now).next u)) blocks.now)
        ones.old ones.new twos.old twos.new) }
{
    for block in blocks {
        refresh_row(graph, into, label, owner, ones, twos, graph.row(*block))?;
    }
    Ok(())
}

#[derive(Drop)]
pub struct Nodes {
    pub label: Vec<u32>,
    owner: Vec<u32>,
    sizes: Vec<u32>,
    members: BTreeSet<(u32, u32, u32)>,
    pub into: BTreeSet<(u32, u32, u32)>,
    ones: BTreeSet<u32>,
    twos: BTreeSet<u32>,
}

impl Nodes {
    /// Tests a block anew.
    fn test<G: FlowGraph>(&mut self, graph: &G, x: u32) -> Result<(), AllocError>
        requires { AreReady (G.flow graph.now) (number_in self.old.label.items)
            (number_in self.old.owner.items) self.old.into }
        ensures same { OnOk result ((self.new.label ≡ self.old.label) × (self.new.owner ≡ self.old.owner) ×
            (self.new.members ≡ self.old.members) × (self.new.into ≡ self.old.into)) }
        ensures tested { OnOk result (Refreshes (G.flow graph.now) (state_in (G.flow graph.now) self.old)
            (λ q. q == x) self.old.ones self.new.ones self.old.twos self.new.twos) }
    {
        refresh(
            &self.into,
            self.label.as_slice(),
            self.owner.as_slice(),
            graph.entry(),
            &mut self.ones,
            &mut self.twos,
            x,
        )
    }

    /// Tests each block.
    fn test_all<G: FlowGraph>(&mut self, graph: &G) -> Result<(), AllocError>
        requires { AreReady (G.flow graph.now) (number_in self.old.label.items)
            (number_in self.old.owner.items) self.old.into }
        ensures same { OnOk result ((self.new.label ≡ self.old.label) × (self.new.owner ≡ self.old.owner) ×
            (self.new.members ≡ self.old.members) × (self.new.into ≡ self.old.into)) }
        ensures tested { OnOk result (Refreshes (G.flow graph.now) (state_in (G.flow graph.now) self.old)
            (λ q. nat_lt q (G.flow graph.now).count) self.old.ones self.new.ones self.old.twos self.new.twos) }
    {
        for block in 0..graph.count() {
            self.test(graph, block)?;
        }
        Ok(())
    }

    /// A node for each block.
    pub fn start<G: FlowGraph>(alloc: Global, graph: &G) -> Result<Nodes, AllocError>
        requires { IsBounded (G.flow graph.now) }
        ensures whole { IfOk result (AreWhole (G.flow graph.now)) }
        ensures start { IfOk result (λ n. state_in (G.flow graph.now) n ≡ start) }
    {
        let mut label = Vec::new(alloc);
        let mut owner = Vec::new(alloc);
        let mut sizes = Vec::new(alloc);
        let mut members = BTreeSet::new(alloc);
        let mut into = BTreeSet::new(alloc);
        for block in 0..graph.count() {
            label.push(block)?;
            owner.push(block)?;
            sizes.push(1)?;
            members.insert((block, block, 0))?;
            add_row(&mut into, graph.row(block), block)?;
        }
        let mut nodes = Nodes {
            label,
            owner,
            sizes,
            members,
            into,
            ones: BTreeSet::new(alloc),
            twos: BTreeSet::new(alloc),
        };
        nodes.test_all(graph)?;
        Ok(nodes)
    }

    /// Closes the edges to a head from its own node.
    fn close<G: FlowGraph>(&mut self, graph: &G, head: u32) -> Result<(), AllocError>
        requires whole { AreWhole (G.flow graph.now) self.old }
        requires top { (state_in (G.flow graph.now) self.old).head head ≡ head }
        ensures whole { OnOk result (AreWhole (G.flow graph.now) self.new) }
        ensures closed { OnOk result (state_in (G.flow graph.now) self.new ≡ close (G.flow graph.now) head
            (state_in (G.flow graph.now) self.old)) }
    {
        let node = number_at(self.label.as_slice(), head);
        close_row(&mut self.into, head, node);
        self.test(graph, head)?;
        Ok(())
    }

    /// Puts the node of `v` into that of `g`, so that the blocks with one of their numbers get the other.
    fn join<G: FlowGraph>(
        &mut self,
        alloc: Global,
        graph: &G,
        v: u32,
        g: u32,
        from: u32,
        to: u32,
    ) -> Result<(), AllocError>
        requires whole { AreWhole (G.flow graph.now) self.old }
        requires fits { fits_two (G.flow graph.now) (state_in (G.flow graph.now) self.old) v ≡ true }
        requires gives { giver_of (G.flow graph.now) (state_in (G.flow graph.now) self.old) v ≡ Some (g) }
        requires sides { ((from ≡ number_in self.old.label.items v) × (to ≡ number_in self.old.label.items g)) ⊎
            ((from ≡ number_in self.old.label.items g) × (to ≡ number_in self.old.label.items v)) }
        requires highest { ((state_in (G.flow graph.now) self.old).head g ≡ g) × (v < (G.flow graph.now).count) ×
            (g < (G.flow graph.now).count) × (from ≢ to) }
        ensures whole { OnOk result (AreWhole (G.flow graph.now) self.new) }
        ensures put { OnOk result (state_in (G.flow graph.now) self.new ≡ put_into v g
            (state_in (G.flow graph.now) self.old)) }
    {
        let moved = move_members(
            alloc,
            graph,
            &mut self.label,
            &mut self.into,
            &mut self.members,
            from,
            to,
        )?;
        put_at(&mut self.owner, to, g);
        refresh_rows(
            graph,
            &self.into,
            self.label.as_slice(),
            self.owner.as_slice(),
            &mut self.ones,
            &mut self.twos,
            moved.as_slice(),
        )?;
        self.test(graph, g)?;
        self.test(graph, v)?;
        Ok(())
    }

    /// Puts the node of a head into the one from which it is entered.
    fn put<G: FlowGraph>(&mut self, alloc: Global, graph: &G, v: u32) -> Result<bool, AllocError>
        requires whole { AreWhole (G.flow graph.now) self.old }
        requires none { first_below (fits_one (G.flow graph.now) (state_in (G.flow graph.now) self.old))
            (G.flow graph.now).count ≡ None }
        requires least { first_below (fits_two (G.flow graph.now) (state_in (G.flow graph.now) self.old))
            (G.flow graph.now).count ≡ Some (v) }
        ensures whole { OnOk result (AreWhole (G.flow graph.now) self.new) }
        ensures went { IfOk result (λ more. Advanced (G.flow graph.now) (state_in (G.flow graph.now) self.old)
            (state_in (G.flow graph.now) self.new) more) }
    {
        let first = number_at(self.label.as_slice(), v);
        match giver(&self.into, v, first) {
            Some(other) => {
                let g = number_at(self.owner.as_slice(), other);
                let second = number_at(self.label.as_slice(), g);
                let small = number_at(self.sizes.as_slice(), first);
                let large = number_at(self.sizes.as_slice(), second);
                if large < small {
                    self.join(alloc, graph, v, g, second, first)?;
                    resize(&mut self.sizes, first, small, large);
                } else {
                    self.join(alloc, graph, v, g, first, second)?;
                    resize(&mut self.sizes, second, small, large);
                }
                Ok(true)
            }
            None => Ok(false),
        }
    }

    /// Uses the rule that comes next, and answers whether one fits.
    fn advance<G: FlowGraph>(&mut self, alloc: Global, graph: &G) -> Result<bool, AllocError>
        requires whole { AreWhole (G.flow graph.now) self.old }
        ensures whole { OnOk result (AreWhole (G.flow graph.now) self.new) }
        ensures went { IfOk result (λ more. Advanced (G.flow graph.now) (state_in (G.flow graph.now) self.old)
            (state_in (G.flow graph.now) self.new) more) }
    {
        match least(&self.ones) {
            Some(head) => {
                self.close(graph, head)?;
                Ok(true)
            }
            None => match least(&self.twos) {
                Some(v) => self.put(alloc, graph, v),
                None => Ok(false),
            },
        }
    }

    /// Reduces the graph.
    pub fn reduce<G: FlowGraph>(&mut self, alloc: Global, graph: &G) -> Result<(), AllocError>
        requires whole { AreWhole (G.flow graph.now) self.old }
        requires start { state_in (G.flow graph.now) self.old ≡ start }
        ensures whole { OnOk result (AreWhole (G.flow graph.now) self.new) }
        ensures reduced { OnOk result (IsReduced (G.flow graph.now) (state_in (G.flow graph.now) self.new)) }
    {
        let mut more = true;
        while more {
            more = self.advance(alloc, graph)?;
        }
        Ok(())
    }
}

/// Keeps the number of blocks of a node, by which the smaller of two is moved.
fn resize(sizes: &mut Vec<u32>, node: u32, small: u32, large: u32) {
    if (node as usize) < sizes.len() {
        sizes[node as usize] = small.wrapping_add(large);
    }
}

/// Adds the edges of a block that is a node.
fn add_row(into: &mut BTreeSet<(u32, u32, u32)>, row: &[u32], block: u32) -> Result<(), AllocError>
    ensures { OnOk result ((t n u : ℕ) → in_set into.new t n u ≡ row_added row.now block (in_set into.old) t n u) }
{
    for target in row {
        into.insert((*target, block, block))?;
    }
    Ok(())
}

impl Nodes {
    /// The closing edges, each as its header, its source and 0.
    pub fn closings<G: FlowGraph>(
        &self,
        alloc: Global,
        graph: &G,
    ) -> Result<BTreeSet<(u32, u32, u32)>, AllocError>
        requires { AreWhole (G.flow graph.now) self.now }
        ensures { IfOk result (AreClosings (state_in (G.flow graph.now) self.now)) }
    {
        let mut closing = BTreeSet::new(alloc);
        for block in 0..graph.count() {
            let node = number_at(self.label.as_slice(), block);
            add_closings(&mut closing, &self.into, graph.row(block), node, block)?;
        }
        Ok(closing)
    }

    /// How many edges don't close.
    pub fn open(&self) -> usize
        ensures { result ≡ length self.now.into.keys }
    {
        self.into.len()
    }
}
