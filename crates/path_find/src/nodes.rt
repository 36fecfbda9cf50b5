//! The arrivals of one source byte, each with the previous one.

ghost use Rattle.std.specs.Prelude.{◌≡◌, ◌<◌, [], length, slice_index_or, IfOk};
ghost use Rattle.std.specs.Option.{option_map};
ghost use Rattle.path_find.specs.Paths.{arrived};
ghost use Rattle.path_find.specs.Labels.{is_nothing, StandsIn, path_at, MakesLabel, KeepsLabels};
ghost use Rattle.path_find.specs.Nodes.{paths_of};

use crate::Arrival;
use flow_model::Loc;
use no_memory::{Limit, NoMemory};
use std::alloc::Global;
use std::marker::Model;

/// An arrival, and the number of the node of the previous one, where there is one.
#[derive(Clone, Copy)]
pub(crate) struct Node {
    arrival: Arrival,
    previous: Option<u32>,
}

/// What a location has of the source byte: nothing; the byte itself, which the step at hand read; or what came in the
/// arrival of a node.
#[derive(Clone, Copy)]
pub(crate) enum Label {
    Nothing,
    Read,
    At(u32),
}

impl Label {
    /// Whether nothing is there.
    #[inline(always)]
    pub(crate) fn is_nothing(self) -> bool
        ensures { result ≡ is_nothing self }
    {
        match self {
            Label::Nothing => true,
            Label::Read | Label::At(_) => false,
        }
    }
}

/// Nodes, in the order of making. The previous one of a node stands before it.
#[derive(Drop)]
pub(crate) struct Nodes {
    nodes: Vec<Node>,
}

/// The most nodes: their numbers fit into 32 bits.
const MOST_NODES: usize = u32::MAX as usize;

impl Model for Nodes {
    ghost use Rattle.std.specs.Prelude.{List};
    ghost use Rattle.path_find.specs.declared.nodes.Node.{Node};
    ghost use Rattle.path_find.specs.Nodes.{AreEarlier};

    ghost Value = { List Node };

    ghost view = { λ n. n.nodes.items };

    ghost invariant = { λ n. AreEarlier 0 n.nodes.items };
}

impl Nodes {
    /// No node.
    pub(crate) fn new(alloc: Global) -> Self
        ensures { result ≡ [] }
    {
        Nodes {
            nodes: Vec::new(alloc),
        }
    }

    /// The label of what came to a location in the step of this number, where what this label stands for came there. It
    /// fails where there is no memory, or where 2^32 - 1 nodes were made.
    pub(crate) fn arrive(&mut self, number: u64, loc: Loc, label: Label) -> Result<Label, NoMemory>
        requires { StandsIn self.old label }
        ensures made { IfOk result (MakesLabel self.new (arrived number loc (path_at self.old label))) }
        ensures keeps { KeepsLabels self.old self.new }
    {
        let previous = match label {
            Label::Nothing => return Ok(Label::Nothing),
            Label::Read => None,
            Label::At(node) => Some(node),
        };
        let size = self.nodes.len();
        if size >= MOST_NODES {
            return Err(NoMemory::past_count(Limit::PathNodes, size as u64));
        }
        let arrival = Arrival { number, loc };
        self.nodes.push(Node { arrival, previous })?;
        Ok(Label::At(size as u32))
    }

    /// The arrivals that a label stands for, the latest first.
    pub(crate) fn path(&self, alloc: Global, label: Label) -> Result<Option<Vec<Arrival>>, NoMemory>
        requires { StandsIn self.now label }
        ensures { IfOk result (λ p. option_map (λ v. v.items) p ≡ path_at self.now label) }
    {
        match label {
            Label::Nothing => Ok(None),
            Label::Read => Ok(Some(Vec::new(alloc))),
            Label::At(node) => {
                let arrivals = self.walk(alloc, node)?;
                Ok(Some(arrivals))
            }
        }
    }

    /// The arrivals of a node and of those before it, the latest first.
    fn walk(&self, alloc: Global, last: u32) -> Result<Vec<Arrival>, NoMemory>
        requires { last < length self.now }
        ensures { IfOk result (λ v. v.items ≡ slice_index_or (paths_of self.now) last []) }
    {
        let mut arrivals = Vec::new(alloc);
        let mut next = Some(last);
        while let Some(index) = next {
            let node = self.nodes[index as usize];
            arrivals.push(node.arrival)?;
            next = node.previous;
        }
        Ok(arrivals)
    }
}
