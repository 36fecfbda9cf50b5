//! Readers of the terms of nodes, which keep their marks from call to call.

ghost use Rattle.std.specs.Prelude.{◌≡◌, ◌++◌, map, IfOk, OnOk};
ghost use Rattle.source_runs.specs.Runs.{all_bytes};
ghost use Rattle.merge_log.specs.Log.{IsNode, AreSets, terms, no_terms, run_term, start_term};
ghost use Rattle.merge_log.specs.Walk.{leaves_of, terms_of};
ghost use Rattle.merge_log.specs.declared.reader.Leaf.TheVariants as leaf;

use crate::finding::FoundLeaves;
use crate::nodes::{MergeLog, Node};
use crate::walk::{Marks, walk};
use flow_model::{Loc, SourceByte};
use no_memory::NoMemory;
use source_runs::{SourceRun, push_bytes};
use std::alloc::Global;
use std::marker::Model;

/// A leaf of a node: a source byte, or a location at the start.
#[derive(Clone, Copy, Debug, PartialEq, Eq)]
pub enum Leaf {
    Source(SourceByte),
    Start(Loc),
}

/// Reads the terms of the nodes of logs, one node after another: source bytes as runs. It keeps a mark for each node
/// from call to call, so that a call takes memory only as the log has grown, and for the runs and start locations.
#[derive(Drop)]
pub struct TermsReader {
    marks: Marks,
    stack: Vec<u32>,
    found: FoundLeaves,
    spare: Vec<SourceRun>,
}

impl Model for TermsReader {
    ghost use Rattle.merge_log.specs.Log.{Terms};
    ghost use Rattle.merge_log.specs.Walk.{terms_of};

    ghost Value = { Terms };

    ghost view = { λ r. terms_of r.found };
}

impl TermsReader {
    /// A reader that has read the empty node. It takes no memory.
    pub fn new(alloc: Global) -> Self
        ensures { result ≡ no_terms }
    {
        TermsReader {
            marks: Marks::new(alloc),
            stack: Vec::new(alloc),
            found: FoundLeaves::new(alloc),
            spare: Vec::new(alloc),
        }
    }

    /// The source bytes of the node that was read last, ascending, as runs.
    pub fn runs(&self) -> &[SourceRun]
        ensures { all_bytes result.now ≡ self.now.sources }
    {
        &self.found.runs
    }

    /// The start locations of the node that was read last, ascending.
    pub fn starts(&self) -> &[Loc]
        ensures { result.now ≡ self.now.starts }
    {
        &self.found.starts
    }

    /// The leaves of the node that was read last: source bytes ascending, and then start locations
    /// ascending.
    pub fn leaves(&self, alloc: Global) -> Result<Vec<Leaf>, NoMemory>
        ensures { IfOk result (λ all. all.items ≡ leaves_of self.now) }
    {
        let mut sources = Vec::new(alloc);
        push_bytes(&mut sources, self.runs())?;
        let mut leaves = Vec::new(alloc);
        push_sources(&sources, &mut leaves)?;
        push_starts(self.starts(), &mut leaves)?;
        Ok(leaves)
    }

    /// Reads one start location, as if from a node that is its leaf.
    pub fn read_start(&mut self, loc: Loc) -> Result<(), NoMemory>
        ensures read { OnOk result (self.new ≡ start_term loc) }
        ensures ascending { OnOk result (AreSets self.new) }
    {
        self.found.clear();
        self.found.starts.push(loc)?;
        Ok(())
    }

    /// Reads the source bytes of a run, as if from a node that is its leaf.
    pub fn read_run(&mut self, run: SourceRun) -> Result<(), NoMemory>
        ensures read { OnOk result (self.new ≡ run_term run) }
        ensures ascending { OnOk result (AreSets self.new) }
    {
        self.found.clear();
        self.found.runs.push(run)?;
        Ok(())
    }

    /// Takes what was found otherwise for what was read.
    pub(crate) fn copy_found(&mut self, found: &FoundLeaves) -> Result<(), NoMemory>
        ensures { OnOk result (self.new ≡ terms_of found.now) }
    {
        self.found.clear();
        self.found.runs.extend_from_slice(&found.runs)?;
        self.found.starts.extend_from_slice(&found.starts)?;
        Ok(())
    }

    /// Reads the leaves under a node of a log, by one visit to each node under it. When out of memory, it may
    /// have read part of them, and can go on with any node of any log.
    pub fn read(&mut self, log: &MergeLog, node: Node) -> Result<(), NoMemory>
        requires { IsNode log.now node }
        ensures read { OnOk result (self.new ≡ terms log.now node) }
        ensures ascending { OnOk result (AreSets self.new) }
    {
        log.form();
        self.found.clear();
        if node == 0 {
            return Ok(());
        }
        self.marks.begin(log.size() as usize)?;
        walk(
            log,
            node as u32,
            &mut self.marks,
            &mut self.stack,
            &mut self.found,
        )?;
        self.found.normalise(&mut self.spare)?;
        Ok(())
    }
}

/// Adds leaves of source bytes.
fn push_sources(sources: &[SourceByte], leaves: &mut Vec<Leaf>) -> Result<(), NoMemory>
    ensures { OnOk result (leaves.new.items ≡ leaves.old.items ++ map leaf.Source sources.now) }
{
    for byte in sources {
        leaves.push(Leaf::Source(*byte))?;
    }
    Ok(())
}

/// Adds leaves of start locations.
fn push_starts(starts: &[Loc], leaves: &mut Vec<Leaf>) -> Result<(), NoMemory>
    ensures { OnOk result (leaves.new.items ≡ leaves.old.items ++ map leaf.Start starts.now) }
{
    for loc in starts {
        leaves.push(Leaf::Start(*loc))?;
    }
    Ok(())
}
