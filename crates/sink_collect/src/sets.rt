//! The source bytes of one output byte or point inside a run, and lists of those.

ghost use Rattle.std.specs.Prelude.{◌≡◌, ◌++◌, IfOk, OnOk};
ghost use Rattle.std.specs.List.{flat_map};
ghost use Rattle.lists.specs.Sets.{Ascends};
ghost use Rattle.flow_model.specs.Orders.{source_cmp};

use flow_model::SinkPoint;
use no_memory::NoMemory;
use source_ranges::SourceSet;
use std::marker::Model;

/// An output byte or a point with its source bytes, which ascend by channel and then offset, each once.
#[derive(Drop)]
pub struct SinkSet {
    sink: SinkPoint,
    sources: SourceSet,
}

impl Model for SinkSet {
    ghost use Rattle.report_model.specs.Rows.{Row};

    ghost Value = { Row };

    ghost view = { λ s. record { sink = s.sink; sources = s.sources } };
}

impl SinkSet {
    /// The set of an output byte or a point. It takes no memory.
    pub fn new(sink: SinkPoint, sources: SourceSet) -> SinkSet
        ensures { result ≡ record { sink = sink; sources = sources } }
    {
        SinkSet { sink, sources }
    }

    /// The output byte or the point.
    pub fn sink(&self) -> SinkPoint
        ensures { result ≡ self.now.sink }
    {
        self.sink
    }

    /// Its source bytes.
    pub fn sources(&self) -> &SourceSet
        ensures value { result.now ≡ self.now.sources }
        ensures ascending { Ascends source_cmp self.now.sources }
    {
        self.sources.form();
        &self.sources
    }
}

/// Sets of output bytes and points, in parts as several threads make them. Contracts see the list of all, one part after another.
#[derive(Drop)]
pub struct SinkSets {
    pub(crate) first: Vec<SinkSet>,
    pub(crate) more: Vec<Vec<SinkSet>>,
}

impl Model for SinkSets {
    ghost use Rattle.std.specs.Prelude.{List, ◌++◌};
    ghost use Rattle.std.specs.List.{flat_map};
    ghost use Rattle.report_model.specs.Rows.{Row};

    ghost Value = { List Row };

    ghost view = { λ s. s.first.items ++ flat_map (λ part. part.items) s.more.items };
}

impl SinkSets {
    /// The sets of a vector. It takes no memory.
    pub fn from_vec(sets: Vec<SinkSet>) -> SinkSets
        ensures { result ≡ sets.items }
    {
        let more = Vec::new(*sets.allocator());
        SinkSets { first: sets, more }
    }

    /// Puts other sets behind these, where they stand: none of them is moved. When out of memory, part of this may be done.
    pub fn append(&mut self, others: SinkSets) -> Result<(), NoMemory>
        ensures { OnOk result (self.new ≡ self.old ++ others) }
    {
        let SinkSets { first, mut more } = others;
        self.more.push(first)?;
        self.more.append(&mut more)?;
        Ok(())
    }

    /// A vector of the sets. It fails only where there is no memory, which it takes where they stand in several parts.
    pub fn into_vec(self) -> Result<Vec<SinkSet>, NoMemory>
        ensures { IfOk result (λ sets. sets.items ≡ self) }
    {
        let SinkSets { first, more } = self;
        let rest = more
            .iter()
            .fold(0usize, |count, part| count.saturating_add(part.len()));
        let mut all = first;
        all.reserve(rest)?;
        for part in more {
            let mut part = part;
            all.append(&mut part)?;
        }
        Ok(all)
    }

    /// The parts in which the sets stand, the first one by itself. It takes no memory.
    pub fn into_parts(self) -> (Vec<SinkSet>, Vec<Vec<SinkSet>>)
        ensures { result.0.items ++ flat_map (λ part. part.items) result.1.items ≡ self }
    {
        (self.first, self.more)
    }
}
