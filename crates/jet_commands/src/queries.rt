//! Queries, read from their files.
ghost use Rattle.std.specs.Prelude.{◌≡◌, ◌≤◌, ◌∷◌, [], true, length, map, is_ok, IfOk};
ghost use Rattle.outer_io.specs.Reads.{Reads};
ghost use Rattle.jet_model.specs.Contents.{queries_at};
ghost use Rattle.command_parts.specs.Outcome.{IsOutcomeBy, seen_by};
ghost use Rattle.jet_commands.specs.Outcome.{AreAlike, AreAllAlike, queries_of};
ghost use Rattle.jet_commands.specs.Faults.{query_refusal, query_by};

use command_parts::read_file;
use jet_refusal::Refusal;
use no_memory::Fault;
use outer_io::Store;
use query_lang::{FaultInQuery, Query, QueryFault, parse};
use std::alloc::Global;

/// Why a text is no query: the only one, or the one of several that has this number.
fn of_query(number: Option<u32>, fault: QueryFault) -> Refusal
    ensures { result ≡ query_refusal fault number }
{
    match (fault, number) {
        (Fault::At(FaultInQuery { line, kind }), None) => Refusal::Query { line, kind },
        (Fault::At(FaultInQuery { line, kind }), Some(file)) => {
            Refusal::QueryOf { file, line, kind }
        }
        (Fault::NoMemory(no_memory), _) => Refusal::NoMemory(no_memory),
    }
}

/// Reads a query: the only one, or the one of several that has this number. It gives up as `read_file` does, or with
/// `Query` or `QueryOf`, the first fault of a text that is none.
pub fn open_query<S: Store>(
    alloc: Global,
    store: &mut S,
    number: Option<u32>,
    name: &str,
) -> Result<Query, Refusal>
    ensures outcome { IsOutcomeBy (λ file kept. AreAlike kept (query_by number file name.now)) (S.shown store.old)
        (S.shown store.new) result }
    ensures reads { Reads (name.now ∷ []) true (S.shown store.old) (S.shown store.new) }
{
    let bytes = read_file(alloc, store, name)?;
    match parse(alloc, &bytes) {
        Ok(query) => Ok(query),
        Err(fault) => Err(of_query(number, fault)),
    }
}

/// Reads the queries of these names, at most 16, one after another, which are counted from 1. It gives up at the first
/// that is refused: as `read_file` does, or with `QueryOf`, its number and the first fault of a text that is no query.
pub fn open_queries<S: Store>(
    alloc: Global,
    store: &mut S,
    names: &[&str],
) -> Result<Vec<Query>, Refusal>
    requires few { length names.now ≤ 16 }
    ensures outcome { IsOutcomeBy (λ file kept. AreAllAlike kept (queries_at file (map (λ name. name.now) names.now)))
        (S.shown store.old) (S.shown store.new) (seen_by queries_of result) }
    ensures many { IfOk result (λ queries. length queries.items ≡ length names.now) }
    ensures reads { Reads (map (λ name. name.now) names.now) (is_ok result) (S.shown store.old) (S.shown store.new) }
{
    let mut queries = Vec::new(alloc);
    let mut number = 0;
    for name in names {
        number += 1;
        let query = open_query(alloc, store, Some(number), name)?;
        queries.push(query)?;
    }
    Ok(queries)
}
