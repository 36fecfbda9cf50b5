//! The pair whose path is told.

ghost use Rattle.std.specs.Prelude.{◌≡◌, IfSome};
ghost use Rattle.path_find.specs.FirstPair.{first_pair as first_of_rows, Names};
ghost use Rattle.path_find.specs.Sinks.{IsLocated};

use crate::Pair;
use query_lang::Query;
use sink_collect::SinkSet;

/// The first pair of rows: the first row that lists a source byte, and the first byte that it lists. None where no row lists
/// any.
pub fn first_pair(rows: &[SinkSet]) -> Option<Pair>
    ensures { result ≡ first_of_rows rows.now }
{
    for row in rows {
        if let Some(source) = row.sources().first() {
            return Some(Pair {
                sink: row.sink(),
                source,
            });
        }
    }
    None
}

/// The pair that a query names: the one source byte that it chooses, and the one sink. None where it may choose others.
pub fn named_pair(query: &Query) -> Option<Pair>
    ensures named { IfSome result (Names query.now) }
    ensures located { IfSome result IsLocated }
{
    // The contract of `points` says where they are, and so where the pair is.
    let _points = query.points();
    let source = query.only_source()?;
    let sink = query.only_sink()?;
    Some(Pair { sink, source })
}
