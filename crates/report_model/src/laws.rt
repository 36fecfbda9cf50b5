//! Laws of the definitions: each is the contract of a function that does nothing.

ghost use Rattle.report_model.specs.RowLaws.{AlikeHaveSameRows, RowsAscend, RowsWereWritten, NoRowIsMissing, PointsHaveRows};
ghost use Rattle.report_model.specs.InfluenceLaws.{InfluenceTurnsRows};
ghost use Rattle.report_model.specs.TogetherLaws.{PointsAscend, OnlyIsOwn, TogetherCovers, TogetherAscends, EachIsOwn};
ghost use Rattle.report_model.specs.PointLaws.{PointsOfTexts, PointsTogether};
ghost use Rattle.report_model.specs.Needed.{RowsOfBeginning, OrderOfBeginning, NeededAreMade};

/// Queries that have one rule and the same points, and choose the same bytes, have the same rows, over each trace.
pub fn alike_have_same_rows()
    ensures { AlikeHaveSameRows }
{}

/// Rows ascend by their output bytes and points, and so each has one row.
pub fn rows_ascend()
    ensures { RowsAscend }
{}

/// Each row is one of the rows in the order of the run, and of an output byte or a point that the query chooses.
pub fn rows_were_written()
    ensures { RowsWereWritten }
{}

/// Each output byte and each point of the rows in the order of the run has a row.
pub fn no_row_is_missing()
    ensures { NoRowIsMissing }
{}

/// The points that have a row are those of the query up to the end of the run, and a point's row has the source bytes that
/// its location came from, after as many steps as its time says.
pub fn points_have_rows()
    ensures { PointsHaveRows }
{}

/// A source byte, and an output byte or a point, stand together in the influence exactly where they do in the rows: none
/// is lost, since each source byte of a row was received, and the query chooses it.
pub fn influence_turns_rows()
    ensures { InfluenceTurnsRows }
{}

/// The points of a query that a text stands for ascend.
pub fn points_ascend()
    ensures { PointsAscend }
{}

/// The points of queries that texts stand for are at locations, and so are those of several of them taken
/// together.
pub fn points_are_located()
    ensures texts { PointsOfTexts }
    ensures together { PointsTogether }
{}

/// Where a query covers another, the other's rows are what of its rows is of that one's own: the rows of the output bytes
/// and points that it chooses, each with those of its source bytes that it chooses.
pub fn only_is_own()
    ensures { OnlyIsOwn }
{}

/// Queries of one rule, taken together, cover each of them, and the points of all ascend.
pub fn together_covers()
    ensures covers { TogetherCovers }
    ensures points { TogetherAscends }
{}

/// So the rows of each of several queries of one rule are its own of the rows of them all together.
pub fn each_is_own()
    ensures { EachIsOwn }
{}

/// The rows over a trace, also in the order of the run, are those over each of its beginnings that has the steps which
/// the last chosen sink needs. The trace has them all.
pub fn rows_of_beginning()
    ensures rows { RowsOfBeginning }
    ensures order { OrderOfBeginning }
    ensures made { NeededAreMade }
{}
