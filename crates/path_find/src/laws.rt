//! Laws of the definitions: each is the contract of a function that does nothing.

ghost use Rattle.path_find.specs.FirstPair.{PathsAreListed, NoneIsListed, FirstPairHasPath};
ghost use Rattle.path_find.specs.PathLaws.{PathsAreOrigins, OnePathIsOrigin, OnePathIsPath, BeginningIsPath, HopIsFromFirst, PathIsShort, PathIsLocated};
ghost use Rattle.path_find.specs.AnswerLaws.{NoPathIsToldOfNone, NamedPairIsTold, FirstPairIsLocated};

/// A source byte has a path to a location exactly where it is among its origins, and exactly there it has the one path that
/// is told.
pub fn paths_are_origins()
    ensures any { PathsAreOrigins }
    ensures one { OnePathIsOrigin }
{}

/// The one path is a path; what is before its latest arrival is the one path of an earlier time; and its hops come from the
/// first location of the flow table that has the source byte among its origins.
pub fn one_path_is_a_path()
    ensures path { OnePathIsPath }
    ensures beginning { BeginningIsPath }
    ensures first { HopIsFromFirst }
{}

/// A path has at most as many arrivals as there are steps.
pub fn paths_are_short()
    ensures { PathIsShort }
{}

/// Each arrival of a path to a location is at a location: a lane of a register, or an address.
pub fn paths_are_located()
    ensures { PathIsLocated }
{}

/// A path is told exactly where the report has a row of the sink that lists the source byte, over traces in which no output
/// byte stands twice.
pub fn paths_are_listed()
    ensures { PathsAreListed }
{}

/// Rows have no first pair exactly where none of them lists a source byte, and the first pair of a report has a path, over
/// traces in which no output byte stands twice.
pub fn first_pairs_have_paths()
    ensures none { NoneIsListed }
    ensures path { FirstPairHasPath }
{}

/// No path is told exactly where no row of the report lists a source byte.
pub fn no_path_is_told_of_none()
    ensures { NoPathIsToldOfNone }
{
    first_pairs_have_paths();
}

/// Where a query names a pair, its path is the one that is told.
pub fn named_pairs_are_told()
    ensures { NamedPairIsTold }
{
    first_pairs_have_paths();
}

/// The first pair of a report is located where the query's points are.
pub fn first_pairs_are_located()
    ensures { FirstPairIsLocated }
{
    first_pairs_have_paths();
}
