//! Laws of the definitions: each is the contract of a function that does nothing.

ghost use Rattle.page_data.specs.PageLaws.{DataTellReports, RowsAreSmall, PagesTellReports, AlikeHaveSameData};

/// Pages with the same data are of the same report, where the numbers in it are small.
pub fn data_tell_reports()
    ensures { DataTellReports }
{}

/// The numbers in the rows of a run are small.
pub fn rows_are_small()
    ensures { RowsAreSmall }
{}

/// Pages that are the same are of the same report: a page tells the whole report.
pub fn pages_tell_reports()
    ensures { PagesTellReports }
{}

/// Queries that are alike have the same data.
pub fn alike_have_same_data()
    ensures { AlikeHaveSameData }
{}
