//! Laws of books.

ghost use Rattle.ec_book.specs.Laws.{TreesFall, HistoriesReplay, DoneIsSpent, EmptyLogsSpendNothing};

/// A partial tree at a value is one at each smaller value.
pub fn law_trees_fall()
    ensures { TreesFall }
{}

/// The replay of a legal history is its last state.
pub fn law_histories_replay()
    ensures { HistoriesReplay }
{}

/// Where a worker is told that the search is done, no piece of the part is left or all nodes are spent.
pub fn law_done_is_spent()
    ensures { DoneIsSpent }
{}

/// A book with an empty log has spent nothing.
pub fn law_empty_logs_spend_nothing()
    ensures { EmptyLogsSpendNothing }
{}
