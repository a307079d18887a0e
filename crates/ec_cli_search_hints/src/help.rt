//! What would help a search that ended without a proof.

use crate::advising::Asked;
use ec_outcome::{Cut, Ending};
use ec_text_builder::Draft;

/// What would help a search of a whole tree, by whether it found a plan, and whether that is shown to be the best.
fn help_whole(ending: Ending) -> &'static str {
    let is_best = ending.best.map(|best| best == ending.level);
    match (ending.cut, is_best) {
        (Cut::Budget, None) =>
            "No plan was found before all nodes were spent, and there may be one: a greater --nodes searches longer.\n",
        (Cut::Budget, Some(false)) =>
            "All nodes were spent before it was shown to be the best: a greater --nodes may show it, or find a better one.\n",
        (Cut::Budget, Some(true)) =>
            "All nodes were spent before the search was closed: a greater --nodes may close it.\n",
        (Cut::Time, None) =>
            "No plan was found before the time was over, and there may be one: a greater --minutes searches longer.\n",
        (Cut::Time, Some(false)) =>
            "The time was over before it was shown to be the best: a greater --minutes may show it, or find a better one.\n",
        (Cut::Time, Some(true)) =>
            "The time was over before the search was closed: a greater --minutes may close it.\n",
        (Cut::Memory, None) =>
            "Memory ran out before a plan was found, and there may be one: run it with more memory.\n",
        (Cut::Memory, Some(false)) =>
            "Memory ran out before it was shown to be the best: more memory may show it, or find a better one.\n",
        (Cut::Memory, Some(true)) =>
            "Memory ran out before the search was closed: more memory may close it.\n",
        (Cut::Journal, None) =>
            "What the workers noted does not agree, and there may be a plan: run it with --workers 1.\n",
        (Cut::Journal, Some(false)) =>
            "What the workers noted does not agree, so it is not shown to be the best: run it with --workers 1.\n",
        (Cut::Journal, Some(true)) =>
            "What the workers noted does not agree: run it with --workers 1.\n",
        (Cut::Parts, None) =>
            "No leaf of this part is open, and there may be a plan: merge it with the certificates of the other parts.\n",
        (Cut::Parts, Some(false)) =>
            "No leaf of this part is open. What is open is left to others: merge it with the certificates of the other parts.\n",
        (Cut::Parts, Some(true)) =>
            "No leaf of this part is open: merge it with the certificates of the other parts.\n",
    }
}

/// What would help, by what was found and what was asked for.
pub(crate) fn help(ending: Ending, asked: Asked) -> &'static str {
    match (asked, ending.cut) {
        (Asked::Most, Cut::Budget) =>
            "All nodes were spent, as many as one search may visit: resume goes on from its certificate.\n",
        (Asked::Most, Cut::Time) =>
            "The time was over, as much as one search may take: resume goes on from its certificate.\n",
        (Asked::Part, Cut::Budget) =>
            "All nodes were spent before the leaves of this part were closed: what it closed stays closed when it is merged.\n",
        (Asked::Part, Cut::Time) =>
            "The time was over before the leaves of this part were closed: what it closed stays closed when it is merged.\n",
        (Asked::Part, Cut::Memory) =>
            "Memory ran out before the leaves of this part were closed: what it closed stays closed when it is merged.\n",
        (Asked::Whole | Asked::Most, Cut::Parts) =>
            "No leaf of this part is open. Those that are open were left to the other parts, and its certificate has them still.\n",
        (Asked::Merged, _) =>
            "Some leaves are still open: none of these certificates closes them.\n",
        (Asked::Whole | Asked::Most | Asked::Part, _) => help_whole(ending),
    }
}

/// Adds which other rules may end with a proof where a search didn't. A path at which its certificate was to
/// be written, if it `has_path`, is none for one by other rules, which may say less.
pub(crate) fn add_other_rules(out: &mut Draft, ending: Ending, asked: Asked, has_path: bool) {
    if matches!(asked, Asked::Part | Asked::Merged) || ending.cut == Cut::Journal {
        return;
    }
    let (rules, how) = if ending.strong {
        ("without --strong", "in another order")
    } else {
        ("--strong", "by stronger rules")
    };
    let path = if has_path {
        ", with another --out,"
    } else {
        ""
    };
    out.add(format_args!(
        "The command plan {rules}{path} searches {how}, and may end with a proof.\n"
    ));
}
