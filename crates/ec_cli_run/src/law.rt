//! Laws of what is written.

ghost use Rattle.ec_cli_run.specs.Sound.{AnswersAgree, CaptureTellsFrames, OneCaptureEach, OneLeastEach, OneOutputEach, PlanIsTrue, ResumeIsTrue, YesIsTrue};

use ec_tree::{law_levels_bound, law_trees_bound};

/// What is written is a function of the bytes that are read: those of the units, and where a job reads a
/// certificate those of the certificate, have one text and one status.
pub fn law_one_output_each()
    ensures { OneOutputEach }
{}

/// The capture file that frames write is a function of the bytes that are read, and the text that they write with it is
/// that of frames without one.
pub fn law_one_capture_each()
    ensures files { OneCaptureEach }
    ensures texts { CaptureTellsFrames }
{}

/// Where a check writes `least B`, status 0, some legal plan of the units that were read is busiest at B, and every
/// legal plan has a tick that costs at least B. Where it writes `no plan`, status 1, none of their plans is legal. Where
/// it writes `at least L`, status 2, every legal plan has a tick that costs at least L. Whoever made the certificate.
pub fn law_a_yes_is_true()
    ensures { YesIsTrue }
{
    law_trees_bound();
    law_levels_bound();
}

/// Where a plan writes `optimal B`, status 0, the plan whose lines it writes is a legal one of the units that were read,
/// busiest at B, every legal plan has a tick that costs at least B, and the certificate that it writes before shows it.
/// Where it writes `no plan`, status 1, none of their plans is legal, and the certificate shows that. Where it writes
/// `unproved` and `at least L`, status 2, the plan of its lines, if any, is legal and costs what is stated, and every legal
/// plan has a tick that costs at least L. Whatever workers and nodes were asked for, and whether or not places are kept.
pub fn law_a_plan_is_true()
    ensures { PlanIsTrue }
{
    law_levels_bound();
}

/// The same of a search that goes on with a certificate, whoever made it.
pub fn law_a_resumed_plan_is_true()
    ensures { ResumeIsTrue }
{
    law_levels_bound();
}

/// Two searches over the same units, begun, resumed or merged, that end with status 0 name the same cost, whatever was asked for;
/// and where one ends with status 0, none ends with status 1.
pub fn law_one_least_each()
    ensures { OneLeastEach }
{
    law_levels_bound();
}

/// What searches, merges and checks tell of the same units agrees, whatever was asked for and whatever certificates there were. A bound
/// that one tells (`optimal L`, `least L`, `at least L`) is at most the cost of a plan of which another tells (`optimal B`, `least B`,
/// `unproved B`). So all of `optimal B` and `least B` name one number. Where one is `no plan`, none tells of a plan.
pub fn law_answers_agree()
    ensures { AnswersAgree }
{
    law_trees_bound();
    law_levels_bound();
}
