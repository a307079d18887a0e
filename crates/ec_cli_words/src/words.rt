//! The words of a line.

ghost use Rattle.std.specs.Prelude.{◌≡◌, ◌≤◌, true, Some, codes, IfOk, IfSome};
ghost use Rattle.std.specs.Option.{ForSome};
ghost use Rattle.ec_cli_command.specs.Words.{JobFits, job_of};
ghost use Rattle.ec_cli_words.specs.Names.{name_of};
ghost use Rattle.ec_cli_words.specs.Numbers.{EffortFits, HasEffortOf, HasNodesOf, HasNumbersOf, IsFlagOf, IsMaybeSaidBy, usual_nodes as usual_nodes_spec};
ghost use Rattle.ec_cli_words.specs.Parts.{HasPartOf, PartFits};
ghost use Rattle.ec_cli_words.specs.Paths.{HasPathsOf, IsPathOf, IsUnitsPathOf};
ghost use Rattle.ec_cli_words.specs.Trials.{AreSaidBy, HasCaptureOf, HasLostOf};
ghost use Rattle.ec_cli_words.specs.declared.words.LineFault.TheVariants.{Memory};

use crate::part::part_of;
use clap::ArgMatches;
use ec_cert::Part;
use ec_cli_command::{Effort, Line, MOST_MINUTES, MOST_NODES, MOST_WORKERS, USUAL_NODES};
use std::alloc::{AllocError, Global};

/// What is told of a number that is out of its limits.
const OUT_OF_RANGE: &str = "error: a number is out of range\n";

/// What is told of a word that says no part.
const NO_PART: &str = "error: --part is I/N with 1 <= I <= N <= 10000, as 3/8\n";

/// Why words are no command line.
#[derive(Debug, Drop)]
pub enum LineFault {
    /// Memory ran out.
    Memory,
    /// The words are no command or ask for help; the text says what is wrong, or is the help.
    Refused { text: String },
}

impl From<AllocError> for LineFault {
    ghost from_gives = { λ _ e. e ≡ Memory };

    fn from(_error: AllocError) -> LineFault {
        LineFault::Memory
    }
}

/// The words of a command line: the command with its paths, and what else they say.
#[derive(Debug, Drop)]
pub struct Words {
    pub line: Line,
    /// The path of the units; none where they come on standard input.
    pub units: Option<String>,
    /// Whether a number of nodes is asked for.
    pub nodes: bool,
    /// Whether the progress of a search is told also where standard error is no terminal.
    pub progress: bool,
    /// What else is to be done with a play; nothing with another job.
    pub trial: Trial,
}

/// What is to be done with a play: which slaves it loses, by their stations, and the path of the capture file of its frames.
#[derive(Debug, Drop)]
pub struct Trial {
    pub lost: Vec<u16>,
    pub pcap: Option<String>,
}

/// A refusal with a text, unless memory ran out over it.
pub(crate) fn refusal(text: Result<String, AllocError>) -> LineFault {
    match text {
        Ok(text) => LineFault::Refused { text },
        Err(AllocError) => LineFault::Memory,
    }
}

/// A refusal with this text, unless memory ran out.
pub(crate) fn refused(alloc: Global, text: &str) -> LineFault {
    refusal(String::from_str(alloc, text))
}

/// The path that an option names, if it is there.
pub(crate) fn path_of(
    alloc: Global,
    matches: &ArgMatches<'_>,
    option: &str,
) -> Result<Option<String>, AllocError>
    ensures { IfOk result (IsPathOf matches.now option.now) }
{
    match matches.get_str(option) {
        Some(path) => Ok(Some(String::from_str(alloc, path)?)),
        None => Ok(None),
    }
}

/// The path of a certificate that has to be there.
fn cert_path(alloc: Global, matches: &ArgMatches<'_>) -> Result<String, LineFault>
    ensures { IfOk result (λ path. IsPathOf matches.now (codes "cert") (Some path)) }
{
    path_of(alloc, matches, "cert")?.ok_or_else(|| refused(
        alloc,
        "error: --cert <PATH> is missing\n",
    ))
}

/// The minutes that a search may take, if any are said; none of a word that is no number.
fn minutes_of(matches: &ArgMatches<'_>) -> Option<Option<u32>>
    ensures { IfSome result (IsMaybeSaidBy matches.now (codes "minutes")) }
{
    matches.try_get_one::<u32>("minutes").ok()
}

/// The nodes that a search may visit where no number is given: a million, and where time ends it, as many as may be asked
/// for.
fn usual_nodes(minutes: Option<u32>) -> u32
    ensures { result ≡ usual_nodes_spec minutes }
{
    match minutes {
        Some(_) => MOST_NODES,
        None => USUAL_NODES,
    }
}

/// The nodes that a search may visit; none of a word that is no number.
fn nodes_of(matches: &ArgMatches<'_>, minutes: Option<u32>) -> Option<u32>
    ensures { IfSome result (HasNodesOf matches.now minutes) }
{
    match matches.try_get_one::<u32>("nodes") {
        Ok(Some(nodes)) => Some(nodes),
        Ok(None) => Some(usual_nodes(minutes)),
        Err(_) => None,
    }
}

/// Whether a number of nodes is asked for.
fn has_nodes(matches: &ArgMatches<'_>) -> bool {
    matches!(matches.try_get_one::<u32>("nodes"), Ok(Some(_)))
}

/// Whether a number of minutes is within its limits.
fn are_minutes(minutes: Option<u32>) -> bool
    ensures { result ≡ true → ForSome minutes (λ m. (1 ≤ m) × (m ≤ 10000)) }
{
    match minutes {
        Some(minutes) => 1 <= minutes && minutes <= MOST_MINUTES,
        None => true,
    }
}

/// What a search may take, where the numbers are within the limits.
fn effort_of(matches: &ArgMatches<'_>) -> Option<Effort>
    ensures within { IfSome result EffortFits }
    ensures said { IfSome result (HasEffortOf matches.now) }
{
    let workers = matches.get_one::<usize>("workers")?;
    let minutes = minutes_of(matches)?;
    let nodes = nodes_of(matches, minutes)?;
    let is_crew = 1 <= workers && workers <= MOST_WORKERS;
    if !is_crew || nodes < 1 || nodes > MOST_NODES || !are_minutes(minutes) {
        return None;
    }
    Some(Effort {
        workers,
        nodes,
        minutes,
    })
}

/// What a search may take, or the refusal that says that a number is out of range.
fn effort(alloc: Global, matches: &ArgMatches<'_>) -> Result<Effort, LineFault>
    ensures within { IfOk result EffortFits }
    ensures said { IfOk result (HasEffortOf matches.now) }
{
    effort_of(matches).ok_or_else(|| refused(alloc, OUT_OF_RANGE))
}

/// The line of a plan with these options.
fn plan_line(alloc: Global, matches: &ArgMatches<'_>) -> Result<Line, LineFault>
    ensures named { IfOk result (λ line. name_of line ≡ codes "plan") }
    ensures within { IfOk result (λ line. JobFits (job_of line)) }
    ensures said { IfOk result (HasNumbersOf matches.now) }
    ensures paths { IfOk result (HasPathsOf matches.now) }
{
    let effort = effort(alloc, matches)?;
    let strong = matches.get_flag("strong");
    let keep = matches.get_flag("keep");
    let out = path_of(alloc, matches, "out")?;
    let places = path_of(alloc, matches, "places")?;
    Ok(Line::Plan {
        effort,
        strong,
        keep,
        out,
        places,
    })
}

/// The part of a resumed search, or the refusal of a word that says no part.
fn part(alloc: Global, matches: &ArgMatches<'_>) -> Result<Part, LineFault>
    ensures fits { IfOk result PartFits }
    ensures said { IfOk result (HasPartOf matches.now) }
{
    part_of(matches).ok_or_else(|| refused(alloc, NO_PART))
}

/// The line of a resumed search with these options.
fn resume_line(alloc: Global, matches: &ArgMatches<'_>) -> Result<Line, LineFault>
    ensures named { IfOk result (λ line. name_of line ≡ codes "resume") }
    ensures within { IfOk result (λ line. JobFits (job_of line)) }
    ensures said { IfOk result (HasNumbersOf matches.now) }
    ensures paths { IfOk result (HasPathsOf matches.now) }
{
    let effort = effort(alloc, matches)?;
    let part = part(alloc, matches)?;
    let cert = cert_path(alloc, matches)?;
    let out = path_of(alloc, matches, "out")?;
    let places = path_of(alloc, matches, "places")?;
    Ok(Line::Resume {
        cert,
        effort,
        part,
        out,
        places,
    })
}

/// The line of a command with these options.
fn line_of(alloc: Global, command: &str, matches: &ArgMatches<'_>) -> Result<Line, LineFault>
    ensures named { IfOk result (λ line. name_of line ≡ command.now) }
    ensures within { IfOk result (λ line. JobFits (job_of line)) }
    ensures said { IfOk result (HasNumbersOf matches.now) }
    ensures paths { IfOk result (HasPathsOf matches.now) }
{
    match command {
        "cost" => Ok(Line::Cost {
            cert: path_of(alloc, matches, "cert")?,
            svg: path_of(alloc, matches, "svg")?,
        }),
        "plan" => plan_line(alloc, matches),
        "resume" => resume_line(alloc, matches),
        "check" => Ok(Line::Check {
            cert: cert_path(alloc, matches)?,
        }),
        "frames" => Ok(Line::Frames {
            cert: path_of(alloc, matches, "cert")?,
            pcap: path_of(alloc, matches, "pcap")?,
            header: path_of(alloc, matches, "header")?,
            map: path_of(alloc, matches, "map")?,
            report: path_of(alloc, matches, "report")?,
        }),
        "play" => Ok(Line::Play {
            cert: path_of(alloc, matches, "cert")?,
        }),
        _ => Err(refused(alloc, "error: no command\n")),
    }
}

/// The stations of the slaves that are lost.
fn lost_of(alloc: Global, matches: &ArgMatches<'_>) -> Result<Vec<u16>, LineFault>
    ensures { IfOk result (λ lost. AreSaidBy matches.now (codes "lose") lost.items) }
{
    let mut lost = Vec::new(alloc);
    let Some(texts) = matches.get_strs("lose") else {
        return Ok(lost);
    };
    for text in texts {
        let Ok(station) = text.parse::<u16>() else {
            return Err(refused(alloc, OUT_OF_RANGE));
        };
        let Ok(()) = lost.push(station) else {
            return Err(LineFault::Memory);
        };
    }
    Ok(lost)
}

/// What is to be done with the play of a line.
fn trial_of(alloc: Global, line: &Line, matches: &ArgMatches<'_>) -> Result<Trial, LineFault>
    ensures lost { IfOk result (HasLostOf matches.now line.now) }
    ensures path { IfOk result (HasCaptureOf matches.now line.now) }
{
    let Line::Play { .. } = line else {
        return Ok(Trial {
            lost: Vec::new(alloc),
            pcap: None,
        });
    };
    let lost = lost_of(alloc, matches)?;
    let pcap = path_of(alloc, matches, "pcap")?;
    Ok(Trial { lost, pcap })
}

/// The path of the units, where they don't come on standard input.
pub(crate) fn units_path(
    alloc: Global,
    matches: &ArgMatches<'_>,
) -> Result<Option<String>, AllocError>
    ensures { IfOk result (IsUnitsPathOf matches.now) }
{
    match path_of(alloc, matches, "file")? {
        Some(path) if path.as_str() == "-" => Ok(None),
        path => Ok(path),
    }
}

/// The words of a line with these options.
pub(crate) fn line_words(
    alloc: Global,
    command: &str,
    options: &ArgMatches<'_>,
) -> Result<Words, LineFault>
    ensures named { IfOk result (λ words. name_of words.line ≡ command.now) }
    ensures within { IfOk result (λ words. JobFits (job_of words.line)) }
    ensures said { IfOk result (λ words. HasNumbersOf options.now words.line) }
    ensures paths { IfOk result (λ words. HasPathsOf options.now words.line) }
    ensures units { IfOk result (λ words. IsUnitsPathOf options.now words.units) }
    ensures progress { IfOk result (λ words. IsFlagOf options.now (codes "progress") words.progress) }
    ensures lost { IfOk result (λ words. HasLostOf options.now words.line words.trial) }
    ensures capture { IfOk result (λ words. HasCaptureOf options.now words.line words.trial) }
{
    let line = line_of(alloc, command, options)?;
    Ok(Words {
        units: units_path(alloc, options)?,
        nodes: has_nodes(options),
        progress: options.get_flag("progress"),
        trial: trial_of(alloc, &line, options)?,
        line,
    })
}
