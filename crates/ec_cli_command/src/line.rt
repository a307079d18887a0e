//! Command lines.

ghost use Rattle.std.specs.Prelude.{◌≡◌, ◌≤◌, option_map};
ghost use Rattle.ec_cli_command.specs.Words.{JobFits, cert_of, effort_of, job_of, limited, out_of, places_of};

use crate::job::Job;
use ec_cert::Part;

/// The most workers of a search.
pub const MOST_WORKERS: usize = 16;

/// The most nodes that a search may be asked to split and close; so many are the usual ones where time ends it.
pub const MOST_NODES: u32 = 10_000_000;

/// The nodes of a search that is asked for no number, and that time doesn't end.
pub const USUAL_NODES: u32 = 1_000_000;

/// The most minutes after which a search may be asked to end.
pub const MOST_MINUTES: u32 = 10_000;

/// What a search may take (own profile).
#[derive(Clone, Copy, Debug, PartialEq, Eq)]
pub struct Effort {
    /// How many workers search, 1 to 16.
    pub workers: usize,
    /// How many nodes they may split and close, 1 to 10,000,000.
    pub nodes: u32,
    /// After how many minutes they end, 1 to 10,000; none where time doesn't end them.
    pub minutes: Option<u32>,
}

/// A command with the paths that it names: a certificate to read (`cert`), and what is written, namely a certificate
/// (`out`), the units with their places (`places`), a capture file (`pcap`), a picture (`svg`), a C header (`header`), a table
/// of process bytes (`map`) and a page (`report`).
#[derive(Debug, Drop)]
pub enum Line {
    /// Tells what each tick costs: at the places of the units, or at those of a certificate's plan.
    Cost {
        cert: Option<String>,
        svg: Option<String>,
    },
    /// Searches for the best plan; by the strong rules where it says so, and from the places of the units on where these are to be
    /// kept.
    Plan {
        effort: Effort,
        strong: bool,
        keep: bool,
        out: Option<String>,
        places: Option<String>,
    },
    /// Goes on with the search of a certificate, with the open leaves of this part.
    Resume {
        cert: String,
        effort: Effort,
        part: Part,
        out: Option<String>,
        places: Option<String>,
    },
    /// Checks a certificate.
    Check {
        cert: String,
    },
    /// Tells FMMU records and frames: of the placed units, or of a certificate's plan.
    Frames {
        cert: Option<String>,
        pcap: Option<String>,
        header: Option<String>,
        map: Option<String>,
        report: Option<String>,
    },
    /// Plays the placed units, or a certificate's plan.
    Play {
        cert: Option<String>,
    },
}

impl Line {
    /// What is to be done.
    pub fn job(&self) -> Job
        ensures { result ≡ job_of self.now }
    {
        match self {
            Line::Cost { cert: None, .. } => Job::Cost,
            Line::Cost { cert: Some(_), .. } => Job::PlanCost,
            Line::Plan {
                effort,
                strong,
                keep,
                ..
            } => Job::Plan {
                workers: effort.workers,
                nodes: effort.nodes,
                strong: *strong,
                keep: *keep,
            },
            Line::Resume { effort, part, .. } => Job::Resume {
                workers: effort.workers,
                nodes: effort.nodes,
                part: *part,
            },
            Line::Check { .. } => Job::Check,
            Line::Frames { pcap: None, .. } => Job::Frames,
            Line::Frames { pcap: Some(_), .. } => Job::Capture,
            Line::Play { .. } => Job::Play,
        }
    }

    /// Lets a search split and close at most so many nodes; nothing changes in a line that searches for nothing, or for fewer.
    pub fn limit_nodes(&mut self, most: u32)
        requires most { 1 ≤ most }
        requires fits { JobFits (job_of self.old) }
        ensures limited { self.new ≡ limited most self.old }
        ensures fits { JobFits (job_of self.new) }
    {
        match self {
            Line::Plan { effort, .. } => effort.nodes = effort.nodes.min(most),
            Line::Resume { effort, .. } => effort.nodes = effort.nodes.min(most),
            _ => {}
        }
    }

    /// The path of the certificate that is read, if one is.
    pub fn cert(&self) -> Option<&String>
        ensures { option_map (λ path. path.now) result ≡ cert_of self.now }
    {
        match self {
            Line::Plan { .. } => None,
            Line::Resume { cert, .. } | Line::Check { cert } => Some(cert),
            Line::Cost { cert, .. } | Line::Frames { cert, .. } | Line::Play { cert } => {
                cert.as_ref()
            }
        }
    }

    /// The path of the certificate or the capture file that the job writes before its text, if it writes one.
    pub fn out(&self) -> Option<&String>
        ensures { option_map (λ path. path.now) result ≡ out_of self.now }
    {
        match self {
            Line::Plan { out, .. } | Line::Resume { out, .. } => out.as_ref(),
            Line::Frames { pcap, .. } => pcap.as_ref(),
            Line::Cost { .. } | Line::Check { .. } | Line::Play { .. } => None,
        }
    }

    /// What the search may take, if the line asks for one.
    pub fn effort(&self) -> Option<Effort>
        ensures { result ≡ effort_of self.now }
    {
        match self {
            Line::Plan { effort, .. } | Line::Resume { effort, .. } => Some(*effort),
            Line::Cost { .. } | Line::Check { .. } | Line::Frames { .. } | Line::Play { .. } =>
                None,
        }
    }

    /// The path to which a search writes the units with the places of its plan, if it writes them.
    pub fn places(&self) -> Option<&String>
        ensures { option_map (λ path. path.now) result ≡ places_of self.now }
    {
        match self {
            Line::Plan { places, .. } | Line::Resume { places, .. } => places.as_ref(),
            Line::Cost { .. } | Line::Check { .. } | Line::Frames { .. } | Line::Play { .. } =>
                None,
        }
    }
}
