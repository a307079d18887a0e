//! Jobs.

ghost use Rattle.std.specs.Prelude.{◌≡◌};
ghost use Rattle.ec_cli_command.specs.Words.{reads_cert, writes_file};

use ec_cert::Part;

/// What the program is to do.
#[derive(Clone, Copy, Debug, PartialEq, Eq)]
pub enum Job {
    /// Tells what each tick of the placed units costs.
    Cost,
    /// Searches for the best plan with so many workers, over at most so many nodes; by the strong rules where it says so, and
    /// from the places of the units on where these are to be kept.
    Plan {
        workers: usize,
        nodes: u32,
        strong: bool,
        keep: bool,
    },
    /// Goes on with the search of a certificate that was cut short, with so many workers, over at most so many new nodes,
    /// and only with the open leaves of this part.
    Resume {
        workers: usize,
        nodes: u32,
        part: Part,
    },
    /// Checks a certificate for the units.
    Check,
    /// Tells the FMMU records and the frames of a certificate's plan, or of the placed units.
    Frames,
    /// Tells them too, and writes these frames as a capture file.
    Capture,
    /// Tells what each tick costs at the places of a certificate's plan.
    PlanCost,
    /// Plays a certificate's plan, or that of the placed units, through modelled slaves for a hyperperiod.
    Play,
}

impl Job {
    /// Whether a certificate is read, where there is one.
    pub fn reads_cert(&self) -> bool
        ensures { result ≡ reads_cert self.now }
    {
        match self {
            Job::Cost | Job::Plan { .. } => false,
            Job::Resume { .. }
            | Job::Check
            | Job::Frames
            | Job::Capture
            | Job::PlanCost
            | Job::Play => true,
        }
    }

    /// Whether a file is written, where there is a writer for it.
    pub fn writes_file(&self) -> bool
        ensures { result ≡ writes_file self.now }
    {
        match self {
            Job::Plan { .. } | Job::Resume { .. } | Job::Capture => true,
            Job::Cost | Job::Check | Job::Frames | Job::PlanCost | Job::Play => false,
        }
    }
}
