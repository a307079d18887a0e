//! What is to be merged.

ghost use Rattle.std.specs.Prelude.{◌≡◌, codes, IfOk};
ghost use Rattle.ec_cli_words.specs.Merges.{ArePathsOf, HasMergeOf, MergingFits};

use crate::words::{LineFault, path_of, refused, units_path};
use clap::ArgMatches;
use std::alloc::{AllocError, Global};

/// The most certificates that are merged at once.
const MOST_CERTS: usize = 10_000;

/// What is to be merged, by paths, and where what comes of it is written.
#[derive(Debug, Drop)]
pub struct Merging {
    /// The certificates, at least one and at most 10,000, in the order of the words.
    pub certs: Vec<String>,
    /// The units; none where they come on standard input.
    pub units: Option<String>,
    /// Where the merged certificate is written, if it is.
    pub out: Option<String>,
}

/// The paths of the certificates.
fn certs_of(alloc: Global, matches: &ArgMatches<'_>) -> Result<Vec<String>, AllocError>
    ensures { IfOk result (λ certs. ArePathsOf matches.now (codes "cert") certs.items) }
{
    let mut certs = Vec::new(alloc);
    let Some(texts) = matches.get_strs("cert") else {
        return Ok(certs);
    };
    for text in texts {
        certs.push(String::from_str(alloc, text)?)?;
    }
    Ok(certs)
}

/// What is to be merged with these options.
pub(crate) fn merging_of(alloc: Global, matches: &ArgMatches<'_>) -> Result<Merging, LineFault>
    ensures fits { IfOk result MergingFits }
    ensures said { IfOk result (HasMergeOf matches.now) }
{
    let certs = certs_of(alloc, matches)?;
    if certs.is_empty() || certs.len() > MOST_CERTS {
        return Err(refused(alloc, "error: --cert names 1 to 10000 certificates\n"));
    }
    let units = units_path(alloc, matches)?;
    let out = path_of(alloc, matches, "out")?;
    Ok(Merging { certs, units, out })
}
