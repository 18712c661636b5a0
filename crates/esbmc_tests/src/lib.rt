//! Runs of the whole program over files and sinks in memory.
#![tactic(auto)]

ghost use Rattle.std.specs.Prelude.{◌≡◌, ◌<◌, IfOk, ◌∷◌, [], Some};
ghost use Rattle.kv_port.specs.MemFiles.{folder_of};

#[cfg(test)]
mod replays;
#[cfg(test)]
mod tests;

use esbmc_cli::{Outcome, run_alone};
use kv_base::{Bytes, NoMemory, Sequence};
use kv_port::{Failing, Files, MemFiles, NamedFile, NamedFiles, Sink};
use std::alloc::Global;

fn one_file(alloc: Global, name: &[u8], content: &[u8]) -> Result<NamedFiles, NoMemory>
    ensures { IfOk result (λ files. files ≡ record { name = name.now; content = content.now } ∷ []) }
{
    let mut files = Sequence::new(alloc);
    files.push(NamedFile {
        name: Bytes::from_slice(alloc, name)?,
        content: Bytes::from_slice(alloc, content)?,
    })?;
    Ok(files)
}

/// A folder with one file, of which these calls fail.
pub fn folder(
    alloc: Global,
    name: &[u8],
    content: &[u8],
    failing: &[Failing],
) -> Result<MemFiles, NoMemory>
    ensures { IfOk result (λ files. ⟦<MemFiles as Files>⟧.told files
        ≡ Some (folder_of (record { name = name.now; content = content.now } ∷ []))) }
{
    let files = one_file(alloc, name, content)?;
    let failing = Sequence::from_slice(alloc, failing)?;
    Ok(MemFiles::new(alloc, files, failing))
}

/// A folder with one file, which gives at most a given number of bytes at each read.
pub fn in_pieces(
    alloc: Global,
    name: &[u8],
    content: &[u8],
    size: usize,
) -> Result<MemFiles, NoMemory>
    requires { 0 < size }
    ensures { IfOk result (λ files. ⟦<MemFiles as Files>⟧.told files
        ≡ Some (folder_of (record { name = name.now; content = content.now } ∷ []))) }
{
    Ok(MemFiles::in_pieces(alloc, one_file(alloc, name, content)?, size))
}

/// Runs the program on these words.
pub fn run_words<F: Files, W: Sink>(
    alloc: Global,
    words: &[&str],
    files: &mut F,
    out: &mut W,
) -> Result<Outcome, NoMemory> {
    let mut owned = Vec::new(alloc);
    for word in words {
        owned.push(String::from_str(alloc, word)?)?;
    }
    Ok(run_alone(alloc, &owned, files, out))
}
