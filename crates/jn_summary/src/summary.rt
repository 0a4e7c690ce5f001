//! A report's summary, made line by line.
ghost use Rattle.std.specs.Prelude.{◌≡◌, ◌∷◌, ◌++◌, [], List, OnOk, OnErr, IfOk};
ghost use Rattle.jn_report.specs.declared.line.Line.{Line as ALine};
ghost use Rattle.jn_summary.specs.Taken.{HasTaken};
ghost use Rattle.jn_summary.specs.Summary.{summary_text};

use crate::counts::Counts;
use crate::told::line_of;
use jn_report::{Line, push_line};
use sha2::{Digest, Sha256};
use std::alloc::{AllocError, Global};

/// The lines of a report that were taken so far: how many there were of some kinds, and the digest of their text.
/// It takes no more room for many lines than for few.
#[derive(Drop)]
pub struct Summary {
    counts: Counts,
    hasher: Sha256,
    /// The text of the last line.
    line: Vec<u8>,
}

impl Summary {
    /// The summary of no lines.
    pub fn new(alloc: Global) -> Summary
        ensures { HasTaken result [] }
    {
        Summary {
            counts: Counts::new(),
            hasher: Sha256::new(),
            line: Vec::new(alloc),
        }
    }

    /// Takes the next line. Where there is no memory, the lines taken are those before.
    pub fn take(&mut self, line: &Line) -> Result<(), AllocError>
        ensures ok { OnOk result ((lines : List ALine) → HasTaken self.old lines → HasTaken self.new (lines ++ line.now ∷ [])) }
        ensures err { OnErr result ((lines : List ALine) → HasTaken self.old lines → HasTaken self.new lines) }
    {
        self.line.clear();
        push_line(&mut self.line, line)?;
        self.hasher.update(self.line.as_slice());
        self.counts = self.counts.with(&line.text);
        Ok(())
    }

    /// The line that reports the trial of a seed and so many events, whose report are the lines taken.
    pub fn text(self, alloc: Global, seed: u64, events: u32) -> Result<Vec<u8>, AllocError>
        ensures { (lines : List ALine) → HasTaken self lines → IfOk result (λ v. v.items ≡ summary_text seed events lines) }
    {
        let Summary { counts, hasher, .. } = self;
        let digest = hex::encode(alloc, hasher.finalize().as_slice())?;
        line_of(alloc, seed, events, counts, digest.as_str())
    }
}
