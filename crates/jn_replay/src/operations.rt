//! Operations done one after another, and whether they are answered as reported.

ghost use Rattle.std.specs.Prelude.{◌≡◌, ◌↔◌, true, IfOk, OnOk, IsTrue, length};
ghost use Rattle.jn_replay.specs.Operations.{files_then, GivesAnswers};
ghost use Rattle.jn_replay.specs.Stored.{files_of, AreSame};

use crate::answers::is_same_answer;
use crate::files::{Files, Performed, StoredFile};
use crate::perform::do_op;
use std::alloc::{AllocError, Global};

impl Files {
    /// The same files, in lists of their own.
    pub fn copy(&self, alloc: Global) -> Result<Files, AllocError>
        ensures { IfOk result (λ fs. AreSame (files_of fs) (files_of self.now)) }
    {
        let mut stored = Vec::new(alloc);
        for file in &self.stored {
            stored.push(StoredFile {
                server: file.server,
                file: file.file,
                blocks: Vec::from_slice(alloc, &file.blocks)?,
            })?;
        }
        Ok(Files { stored })
    }
}

/// Does operations one after another, whatever they are answered.
pub fn do_all(alloc: Global, files: &mut Files, ops: &[Performed]) -> Result<(), AllocError>
    ensures { OnOk result (AreSame (files_of files.new) (files_then ops.now (files_of files.old))) }
{
    for p in ops {
        do_op(alloc, files, p.server, &p.op)?;
    }
    Ok(())
}

/// Does operations one after another, until the files give another answer than the one reported.
pub fn gives_answers(
    alloc: Global,
    files: &mut Files,
    ops: &[Performed],
) -> Result<bool, AllocError>
    ensures answers { IfOk result (λ b. IsTrue b ↔ GivesAnswers (files_of files.old) ops.now) }
    ensures after { IfOk result (λ b. b ≡ true
        → AreSame (files_of files.new) (files_then ops.now (files_of files.old))) }
{
    for p in ops {
        let answer = do_op(alloc, files, p.server, &p.op)?;
        if !is_same_answer(&answer, &p.answer) {
            return Ok(false);
        }
    }
    Ok(true)
}
