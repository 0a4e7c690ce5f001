//! Images that are refused.

ghost use Rattle.std.specs.Prelude.{◌≡◌, ◌++◌, IfOk, OnOk, decimal};
ghost use Rattle.jn_image_files.specs.Texts.{argument_text, cause_text, refusal_text};

use jn_base::ServerNo;
use jn_image::{BadImage, Unsound};
use jn_text::push_number;
use std::alloc::{AllocError, Global};

/// Why a server's image is refused.
#[derive(Clone, Copy, Debug, PartialEq, Eq, Drop)]
pub enum Cause {
    /// There is none.
    Missing,
    /// What is there is no image: its first fault.
    Bad(BadImage),
    /// It is unsound: why.
    Unsound(Unsound),
}

/// The first image that is refused.
#[derive(Clone, Copy, Debug, PartialEq, Eq, Drop)]
pub struct Refusal {
    pub server: ServerNo,
    pub cause: Cause,
}

impl Refusal {
    /// The line that says so.
    pub fn text(self, alloc: Global) -> Result<Vec<u8>, AllocError>
        ensures { IfOk result (λ text. text.items ≡ refusal_text self) }
    {
        let mut text = Vec::from_slice(alloc, b"refused: image ")?;
        push_number(&mut text, u64::from(self.server.0))?;
        push_cause(&mut text, self.cause)?;
        text.push(b'\n')?;
        Ok(text)
    }
}

fn push_cause(out: &mut Vec<u8>, cause: Cause) -> Result<(), AllocError>
    ensures { OnOk result (out.new.items ≡ out.old.items ++ cause_text cause) }
{
    match cause {
        Cause::Missing => out.extend_from_slice(b" missing"),
        Cause::Bad(fault) => push_numbered(out, b" bad ", u64::from(fault.number())),
        Cause::Unsound(fault) => {
            push_numbered(out, b" unsound ", u64::from(fault.number()))?;
            push_argument(out, fault.argument())
        }
    }
}

fn push_argument(out: &mut Vec<u8>, argument: Option<u32>) -> Result<(), AllocError>
    ensures { OnOk result (out.new.items ≡ out.old.items ++ argument_text argument) }
{
    match argument {
        Some(n) => push_numbered(out, b" ", u64::from(n)),
        None => Ok(()),
    }
}

fn push_numbered(out: &mut Vec<u8>, word: &[u8], n: u64) -> Result<(), AllocError>
    ensures { OnOk result (out.new.items ≡ out.old.items ++ (word.now ++ decimal n)) }
{
    out.extend_from_slice(word)?;
    push_number(out, n)
}
