//! Where an event stands in a text.
ghost use Rattle.std.specs.Prelude.{◌≡◌, IfOk};
ghost use Rattle.jn_schedule.specs.Grammar.{line_of_event};

use crate::words::{fill_words, is_passed};
use std::alloc::{AllocError, Global};

/// The line of a text, from 1, at which the event of an index stands; indexes count from 0. None where
/// there are fewer events.
pub fn line_of_event(alloc: Global, text: &[u8], index: usize) -> Result<Option<usize>, AllocError>
    ensures { IfOk result (λ found. found ≡ line_of_event text.now index) }
{
    let mut words = Vec::new(alloc);
    let mut left = index;
    let mut number = 0;
    let mut at = 0;
    while at <= text.len() {
        number += 1;
        let line = fill_words(&mut words, &text[at..])?;
        if !is_passed(&words) {
            if left == 0 {
                return Ok(Some(number));
            }
            left -= 1;
        }
        at += line + 1;
    }
    Ok(None)
}
