//! An image that is refused.
ghost use Rattle.jn_image_files.specs.Texts.{refusal_text};
ghost use Rattle.jn_status.specs.Refusing.{Refuses};
ghost use Rattle.jn_status.specs.declared.status.Status.TheVariants as statuses;
ghost use Rattle.jn_writing.specs.Outside.{sink_state};

use crate::status::Status;
use jn_host::{Failed, Sink};
use jn_image_files::Refusal;
use jn_writing::write_all;
use std::alloc::Global;

/// Says which image is refused, and why.
pub fn refuse_image<K: Sink>(alloc: Global, refusal: Refusal, sink: &mut K) -> Status
    ensures refused { Refuses (refusal_text refusal) statuses.Image (sink_state K.taken K.faults sink.old) result (sink_state K.taken K.faults sink.new) }
{
    match refusal.text(alloc) {
        Ok(text) => match write_all(sink, &text) {
            Ok(()) => Status::Image,
            Err(Failed) => Status::Write,
        },
        Err(_refused) => Status::Memory,
    }
}
