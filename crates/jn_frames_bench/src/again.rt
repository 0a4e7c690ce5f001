//! The frames of a stream, each written again.

ghost use Rattle.std.specs.Prelude.{◌≡◌, ◌<◌, true};
ghost use Rattle.jn_wire.specs.Sizes.{NamesFewIn};

use jn_base::ServerNo;
use jn_msgs::Message;
use jn_wire::{Body, Framed, Unframer, WireError, encode};
use std::alloc::Global;
use std::cmp::min;

/// As many works as an End or an Abort may name.
const MOST_WORKS: usize = 8;

/// Reads a stream of server 0 by pieces of so many bytes, and writes each frame again; how many there are, and how many bytes they have.
pub(crate) fn frames_again(
    alloc: Global,
    data: &[u8],
    size: usize,
) -> Result<(usize, usize), WireError>
    requires { 0 < size }
{
    let mut unframer = Unframer::new(alloc, ServerNo(0));
    let mut frames = Vec::new(alloc);
    let mut written = Vec::new(alloc);
    let mut count = 0usize;
    let mut bytes = 0usize;
    let mut rest = data;
    while !rest.is_empty() {
        let (piece, others) = rest.split_at(min(size, rest.len()));
        frames.clear();
        unframer.feed(piece, &mut frames)?;
        count = count.saturating_add(frames.len());
        bytes = bytes.saturating_add(write_all(frames.as_slice(), &mut written)?);
        rest = others;
    }
    unframer.end()?;
    Ok((count, bytes))
}

/// Writes frames one after another, each over the one before; how many bytes they have.
fn write_all(frames: &[Framed], out: &mut Vec<u8>) -> Result<usize, WireError> {
    let mut bytes = 0usize;
    for framed in frames {
        out.clear();
        if names_few(&framed.body) {
            encode(framed, out)?;
        }
        bytes = bytes.saturating_add(out.len());
    }
    Ok(bytes)
}

/// Whether a frame of it is short enough for its length, as each one is that was read.
fn names_few(body: &Body) -> bool
    ensures { result ≡ true → NamesFewIn body.now }
{
    match body {
        Body::Message(Message::End(_, _, _, works)) => works.as_slice().len() <= MOST_WORKS,
        Body::Message(Message::Abort(_, _, _, works)) => works.as_slice().len() <= MOST_WORKS,
        _ => true,
    }
}
