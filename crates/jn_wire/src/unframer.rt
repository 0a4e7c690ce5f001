//! A server's stream of bytes, read in pieces.
ghost use Rattle.std.specs.Prelude.{◌≡◌, ◌≤◌, ◌<◌, ◌+◌, ◌-◌, ◌^◌, ◌++◌, ℕ, List, [], true, false, take, drop, length, Some, None, Ok, Err, IfOk, OnOk, OnErr, MatchOption};
ghost use Rattle.jn_wire.specs.Decoding.{decode};
ghost use Rattle.jn_wire.specs.Reading.{Fills, Leads, Splits, read_to};
ghost use Rattle.jn_wire.specs.Stream.{Ends, Feeds, kept_error};
ghost use Rattle.jn_wire.specs.Unframing.{in_front, is_unfinished, is_whole, met, nothing_held, unframed, waiting, whole_length};

use crate::decode::decode;
use crate::fault::{WireError, WireFault};
use crate::fields::ReadFault;
use crate::frame::Framed;
use byteorder::{BigEndian, ByteOrder};
use jn_base::ServerNo;
use std::alloc::{AllocError, Global};
use std::cmp::min;
use std::marker::Model;

/// The bytes of a length.
const LENGTH: usize = 2;

/// The number of the fault of a stream that ends inside a frame.
const CUT_OFF: u8 = 1;

/// Reads the frames of one server's stream. It holds at most one frame that isn't whole, and never more than 65,537 bytes.
#[derive(Drop)]
pub struct Unframer {
    receiver: Receiver,
    unfinished: Unfinished,
    fault: Option<WireFault>,
    /// Memory ran out.
    over: bool,
}

impl Model for Unframer {
    ghost use Rattle.std.specs.Prelude.{◌≡◌, ◌||◌, true};
    ghost use Rattle.jn_wire.specs.Stream.{Stream};
    ghost use Rattle.jn_wire.specs.Unframing.{is_unfinished};

    ghost Value = { Stream };

    ghost view = { λ u. record { server = u.receiver.server; held = record { at = u.unfinished.at; bytes = u.unfinished.bytes.items; fault = u.fault }; over = u.over } };

    ghost invariant = { λ u. (u.over || is_unfinished u.unfinished.bytes.items) ≡ true };
}

impl Unframer {
    /// Nothing was read yet.
    pub fn new(alloc: Global, server: ServerNo) -> Unframer
        ensures { result ≡ record { server = server; held = nothing_held 0; over = false } }
    {
        Unframer {
            receiver: Receiver { alloc, server },
            unfinished: Unfinished {
                at: 0,
                bytes: Vec::new(alloc),
            },
            fault: None,
            over: false,
        }
    }

    /// Reads a piece, and appends each frame whose last byte is in it. Where bytes aren't a frame, the frames in front
    /// of them are appended first; from then on each call answers that fault. Once memory ran out, each answers that.
    pub fn feed(&mut self, piece: &[u8], out: &mut Vec<Framed>) -> Result<(), WireError>
        requires place { kept_error self.old ≡ None → self.old.held.at + length self.old.held.bytes + length piece.now < 2 ^ 64 }
        ensures fed { Feeds self.old piece.now out.old.items result self.new out.new.items }
        ensures place { OnOk result (self.new.held.at + length self.new.held.bytes ≡ self.old.held.at + length self.old.held.bytes + length piece.now) }
    {
        if self.over {
            return Err(WireError::Memory);
        }
        if let Some(fault) = self.fault {
            return Err(WireError::Fault(fault));
        }
        match self.unfinished.read(self.receiver, piece, out) {
            Ok(()) => Ok(()),
            Err(WireError::Fault(fault)) => {
                self.unfinished.stop(fault.at);
                self.fault = Some(fault);
                Err(WireError::Fault(fault))
            }
            Err(WireError::Memory) => {
                self.over = true;
                Err(WireError::Memory)
            }
        }
    }

    /// The stream has ended: a fault where it ended inside a frame, or the one that was met before.
    pub fn end(&mut self) -> Result<(), WireError>
        ensures ended { Ends self.old result self.new }
    {
        if self.over {
            return Err(WireError::Memory);
        }
        if let Some(fault) = self.fault {
            return Err(WireError::Fault(fault));
        }
        if self.unfinished.bytes.is_empty() {
            return Ok(());
        }
        let fault = WireFault {
            at: self.unfinished.at,
            number: CUT_OFF,
        };
        self.unfinished.stop(fault.at);
        self.fault = Some(fault);
        Err(WireError::Fault(fault))
    }
}

/// Whose frames are read, and where memory for them comes from.
#[derive(Clone, Copy, Drop)]
struct Receiver {
    alloc: Global,
    server: ServerNo,
}

impl Receiver {
    /// Gives a whole frame out, which stands at this place.
    fn give(&self, at: u64, frame: &[u8], out: &mut Vec<Framed>) -> Result<(), WireError>
        requires long { 2 ≤ length frame.now }
        ensures leads { Leads (λ _. read_to (at + length frame.now) [] out.new.items) (in_front out.old.items (met at frame.now (decode self.now.server (drop 2 frame.now)))) result out.new.items }
        ensures kept { length out.old.items ≤ length out.new.items }
    {
        match decode(self.alloc, self.server, &frame[LENGTH..]) {
            Ok(framed) => {
                out.push(framed)?;
                Ok(())
            }
            Err(ReadFault::Wrong(number)) => Err(WireError::Fault(WireFault { at, number })),
            Err(ReadFault::Memory) => Err(WireError::Memory),
        }
    }

    /// Gives out the whole frames that bytes begin with, where they stand, and answers the bytes behind them.
    fn give_all<'a>(
        &self,
        at: &mut u64,
        bytes: &'a [u8],
        out: &mut Vec<Framed>,
    ) -> Result<&'a [u8], WireError>
        requires place { at.old + length bytes.now < 2 ^ 64 }
        ensures leads { Leads (λ rest. read_to at.new rest.now out.new.items) (in_front out.old.items (unframed self.now.server (nothing_held at.old) bytes.now)) result out.new.items }
        ensures unfinished { IfOk result (λ rest. is_unfinished rest.now ≡ true) }
        ensures place { IfOk result (λ rest. at.new + length rest.now ≡ at.old + length bytes.now) }
        ensures kept { length out.old.items ≤ length out.new.items }
    {
        let mut rest = bytes;
        while let Some((frame, others)) = split_frame(rest) {
            self.give(*at, frame, out)?;
            *at += frame.len() as u64;
            rest = others;
        }
        Ok(rest)
    }
}

/// The bytes of a frame that isn't whole yet.
#[derive(Drop)]
struct Unfinished {
    /// The place of the first of them in the stream.
    at: u64,
    bytes: Vec<u8>,
}

impl Unfinished {
    /// Reads a piece: first what is left of the frame, then from the piece itself.
    fn read(
        &mut self,
        receiver: Receiver,
        piece: &[u8],
        out: &mut Vec<Framed>,
    ) -> Result<(), WireError>
        requires place { self.old.at + length self.old.bytes.items + length piece.now < 2 ^ 64 }
        requires unfinished { is_unfinished self.old.bytes.items ≡ true }
        ensures leads { Leads (λ _. read_to self.new.at self.new.bytes.items out.new.items) (in_front out.old.items (unframed receiver.server (waiting self.old.at self.old.bytes.items) piece.now)) result out.new.items }
        ensures unfinished { OnOk result (is_unfinished self.new.bytes.items ≡ true) }
        ensures place { OnOk result (self.new.at + length self.new.bytes.items ≡ self.old.at + length self.old.bytes.items + length piece.now) }
        ensures kept { length out.old.items ≤ length out.new.items }
    {
        if self.bytes.is_empty() {
            return self.read_from(receiver, piece, out);
        }
        let rest = self.fill(piece)?;
        if !is_whole(self.bytes.as_slice()) {
            return Ok(());
        }
        self.give(receiver, out)?;
        self.read_from(receiver, rest, out)
    }

    /// Reads a piece where nothing is held, and holds what is behind its last whole frame.
    fn read_from(
        &mut self,
        receiver: Receiver,
        piece: &[u8],
        out: &mut Vec<Framed>,
    ) -> Result<(), WireError>
        requires place { self.old.at + length piece.now < 2 ^ 64 }
        requires nothing { self.old.bytes.items ≡ [] }
        ensures leads { Leads (λ _. read_to self.new.at self.new.bytes.items out.new.items) (in_front out.old.items (unframed receiver.server (nothing_held self.old.at) piece.now)) result out.new.items }
        ensures unfinished { OnOk result (is_unfinished self.new.bytes.items ≡ true) }
        ensures place { OnOk result (self.new.at + length self.new.bytes.items ≡ self.old.at + length piece.now) }
        ensures kept { length out.old.items ≤ length out.new.items }
    {
        let rest = receiver.give_all(&mut self.at, piece, out)?;
        self.bytes.extend_from_slice(rest)?;
        Ok(())
    }

    /// Gives out the frame that has become whole.
    fn give(&mut self, receiver: Receiver, out: &mut Vec<Framed>) -> Result<(), WireError>
        requires place { self.old.at + length self.old.bytes.items < 2 ^ 64 }
        requires long { 2 ≤ length self.old.bytes.items }
        ensures leads { Leads (λ _. read_to self.new.at [] out.new.items) (in_front out.old.items (met self.old.at self.old.bytes.items (decode receiver.server (drop 2 self.old.bytes.items)))) result out.new.items }
        ensures place { IfOk result (λ _. self.new.at ≡ self.old.at + length self.old.bytes.items) }
        ensures nothing { self.new.bytes.items ≡ [] }
        ensures kept { length out.old.items ≤ length out.new.items }
    {
        let given = receiver.give(self.at, self.bytes.as_slice(), out);
        if given.is_ok() {
            self.at += self.bytes.len() as u64;
        }
        self.bytes.clear();
        given
    }

    /// Holds the bytes of a piece up to the last one of the frame, and answers those behind it.
    fn fill<'a>(&mut self, piece: &'a [u8]) -> Result<&'a [u8], AllocError>
        requires unfinished { is_unfinished self.old.bytes.items ≡ true }
        ensures place { self.new.at ≡ self.old.at }
        ensures ok { IfOk result (λ rest. Fills self.old.bytes.items piece.now self.new.bytes.items rest.now) }
        ensures size { IfOk result (λ rest. length self.new.bytes.items + length rest.now ≡ length self.old.bytes.items + length piece.now) }
    {
        let rest = hold(&mut self.bytes, LENGTH, piece)?;
        if self.bytes.len() < LENGTH {
            return Ok(rest);
        }
        let size = whole_length(self.bytes.as_slice());
        hold(&mut self.bytes, size, rest)
    }

    /// Keeps a place alone.
    fn stop(&mut self, at: u64)
        ensures place { self.new.at ≡ at }
        ensures nothing { self.new.bytes.items ≡ [] }
    {
        self.at = at;
        self.bytes.clear();
    }
}

/// Holds more bytes, until there are so many, and answers those behind them. One byte alone is pushed, which takes less
/// than a copy.
fn hold<'a>(held: &mut Vec<u8>, size: usize, piece: &'a [u8]) -> Result<&'a [u8], AllocError>
    ensures held { IfOk result (λ _. held.new.items ≡ held.old.items ++ take (size - length held.old.items) piece.now) }
    ensures rest { IfOk result (λ rest. rest.now ≡ drop (size - length held.old.items) piece.now) }
    ensures err { OnErr result (held.new.items ≡ held.old.items) }
{
    if size <= held.len() {
        return Ok(piece);
    }
    let (more, rest) = piece.split_at(min(size - held.len(), piece.len()));
    match more {
        [byte] => held.push(*byte)?,
        _ => held.extend_from_slice(more)?,
    }
    Ok(rest)
}

/// The bytes of a frame that begins so, with those of its length.
fn whole_length(bytes: &[u8]) -> usize
    requires { 2 ≤ length bytes.now }
    ensures { result ≡ whole_length bytes.now }
{
    LENGTH + BigEndian::read_u16(bytes) as usize
}

fn is_whole(bytes: &[u8]) -> bool
    ensures { result ≡ is_whole bytes.now }
{
    LENGTH <= bytes.len() && bytes.len() == whole_length(bytes)
}

/// The frame that bytes begin with and what is behind it, where it is whole.
fn split_frame(bytes: &[u8]) -> Option<(&[u8], &[u8])>
    ensures { MatchOption result (is_unfinished bytes.now ≡ true) (λ r. Splits bytes.now r.0.now r.1.now) }
{
    if bytes.len() < LENGTH {
        return None;
    }
    let size = whole_length(bytes);
    if bytes.len() < size {
        return None;
    }
    Some(bytes.split_at(size))
}
