//! Appends a line to the text of a report.
ghost use Rattle.std.specs.Prelude.{◌≡◌, ◌++◌, [], ◌∷◌, codes, decimal, OnOk, OnErr};
ghost use Rattle.jn_text.specs.Words.{block_word, hex_word};
ghost use Rattle.jn_report.specs.Append.{IsFrontKept};
ghost use Rattle.jn_report.specs.Text.{cause_words, client_word, event_refusal_word, kind_word, refusal_words, spaced, text_of, when_word, words_of};
ghost use Rattle.jn_base.specs.Names.{fault_word};

use crate::digits::push_digits;
use crate::line::{EventRefusal, Line, Refusal, Text, When};
use crate::word::{push_byte, push_held, push_name, push_number, push_route, push_tid};
use jn_base::{
    BlockContent, BlockNo, ByteString, Cause, ClientNo, FaultKind, FileNo, MsgKind, Outside, Party,
    ServerNo,
};
use jn_text::{push_all_hex, push_hex};
use std::alloc::AllocError;

/// Appends the text of a line, with its line feed. Where there is no memory, nothing is appended.
pub fn push_line(out: &mut Vec<u8>, line: &Line) -> Result<(), AllocError>
    ensures ok { OnOk result (out.new.items ≡ out.old.items ++ text_of line.now) }
    ensures err { OnErr result (out.new.items ≡ out.old.items) }
{
    let start = out.len();
    let pushed = push_parts(out, line);
    if pushed.is_err() {
        out.truncate(start);
    }
    pushed
}

/// Appends the event of a line, what it says and its end.
fn push_parts(out: &mut Vec<u8>, line: &Line) -> Result<(), AllocError>
    ensures ok { OnOk result (out.new.items ≡ out.old.items ++ text_of line.now) }
    ensures err { OnErr result (IsFrontKept out.old.items out.new.items) }
{
    push_when(out, line.when)?;
    push_byte(out, b':')?;
    push_text(out, &line.text)?;
    push_byte(out, b'\n')
}

fn push_when(out: &mut Vec<u8>, when: When) -> Result<(), AllocError>
    ensures ok { OnOk result (out.new.items ≡ out.old.items ++ when_word when) }
    ensures err { OnErr result (IsFrontKept out.old.items out.new.items) }
{
    match when {
        When::Event(number) => push_digits(out, number),
        When::End => push_name(out, "end"),
    }
}

/// Appends what a line says.
fn push_text(out: &mut Vec<u8>, text: &Text) -> Result<(), AllocError>
    ensures ok { OnOk result (out.new.items ≡ out.old.items ++ spaced (words_of text.now)) }
    ensures err { OnErr result (IsFrontKept out.old.items out.new.items) }
{
    match *text {
        Text::Up(server, epoch) => {
            push_number(out, " up s", u32::from(server.0))?;
            push_number(out, " epoch ", epoch)
        }
        Text::Down(server) => push_number(out, " down s", u32::from(server.0)),
        Text::Stopped(server) => push_number(out, " stopped s", u32::from(server.0)),
        Text::Outside(server, outside) => push_outside(out, server, outside),
        Text::Ignored(message) => push_number(out, " ignored ", message),
        Text::Lost(message) => push_number(out, " lost ", message),
        Text::Commit(tid) => push_tid(out, " commit ", tid),
        Text::Broke(server, tid, unit, by) => {
            push_number(out, " broke s", u32::from(server.0))?;
            push_tid(out, " ", tid)?;
            push_held(out, unit, by)
        }
        Text::Begun(client, at, tid) => {
            push_told(out, client, " begun ", at)?;
            push_tid(out, " ", tid)
        }
        Text::Opened(client, at, server) => {
            push_told(out, client, " opened ", at)?;
            push_number(out, " s", u32::from(server.0))
        }
        Text::Did(client, at) => push_told(out, client, " did ", at),
        Text::Read(client, at, ref content) => {
            push_told(out, client, " read ", at)?;
            push_block(out, content)
        }
        Text::Bytes(client, at, ref bytes) => {
            push_told(out, client, " bytes ", at)?;
            push_bytes(out, bytes)
        }
        Text::Found(client, at, file) => {
            push_told(out, client, " found ", at)?;
            push_number(out, " ", file.0)
        }
        Text::Name(client, at, ref name, file) => {
            push_told(out, client, " name ", at)?;
            push_entry(out, name, file)
        }
        Text::Refused(client, at, refusal) => {
            push_told(out, client, " refused ", at)?;
            push_refusal(out, refusal)
        }
        Text::Waiting(client, at, server, unit, tid) => {
            push_told(out, client, " waiting ", at)?;
            push_number(out, " s", u32::from(server.0))?;
            push_held(out, unit, tid)
        }
        Text::Committed(client, at, tid) => {
            push_told(out, client, " committed ", at)?;
            push_tid(out, " ", tid)
        }
        Text::Aborted(client, at, tid, cause) => {
            push_told(out, client, " aborted ", at)?;
            push_tid(out, " ", tid)?;
            push_cause(out, cause)
        }
        Text::RefusedEvent(refusal) => push_refused_event(out, refusal),
        Text::File(server, file) => {
            push_number(out, " s", u32::from(server.0))?;
            push_number(out, " file ", file.0)
        }
        Text::Page(server, file, block, ref content) => {
            push_page(out, server, file, block, content)
        }
        Text::Locked(server, unit, tid) => {
            push_number(out, " s", u32::from(server.0))?;
            push_name(out, " locked")?;
            push_held(out, unit, tid)
        }
        Text::Commits(count) => push_number(out, " commits ", count),
        Text::Message(number, from, to, kind) => push_message(out, number, from, to, kind),
    }
}

/// Appends what a client is told: who it is, and the event that gave the command.
#[inline(always)]
fn push_told(out: &mut Vec<u8>, client: ClientNo, name: &str, at: u32) -> Result<(), AllocError>
    ensures ok { OnOk result (out.new.items ≡ out.old.items ++ (codes " " ++ (client_word client ++ (name.now ++ decimal at)))) }
    ensures err { OnErr result (IsFrontKept out.old.items out.new.items) }
{
    push_number(out, " c", u32::from(client.0))?;
    push_number(out, name, at)
}

/// Appends a block, with a space before it.
fn push_block(out: &mut Vec<u8>, content: &BlockContent) -> Result<(), AllocError>
    ensures ok { OnOk result (out.new.items ≡ out.old.items ++ (codes " " ++ block_word content.now)) }
    ensures err { OnErr result (IsFrontKept out.old.items out.new.items) }
{
    push_byte(out, b' ')?;
    push_hex(out, content.first_bytes())
}

/// Appends bytes, each of them, with a space before them.
fn push_bytes(out: &mut Vec<u8>, bytes: &ByteString) -> Result<(), AllocError>
    ensures ok { OnOk result (out.new.items ≡ out.old.items ++ (codes " " ++ hex_word bytes.now)) }
    ensures err { OnErr result (IsFrontKept out.old.items out.new.items) }
{
    push_byte(out, b' ')?;
    push_all_hex(out, bytes.as_slice())
}

/// Appends a name and its file, each with a space before it.
fn push_entry(out: &mut Vec<u8>, name: &ByteString, file: FileNo) -> Result<(), AllocError>
    ensures ok { OnOk result (out.new.items ≡ out.old.items ++ spaced (name.now ∷ decimal file.0 ∷ [])) }
    ensures err { OnErr result (IsFrontKept out.old.items out.new.items) }
{
    push_byte(out, b' ')?;
    out.extend_from_slice(name.as_slice())?;
    push_number(out, " ", file.0)
}

/// Appends that a fault was refused.
fn push_outside(out: &mut Vec<u8>, server: ServerNo, outside: Outside) -> Result<(), AllocError>
    ensures ok { OnOk result (out.new.items ≡ out.old.items ++ spaced (words_of (Text.Outside server outside))) }
    ensures err { OnErr result (IsFrontKept out.old.items out.new.items) }
{
    push_number(out, " outside s", u32::from(server.0))?;
    push_name(out, " ")?;
    push_name(out, fault_name(outside.kind))?;
    push_number(out, " ", outside.page)
}

/// Appends that an event was refused.
fn push_refused_event(out: &mut Vec<u8>, refusal: EventRefusal) -> Result<(), AllocError>
    ensures ok { OnOk result (out.new.items ≡ out.old.items ++ spaced (words_of (Text.RefusedEvent refusal))) }
    ensures err { OnErr result (IsFrontKept out.old.items out.new.items) }
{
    push_name(out, " refused ")?;
    push_name(out, event_refusal_number(refusal))
}

/// Appends a block that a server holds.
fn push_page(
    out: &mut Vec<u8>,
    server: ServerNo,
    file: FileNo,
    block: BlockNo,
    content: &BlockContent,
) -> Result<(), AllocError>
    ensures ok { OnOk result (out.new.items ≡ out.old.items ++ spaced (words_of (Text.Page server file block content.now))) }
    ensures err { OnErr result (IsFrontKept out.old.items out.new.items) }
{
    push_number(out, " s", u32::from(server.0))?;
    push_number(out, " page ", file.0)?;
    push_number(out, " ", u32::from(block.0))?;
    push_block(out, content)
}

/// Appends that a message was sent.
fn push_message(
    out: &mut Vec<u8>,
    number: u32,
    from: Party,
    to: Party,
    kind: MsgKind,
) -> Result<(), AllocError>
    ensures ok { OnOk result (out.new.items ≡ out.old.items ++ spaced (words_of (Text.Message number from to kind))) }
    ensures err { OnErr result (IsFrontKept out.old.items out.new.items) }
{
    push_number(out, " msg ", number)?;
    push_route(out, from, to)?;
    push_name(out, " ")?;
    push_name(out, kind_name(kind))
}

/// Appends the number of a refusal, and what it says of it.
fn push_refusal(out: &mut Vec<u8>, refusal: Refusal) -> Result<(), AllocError>
    ensures ok { OnOk result (out.new.items ≡ out.old.items ++ spaced (refusal_words refusal)) }
    ensures err { OnErr result (IsFrontKept out.old.items out.new.items) }
{
    match refusal {
        Refusal::ClientBusy => push_name(out, " 1"),
        Refusal::NoTransaction => push_name(out, " 2"),
        Refusal::HasTransaction => push_name(out, " 3"),
        Refusal::NotOpen => push_name(out, " 4"),
        Refusal::AlreadyOpen => push_name(out, " 5"),
        Refusal::NoSuchServer => push_name(out, " 6"),
        Refusal::Spoiled => push_name(out, " 7"),
        Refusal::NoFile => push_name(out, " 11"),
        Refusal::Exists => push_name(out, " 12"),
        Refusal::Locked(unit, tid) => {
            push_name(out, " 13")?;
            push_held(out, unit, tid)
        }
        Refusal::TooManyReads => push_name(out, " 14"),
        Refusal::TooManyWrites => push_name(out, " 15"),
        Refusal::Broken(unit, tid) => {
            push_name(out, " 16")?;
            push_held(out, unit, tid)
        }
        Refusal::Lost(then, now) => {
            push_number(out, " 17 ", then)?;
            push_number(out, " ", now)
        }
        Refusal::Closing => push_name(out, " 18"),
        Refusal::TooManyTransactions => push_name(out, " 21"),
        Refusal::TooManyWorks => push_name(out, " 22"),
        Refusal::NotBytes => push_name(out, " 51"),
        Refusal::TooFar => push_name(out, " 52"),
        Refusal::PastEnd(length) => push_number(out, " 53 ", length),
        Refusal::BucketFull => push_name(out, " 54"),
        Refusal::NoName => push_name(out, " 55"),
        Refusal::NotDirectory => push_name(out, " 56"),
    }
}

/// Appends why a transaction was aborted.
fn push_cause(out: &mut Vec<u8>, cause: Cause) -> Result<(), AllocError>
    ensures ok { OnOk result (out.new.items ≡ out.old.items ++ spaced (cause_words cause)) }
    ensures err { OnErr result (IsFrontKept out.old.items out.new.items) }
{
    match cause {
        Cause::Requested => push_name(out, " requested"),
        Cause::Broken(server, unit, tid) => {
            push_number(out, " broken s", u32::from(server.0))?;
            push_held(out, unit, tid)
        }
        Cause::Lost(server) => push_number(out, " lost s", u32::from(server.0)),
        Cause::Full(server, resource, free, need) => {
            push_number(out, " full s", u32::from(server.0))?;
            push_number(out, " ", u32::from(resource.refusal_number()))?;
            push_number(out, " ", free)?;
            push_number(out, " ", need)
        }
    }
}

fn event_refusal_number(refusal: EventRefusal) -> &'static str
    ensures { result.now ≡ event_refusal_word refusal }
{
    match refusal {
        EventRefusal::NoSuchServer => "6",
        EventRefusal::ServerDown => "41",
        EventRefusal::ServerUp => "42",
        EventRefusal::NoSuchMessage => "43",
        EventRefusal::NoSuchWork => "44",
        EventRefusal::EpochsUsedUp => "45",
        EventRefusal::TooManyArmed => "46",
        EventRefusal::NoSuchPage => "47",
    }
}

fn fault_name(kind: FaultKind) -> &'static str
    ensures { result.now ≡ fault_word kind }
{
    match kind {
        FaultKind::Soft => "soft",
        FaultKind::Null => "null",
        FaultKind::Bad => "bad",
        FaultKind::Decay(_) => "decay",
        FaultKind::Revive(_) => "revive",
        FaultKind::StopBefore => "stop-before",
        FaultKind::StopTorn => "stop-torn",
        FaultKind::StopAfter => "stop-after",
    }
}

fn kind_name(kind: MsgKind) -> &'static str
    ensures { result.now ≡ kind_word kind }
{
    match kind {
        MsgKind::Begin => "begin",
        MsgKind::Open => "open",
        MsgKind::Op => "op",
        MsgKind::End => "end",
        MsgKind::Abort => "abort",
        MsgKind::Thanks => "thanks",
        MsgKind::Begun => "begun",
        MsgKind::Opened => "opened",
        MsgKind::Answer => "answer",
        MsgKind::Outcome => "outcome",
        MsgKind::Prepare => "prepare",
        MsgKind::Commit => "commit",
        MsgKind::Drop => "drop",
        MsgKind::Vote => "vote",
        MsgKind::Done => "done",
        MsgKind::Inquire => "inquire",
    }
}
