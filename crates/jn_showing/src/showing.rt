//! Whether a report shows the files as its commits made them.

ghost use Rattle.std.specs.Prelude.{◌≡◌, ◌↔◌, false, IfOk, IsTrue, is_some};
ghost use Rattle.std.specs.List.{list_all};
ghost use Rattle.jn_base.specs.declared.names.LockUnit.TheVariants.{File, Block as OneBlock};
ghost use Rattle.jn_base.specs.declared.names.ServerNo.{ServerNo as AServer};
ghost use Rattle.jn_report.specs.Kinds.{is_locked, is_no_show};
ghost use Rattle.jn_showing.specs.Accounts as accounts;
ghost use Rattle.jn_serial.specs.Lines.{says};
ghost use Rattle.jn_serial.specs.Shown as shown;
ghost use Rattle.jn_replay.specs.Stored as stored_of;

use jn_base::{Block, BlockNo, FileNo, LockUnit, ServerNo};
use jn_replay::{Files, StoredBlock, StoredFile, place_of_block, place_of_file};
use jn_report::{Line, Text, is_locked, is_no_show};
use jn_schedule::Event;
use jn_serial::{history, lines_at_end, lines_at_event, lines_before_event, replay};
use std::alloc::{AllocError, Global};

fn is_file_there(stored: &Vec<StoredFile>, server: ServerNo, file: FileNo) -> bool
    ensures { result ≡ is_some (stored_of.registers stored.now.items server (File file)) }
{
    place_of_file(stored, server, file).is_some()
}

fn bytes_of(blocks: &Vec<StoredBlock>, block: BlockNo) -> Option<Block>
    ensures { result ≡ stored_of.stored_block block blocks.now.items }
{
    match place_of_block(blocks, block) {
        Some(i) => Some(blocks[i].bytes),
        None => None,
    }
}

/// The bytes of a stored block.
fn block_at(
    stored: &Vec<StoredFile>,
    server: ServerNo,
    file: FileNo,
    block: BlockNo,
) -> Option<Block>
    ensures { result ≡ stored_of.registers stored.now.items server (OneBlock file block) }
{
    match place_of_file(stored, server, file) {
        Some(i) => bytes_of(&stored[i].blocks, block),
        None => None,
    }
}

/// Whether a line that prints a file or a page prints what is stored.
fn is_as_in(stored: &Vec<StoredFile>, text: &Text) -> bool
    ensures { IsTrue result ↔ shown.IsAsIn (stored_of.registers stored.now.items) text.now }
{
    match text {
        Text::File(server, file) => is_file_there(stored, *server, *file),
        Text::Page(server, file, block, content) => {
            let bytes = content.to_block();
            matches!(block_at(stored, *server, *file, *block), Some(x) if x == bytes)
        }
        _ => true,
    }
}

fn all_as_in(stored: &Vec<StoredFile>, lines: &[Line]) -> bool
    ensures { IsTrue result ↔ shown.AllAsIn (stored_of.registers stored.now.items) lines.now }
{
    for line in lines {
        if !is_as_in(stored, &line.text) {
            return false;
        }
    }
    true
}

fn accounts_file(server: ServerNo, file: FileNo, text: &Text) -> bool
    ensures { result ≡ shown.accounts_file server file text.now }
{
    match text {
        Text::File(at, printed) => *at == server && *printed == file,
        Text::Locked(at, LockUnit::File(locked), _) => *at == server && *locked == file,
        _ => false,
    }
}

fn accounts_block(server: ServerNo, file: FileNo, block: BlockNo, text: &Text) -> bool
    ensures { result ≡ shown.accounts_block server file block text.now }
{
    match text {
        Text::Page(at, of, printed, _) => *at == server && (*of == file && *printed == block),
        Text::Locked(at, LockUnit::Block(of, locked), _) => {
            *at == server && (*of == file && *locked == block)
        }
        _ => false,
    }
}

/// Whether the file is printed, or shown as locked.
fn is_file_printed(server: ServerNo, file: FileNo, lines: &[Line]) -> bool
    ensures { result ≡ says (shown.accounts_file server file) lines.now }
{
    lines.iter().any(|l| accounts_file(server, file, &l.text))
}

/// Whether the block is printed, or shown as locked.
fn is_block_printed(server: ServerNo, file: FileNo, block: BlockNo, lines: &[Line]) -> bool
    ensures { result ≡ says (shown.accounts_block server file block) lines.now }
{
    lines
        .iter()
        .any(|l| accounts_block(server, file, block, &l.text))
}

fn file_accounted(server: ServerNo, lines: &[Line], stored: &StoredFile) -> bool
    ensures { result ≡ accounts.file_accounted server lines.now stored.now }
{
    stored.server != server || is_file_printed(server, stored.file, lines)
}

fn all_files_accounted(stored: &Vec<StoredFile>, lines: &[Line], server: ServerNo) -> bool
    ensures { result ≡ list_all (accounts.file_accounted server lines.now) stored.now.items }
{
    stored.iter().all(|x| file_accounted(server, lines, x))
}

fn all_blocks_accounted(
    blocks: &Vec<StoredBlock>,
    server: ServerNo,
    file: FileNo,
    lines: &[Line],
) -> bool
    ensures { result ≡ list_all (accounts.block_accounted server file lines.now) blocks.now.items }
{
    blocks
        .iter()
        .all(|b| is_block_printed(server, file, b.block, lines))
}

fn blocks_accounted(
    stored: &Vec<StoredFile>,
    server: ServerNo,
    file: FileNo,
    lines: &[Line],
) -> bool
    ensures { result ≡ accounts.blocks_accounted server file lines.now
        (stored_of.stored_file server file stored.now.items) }
{
    match place_of_file(stored, server, file) {
        Some(i) => all_blocks_accounted(&stored[i].blocks, server, file, lines),
        None => true,
    }
}

fn line_accounted(stored: &Vec<StoredFile>, server: ServerNo, lines: &[Line], text: &Text) -> bool
    ensures { result ≡ accounts.line_accounted stored.now.items server lines.now text.now }
{
    match text {
        Text::File(at, file) => *at != server || blocks_accounted(stored, server, *file, lines),
        _ => true,
    }
}

fn all_lines_accounted(stored: &Vec<StoredFile>, lines: &[Line], server: ServerNo) -> bool
    ensures { result ≡ list_all (λ l. accounts.line_accounted stored.now.items server lines.now l.text) lines.now }
{
    lines
        .iter()
        .all(|l| line_accounted(stored, server, lines, &l.text))
}

/// Whether the lines leave out nothing that is stored at the server.
fn is_accounted(stored: &Vec<StoredFile>, lines: &[Line], server: ServerNo) -> bool
    ensures { result ≡ accounts.is_accounted stored.now.items lines.now server }
{
    all_files_accounted(stored, lines, server) && all_lines_accounted(stored, lines, server)
}

/// Whether the lines print the files of a server.
fn shows_files(files: &Files, server: ServerNo, lines: &[Line]) -> bool
    ensures { IsTrue result ↔ shown.ShowsFiles (stored_of.files_of files.now) server lines.now }
{
    all_as_in(&files.stored, lines) && is_accounted(&files.stored, lines, server)
}

fn is_accounted_everywhere(stored: &Vec<StoredFile>, lines: &[Line]) -> bool
    ensures { result ≡ list_all (λ x. accounts.is_accounted stored.now.items lines.now x.server) stored.now.items }
{
    stored.iter().all(|x| is_accounted(stored, lines, x.server))
}

/// Whether the lines print the files of every server.
fn shows_all(files: &Files, lines: &[Line]) -> bool
    ensures { IsTrue result
        ↔ ((s : AServer) → shown.ShowsFiles (stored_of.files_of files.now) s lines.now) }
{
    all_as_in(&files.stored, lines) && is_accounted_everywhere(&files.stored, lines)
}

/// Whether the show was refused or stopped.
fn is_not_printed(here: &[Line]) -> bool
    ensures { result ≡ says is_no_show here.now }
{
    here.iter().any(|l| is_no_show(&l.text))
}

fn shows_locked(here: &[Line]) -> bool
    ensures { result ≡ says is_locked here.now }
{
    here.iter().any(|l| is_locked(&l.text))
}

/// Whether a show of the server in this event shows the files after the commits before it.
fn shows_server(
    alloc: Global,
    files: &Files,
    events: &[Event],
    lines: &[Line],
    number: usize,
    server: ServerNo,
) -> Result<bool, AllocError>
    ensures { IfOk result (λ b. IsTrue b
        ↔ accounts.ShowsServer (stored_of.files_of files.now) events.now lines.now number server) }
{
    let here = lines_at_event(alloc, lines, number)?;
    if is_not_printed(&here) {
        return Ok(true);
    }
    let before = lines_before_event(alloc, lines, number)?;
    let named = history(alloc, &before)?;
    let after = replay(alloc, files, events, lines, &named)?;
    Ok(shows_files(&after, server, &here))
}

/// Whether the event is no show, or shows the files after the commits before it.
fn shows_event(
    alloc: Global,
    files: &Files,
    events: &[Event],
    lines: &[Line],
    number: usize,
    event: &Event,
) -> Result<bool, AllocError>
    ensures { IfOk result (λ b. IsTrue b
        ↔ accounts.ShowsEvent (stored_of.files_of files.now) events.now lines.now number event.now) }
{
    match event {
        Event::Show(server) => shows_server(alloc, files, events, lines, number, *server),
        _ => Ok(true),
    }
}

/// Whether each show that printed shows the files after the commits before it.
fn shown_so_far(
    alloc: Global,
    files: &Files,
    events: &[Event],
    lines: &[Line],
) -> Result<bool, AllocError>
    ensures { IfOk result (λ b. IsTrue b
        ↔ accounts.ShowsFrom (stored_of.files_of files.now) events.now lines.now 1 events.now) }
{
    for (i, event) in events.iter().enumerate() {
        if !shows_event(alloc, files, events, lines, i + 1, event)? {
            return Ok(false);
        }
    }
    Ok(true)
}

/// Whether the lines print the files of every server, and nothing locked.
fn shows_end(files: &Files, lines: &[Line]) -> bool
    ensures { IsTrue result ↔ (((s : AServer) → shown.ShowsFiles (stored_of.files_of files.now) s lines.now)
        × (says is_locked lines.now ≡ false)) }
{
    shows_all(files, lines) && !shows_locked(lines)
}

/// Whether the end shows the files of every server after all commits, and nothing locked.
fn shown_at_end(
    alloc: Global,
    files: &Files,
    events: &[Event],
    lines: &[Line],
) -> Result<bool, AllocError>
    ensures { IfOk result (λ b. IsTrue b
        ↔ shown.ShownAtEnd (stored_of.files_of files.now) events.now lines.now) }
{
    let here = lines_at_end(alloc, lines)?;
    let named = history(alloc, lines)?;
    let after = replay(alloc, files, events, lines, &named)?;
    Ok(shows_end(&after, &here))
}

/// Whether each show that printed, and the end, shows the files that the commits before it give,
/// run one after another in the report's order on these files. A show may show files and blocks as
/// locked in place of what is there; the end may not.
pub fn shown(
    alloc: Global,
    files: &Files,
    events: &[Event],
    lines: &[Line],
) -> Result<bool, AllocError>
    ensures { IfOk result (λ b. IsTrue b
        ↔ shown.Shown (stored_of.files_of files.now) events.now lines.now) }
{
    Ok(shown_so_far(alloc, files, events, lines)? && shown_at_end(alloc, files, events, lines)?)
}
