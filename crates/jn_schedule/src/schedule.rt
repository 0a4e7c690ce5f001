//! The events of a whole text.
ghost use Rattle.std.specs.Prelude.{◌≡◌, ◌≤◌, ◌<◌, ◌⊎◌, ℕ, List, Ok, Err, Result, IfOk, MatchOption, MatchResult, length};
ghost use Rattle.jn_schedule.specs.declared.Event.{Event as AnEvent};
ghost use Rattle.jn_schedule.specs.Faults.{IsFirstFault};
ghost use Rattle.jn_schedule.specs.Grammar.{IsSchedule, word_lines};
ghost use Rattle.std.specs.List.{AllByRecursion};
ghost use Rattle.jn_schedule.specs.Ranges.{EventInRange};
ghost use Rattle.jn_schedule.specs.Reading.{AddsLine, GivesUpTo, read_line, read_lines, texts};
ghost use Rattle.jn_schedule.specs.declared.fault.ParseFault.TheVariants.{Memory, Syntax};

use crate::Event;
use crate::fault::{ParseFault, ReadFault};
use crate::reading::event_of;
use crate::words::{fill_words, is_passed};
use std::alloc::Global;

/// The bytes of the shortest event, with its line feed: `show 0` and the like.
const SHORTEST_EVENT: usize = 7;

/// The events of a schedule's text, or its first fault.
///
/// Lines end with a line feed, which the last may lack. A word is a run of bytes other than spaces.
/// A line with no words is no event, nor is one whose first word begins with `#`.
pub fn parse(alloc: Global, text: &[u8]) -> Result<Vec<Event>, ParseFault>
    // What is read is a schedule with these events.
    ensures found { IfOk result (λ v. IsSchedule text.now v.items) }
    // A schedule is read, unless memory runs out.
    ensures only { (es : List AnEvent) → IsSchedule text.now es → MatchResult result (λ v. v.items ≡ es) (λ e. e ≡ Memory) }
    // A fault that is reported is the first one.
    ensures fault { (line number : ℕ) → result ≡ Err (Syntax line number) → IsFirstFault text.now line number }
    // The first fault is reported, unless memory runs out.
    ensures first { (line number : ℕ) → IsFirstFault text.now line number → (result ≡ Err (Syntax line number)) ⊎ (result ≡ Err Memory) }
{
    match parse_up_to(alloc, text, usize::MAX) {
        Ok(Some(events)) => Ok(events),
        // No list has room for more.
        Ok(None) => Err(ParseFault::Memory),
        Err(fault) => Err(fault),
    }
}

/// The same of a schedule of at most so many events. None where there are more: the whole text is read then too, and none of its
/// events is kept.
pub fn parse_up_to(
    alloc: Global,
    text: &[u8],
    most: usize,
) -> Result<Option<Vec<Event>>, ParseFault>
    // What is read is a schedule with these events, or one with too many.
    ensures found { IfOk result (λ events. MatchOption events ((es : List AnEvent) × IsSchedule text.now es × (most < length es))
        (λ v. IsSchedule text.now v.items × (length v.items ≤ most))) }
    ensures only { (es : List AnEvent) → IsSchedule text.now es
        → MatchResult result (λ events. MatchOption events (most < length es) (λ v. v.items ≡ es)) (λ e. e ≡ Memory) }
    ensures fault { (line number : ℕ) → result ≡ Err (Syntax line number) → IsFirstFault text.now line number }
    ensures first { (line number : ℕ) → IsFirstFault text.now line number → (result ≡ Err (Syntax line number)) ⊎ (result ≡ Err Memory) }
{
    read_text(alloc, text, most)
}

/// A text is a schedule, or has a first fault.
pub fn a_text_is_a_schedule_or_has_a_fault()
    ensures { (text : List ℕ) → ((es : List AnEvent) × IsSchedule text es)
        ⊎ ((line : ℕ) × (number : ℕ) × IsFirstFault text line number) }
{}

/// A text that has a first fault is no schedule.
pub fn a_text_with_a_fault_is_no_schedule()
    ensures { (text : List ℕ) (es : List AnEvent) (line number : ℕ) → IsSchedule text es → ¬ IsFirstFault text line number }
{}

/// A text has one list of events.
pub fn a_schedule_has_one_list_of_events()
    ensures { (text : List ℕ) (es others : List AnEvent) → IsSchedule text es → IsSchedule text others → es ≡ others }
{}

/// What the words of a schedule's events spell is in range.
#[tactic(auto, using(crate::proofs::Ranges::lines_in_range))]
pub fn words_are_in_range()
    ensures { (text : List ℕ) (es : List AnEvent) → IsSchedule text es → AllByRecursion EventInRange es }
{}

/// Reads each line. Once there are too many events, those that were read are let go.
fn read_text(alloc: Global, text: &[u8], most: usize) -> Result<Option<Vec<Event>>, ParseFault>
    ensures { GivesUpTo most result (read_lines 1 (word_lines text.now)) }
{
    // Events are large: room is taken once. What no event takes of it is never touched.
    let room = most.min(text.len() / SHORTEST_EVENT) + 1;
    let mut events = Vec::with_capacity(alloc, room)?;
    let mut words = Vec::new(alloc);
    let mut number = 0;
    let mut many = false;
    let mut at = 0;
    // The last line may have no bytes.
    while at <= text.len() {
        number += 1;
        let line = fill_words(&mut words, &text[at..])?;
        at += line + 1;
        read_line(alloc, &words, number, &mut events)?;
        if events.len() > most {
            many = true;
            events.clear();
        }
    }
    if many { Ok(None) } else { Ok(Some(events)) }
}

/// Adds the event that the words of a line spell, if it is one.
#[tactic(auto, unfolding(crate::specs::Reading::read_line))]
fn read_line(
    alloc: Global,
    words: &[&[u8]],
    number: usize,
    events: &mut Vec<Event>,
) -> Result<(), ParseFault>
    ensures { AddsLine result number (read_line (texts words.now)) events.old.items events.new.items }
{
    if is_passed(words) {
        return Ok(());
    }
    match event_of(alloc, words) {
        Ok(event) => {
            events.push(event)?;
            Ok(())
        }
        Err(ReadFault::Memory) => Err(ParseFault::Memory),
        Err(ReadFault::Line(fault)) => Err(ParseFault::Syntax {
            line: number,
            number: fault.number(),
        }),
    }
}
