//! The schedule of a trial, given some events at a time.
ghost use Rattle.std.specs.Prelude.{◌≡◌, ◌++◌, ◌+◌, ℕ, IfErr, IfOk, drop, length, take};
ghost use Rattle.std.specs.List.{AllByRecursion};
ghost use Rattle.jn_schedule.specs.Ranges.{EventInRange};
ghost use Rattle.jn_gen.specs.Trial.{events_from};

use crate::draws::Generator;
use crate::event::event_of;
use jn_schedule::Event;
use std::alloc::{AllocError, Global};
use std::marker::Model;

/// The events of a trial that are still to come. Contracts see them as a list, though each is drawn only when it is asked for.
#[derive(Drop)]
pub struct TrialEvents {
    generator: Generator,
    left: u32,
}

impl Model for TrialEvents {
    ghost use Rattle.std.specs.Prelude.{List};
    ghost use Rattle.jn_schedule.specs.declared.Event.{Event as AnEvent};
    ghost use Rattle.jn_gen.specs.Trial.{events_from};

    ghost Value = { List AnEvent };

    ghost view = { λ x. events_from x.generator.state x.left };
}

impl TrialEvents {
    /// So many events, drawn one after another from the seed on.
    pub fn new(seed: u64, count: u32) -> Self
        ensures { result ≡ events_from seed count }
    {
        TrialEvents {
            generator: Generator { state: seed },
            left: count,
        }
    }

    /// How many are still to come.
    pub fn left(&self) -> u32
        ensures { result ≡ length self.now }
    {
        self.left
    }

    /// The next events, at most so many. Where there is no memory for them, they are still to come.
    pub fn next(&mut self, alloc: Global, most: u32) -> Result<Vec<Event>, AllocError>
        ensures given { IfOk result (λ v. v.items ≡ take most self.old) }
        ensures left { IfOk result (λ v. self.new ≡ drop most self.old) }
        ensures kept { IfErr result (λ e. self.new ≡ self.old) }
    {
        let count = most.min(self.left);
        let mut generator = self.generator;
        let events = draw_events(alloc, &mut generator, count)?;
        self.generator = generator;
        self.left -= count;
        Ok(events)
    }
}

/// So many events, one after another. Those that are drawn later are what would have followed.
fn draw_events(
    alloc: Global,
    generator: &mut Generator,
    count: u32,
) -> Result<Vec<Event>, AllocError>
    ensures { IfOk result (λ v. (later : ℕ) → v.items ++ events_from generator.new.state later ≡ events_from generator.old.state (count + later)) }
{
    let mut events = Vec::with_capacity(alloc, count as usize)?;
    'events: for _ in 0..count {
        let drawn = generator.draws();
        let event = event_of(alloc, drawn)?;
        events.push(event)?;
    }
    Ok(events)
}

/// The events of a trial are in range.
pub fn drawn_events_are_in_range()
    ensures { (seed events : ℕ) → AllByRecursion EventInRange (events_from seed events) }
{}
