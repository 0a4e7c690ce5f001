//! What follows from what the program leaves whose words ask for a node.
#![tactic(auto)]

ghost use Rattle.jn_node_laws.specs.Ends.{Tell};
ghost use Rattle.jn_run_laws.specs.Words.{ProgramsEndAsGiven, ProgramsEndOnce};
ghost use Rattle.jn_writing.specs.Outside.{outside};

use jn_host::{Keeper, MemoryKeeper, MemorySink, MemorySource, Sink, Source};
use jn_node_laws::{a_node_ends_as_it_was_given, a_node_ends_once};

/// Where the outside tells and no call of it fails, the program comes to the end that its node was given and has written that text, or memory runs out and
/// it has written a front of it.
pub fn the_program_ends_as_its_node_was_given()
    ensures { ProgramsEndAsGiven }
{
    a_node_ends_as_it_was_given();
}

/// What its outcome says of two such ends never holds of one call.
pub fn the_program_of_a_node_ends_once()
    ensures { ProgramsEndOnce }
{
    a_node_ends_once();
}

/// A source and a keeper in memory tell.
pub fn an_outside_in_memory_tells(source: &MemorySource, sink: &MemorySink, keeper: &MemoryKeeper)
    ensures { let s = ⟦<MemorySource as Source>⟧ in let k = ⟦<MemorySink as Sink>⟧ in let i = ⟦<MemoryKeeper as Keeper>⟧ in
        Tell (outside s.left s.faults k.taken k.faults i.kept i.faults source.now sink.now keeper.now) }
{}
