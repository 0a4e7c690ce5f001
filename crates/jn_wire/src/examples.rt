//! Concrete frames and faults: each follows by computing it.

ghost use Rattle.jn_wire.specs.Examples.{ExamplesAreWritten, FaultsHaveNumbers, StreamStops};

/// A question and its answer are these bytes, with two of the length in front.
pub fn examples_are_written()
    ensures { ExamplesAreWritten }
{}

/// A frame for each fault, and some with two of them, of which the first that is tested counts.
pub fn faults_have_numbers()
    ensures { FaultsHaveNumbers }
{}

/// The frame in front of a fault is given out, and what is behind it isn't read.
pub fn a_stream_stops_at_a_fault()
    ensures { StreamStops }
{}
