//! What takes the lines of a report, as they come.
ghost use Rattle.jn_writing.specs.Reporting.{Reporting, Reports, Joins};

use crate::fault::ReportFault;
use jn_report::Line;

/// Reports lines to an output of this type, step by step.
pub trait Reporter<O> {
    /// What is said of the output: which lines it took between two moments, and how often it failed.
    ghost reporting: { Reporting O };

    /// Reports the next lines. Where that fails, the output took a front of them.
    fn report(&mut self, output: &mut O, lines: &[Line]) -> Result<(), ReportFault>
        ensures reported { Reports reporting output.old lines.now result output.new };

    /// What it took in two calls, it took in all.
    ghost joins: { Joins reporting };
}
