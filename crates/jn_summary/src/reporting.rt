//! Reporting lines to a summary.
ghost use Rattle.jn_summary.specs.Summing.{sums_up, sums_join};

use crate::summary::Summary;
use jn_report::Line;
use jn_writing::{ReportFault, Reporter};

/// Adds the lines of a report to its summary. It keeps nothing of them itself.
#[derive(Clone, Copy)]
pub struct Summing;

impl Reporter<Summary> for Summing {
    ghost reporting = { sums_up };

    fn report(&mut self, output: &mut Summary, lines: &[Line]) -> Result<(), ReportFault> {
        for line in lines {
            output.take(line)?;
        }
        Ok(())
    }

    ghost joins = { sums_join };
}
