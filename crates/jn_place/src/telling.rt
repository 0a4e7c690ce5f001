//! Lines of a step.
ghost use Rattle.std.specs.Prelude.{◌≡◌, ◌++◌, ◌∷◌, [], true, OnOk};
ghost use Rattle.jn_place.specs.Exact.{texts_of_step};
ghost use Rattle.jn_report.specs.Lines.{lines_at};

use jn_base::{Outside, ServerNo};
use jn_report::{Line, Text, When};
use std::alloc::AllocError;

/// Adds a line.
pub fn tell(lines: &mut Vec<Line>, when: When, text: Text) -> Result<(), AllocError>
    ensures { OnOk result (lines.new.items ≡ lines.old.items ++ (record { when = when; text = text }) ∷ []) }
{
    lines.push(Line { when, text })?;
    Ok(())
}

/// Adds a line for each fault that a server's device refused.
pub fn tell_faults(
    lines: &mut Vec<Line>,
    when: When,
    server: ServerNo,
    faults: &[Outside],
) -> Result<(), AllocError>
    ensures { OnOk result (lines.new.items ≡ lines.old.items ++ lines_at when (texts_of_step server faults.now true)) }
{
    for fault in faults {
        tell(lines, when, Text::Outside(server, *fault))?;
    }
    Ok(())
}
