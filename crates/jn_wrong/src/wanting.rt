//! What stands behind an abort for want of room, in any run.

ghost use Rattle.std.specs.Prelude.{List};
ghost use Rattle.jn_schedule.specs.declared.Event.{Event};
ghost use Rattle.jn_machine.specs.Chances.{Setup};
ghost use Rattle.jn_machine.specs.Devices.{Devices};
ghost use Rattle.jn_machine.specs.Runs.{Moment};
ghost use Rattle.jn_machine.specs.Whole.{before, IsWritten};
ghost use Rattle.jn_wrong.specs.Wanting.{WasShort, OfLines};

/// Where a client is told that its transaction aborted for want of room, the server that the line names had, in a step of the run, just so much
/// of it free on its pages as the line says, and more was needed.
pub fn an_abort_for_want_of_room_was_short()
    ensures { (x : Setup) (schedule : List Event) (images : Devices) (now : Moment) (h : IsWritten x schedule images now)
        → OfLines (WasShort x (record { state = before x schedule h.files h.epochs; devices = images }) now) now.state.lines }
{}
