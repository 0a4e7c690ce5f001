//! Each line of each run of the whole system that needs a cause has it before it.

ghost use Rattle.std.specs.Prelude.{◌≡◌, ℕ, List};
ghost use Rattle.jn_base.specs.declared.names.ServerNo.{ServerNo};
ghost use Rattle.jn_order.specs.Files.{AllFiles};
ghost use Rattle.jn_serial.specs.Caused.{Caused};
ghost use Rattle.jn_system.specs.WholeSystem.World.{opening};
ghost use Rattle.jn_system.specs.WholeSystem.Example.{start};
ghost use Rattle.jn_system_reports.specs.Reporting.Ending.{Ending, IsEnding, lines_to_end};
ghost use Rattle.jn_system_reports.specs.Reporting.Reported.{Item, events_of, lines_of, world_of, IsReported};
ghost use Rattle.jn_system_reports.specs.Causing.Example.{a_loss, its_lines, without_a_cause};

/// Whatever is done under the events of a schedule, stops and restarts among it: each abort that a client is told of has its
/// cause before it, which is the client's own abort, a work that was broken, a server that went down after the transaction
/// came to it, or want of room; and each stop and each fault that is refused has an event of its own that can have given it. So it is with the end of the run too.
pub fn events_cause_lines()
    ensures lines { (servers : ℕ) (files : AllFiles) (epochs : ServerNo → ℕ) (items : List Item) → IsReported items (opening servers files epochs)
        → Caused (events_of items) (lines_of items (opening servers files epochs)) }
    ensures to_the_end { (servers : ℕ) (files : AllFiles) (epochs : ServerNo → ℕ) (items : List Item) (e : Ending) → IsReported items (opening servers files epochs) → IsEnding servers e (world_of items (opening servers files epochs))
        → Caused (events_of items) (lines_to_end servers items e (opening servers files epochs)) }
{}

/// A client begins; its server goes down and comes up, and tells at the client's end that the transaction was lost. Had the
/// server not gone down, these lines would be without a cause.
pub fn a_lost_transaction_is_reported()
    ensures reported { IsReported a_loss start }
    ensures lines { lines_of a_loss start ≡ its_lines }
    ensures needs { Caused (events_of a_loss) without_a_cause → ⊥ }
{}
