//! The report of every run of the whole system that is cut off, within its events or within its end, is true as far as it goes.

ghost use Rattle.std.specs.Prelude.{◌≡◌, ℕ, false, List, [], ◌∷◌, ◌++◌};
ghost use Rattle.jn_base.specs.declared.names.ServerNo.{ServerNo};
ghost use Rattle.jn_order.specs.Files.{AllFiles};
ghost use Rattle.jn_schedule.specs.declared.Event.{Event};
ghost use Rattle.jn_report.specs.declared.line.Text.{Text};
ghost use Rattle.jn_aside.specs.Aside.{is_show};
ghost use Rattle.jn_system.specs.WholeSystem.World.{World, opening};
ghost use Rattle.jn_system.specs.WholeSystem.Steps.{Step, Dismiss};
ghost use Rattle.jn_system.specs.WholeSystem.Example.{start};
ghost use Rattle.jn_system_reports.specs.Reporting.Reported.{Item, events_of, lines_of, world_of, IsReported};
ghost use Rattle.jn_system_reports.specs.Reporting.Ending.{Ending, IsEnding, steps_at_end, texts_from};
ghost use Rattle.jn_headline.specs.CutReports.Cut.{CutEnd, IsCutEnd, cut_lines};
ghost use Rattle.jn_headline.specs.Headline.{IsTrueSoFar};
ghost use Rattle.jn_headline.specs.CutReports.Example.{a_server_is_down, its_lines};

/// Whatever is done under the events of a schedule, with one more event that is no show and of which nothing is reported, or with an end
/// that goes on as far as it may: what committed transactions are answered, and what each show prints, is what the commits leave, one
/// after another; outcomes are reported as they are; each abort, stop and refused fault has its cause before it; and each answer
/// answers its client's outstanding command. Of what the end itself prints nothing is said.
pub fn reports_are_true_so_far()
    ensures within_its_events { (servers : ℕ) (files : AllFiles) (epochs : ServerNo → ℕ) (items : List Item) → IsReported items (opening servers files epochs)
        → IsTrueSoFar files (events_of items) (events_of items) (lines_of items (opening servers files epochs)) }
    ensures at_its_last_event { (servers : ℕ) (files : AllFiles) (epochs : ServerNo → ℕ) (items : List Item) (e : Event) → IsReported items (opening servers files epochs) → is_show e ≡ false
        → IsTrueSoFar files (events_of items ++ e ∷ []) (events_of items ++ e ∷ []) (lines_of items (opening servers files epochs)) }
    ensures within_its_end { (servers : ℕ) (files : AllFiles) (epochs : ServerNo → ℕ) (items : List Item) (e : CutEnd) → IsReported items (opening servers files epochs)
        → IsCutEnd e (world_of items (opening servers files epochs)) → IsTrueSoFar files (events_of items) (events_of items) (cut_lines items e (opening servers files epochs)) }
{}

/// Every front of an end's steps, with every front of what it prints, is an end that is cut off.
pub fn fronts_of_an_end_are_cut_ends()
    ensures { (servers : ℕ) (whole : Ending) (w : World) (steps rest : List Step) (printed more : List Text) → IsEnding servers whole w
        → steps_at_end servers whole ≡ Dismiss ∷ steps ++ rest → texts_from 0 whole.prints ≡ printed ++ more → IsCutEnd (record { steps = steps; printed = printed }) w }
{}

/// There are such runs: here no event is done, and the end takes its one server down.
pub fn a_run_is_cut_off()
    ensures run { IsReported [] start }
    ensures cut { IsCutEnd a_server_is_down start }
    ensures lines { cut_lines [] a_server_is_down start ≡ its_lines }
{}
