//! What the calls of the code's world promise where they settle and where they close, joined to what is proved of the written machine.
#![tactic(auto)]

ghost use Rattle.std.specs.Prelude.{◌≡◌, ◌≤◌, ◌++◌, ◌+◌, ◌∷◌, ℕ, true, List, Some, Result, Ok};
ghost use Rattle.std.specs.List.{AllByRecursion};
ghost use Rattle.jn_report.specs.declared.line.Line.{Line};
ghost use Rattle.jn_report.specs.declared.line.When.{When};
ghost use Rattle.jn_schedule.specs.declared.Event.{Event};
ghost use Rattle.jn_schedule.specs.declared.Event.TheVariants as events;
ghost use Rattle.jn_schedule.specs.Ranges.{EventInRange};
ghost use Rattle.jn_settles.specs.Bounded.{IsBoundedWorld};
ghost use Rattle.jn_settles.specs.Closed.{LeavesImages};
ghost use Rattle.jn_settles.specs.Settled.{IsSettledWorld};
ghost use Rattle.jn_settles.specs.Tables.{AllUp};
ghost use Rattle.jn_world_refines.specs.Stands.{Standing, Stands};
ghost use Rattle.jn_world.specs.declared.ended.Ended.{Ended};
ghost use Rattle.jn_events.specs.Written.{DoesTasks, DoesScheduled, Closes, is_going};
ghost use Rattle.jn_machine.specs.Chances.{Setup};
ghost use Rattle.jn_machine.specs.Devices.{Devices};
ghost use Rattle.jn_machine.specs.Events.{settling, ending};
ghost use Rattle.jn_machine.specs.Runs.{Moment};
ghost use Rattle.jn_machine.specs.Tasks.{Task, Begins, Rests, InSchedule, first_of_tasks, when_of};
ghost use Rattle.jn_machine.specs.Whole.{IsWritten};

use jn_store::Powered;

/// Where a settle of the world, or its event of a schedule, is done and all servers are up as it ends, the world is settled: from any moment of a run at
/// which the world stands, of whatever schedule and images, for at most 8 servers.
pub fn a_settle_of_the_world_settles<S: Powered, A>()
    ensures settle { (x : Setup) (schedule : List Event) (images : Devices) (m : Moment) (rest : List Task) (when : When) (before after : Standing S) (a : A) (lines lines' : List Line) → x.servers ≤ 8 → IsWritten x schedule images m
        → Stands (λ s. S.view s) (λ s. S.device s) x before m → m.state.tasks ≡ settling x ++ rest → (first_of_tasks rest ≡ Some Rests → ⊥) → is_going m.state.stage ≡ true → when_of m.state ≡ when
        → (result : Result A Ended) → DoesTasks (λ s. S.view s) (λ s. S.device s) settling when before result after lines lines' → result ≡ Ok a → AllUp after.places
        → IsSettledWorld (λ s. S.view s) (λ s. S.device s) before after lines lines' }
    ensures event { (x : Setup) (schedule : List Event) (images : Devices) (m : Moment) (rest : List Task) (number : ℕ) (before after : Standing S) (a : A) (lines lines' : List Line) → x.servers ≤ 8 → IsWritten x schedule images m
        → Stands (λ s. S.view s) (λ s. S.device s) x before m → m.state.tasks ≡ Begins events.Settle ∷ rest → (first_of_tasks rest ≡ Some Rests → ⊥) → m.state.stage ≡ InSchedule → number ≡ m.state.course.world.event + 1
        → (result : Result A Ended) → DoesScheduled (λ s. S.view s) (λ s. S.device s) number events.Settle before result after lines lines' → result ≡ Ok a → AllUp after.places
        → IsSettledWorld (λ s. S.view s) (λ s. S.device s) before after lines lines' }
{}

/// And it is within its bound, whatever befalls its devices, also where servers were stopped in it.
pub fn a_settle_of_the_world_is_bounded<S: Powered, A>()
    ensures settle { (x : Setup) (schedule : List Event) (images : Devices) (m : Moment) (rest : List Task) (when : When) (before after : Standing S) (a : A) (lines lines' : List Line) → x.servers ≤ 8 → IsWritten x schedule images m
        → Stands (λ s. S.view s) (λ s. S.device s) x before m → m.state.tasks ≡ settling x ++ rest → (first_of_tasks rest ≡ Some Rests → ⊥) → is_going m.state.stage ≡ true → when_of m.state ≡ when
        → (result : Result A Ended) → DoesTasks (λ s. S.view s) (λ s. S.device s) settling when before result after lines lines' → result ≡ Ok a
        → IsBoundedWorld (λ s. S.view s) before after }
    ensures event { (x : Setup) (schedule : List Event) (images : Devices) (m : Moment) (rest : List Task) (number : ℕ) (before after : Standing S) (a : A) (lines lines' : List Line) → x.servers ≤ 8 → IsWritten x schedule images m
        → Stands (λ s. S.view s) (λ s. S.device s) x before m → m.state.tasks ≡ Begins events.Settle ∷ rest → (first_of_tasks rest ≡ Some Rests → ⊥) → m.state.stage ≡ InSchedule → number ≡ m.state.course.world.event + 1
        → (result : Result A Ended) → DoesScheduled (λ s. S.view s) (λ s. S.device s) number events.Settle before result after lines lines' → result ≡ Ok a
        → IsBoundedWorld (λ s. S.view s) before after }
{}

/// Where the world is closed, each store that is left is that of a sound image, which holds the files that the commits of the report leave.
pub fn a_close_of_the_world_leaves_images<S: Powered, A>()
    ensures { (x : Setup) (schedule : List Event) (images : Devices) (m : Moment) (items_of : A → List S) (a : A) (lines lines' : List Line) → x.servers ≤ 8 → AllByRecursion EventInRange schedule → (h : IsWritten x schedule images m)
        → m.state.tasks ≡ ending x → m.state.stage ≡ InSchedule → m.state.lines ≡ lines → (result : Result A Ended) → Closes (λ s. S.device s) items_of x m result lines lines' → result ≡ Ok a
        → LeavesImages (λ s. S.device s) x h.files schedule lines' (items_of a) }
{}
