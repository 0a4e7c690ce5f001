//! At which moment of a run a world of servers is, once it has done events.

ghost use Rattle.std.specs.Prelude.{◌≡◌, ◌≤◌, ◌+◌, ◌++◌, ◌∷◌, [], ℕ, List, Result, Err, length};
ghost use Rattle.std.specs.List.{AllByRecursion};
ghost use Rattle.jn_base.specs.declared.names.ServerNo.{ServerNo};
ghost use Rattle.jn_order.specs.Files.{AllFiles};
ghost use Rattle.jn_recovery.specs.declared.counts.PageCounts.{PageCounts as Counted};
ghost use Rattle.jn_report.specs.declared.line.Line.{Line};
ghost use Rattle.jn_schedule.specs.declared.Event.{Event};
ghost use Rattle.jn_schedule.specs.Ranges.{EventInRange};
ghost use Rattle.jn_world.specs.declared.ended.Ended.{Ended};
ghost use Rattle.jn_world.specs.declared.world.World.{World};
ghost use Rattle.jn_world.specs.Written.{standing_of};
ghost use Rattle.jn_events.specs.Written.{AreStoresOf, DoesScheduled};
ghost use Rattle.jn_machine.specs.Chances.{Setup};
ghost use Rattle.jn_machine.specs.Devices.{Devices};
ghost use Rattle.jn_machine.specs.Whole.{AreImages};
ghost use Rattle.jn_laws.specs.Worlds.{HasDone, IsReached, IsTrueWhereEnded, Gives, IsTrueWhereClosed, is_limit, added};

use jn_store::Powered;

/// A world that has started on these stores and done these events, with these lines, is at a moment of a run of them. All that holds between two events
/// holds there: of its lines, of what is found on its stores, and of the system. Where the next event is cut short, its lines with those before are true of what has
/// begun. Where the world is closed, they are true of all events and of what lies on the stores that it gives back.
pub fn a_world_is_at_the_moment_of_its_events<S: Powered + Drop>()
    ensures reached { (x : Setup) (files : AllFiles) (epochs : ServerNo → ℕ) (images : Devices) (stores : List (S × Counted)) (events rest : List Event) (lines : List Line) (w : World S)
        → x.servers ≤ 8 → AreStoresOf (λ s. S.device s) x stores images → AreImages x files epochs images → AllByRecursion EventInRange (events ++ rest)
        → HasDone S (λ s. S.view s) (λ s. S.device s) stores x.trace events lines w → IsReached (λ s. S.view s) (λ s. S.device s) x files images events rest lines w }
    ensures ended { (x : Setup) (files : AllFiles) (epochs : ServerNo → ℕ) (images : Devices) (stores : List (S × Counted)) (events : List Event) (event : Event) (lines : List Line) (w v : World S)
        → x.servers ≤ 8 → AreStoresOf (λ s. S.device s) x stores images → AreImages x files epochs images → AllByRecursion EventInRange (events ++ event ∷ [])
        → HasDone S (λ s. S.view s) (λ s. S.device s) stores x.trace events lines w → (done : Result (Unit {0}) Ended) (e : Ended) (old told : List Line) → done ≡ Err e → is_limit e
        → DoesScheduled (λ s. S.view s) (λ s. S.device s) (length events + 1) event (standing_of w) done (standing_of v) old told
        → IsTrueWhereEnded files (events ++ event ∷ []) (lines ++ added old told) }
    ensures closed { (x : Setup) (files : AllFiles) (epochs : ServerNo → ℕ) (images : Devices) (stores : List (S × Counted)) (events : List Event) (lines : List Line) (w : World S)
        → x.servers ≤ 8 → AreStoresOf (λ s. S.device s) x stores images → AreImages x files epochs images → AllByRecursion EventInRange events
        → HasDone S (λ s. S.view s) (λ s. S.device s) stores x.trace events lines w → (given : List S) (old told : List Line) → Gives (λ s. S.view s) (λ s. S.device s) w given old told
        → IsTrueWhereClosed (λ s. S.device s) x files events (lines ++ added old told) given }
{}
