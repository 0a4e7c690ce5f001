//! Which server works next.

ghost use Rattle.std.specs.Prelude.{◌≡◌, ◌<◌, ℕ, true, false, List, [], ◌∷◌, Some, None};
ghost use Rattle.jn_base.specs.declared.names.ServerNo.{ServerNo};
ghost use Rattle.jn_rows.specs.Outcomes.{RowOutcome};
ghost use Rattle.jn_rows.specs.Stable.{StableState, Change, stable};
ghost use Rattle.jn_system.specs.WholeSystem.Servers.{Room, server_step, is_busy};
ghost use Rattle.jn_system.specs.WholeSystem.Steps.{Work, after};
ghost use Rattle.jn_system.specs.WholeSystem.World.{World, Memory, servers_from};
ghost use Rattle.jn_system.specs.WholeSystem.Settle.{first_busy};

/// A server's background step changes what is stable where one of its works goes. Where none goes it erases rubbish, which changes
/// nothing, or there is no step.
pub fn a_step_is_of_a_going_work_or_erases()
    ensures goes { (m : Memory) (x : StableState) (room : Room) (row : RowOutcome Memory) (c : Change) (changes : List Change) → server_step m x room ≡ Some row → row.changes ≡ c ∷ changes → is_busy x (Some m) ≡ true }
    ensures erases { (m : Memory) (x : StableState) (room : Room) (row : RowOutcome Memory) → server_step m x room ≡ Some row → row.changes ≡ [] → (is_busy x (Some m) ≡ false) × (room.rubbish ≡ true) }
    ensures none { (m : Memory) (x : StableState) (room : Room) → server_step m x room ≡ None → (is_busy x (Some m) ≡ false) × (room.rubbish ≡ false) }
{}

/// A step that erases leaves the whole system as it was.
pub fn an_erasure_changes_nothing()
    ensures { (w : World) (s : ServerNo) (m : Memory) (room : Room) (row : RowOutcome Memory) → w.memory s ≡ Some m → server_step m (stable (w.found s)) room ≡ Some row → row.changes ≡ [] → after (Work s room) w ≡ w }
{}

/// The server that works next is the least one of which a work goes.
pub fn the_least_busy_server_is_first()
    ensures some { (w : World) (servers : ℕ) (s : ServerNo) → s.0 < servers → is_busy (stable (w.found s)) (w.memory s) ≡ true
        → ((q : ServerNo) → q.0 < s.0 → is_busy (stable (w.found q)) (w.memory q) ≡ false) → first_busy w (servers_from 0 servers) ≡ Some s }
    ensures none { (w : World) (servers : ℕ) → ((q : ServerNo) → q.0 < servers → is_busy (stable (w.found q)) (w.memory q) ≡ false) → first_busy w (servers_from 0 servers) ≡ None }
{}
