//! What a step's chance owes to the devices.

ghost use Rattle.std.specs.Prelude.{◌≡◌, ◌≤◌, ◌+◌, ℕ, Bool, true, List, [], None, is_some};
ghost use Rattle.jn_base.specs.declared.names.ServerNo.{ServerNo};
ghost use Rattle.jn_base.specs.declared.device.FaultKind.{FaultKind};
ghost use Rattle.jn_device.specs.Device.{DeviceState};
ghost use Rattle.jn_device.specs.Later.{count_kind, count_told};
ghost use Rattle.jn_base.specs.Names.{is_stop};
ghost use Rattle.jn_order.specs.Files.{AllFiles};
ghost use Rattle.jn_schedule.specs.declared.Event.{Event};
ghost use Rattle.jn_store.specs.Pairs.{pairs_view};
ghost use Rattle.jn_store.specs.Store.{StoreLater};
ghost use Rattle.jn_machine.specs.Chances.{Setup, Chance};
ghost use Rattle.jn_machine.specs.Devices.{Devices, IsCalled};
ghost use Rattle.jn_machine.specs.Runs.{Moment, Leads, MayLead, IsOnCourse};
ghost use Rattle.jn_machine.specs.Whole.{closed_world, IsWritten};

/// What holds whatever befalls a run holds of what its devices do.
pub fn devices_give_chances()
    ensures { (x : Setup) (a b : Moment) → Leads x a b → MayLead x a.state b.state }
{}

/// One run of steps goes on where another one ends.
pub fn steps_follow_steps()
    ensures { (x : Setup) (a b c : Moment) → Leads x a b → Leads x b c → Leads x a c }
{}

/// The steps of the system that a run with devices makes are a run of the system, in which each restart finds the works and flags of its pages.
pub fn steps_are_a_run_of_the_system()
    ensures { (x : Setup) (schedule : List Event) (images : Devices) (now : Moment) → IsWritten x schedule images now
        → (files : AllFiles) × (epochs : ServerNo → ℕ) × IsOnCourse (closed_world x.servers files epochs) now.state.course }
{}

/// The calls of a step keep all that every run of calls of a store keeps.
pub fn calls_keep_what_a_store_keeps()
    ensures { (most : ℕ) (h : Chance) (d e : DeviceState) (c : IsCalled most h d e) → StoreLater (pairs_view d) (pairs_view c.last) }
{}

/// A step is stopped only by a stop that waited, which then waits no more.
pub fn a_stop_had_waited()
    ensures { (most : ℕ) (h : Chance) (d e : DeviceState) → IsCalled most h d e → d.power ≡ true → is_some h.stop ≡ true → count_kind is_stop e.waiting + 1 ≤ count_kind is_stop d.waiting }
{}

/// Each fault that is reported had waited, and then waits no more.
pub fn refused_faults_had_waited()
    ensures { (most : ℕ) (h : Chance) (d e : DeviceState) → IsCalled most h d e → d.told ≡ [] → (f : FaultKind → Bool) → count_kind f e.waiting + count_told f h.told ≤ count_kind f d.waiting }
{}

/// Where no fault waits, no step is stopped and no fault is reported.
pub fn nothing_strikes_where_nothing_waits()
    ensures { (most : ℕ) (h : Chance) (d e : DeviceState) → IsCalled most h d e → d.power ≡ true → d.told ≡ [] → d.waiting ≡ [] → (h.stop ≡ None) × (h.told ≡ []) }
{}
