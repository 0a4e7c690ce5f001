// When calls are answered Ok, whatever faults wait.
ghost use Rattle.std.specs.Prelude.{◌≡◌, ℕ, Bool, true, List, Result, is_ok};
ghost use Rattle.jn_base.specs.declared.device.Stopped.{Stopped};
ghost use Rattle.jn_store.specs.Store.{StoreView, StoreLater, IsStop, StoreGot, StorePut, StoreCleaned};
ghost use Rattle.jn_store.specs.Answers.{IsUnstopped, StopStruck, IsOkUnlessStopped};

/// Over power each call is answered Ok unless a stop that waited strikes in it: other faults may wait and strike.
#[tactic(auto, using(crate::proofs::Answers::got_ok))]
pub fn a_get_is_ok_unless_a_stop_strikes()
    ensures { (v w : StoreView) → (i : ℕ) → (answer : Result (List ℕ) Stopped) → StoreGot v i answer w → IsOkUnlessStopped v (is_ok answer) w }
{}

#[tactic(auto, using(crate::proofs::Answers::put_ok))]
pub fn a_put_is_ok_unless_a_stop_strikes()
    ensures { (v w : StoreView) → (i : ℕ) → (page : List ℕ) → (ok : Bool) → StorePut v i page ok w → IsOkUnlessStopped v ok w }
{}

#[tactic(auto, using(crate::proofs::Answers::cleaned_ok))]
pub fn a_cleanup_is_ok_unless_a_stop_strikes()
    ensures { (v w : StoreView) → (i : ℕ) → (answer : Result Bool Stopped) → StoreCleaned v i answer w → IsOkUnlessStopped v (is_ok answer) w }
{}

/// The same of every run of calls: over power, one that is stopped has met a stop that waited.
#[tactic(auto, using(crate::proofs::Answers::stop_struck))]
pub fn a_stopped_run_has_met_a_stop()
    ensures { (v w : StoreView) → StoreLater v w → IsStop v w → v.power ≡ true → StopStruck v w }
{}

/// Where no stop waits none waits later, and the power stays.
#[tactic(auto, using(crate::proofs::Answers::stays_unstopped))]
pub fn a_store_without_stops_stays_so()
    ensures { (v w : StoreView) → StoreLater v w → IsUnstopped v → IsUnstopped w }
{}
