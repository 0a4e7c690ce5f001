// How many calls of the device a careful get makes.
ghost use Rattle.std.specs.Prelude.{◌≡◌, ℕ, true, List, Option, Some, None, Result, Ok};
ghost use Rattle.jn_base.specs.declared.device.Stopped.{Stopped};
ghost use Rattle.jn_device.specs.Device.{DeviceState};
ghost use Rattle.jn_careful.specs.Tries.{MakesGets, IsOneGet};
ghost use Rattle.jn_device.specs.Calls.{due};

/// A good page that no fault meets is got by one call of the device.
pub fn a_good_page_is_got_by_one_call()
    ensures { (s : DeviceState) → (p : ℕ) → (answer : Result (Option (List ℕ)) Stopped) → (t : DeviceState) → MakesGets s p answer t
        → s.power ≡ true → due s.waiting ≡ None → (s.pages p).good ≡ true → (answer ≡ Ok (Some (s.pages p).bytes)) × IsOneGet s p t }
{}
