// How many calls of the device a stable get makes.
ghost use Rattle.std.specs.Prelude.{◌≡◌, ℕ, true, List, None, Result, Ok};
ghost use Rattle.jn_base.specs.declared.device.Stopped.{Stopped};
ghost use Rattle.jn_device.specs.Calls.{due};
ghost use Rattle.jn_device.specs.Device.{DeviceState};
ghost use Rattle.jn_careful.specs.Tries.{IsOneGet};
ghost use Rattle.jn_stable.specs.Halves.{GetsHalves};

/// A stable page whose first half is good, and met by no fault, is got by one call of the device.
pub fn a_good_first_half_is_got_by_one_call()
    ensures { (s : DeviceState) → (i : ℕ) → (answer : Result (List ℕ) Stopped) → (t : DeviceState) → GetsHalves s i answer t
        → s.power ≡ true → due s.waiting ≡ None → (s.pages i).good ≡ true → (answer ≡ Ok (s.pages i).bytes) × IsOneGet s i t }
{}
