//! What waits in a network.

ghost use Rattle.std.specs.Prelude.{◌≡◌, ◌<◌, ◌++◌, ℕ, true, List, [], length, slice_get, Option, Some, None};
ghost use Rattle.jn_base.specs.declared.names.ServerNo.{ServerNo};
ghost use Rattle.jn_order.specs.Files.{AllFiles};
ghost use Rattle.jn_net.specs.declared.Sent.{Sent as Posted};
ghost use Rattle.jn_net.specs.Carried.{Carried, waiting};
ghost use Rattle.jn_system.specs.WholeSystem.Steps.{Step, after, handing};
ghost use Rattle.jn_system.specs.WholeSystem.World.{World};
ghost use Rattle.jn_system.specs.WholeSystem.Course.{Course, opening_course, go};
ghost use Rattle.jn_system.specs.WholeSystem.Settle.{Chance, next_step};
ghost use Rattle.jn_world_refines.specs.Waiting.{waiting_numbers, sent_of, are_new, Carries, delivered_by};

/// A network carries what a course has sent, and as much of it waits: at first, once a step has handed a message over and its
/// new messages are sent behind the others, and once all that waited is forgotten.
pub fn a_network_goes_with_its_course()
    ensures first { (servers : ℕ) (files : AllFiles) (epochs : ServerNo → ℕ) → Carries (record { sent = []; forgotten = 0 }) (opening_course servers files epochs) }
    ensures steps { (n : Carried) (c : Course) (step : Step) (more : List Posted) → Carries n c → are_new more ≡ true → (after step c.world).sent ≡ c.world.sent ++ sent_of more
        → Carries (record n { sent = delivered_by step n.sent ++ more }) (go step c) }
    ensures forgotten { (n : Carried) (c : Course) (steps : List Step) → Carries n c → Carries (record n { forgotten = length n.sent }) (record { world = c.world; waiting = []; steps = steps }) }
{}

/// The least message that waits in the network is the one that comes next, and there is one of its number; where the network has
/// none, no message waits.
pub fn the_least_that_waits_is_next()
    ensures head { (n : Carried) → waiting n ≡ slice_get (waiting_numbers n) 0 }
    ensures next { (n : Carried) (c : Course) → Carries n c → (k : ℕ) → waiting n ≡ Some k → (chance : Chance) (busy : Option ServerNo) → next_step chance c.waiting busy ≡ Some (handing k chance.room chance.stop) }
    ensures there { (n : Carried) (k : ℕ) → waiting n ≡ Some k → k < length n.sent }
    ensures none { (n : Carried) (c : Course) → Carries n c → waiting n ≡ None → c.waiting ≡ [] }
{}
