//! What the data pages of servers are in use for, in any run.

ghost use Rattle.std.specs.Prelude.{◌≡◌, ℕ, Some, slice_get};
ghost use Rattle.jn_machine.specs.Chances.{Setup};
ghost use Rattle.jn_machine.specs.Runs.{Moment};
ghost use Rattle.jn_place.specs.declared.place.Place.{Place};
ghost use Rattle.jn_world.specs.declared.world.World.{World};
ghost use Rattle.jn_world.specs.Standing.{IsWorld};
ghost use Rattle.jn_world.specs.Written.{standing_of};
ghost use Rattle.jn_world_refines.specs.Stands.{Stands};
ghost use Rattle.jn_laws.specs.Pages.{CountsDataPages};

use jn_store::Powered;

/// A world of servers, as its calls keep it, stands at a moment of a run (`a_world_is_at_the_moment_of_its_events`). Then each data page of a server
/// that is up is free, that of a stored block, a map page that a head names, or held by a prepared work, and there is no other: whatever was stopped
/// before, no page is lost, and none is in use twice. So it is as the server counts, and by the pages alone where it counts as free what is free there.
pub fn data_pages_are_counted<S: Powered + Drop>()
    ensures { (x : Setup) (m : Moment) (w : World S) → IsWorld (λ s. S.view s) w → Stands (λ s. S.view s) (λ s. S.device s) x (standing_of w) m
        → (n : ℕ) (p : Place S) → slice_get w.places.items n ≡ Some p → CountsDataPages (λ s. S.view s) x m n p.slot }
{}
