//! A store is cleaned, page by page.
ghost use Rattle.std.specs.Prelude.{◌≡◌, ◌≤◌, ◌+◌, ◌-◌, ◌*◌, ◌<◌, ◌⊎◌, ℕ, true, is_ok, OnErr, OnOk};
ghost use Rattle.jn_page_state.specs.Puts.{IsFewer};
ghost use Rattle.jn_recovery.specs.Cleaning.{Cleans};
ghost use Rattle.jn_store.specs.Store.{IsCalm, IsSamePage, IsStop, StoreLater};

use jn_base::Stopped;
use jn_store::StableStore;

/// Cleans the pages of a store from one to before another.
pub fn clean_pages<S: StableStore>(store: &mut S, from: u32, to: u32) -> Result<(), Stopped>
    requires order { from ≤ to }
    requires below { to ≤ (S.view store.old).count }
    ensures fewer { IsFewer (S.view store.old) (S.view store.new) }
    ensures later { StoreLater (S.view store.old) (S.view store.new) }
    ensures calls { (S.view store.new).calls ≤ (S.view store.old).calls + 16 * (to - from) }
    ensures others { (i : ℕ) → i < (S.view store.old).count → (i < from) ⊎ (to ≤ i) → IsSamePage (S.view store.old) (S.view store.new) i }
    ensures cleaned { OnOk result (Cleans (S.view store.old) from to (S.view store.new)) }
    ensures stop { OnErr result (IsStop (S.view store.old) (S.view store.new)) }
    ensures calm { IsCalm (S.view store.old) → is_ok result ≡ true }
{
    for i in from..to {
        store.cleanup(i)?;
    }
    Ok(())
}
