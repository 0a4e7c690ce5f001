//! Why any number of recoveries, each stopped anywhere, finds what was there before the first.
ghost use Rattle.jn_base.specs.declared.names.ServerNo.{ServerNo};
ghost use Rattle.jn_records.specs.StablePages.{Counts};
ghost use Rattle.jn_store.specs.Store.{StoreView};
ghost use Rattle.jn_page_state.specs.Recoverable.{IsRecoverable};
ghost use Rattle.jn_page_state.specs.Recovery.{Recovers, FindsSame};

/// Whatever steps recoveries have made, done or stopped, the next one may begin, and by each pick it finds the files, works
/// and flags that a pick found before, in the same epoch or a later one.
pub fn a_recovery_finds_what_was_there()
    ensures next { (server : ServerNo) (g : Counts) (v w : StoreView) → Recovers server g v w → IsRecoverable server g v → IsRecoverable server g w }
    ensures finds { (server : ServerNo) (g : Counts) (v w : StoreView) → Recovers server g v w → IsRecoverable server g v → FindsSame g v w }
{}
