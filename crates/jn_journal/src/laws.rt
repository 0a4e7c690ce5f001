//! What is read of a journal, whatever a crash left of it.
ghost use Rattle.std.specs.Prelude.{◌≡◌, ◌++◌, [], ◌∷◌, ℕ, List, take};
ghost use Rattle.jn_journal.specs.declared.reading.Ending.{Ending};
ghost use Rattle.jn_journal.specs.declared.reading.Ending.TheVariants.{Torn, Damaged};
ghost use Rattle.jn_journal.specs.Format.{journal, chain_after, AllFit};
ghost use Rattle.jn_journal.specs.Reading.{Reads};
ghost use Rattle.jn_journal.specs.Torn.{IsTorn, Leaves};

/// Bytes have one reading.
pub fn one_reading()
    ensures { (chain file : List ℕ) (xs ys : List (List ℕ)) (e f : Ending) → Reads chain file xs e → Reads chain file ys f → (xs ≡ ys) × (e ≡ f) }
{}

/// A journal is read back, with zeros behind it or nothing.
pub fn a_journal_is_read_back()
    ensures { (chain zeros : List ℕ) (contents : List (List ℕ)) → AllFit contents → IsTorn [] zeros → Reads chain (journal chain contents ++ zeros) contents Torn }
{}

/// Each prefix of what was written is one of the files that a crash may leave, and so is all of it with zeros behind.
pub fn a_prefix_is_torn()
    ensures prefix { (written : List ℕ) (n : ℕ) → IsTorn written (take n written) }
    ensures all { (written zeros : List ℕ) → IsTorn [] zeros → IsTorn written (written ++ zeros) }
{}

/// Of a journal that a crash tore, the first records are read and nothing else. It isn't taken for damaged.
pub fn a_torn_journal_gives_its_first_records()
    ensures { (chain file : List ℕ) (contents xs : List (List ℕ)) (e : Ending) → AllFit contents → IsTorn (journal chain contents) file → Reads chain file xs e
        → ((lost : List (List ℕ)) × (xs ++ lost ≡ contents)) × (e ≡ Torn) }
{}

/// What was synced is read whole, and of what was written since the first records.
pub fn what_was_synced_is_read()
    ensures { (chain file : List ℕ) (synced loose xs : List (List ℕ)) (e : Ending) → AllFit synced → AllFit loose
        → Leaves (journal chain synced) (journal (chain_after chain synced) loose) file → Reads chain file xs e
        → ((more lost : List (List ℕ)) × (xs ≡ synced ++ more) × (more ++ lost ≡ loose)) × (e ≡ Torn) }
{}

/// The laws speak of something: a record of one byte is written and read back, a crash leaves two zeros of it, and a
/// pair of bytes that no header has is damage.
pub fn examples()
    ensures written { (chain : List ℕ) → AllFit ((5 ∷ []) ∷ []) × Reads chain (journal chain ((5 ∷ []) ∷ [])) ((5 ∷ []) ∷ []) Torn }
    ensures torn { (chain : List ℕ) → IsTorn (journal chain ((5 ∷ []) ∷ [])) (0 ∷ 0 ∷ []) × Reads chain (0 ∷ 0 ∷ []) [] Torn }
    ensures synced { (chain : List ℕ) → Leaves (journal chain []) (journal chain ((5 ∷ []) ∷ [])) (0 ∷ 0 ∷ []) }
    ensures damaged { (chain : List ℕ) → Reads chain (1 ∷ 1 ∷ []) [] Damaged }
{}
