//! What one put of a head's page or a data page changes.
ghost use Rattle.std.specs.Prelude.{◌≡◌, ℕ, true, false, List, [], ◌∷◌, Some};
ghost use Rattle.jn_base.specs.declared.names.BlockNo.{BlockNo};
ghost use Rattle.jn_base.specs.declared.names.WorkId.{WorkId};
ghost use Rattle.jn_records.specs.declared.intention.StoredIntention.{StoredIntention};
ghost use Rattle.jn_records.specs.Layouts.{Layout};
ghost use Rattle.jn_records.specs.MapPlaces.{is_in_range};
ghost use Rattle.jn_rows.specs.Stable.{made_by, left_of, CarryOut};
ghost use Rattle.jn_page_state.specs.Contents.{Contents, layouts_in, state_in, intended};
ghost use Rattle.jn_page_state.specs.Recoverable.{is_read};
ghost use Rattle.jn_page_state.specs.Changes.{with_block, with_epoch, IsHeadPut, IsPartPut, IsGoneAlready, LaysOut};

/// Another layout of one head carries out an intention of a work: a put's block is then the data page that its intention names.
/// A cut is found in part where the blocks of one map page are gone. A file that is gone already is removed by nothing.
pub fn a_head_carries_out_an_intention()
    ensures put { (c later : Contents) (work : WorkId) (i : StoredIntention) (place : ℕ) (new : Layout) → IsHeadPut (layouts_in c) i place new → LaysOut c place new later
        → state_in later ≡ made_by (CarryOut work (intended c.blocks i)) (state_in c) }
    ensures part { (c later : Contents) (work : WorkId) (i : StoredIntention) (j place : ℕ) (new : Layout) → IsPartPut (layouts_in c) i j place new → LaysOut c place new later
        → state_in later ≡ left_of (record { whole = 0; gone = Some (λ (p : BlockNo). is_in_range j p.0) }) (CarryOut work (intended c.blocks i) ∷ []) (state_in c) }
    ensures gone { (c : Contents) (work : WorkId) (i : StoredIntention) → IsGoneAlready (layouts_in c) i → state_in c ≡ made_by (CarryOut work (intended c.blocks i)) (state_in c) }
{}

/// The state reads the data pages that heads name, and those that prepared works name for blocks, and no other.
pub fn the_state_reads_named_pages_alone()
    ensures { (c : Contents) (blocks : ℕ → List ℕ) → ((d : ℕ) → is_read c d ≡ true → blocks d ≡ c.blocks d) → state_in (record c { blocks = blocks }) ≡ state_in c }
{}

/// A data page that isn't read gets another block, and nothing changes.
pub fn a_page_without_a_name_changes_nothing()
    ensures { (c : Contents) (d : ℕ) (bytes : List ℕ) → is_read c d ≡ false → state_in (with_block c d bytes) ≡ state_in c }
{}

/// The root's put changes the epoch alone.
pub fn a_root_has_the_epoch()
    ensures { (c : Contents) (epoch : ℕ) → state_in (with_epoch c epoch) ≡ record (state_in c) { epoch = epoch } }
{}
