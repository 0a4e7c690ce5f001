//! A list that has its map pages has them again.
ghost use Rattle.std.specs.Prelude.{◌≡◌, ℕ, Bool, true, List, take, slice_get, None, Some};
ghost use Rattle.jn_base.specs.declared.names.FileNo.{FileNo};
ghost use Rattle.jn_records.specs.declared.intention.Intention.{Intention};
ghost use Rattle.jn_records.specs.MapPlaces.{MapPlaces, IsSupplied, lacking, places_after, places_then};
ghost use Rattle.jn_records.specs.NetLists.{in_order, names_file};

/// More map pages never hurt, and a list looks at those of its own files alone.
pub fn a_list_looks_at_its_own_files()
    ensures more { (list : List Intention) (named : List Bool) (p q : MapPlaces) → ((f : FileNo) (j : ℕ) → p f j ≡ true → q f j ≡ true) → IsSupplied p list named → IsSupplied q list named }
    ensures own { (list : List Intention) (p q : MapPlaces) → ((f : FileNo) (j : ℕ) → names_file list f ≡ true → q f j ≡ p f j) → lacking q list ≡ lacking p list }
{}

/// Carrying out any intention of a list leaves the list with a map page for each of its puts, from its start on.
pub fn a_step_keeps_its_list_supplied()
    ensures { (list : List Intention) (named : List Bool) (places : MapPlaces) (k : ℕ) (i : Intention) → in_order None list ≡ true → slice_get list k ≡ Some i → IsSupplied places list named
        → IsSupplied (places_after i places) list named }
{}

/// A list that had a map page for each of its puts has one when it is carried out again from its start, wherever it was stopped.
pub fn a_list_that_was_supplied_is_supplied_again()
    ensures { (list : List Intention) (named : List Bool) (places : MapPlaces) (n : ℕ) → in_order None list ≡ true → IsSupplied places list named → IsSupplied (places_then (take n list) places) list named }
{}
