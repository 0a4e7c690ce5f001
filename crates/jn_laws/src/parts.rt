//! What a stop leaves of a cut and of another change, in runs that are computed.

ghost use Rattle.std.specs.Prelude.{◌≡◌, ◌≢◌, true, false, [], ◌∷◌, Some, None};
ghost use Rattle.std.specs.List.{list_any};
ghost use Rattle.jn_order.specs.Files.{zeros};
ghost use Rattle.jn_records.specs.MapPlaces.{places_after};
ghost use Rattle.jn_rows.specs.Stable.{Pick, IsStopState, carries_cut, made_all};
ghost use Rattle.jn_system.specs.WholeSystem.Steps.{IsRun, run};
ghost use Rattle.jn_system.specs.WholeSystem.Example.{the_server, the_file, the_work};
ghost use Rattle.jn_laws.specs.Parts.{to_the_flag, to_the_cut, all_steps, start, before, behind, blocks_of, the_cut, its_maps, its_changes, stopped_in_part, first_halves, flag_changes, stopped_at_the_flag};

/// A server is stopped within the first of the two puts of a cut, which falls inside of a map page. Some picks find then what was there before, and others find
/// the blocks of that map page gone and the next one's still there: neither what was there nor what the cut leaves. The restart carries the cut out whole.
pub fn a_cut_is_found_in_part()
    ensures steps { IsRun all_steps start }
    ensures left { (c : Pick) → IsStopState (before to_the_cut) its_changes (behind to_the_cut stopped_in_part c) }
    ensures part { blocks_of (behind to_the_cut stopped_in_part first_halves) ≡ Some zeros ∷ None ∷ Some zeros ∷ [] }
    ensures not_before { behind to_the_cut stopped_in_part first_halves ≢ before to_the_cut }
    ensures not_after { behind to_the_cut stopped_in_part first_halves ≢ made_all its_changes (before to_the_cut) }
    ensures maps { (places_after the_cut its_maps the_file 0 ≡ true) × (places_after the_cut its_maps the_file 1 ≡ false) }
    ensures end { (c : Pick) → blocks_of ((run all_steps start).found the_server c) ≡ Some zeros ∷ None ∷ None ∷ [] }
    ensures over { (c : Pick) → ((run all_steps start).found the_server c).works the_work ≡ None }
{}

/// A server is stopped while it puts a flag, which carries out no cut. So what `only_a_cut_is_found_in_part` asks of a stop is met.
pub fn a_flag_is_found_whole_or_not_at_all()
    ensures no_cut { list_any carries_cut flag_changes ≡ false }
    ensures left { (c : Pick) → IsStopState (before to_the_flag) flag_changes (behind to_the_flag stopped_at_the_flag c) }
{}
