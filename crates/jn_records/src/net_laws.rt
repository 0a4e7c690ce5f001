//! What carrying out a list of intentions comes to.
ghost use Rattle.std.specs.Prelude.{◌≡◌, true, List, None, is_some};
ghost use Rattle.jn_base.specs.declared.names.FileNo.{FileNo};
ghost use Rattle.jn_base.specs.declared.names.LockUnit.{LockUnit};
ghost use Rattle.jn_base.specs.declared.names.LockUnit.TheVariants.{File};
ghost use Rattle.jn_base.specs.declared.op.Op.{Op};
ghost use Rattle.jn_base.specs.declared.op.Answer.TheVariants.{Did};
ghost use Rattle.jn_order.specs.Files.{Files, change, answer_to};
ghost use Rattle.jn_order.specs.Changes.{files_then, all_did};
ghost use Rattle.jn_records.specs.declared.intention.Intention.{Intention};
ghost use Rattle.jn_records.specs.NetLists.{InOrder, FilesThere, list_change, net_change, carried_out, net_of, added, added_all, no_net, names_file};

/// Carrying out a list changes at once what its intentions change one after another, and a list in order
/// changes what its net says.
pub fn a_list_is_one_change()
    ensures carried { (list : List Intention) (files : Files) → carried_out list files ≡ change (list_change list) files }
    ensures net { (list : List Intention) → InOrder list → list_change list ≡ net_change (net_of list) }
{}

/// On files where each operation is done in its turn, their net list gives what they give one after another.
pub fn a_net_list_gives_what_its_operations_give()
    ensures { (list : List Intention) (ops : List Op) (files : Files) → InOrder list → net_of list ≡ added_all no_net ops → all_did ops files ≡ true
        → carried_out list files ≡ files_then ops files }
{}

/// Files that agree where a list changes nothing are the same once it is carried out on them. So a list that was carried
/// out in part, any number of times, gives the same files when it is carried out again from its start.
pub fn carrying_out_again_gives_the_same()
    ensures { (list : List Intention) (a b : Files) → ((u : LockUnit) → list_change list u ≡ None → a u ≡ b u) → carried_out list a ≡ carried_out list b }
{}

/// Each cut and put of a net list still finds its file there in its turn when one more operation is added
/// that was done on the files seen through the list.
pub fn an_operation_that_was_done_keeps_the_files_there()
    ensures { (old new : List Intention) (op : Op) (files : Files) → InOrder old → InOrder new → net_of new ≡ added (net_of old) op
        → answer_to op (change (list_change old) files) ≡ Did → FilesThere old files → FilesThere new files }
{}

/// Whether each cut and put finds its file is a matter of the files that the list names.
pub fn the_files_named_tell_whether_files_are_there()
    ensures { (list : List Intention) (a b : Files) → ((f : FileNo) → names_file list f ≡ true → is_some (a (File f)) ≡ is_some (b (File f))) → FilesThere list a → FilesThere list b }
{}
