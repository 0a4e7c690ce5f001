//! What follows from what a node leaves.
#![tactic(auto)]

ghost use Rattle.jn_node_laws.specs.Ends.{BooksLeadOnce, FoundIsGiven, FramesLead, NodesAreCutShort, NodesComplete, NodesEndAsGiven, NodesEndInOneWay, NodesEndOnce, OneEndIsGiven, ServedAsBooksLead, SomeEndIsGiven};
ghost use Rattle.jn_node_laws.specs.Lockstep.{FramesFixWhatIsSent, ImagesFixServers};

use jn_wire::{pieces_join, what_is_read_can_be_taken};

/// Of two servers of one number and counts that are alike, and are given the same frames, what is sent is the same, and they are alike again.
pub fn what_is_sent_is_fixed_by_the_frames()
    ensures { FramesFixWhatIsSent }
{}

/// Two servers that come up on disks of one image are alike.
pub fn servers_of_one_image_come_up_alike()
    ensures { ImagesFixServers }
{}

/// A node ends by what it was given, unless a call of the outside fails or memory runs out: it is done, or its image is refused, a limit is
/// reached, bytes are no frame, or others wait for it.
pub fn a_node_ends_by_what_it_was_given()
    ensures { NodesComplete }
{}

/// What a node is given, its image and what its source has, asks for one of these ends at most, and for one text.
pub fn one_end_is_given()
    ensures { OneEndIsGiven }
{}

/// Where its image is found, the end and the text that it asks for are computed.
pub fn an_image_that_is_found_is_given_an_end()
    ensures { FoundIsGiven }
{
    what_is_read_can_be_taken();
}

/// In any case it can't be that it asks for none, where what is kept are bytes.
pub fn some_end_is_given()
    ensures { SomeEndIsGiven }
{
    what_is_read_can_be_taken();
}

/// Whatever bytes a source has, what their whole frames lead to is given by the books of the server.
pub fn whole_frames_lead_to_an_end()
    ensures { FramesLead }
{
    what_is_read_can_be_taken();
}

/// What frames lead to by the books is one thing.
pub fn frames_lead_to_one_end()
    ensures { BooksLeadOnce }
{}

/// And it is what a server sends and leaves that served the frames on its pages.
pub fn what_is_served_is_what_the_books_lead_to()
    ensures { ServedAsBooksLead }
{}

/// Where no call fails, a node comes to the end that was given and has written that text, or memory runs out and it has written a front of it.
pub fn a_node_ends_as_it_was_given()
    ensures { NodesEndAsGiven }
{
    pieces_join();
}

/// What is said of two of these ends never holds of one call.
pub fn a_node_ends_once()
    ensures { NodesEndOnce }
{
    pieces_join();
}

/// What it was given fixes its status, and what it writes.
pub fn a_node_ends_in_one_way()
    ensures { NodesEndInOneWay }
{
    pieces_join();
}

/// Where memory runs out, a node has written a front of what it writes where memory suffices.
pub fn a_node_without_memory_is_cut_short()
    ensures { NodesAreCutShort }
{
    pieces_join();
}
