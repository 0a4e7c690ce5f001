//! Which images are accepted, and which are refused.

ghost use Rattle.jn_image_files.specs.Laws.{AcceptedIsNotRefused, AllAcceptedNoneRefused, BytesTellTheSoundImage, OneCauseRefuses};

/// The image of a server that is accepted is refused by no cause.
#[tactic(auto, using(crate::proofs::Exclusive::accepted_is_not_refused))]
pub fn an_accepted_image_is_not_refused()
    ensures { AcceptedIsNotRefused }
{}

/// Where the image of each server is accepted, none is refused.
pub fn where_all_are_accepted_none_is_refused()
    ensures { AllAcceptedNoneRefused }
{}

/// An image that is refused is refused by one cause.
#[tactic(auto, using(crate::proofs::Exclusive::one_cause))]
pub fn an_image_is_refused_by_one_cause()
    ensures { OneCauseRefuses }
{}

/// The bytes of a sound image tell which image it is.
#[tactic(auto, using(crate::proofs::Exclusive::one_image))]
pub fn bytes_tell_the_sound_image()
    ensures { BytesTellTheSoundImage }
{}
