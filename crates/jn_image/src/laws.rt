//! What a sound image is for, and that its bytes tell which it is.

ghost use Rattle.jn_image.specs.Laws.{SoundImagesHaveSoundPages, SoundImagesFit, BytesTellTheImage};

/// A server's store may begin with the pages of a sound image.
#[tactic(auto, using(crate::proofs::SoundPages::sound_pages))]
pub fn a_sound_image_has_sound_pages()
    ensures { SoundImagesHaveSoundPages }
{}

/// Each page of a sound image has 512 bytes, as each page of an image in memory has.
#[tactic(auto, using(crate::proofs::SoundFits::sound_fits))]
pub fn a_sound_image_fits()
    ensures { SoundImagesFit }
{}

/// Two images with the same bytes are one, where each page has 512 bytes.
#[tactic(auto, using(crate::proofs::SoundFits::bytes_tell))]
pub fn bytes_tell_the_image()
    ensures { BytesTellTheImage }
{}
