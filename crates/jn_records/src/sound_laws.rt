//! Of which ways an image is unsound.
ghost use Rattle.std.specs.Prelude.{◌≡◌, ℕ, true};
ghost use Rattle.jn_records.specs.Malformed.{malformed_image};
ghost use Rattle.jn_records.specs.Sound.{head_bytes_of, HasOneHead, IsWholeHead};
ghost use Rattle.jn_records.specs.StablePages.{is_used, file_in};

/// A page that begins like a second head of a file and is no head is a fault of its own, and gives the file no second head.
pub fn a_malformed_page_is_no_second_head()
    ensures used { (i : ℕ) → is_used (head_bytes_of malformed_image i) ≡ true }
    ensures same_file { (i : ℕ) → file_in (head_bytes_of malformed_image i) ≡ 9 }
    ensures one_head { (f : ℕ) → HasOneHead malformed_image f }
    ensures head { IsWholeHead malformed_image 0 }
    ensures no_head { IsWholeHead malformed_image 1 → ⊥ }
{}
