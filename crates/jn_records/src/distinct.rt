//! No page is two values.
ghost use Rattle.std.specs.Prelude.{◌≡◌, ◌<◌, ◌^◌, ℕ, true};
ghost use Rattle.jn_records.specs.declared.root.Root.{Root};
ghost use Rattle.jn_records.specs.declared.head.Head.{Head};
ghost use Rattle.jn_records.specs.declared.record.Record.{Record};
ghost use Rattle.jn_records.specs.Pages.{root_page, IsRoot};
ghost use Rattle.jn_records.specs.Heads.{head_page, IsHead, FileFits};
ghost use Rattle.jn_records.specs.Records.{record_page, has_page, RecordFits};

/// Values of one kind that have one page are one value.
pub fn no_page_is_two_values()
    ensures roots { (a b : Root) → IsRoot a → IsRoot b → root_page a ≡ root_page b → a ≡ b }
    ensures heads { (leaves : ℕ) (a b : Head) → leaves < 2 ^ 16 → IsHead leaves a → FileFits a → IsHead leaves b → FileFits b → head_page a ≡ head_page b → a ≡ b }
    ensures records { (a b : Record) → has_page a ≡ true → RecordFits a → has_page b ≡ true → RecordFits b → record_page a ≡ record_page b → a ≡ b }
{}
