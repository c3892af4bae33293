ghost use Rattle.std.specs.Prelude.{◌≡◌, ◌++◌, ◌%◌, ℕ, List};
ghost use Rattle.l4_fpage.specs.Fpages.{ReadsAs, IsMalformed, size_field};
ghost use Rattle.l4_fpage.specs.declared.fpages.Fpage.{Fpage as AnFpage};
ghost use Rattle.l4_fpage.specs.declared.sizes.PageSize.{PageSize as APageSize};
ghost use Rattle.l4_msg.specs.Words.{WindowReads, IsBadWindow, ItemReads};
ghost use Rattle.l4_msg.specs.declared.items.Item.{Item as AnItem};
ghost use Rattle.l4_msg.specs.declared.messages.MsgFault.TheVariants.{BadWindow};
ghost use Rattle.l4_decode.specs.Decoded.{IsDecoded};
ghost use Rattle.l4_decode.specs.Fpages.{fpage_text, place_text, granted_text, no_fpage_text, window_text, taken_text};
ghost use Rattle.l4_decode.specs.Items.{item_text, read_item_text};
ghost use Rattle.l4_decode.specs.Refusals.{refusal_text};
ghost use Rattle.l4_decode.specs.declared.decoding.Reading.{Reading as AReading};

/// Ghost function: gives a proof that the text of words is unique. It compiles to nothing.
pub fn decoded_is_unique()
    ensures { (size : APageSize) (reading : AReading) (words s t : List ℕ)
        → IsDecoded size reading words s → IsDecoded size reading words t → s ≡ t }
{}

/// Ghost function: gives a proof that the text of words says how they are read: one word as an fpage or as a receive window, and two words
/// as an item. It compiles to nothing.
pub fn told_as_read()
    ensures fpage { (size : APageSize) (word : ℕ) (fpage : AnFpage) → ReadsAs word fpage
        → fpage_text size word ≡ place_text size fpage ++ granted_text fpage }
    ensures no_fpage { (size : APageSize) (word : ℕ) → IsMalformed word → fpage_text size word
        ≡ no_fpage_text (size_field word) }
    ensures window { (size : APageSize) (word : ℕ) (window : AnFpage) → WindowReads word window
        → window_text size word ≡ taken_text size window }
    ensures no_window { (size : APageSize) (word : ℕ) → IsBadWindow word → window_text size word
        ≡ refusal_text BadWindow }
    ensures item { (size : APageSize) (first second : ℕ) (item : AnItem)
        → ItemReads first second item → item_text size first second
        ≡ read_item_text size (first % 2) item }
{}
