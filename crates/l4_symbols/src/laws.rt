//! What the words of symbolic tokens mean.
ghost use Rattle.std.specs.Prelude.{◌≡◌, ◌↔◌, ◌⊎◌, ℕ, List, ◌∷◌, Bool, false, None, Ok};
ghost use Rattle.l4_fpage.specs.Fpages.{HoldsPage, ReadsAs};
ghost use Rattle.l4_fpage.specs.Rights.{RightsSet};
ghost use Rattle.l4_fpage.specs.declared.fpages.Fpage.{Fpage as AnFpage};
ghost use Rattle.l4_fpage.specs.declared.sizes.PageSize.{PageSize as APageSize};
ghost use Rattle.l4_ipc.specs.Constructors.{timeout_bits};
ghost use Rattle.l4_ipc.specs.Start.{send_timeout, receive_timeout, has_bad_timeout};
ghost use Rattle.l4_ipc.specs.declared.calls.IpcCall.{IpcCall as AnIpc};
ghost use Rattle.l4_ipc.specs.declared.constructors.Timeout.{Timeout};
ghost use Rattle.l4_msg.specs.Messages.{message_words};
ghost use Rattle.l4_msg.specs.Words.{ItemReads, WindowReads, item_words};
ghost use Rattle.l4_msg.specs.declared.items.Item.{Item as AnItem};
ghost use Rattle.l4_msg.specs.declared.messages.Message.{Message as AMessage};
ghost use Rattle.l4_symbols.specs.Computed.{word_in};
ghost use Rattle.l4_symbols.specs.Items.{IsFpageOf, IsOneOf, NamesItem};
ghost use Rattle.l4_symbols.specs.Messages.{IsMessageOf};
ghost use Rattle.l4_symbols.specs.Rows.{message_words_in};
ghost use Rattle.l4_symbols.specs.Spelling.{control_in, id_in, timeouts_in};
ghost use Rattle.l4_symbols.specs.Words.{FpageWord, IsInWindow, IsWindowOf, NamesFpage, NamesWindow, NamesWord, WindowWord, control_word, id_word, timeouts_word};
ghost use Rattle.l4_symbols.specs.declared.spelling.Pages.{Pages as SomePages};
ghost use Rattle.l4_symbols.specs.declared.spelling.WindowParts.{WindowParts as SomeWindow};
ghost use Rattle.l4_symbols.specs.declared.words.WordKind.{WordKind as AWordKind};
ghost use Rattle.l4_text.specs.Numbers.{number_of};
ghost use Rattle.l4_threads.specs.Control.{IsGlobalId};
ghost use Rattle.l4_threads.specs.Threads.{nilthread, anythread};
ghost use Rattle.l4_unmap.specs.Unmap.{fpage_count, with_own};

/// Ghost function: gives a proof that the words of a token are read as what the token names. It compiles to nothing.
///
/// The words of an item are read as an item with its kind, send base, pages and rights. The word of an fpage is read as an fpage with its
/// pages and rights, and the word of a window as a window with its pages and without rights. The pages of each are those of the token. A call
/// with the timeouts word of a token has the token's send timeout and receive timeout, and is not refused for them. The control word of a token is
/// read as its number of fpages, and as a flush if it is one. The word of an id is that of nilthread, of anythread, or of the global id with the
/// number and the version of the token, which a thread can have. A word that is computed from a
/// token is one that the token names, and the words that are computed from the tokens of a message with a label are those of a message that the
/// tokens name.
pub fn read_as_named()
    ensures item { (size : APageSize) (token : List ℕ) (item read : AnItem) (more : Bool)
        → NamesItem size token item
        → ItemReads (item_words item more).0 (item_words item more).1 read
        → NamesItem size token read }
    ensures fpage { (size : APageSize) (token : List ℕ) (word : ℕ) (read : AnFpage)
        → FpageWord size token word → ReadsAs word read → NamesFpage size token read }
    ensures window { (size : APageSize) (token : List ℕ) (word : ℕ) (read : AnFpage)
        → WindowWord size token word → WindowReads word read → NamesWindow size token read }
    ensures pages { (size : APageSize) (pages : SomePages) (rights : RightsSet) (fpage : AnFpage)
        (page : ℕ) → IsFpageOf size pages rights fpage
        → HoldsPage size fpage page ↔ IsOneOf pages page }
    ensures inside { (size : APageSize) (parts : SomeWindow) (window : AnFpage) (page : ℕ)
        → IsWindowOf size parts window → HoldsPage size window page ↔ IsInWindow size parts page }
    ensures computed { (kind : AWordKind) (size : APageSize) (token : List ℕ) (word : ℕ)
        → word_in kind size token ≡ Ok word → NamesWord kind size token word }
    ensures words { (size : APageSize) (tag : List ℕ) (tokens : List (List ℕ)) (words : List ℕ)
        → number_of tag ≡ None → message_words_in size (tag ∷ tokens) ≡ Ok words
        → (m : AMessage) × IsMessageOf size (tag ∷ tokens) m × (words ≡ message_words m) }
    ensures timeouts { (token : List ℕ) (call : AnIpc) → timeouts_word token ≡ Ok call.timeouts
        → (timeouts : Timeout × Timeout) × (timeouts_in token ≡ Ok timeouts)
        × (send_timeout call ≡ timeout_bits timeouts.0)
        × (receive_timeout call ≡ timeout_bits timeouts.1) × (has_bad_timeout call ≡ false) }
    ensures control { (token : List ℕ) (word : ℕ) → control_word token ≡ Ok word
        → (control : Bool × ℕ) × (control_in token ≡ Ok control)
        × (with_own word ≡ control.0) × (fpage_count word ≡ control.1) }
    ensures id { (token : List ℕ) (word : ℕ) → id_word token ≡ Ok word
        → (word ≡ nilthread.0) ⊎ ((word ≡ anythread.0) ⊎ ((parts : ℕ × ℕ) × (id_in token ≡ Ok parts)
        × IsGlobalId parts.0 parts.1 (record { 0 = word }))) }
{}
