ghost use Rattle.std.specs.Prelude.{◌≡◌, List, Some};
ghost use Rattle.l4_record.specs.declared.entries.Entry.{Entry as AnEntry};
ghost use Rattle.l4_segments.specs.declared.files.Heading.{Heading as AHeading};
ghost use Rattle.l4_segments.specs.Entries.{entry_code, entry_at, EntryFits};
ghost use Rattle.l4_segments.specs.Files.{IsSegment, file_of};

/// Ghost function: each entry is read back from the words that were written for it. It compiles to nothing.
pub fn written_entries_read_back()
    ensures { (entry : AnEntry) → EntryFits entry → entry_at (entry_code entry) ≡ Some entry }
{}

/// Ghost function: two segments with the same file are the same. It compiles to nothing.
pub fn files_determine_segments()
    ensures { (h g : AHeading) (entries others : List AnEntry)
        → IsSegment h entries → IsSegment g others
        → file_of h entries ≡ file_of g others → (h ≡ g) × (entries ≡ others) }
{}
