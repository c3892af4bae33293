//! Laws of the names of threads.
ghost use Rattle.l4_commands.specs.NameLaws.{HideNoWord, StandForThreads};

/// Ghost function: gives a proof that a name hides no word of the language: a token that may become a name has no other meaning in any place
/// of a line. It compiles to nothing.
pub fn names_hide_no_word()
    ensures { HideNoWord }
{}

/// Ghost function: gives a proof that a name is read as the thread to which it was given last. It compiles to nothing.
pub fn names_stand_for_threads()
    ensures { StandForThreads }
{}
