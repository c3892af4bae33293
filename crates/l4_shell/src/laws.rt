//! Laws of all scripts.
ghost use Rattle.l4_shell.specs.Alike.{LeadsToOne};
ghost use Rattle.l4_shell.specs.Room.{NeverFull};
ghost use Rattle.l4_shell.specs.Sizes.{SizeStays};

/// Ghost function: gives a proof that a script's machine, sigma0's table and all tables of regions keep one page size from the first line
/// to the last, the size with which the machine booted. It compiles to nothing.
pub fn the_size_of_pages_stays()
    ensures { SizeStays }
{}

/// Ghost function: gives a proof that no answer of a script whose history is handed out says that the history is full (L1). Every list of
/// answers without L1 that a script can have, it can also have if its history is handed out. It compiles to nothing.
pub fn the_history_never_fills_up()
    ensures { NeverFull }
{}

/// Ghost function: gives a proof that a line leads to one machine, and to the same servers, seats and names, if no answer says that memory
/// ran out or that the history is full. It compiles to nothing.
pub fn a_line_leads_to_one_state()
    ensures { LeadsToOne }
{}
