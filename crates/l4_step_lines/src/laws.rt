//! Laws of all lines.
ghost use Rattle.l4_step_lines.specs.ReadBack.{ReadsBack};

/// The line that `put_step` writes for a step requests this step, wherever the line is in a list.
pub fn the_line_of_a_step_reads_back()
    ensures { ReadsBack }
{}
