//! The help of `l4_steps`, below its arguments.

/// What `l4_steps` is.
pub const ABOUT: &str =
    "Executes steps of an L4 X.2 kernel core in any order, and prints each answer.";

/// The help of `l4_steps`: the language of step lists, and their answers.
pub const LANGUAGE: &str = "\
Reads a list from FILE, or from standard input if FILE is omitted or is -, one
step or query per line. Tokens are separated by spaces. Empty lines, and lines
that begin with #, are skipped.

  start N ipc TO FROM TIMEOUTS ACCEPTOR WORD..   thread N starts a call
  start N fault ADDRESS IP ACCESS
  start N unmap CONTROL WORD..
  start N create ID SPACE PAGER
  start N setpager ID PAGER
  start N delete ID
  transfer S R       delivers the message of thread S to thread R
  expire N           expires the timeout of thread N
  timeout N          ends the wait of thread N, as a clock outside the kernel may
                     at any time (ErrorCode 2 or 3)
  cancel N           cancels the wait of thread N (ErrorCode 6 or 7)
  enabled            prints which step comes next
  reply N            prints how the last call of thread N ended, or none if it has
                     not ended yet, or if N has made no call
  space N            prints the number of the space in which thread N runs
  pages SPACE        lists the present pages of a space

N, S and R are thread numbers. TO, FROM, ID, PAGER and the SPACE of create are
whole thread ids, as words. Numbers are decimal, or hexadecimal with a 0x prefix.
ACCESS is the sum of r (4), w (2) and x (1).

  started                    the step was executed; a line for each call that
                             ended follows. Other outcomes: done, no-window,
                             entangled, no-memory, expired and canceled
  N REPLY                    how the call of thread N ended: N ipc TAG ERROR FROM
                             WORD.., N hit, N answered, N failed CODE,
                             N unmapped, N controlled or N gone
  refused CODE               the step was refused and changed nothing (l4 --help
                             lists the codes)

If a line is invalid, standard error names its wrong token and what was expected.

Exit status: 0 at the end of the list, 2 if the command line or a line is
invalid or FILE cannot be opened, 3 if a read or a write failed, 4 if there is not
enough memory.

docs/profile.md of the source lists how this kernel differs from the L4 X.2
manual.";
