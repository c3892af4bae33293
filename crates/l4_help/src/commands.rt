//! The help of `l4` and its commands, below their arguments.

/// What `l4` is.
pub const ABOUT: &str = "An L4 X.2 kernel core in user space.";

/// The help of `l4 plan`.
pub const PLAN: &str = "\
Prints the shortest list of map items that moves a region: the COUNT pages that
start at page SOURCE move to the pages that start at page TARGET, with these
rights. No other page moves. SOURCE, TARGET and COUNT are decimal numbers.

Each item is printed with one of its pages. No map item that stays within the
region could move two of the printed pages, so no list is shorter.

  tag WORD                   the tag of a message; at most 31 items follow it
  item WORD WORD page P      a map item, and one of its pages
  too-long                   every list has more than 1,984 items; 1,985 lines
                             'page P' follow and prove it
  refused CODE               there is no plan: N1, N2 or N3 (see l4 --help)

Exit status: 0 for a plan, 1 if there is none, 2 if the command line is invalid,
3 if a write failed.";

/// The help of `l4 check`.
pub const CHECK: &str = "\
Reads a plan from FILE, or from standard input if FILE is omitted or is -, in
the form that 'l4 plan' prints. Checks that the plan moves exactly the region,
and that no list of map items is shorter.

  proved K                   the plan has K items, and no list of map items is
                             shorter
  proved too-long            every list has more than 1,984 items
  fault CODE                 the plan is wrong; most codes carry a number (C1 to
                             C6: see l4 --help)
  line L refused CODE        line L is not in the form that 'l4 plan' prints (S2
                             to S4), or its tag does not match the number of
                             items that follow it

Exit status: 0 if the plan is proved, 1 if it is not, 2 if the command line is
invalid or FILE cannot be opened, 3 if a read or a write failed.";

/// The help of `l4 history`.
pub const HISTORY: &str = "\
Runs a script from FILE, or from standard input if FILE is omitted or is -, as
'l4 run' does. Once the script has ended, prints the kernel steps it executed,
instead of the script's answers. Each step is a line that l4_steps can read: the
start of a call, or a transfer or expiry that followed it. l4_steps repeats
these steps if it has the same --frames and --page-size.

  l4 history < script | l4_steps

With --answers, each step is followed by the answer that it got in the script,
in the form that l4_steps prints. These lines begin with '# ', so l4_steps skips them. A
refused line of the script executes no step. It is reported only with --strict: the
script ends there, and the steps before it are printed.

With --from, no script is run: prints the history in files that 'l4 run
--history-to' wrote, in the order given. All segments in them must be of one
kernel, and each must begin where the one before it ended. The steps are
executed again.

  l4 run --history-to run.seg script
  l4 history --from run.seg

A file, a segment or an entry that is wrong has one of these codes. The bytes of
a file, its segments, and the entries count from 0:

  F1    the segment does not begin with LSG4
  F2    the version of the file is not 1
  F3    the number of frames is not in 1..=4096
  F4    the page size is neither 4096 nor 1024 bytes
  F5    the number of an entry would exceed 2^63
  F6    the words are not those of an entry
  F7    the checksum is not that of the segment
  F8    the segment is cut off
  J1    the number of frames is not that of the segments before it
  J2    the page size is not that of the segments before it
  J3    the segment does not begin with the next entry
  J4    the step is neither the next step nor the start of a call by its seat
  J5    the kernel gives this step another answer

Exit status: as for 'l4 run'. With --from, 2 also for a file, a segment or an
entry that is wrong. With --answers, 4 also if a step gets another answer when it
is executed again, because memory ran out.";

/// The help of `l4 judge`.
pub const JUDGE: &str = "\
Reads a step list from FILE, or from standard input if FILE is omitted or is -,
in the language of l4_steps, with another kernel's answers below each step or
query. Executes the steps on this kernel, and compares the answers.

A line that begins with '# ' is one line of the other kernel's answer to the step
or query above it, in the form that l4_steps prints. 'l4 history --answers'
writes such lists. Any other line that begins with # (as '## text') is a comment.

  transfer 3 5
  # done
  # 3 ipc 00000000 0 00000000
  # ?

Each step or query must have all the lines that l4_steps prints, in the same
order. The line '# ?' takes the place of any one line, and is not counted. With
--partial, a step or query without any answer is executed, but not compared.

With --against, the steps and queries must be those of LIST: the same lines in
the same order, byte for byte. Comments and answers in LIST are ignored.

  agrees: N steps, A answers
                             all answers are those of this kernel, or '# ?'
  line L: STEP: expected ANSWER, found ANSWER
                             line L is the first answer that differs: this
                             kernel's answer, and the one in the list. 'no
                             answer' or 'no further answer' takes the place of a
                             missing line. After 'refused K1', the enabled step
                             is named
  line L: expected STEP, found STEP
                             line L is the first step or query that LIST does
                             not have there: the one of LIST, and the one in
                             FILE. 'the end of the list' takes the place of a
                             missing one

With --all, every difference is printed. After each, the steps continue from the
state of this kernel, and the next step or query is compared with the next one
of LIST. Without it, the rest of FILE is read after a difference, but not judged.

With --follow, the last line 'start' of each thread that STEP names is printed
below a wrong ANSWER. A 'start' names its thread, and the one that it sends to.

    line L: start CALL

FILE can be the output of a kernel that runs, such as a serial line. A read takes
at most 4096 bytes. All whole lines in them are judged, and their differences are
written, before the next read begins: the comparison is never further behind.

Exit status: 0 if the list agrees, 1 if it differs, 2 if the command line or a
list is invalid or a file cannot be opened, 3 if a read or a write failed, 4 if
there is not enough memory, 5 if nothing differs, but no answer was compared.";

/// The help of `l4 why`.
pub const WHY: &str = "\
Runs a script from FILE, or from standard input if FILE is omitted or is -, as
'l4 run' does. Once the script has ended, prints how page PAGE got into the
space of thread THREAD, instead of the script's answers: the page that sigma0
had at boot, and then each transfer in order. A refused line is reported only
with --strict: the script ends there, and nothing is printed on standard output.

  sigma0 page P              page P of sigma0's space, which has frame P
  entry E transfer S R KIND SOURCE TARGET RIGHTS RIGHTS
                             the transfer that is entry E of the history, counted
                             from 0: an item in the message of thread S moved
                             page SOURCE of S's space to page TARGET of R's.
                             KIND is map, or grant if S lost the page. The
                             first RIGHTS are those of S's page just before the
                             transfer, the second are those in the item
  page P frame F RIGHTS      the page at the end of the script
  absent                     the page is not present
  removed by entry E STEP    the page was present before entry E of the history,
                             and has not been present since
  refused K2                 there is no thread with this number

Entry E is line E + 1 of the output of 'l4 history'.

With --from, no script is run: uses the history in files that 'l4 run
--history-to' wrote, in the order given, with the rules and the codes of 'l4
history --from'. Write --from last: all words behind it are files.

  l4 run --history-to run.seg script
  l4 why 4 16 --from run.seg

Exit status: the same as for 'l4 run', and 1 if the page is not present or the
thread does not exist. 4 also if a transfer ran out of memory in the script, but
not when it was executed again. With --from, 2 also for a file, a segment or an
entry that is wrong.";

/// The help of `l4 decode`.
pub const DECODE: &str = "\
Explains the words of a message, the tag first: one line for the tag, one for
each untyped word and one for each item. The last line says what the message is
as a whole. A single word is explained as a tag, as an fpage, as a receive window
and as a thread id. With --as, the words are read as one message, or each of them
as an fpage, a window, an id or the control of an Unmap.

  tag WORD: label L, flags F, untyped U, typed T
                             a tag: U untyped and T typed words follow it. The
                             label of a page fault is followed by the access
  word K WORD: untyped, D    word K of the message, and its value in decimal.
                             'half an item' marks an item without its second
                             word, 'ignored' a word after the message
  item K WORD WORD: KIND, send base A, C B, FPAGE
                             item K, counted from 0: map or grant, the send base
                             in bytes, the bit that announces another item (the
                             kernel ignores it), and the fpage
  fpage WORD: FPAGE          the pages and their rights; complete, nil, or not an
                             fpage
  window WORD: ..            the pages at which a receiver accepts items
  id WORD: thread N, version V
                             the number and version of a thread, or nilthread
                             or anythread. Local ids and anylocalthread are not
                             supported
  control WORD: KIND, fpages K
                             unmap, or flush if the caller's own pages lose the
                             rights too, and the number of fpages; with --as only
  message: untyped U, items I
                             a message. A page fault is shown with its address,
                             instruction pointer and access instead, a request to
                             sigma0 with its fpage
  refused CODE: REASON       the words are not a message, and why (M1 to M7: see
                             l4 --help)

Exit status: 0, or 2 if the command line is invalid, 3 if a write failed.";

/// The help of `l4 test`.
pub const TEST: &str = "\
Runs each script on a new kernel, and compares the answers to each line with the
answers that it expects. A FILE that is - is standard input. Expectations are
comments, so 'l4 run' ignores them. It ignores the '#!' line too: give it these
options on its command line.

  #= ANSWER                  expects this answer to the nearest line above that is
                             neither empty nor a comment. The expectations of a
                             line are all of its answers, in order
  #= ..                      allows any further answers to that line
  #! --frames N --page-size BYTES
                             as the first line, sets options of 'l4 run'; as the
                             second line, if the first one begins with '#!/'

A line without expectations may have any answers but a refusal. The refusal of a
line, or of a call of a served thread, has to be expected by its text: '#= ..' does
not allow it. A script without expectations, or with '#= ..' alone, tests nothing,
and does not pass. With --lenient, both pass. Prints one line per file:

  FILE: N lines, M expectations, passed
  FILE: line L: expected ANSWER, found ANSWER

M does not count '#= ..'. The second form is the first difference. 'no further answer'
stands for an answer that is not there. If there are more answers than expected, or a
refusal is not expected ('no refusal'), L is the line that they answer. Expectations
are answers without the additions of --explain, --number and --moves.

In TAP, '\\#' stands for '#' in names, answers and reasons, '\\\\' for a backslash and
'\\n' for a newline, so that no part of them is a directive.

A file with an 'unordered' line, or whose name ends in .litmus or .plan, is a litmus
test (see l4 orders). At most 1,000,000 states are visited. It passes if it has a
rule, every order was followed and no rule is broken. Without a rule, or with a
refused line before 'unordered', it passes only with --lenient. Prints its summary,
and below it the rules that are broken, as 'l4 orders' does:

  FILE: N outcomes, M orders, S states, passed
  FILE: N outcomes, M orders, S states, failed

With --write, no script is compared. A copy of each script is written to FILE.new.
It expects all answers, directly below their lines. It has no other expectations, so
'#= ..' is replaced too. All other lines are as in FILE, in the same order. The copy
passes the test: it expects refusals too. If no line has answers, there is no copy.
FILE itself is not changed, and a FILE.new that exists is not overwritten. A
litmus test has no expectations, so it is refused. Prints one line per file:

  FILE: N lines, M expectations, written to FILE.new

Exit status: 0 if all files pass, or all copies are written, 1 if an answer differs,
a refusal is not expected, a rule is broken or not every order was followed, 2 if the
command line or a file is invalid, a file tests nothing or FILE cannot be opened, 3 if
a read or a write failed, 4 if there was not enough memory. With several files, the
greatest of their statuses.";

/// The help of `l4 orders`.
pub const ORDERS: &str = "\
Reads a litmus test, a script with the lines 'unordered' and 'finally', from
FILE, or from standard input if FILE is omitted or is -. Runs the lines before
'unordered' in their order. Then lets the threads run their lines in every
possible order, in which the lines of each thread keep theirs. At the end of an
order, answers the queries after 'finally'. Prints every outcome that some order
has:

  outcome K                  the answers follow, with the line numbers of the
                             outcome's script
  stuck N L                  at the end of the order, thread N waits, or does not
                             exist, and its next line is line L of the test
  order L L ..               an order that produces the outcome: line numbers
  N outcomes, M orders, S states
                             every order was followed: there are M orders, with N
                             different outcomes; S states were visited
  N outcomes, S states, incomplete: WORD
                             not every order was followed: S states are the most
                             (most), memory ran out (memory), or the history of
                             an order is full (history). The outcomes are correct,
                             but there may be more
  broken L K                 outcome K is the first that breaks the rule in line L;
                             an order that produces it follows

A line belongs to the thread that makes its call: root (2) for thread, setpager and
delete, and P for region P and serve P. A thread runs its next line, with all steps
and acts of served threads that follow, unless it waits or does not exist. A line
timeout N or cancel N belongs to no thread: it can be run whenever N waits, and is
left over if N does not wait any more. Only show, parent, reply, never and always
are allowed after 'finally', and none of them before it. 'l4 run' executes a litmus
test in the order in which it is written, and checks no rule. Rules:

  never ANSWER               no outcome has this line
  always ANSWER              every outcome has this line
  never * waits              no thread waits at the end of an order
  never deadlock             no thread waits at the end of an order, or has lines
                             left

In a rule, a thread's name stands for its number. ANSWER must be a line that an
outcome can have. Behind 'waits' and 'deadlock', 'may-wait N ..' names threads that
may wait, and have lines left. These two rules query the replies of all threads that
have lines or that a line creates.

The first line can be '#!' and the options --frames and --page-size. An option of the
command line takes precedence. A line before 'unordered' that is refused ends the
command with status 2, unless --lenient is given. --witness K exits with 0 even if a
rule is broken.

With --dot, prints the graph of the states in the DOT language of Graphviz. An arrow
without a line leads to the state at 'unordered'. Every other edge has the line that
a thread executes, with its number, and leads to the state after it. A state with a
double border ends an order, and names its outcome. The first comment is the summary,
and the second one has the rules that are broken. If not every order was followed, no
state is printed. The exit status is as without --dot.

With --explain, prints the lines of each order, and not only their numbers.

  l4 orders --dot FILE | dot -Tsvg > states.svg

A line that cannot be part of a litmus test has one of these codes, or S1 to S5 (see
l4 --help):

  O1    a litmus test has one unordered line, and after it at most one finally
        line
  O2    a query or a rule is allowed only after the finally line, and a name only
        before the unordered line
  O3    after the finally line, only show, parent, reply, never and always are
        allowed
  O4    steps is not allowed, because its answer depends on the whole order
  O5    no line creates the thread whose call this is
  O6    the litmus test has no unordered line
  O7    no outcome can have the line that the rule names
  O8    an expectation is not allowed in a litmus test: state a rule instead

Exit status: 0 if every order was followed and no rule is broken, 1 otherwise, 2 if
the command line or a line of the test is invalid or FILE cannot be opened, 3 if a
read or a write failed, 4 if there is not enough memory.";

/// The help of `l4 encode`.
pub const ENCODE: &str = "\
Prints the words that tokens stand for. Without --as, or with --as message, the
tokens are a message: the tag, then the untyped words, and then the items. Pages
have the size of --page-size. Numbers are decimal, or hexadecimal with a 0x
prefix. A shell takes > for a redirection, so put quotes around an item.

  tag:LABEL                  the tag, with this label (0 to 65535). Its counts are
                             those of the tokens that follow it
  NUMBER                     an untyped word
  map:FIRST+COUNT>BASE:RIGHTS
                             a map item: COUNT pages that start at page FIRST, with
                             the send base at page BASE. COUNT is a power of two,
                             and FIRST a multiple of it; for one page, +COUNT can
                             be omitted. RIGHTS are r, w and x in this order, with
                             - for each right that is left out
  grant:FIRST+COUNT>BASE:RIGHTS
                             a grant item

With any other --as, each token stands for a word of its own (at most 64 tokens):

  --as fpage FIRST+COUNT:RIGHTS
                             an fpage, such as 16+4:rwx, for 'unmap'
  --as window all            accepts pages anywhere
  --as window none           accepts no message with pages
  --as window FIRST+COUNT    accepts pages at COUNT pages that start at page FIRST
  --as timeouts SEND,RECEIVE the timeouts of a call, each of them never or zero. A
                             single never or zero sets both
  --as control unmap:COUNT   the control of an Unmap with COUNT fpages (1 to 64)
  --as control flush:COUNT   the same: the caller's own pages lose the rights too
  --as id THREAD,VERSION     the id of a thread; THREAD alone has version 1
  --as id nil, --as id any   nilthread, anythread

  l4 encode tag:7 1 2 'map:16+4>32:rwx' 'grant:3>0:r--'
  l4 encode --as window 32+4

The words are printed on one line, in hexadecimal with a 0x prefix, as 'l4
decode' and scripts read them.

Exit status: 0, or 2 if the command line is invalid, 3 if a write failed.";

/// The help of `l4` itself: the language of scripts, their answers and the codes.
pub const SCRIPT: &str = "\
Reads a script from FILE, or from standard input if FILE is omitted or is -, and
answers each line on standard output. Every line ends with a newline, including
the last one. Tokens are separated by spaces; a tab is not a separator. Empty
lines, and lines that begin with #, are skipped.

  thread N SPACE PAGER   root creates thread N in a new space (SPACE is new) or
                         in the space of the thread SPACE. PAGER is a thread or
                         nil
  setpager N PAGER       root changes the pager of thread N
  delete N               root deletes thread N, which cannot be 1 or 2. A space
                         is deleted together with its last thread
  recv N FROM WINDOW     N receives from a thread, from any thread (FROM is any)
                         or from no thread (FROM is nil). WINDOW says where N
                         accepts pages: all (anywhere), none (nowhere), 32+4 (in
                         the 4 pages from page 32 on), or an fpage word
  send N TO WORD..       N sends these words, the tag first, to thread TO. They
                         are numbers or the tokens below
  delegate N TO SOURCE TARGET COUNT RIGHTS
                         N maps COUNT of its pages, starting at page SOURCE, to
                         the pages of thread TO's space that start at TARGET.
                         The receiver gets those of RIGHTS (such as r-x) that N's
                         own pages have. N sends the map items that l4 plan
                         prints. If they need more than one message, use part
  part N TO K SOURCE TARGET COUNT RIGHTS
                         N sends message K, counted from 0, of those that l4 plan
                         prints for the region
  ipc N TO FROM TIMEOUTS WINDOW WORD..
                         N sends these words, unless TO is nil, and then
                         receives, unless FROM is nil. TIMEOUTS is never or zero
                         for both phases, or two of these, as zero,never (send,
                         receive). As a number, it has the send timeout in bits
                         31 to 16 and the receive timeout in bits 15 to 0: 0 is
                         never, 0x400 is zero
  unmap N CONTROL FPAGE..
                         N revokes rights from the pages that were mapped from
                         its own. FPAGE is 16+4:rwx (4 pages from page 16 on,
                         and the rights to revoke) or an fpage word. CONTROL is
                         unmap:COUNT for COUNT fpages, or flush:COUNT to revoke
                         the rights from N's own pages too. As a number, its bits
                         5 to 0 are the number of fpages minus 1, and bit 6 is
                         set for flush. If CONTROL or an FPAGE is no number,
                         there must be COUNT fpages
  fault N ADDRESS IP RIGHTS
                         the instruction of N at IP accesses ADDRESS, both in
                         bytes. RIGHTS is the access (such as r--). If the page
                         is not present with these rights, N's pager gets a
                         fault message, and N continues when the pager replies
  region P FIRST SOURCE COUNT RIGHTS
                         adds a region to P's table: P answers a fault in the
                         COUNT pages that start at FIRST with its own pages,
                         which start at SOURCE, and RIGHTS. A table has at most
                         64 regions
  serve P                P receives from any thread, and from then on answers
                         each message by itself, on the line that delivers it. P
                         answers a fault from its table. Thread 1, sigma0,
                         answers a fault or a request for frames by giving each
                         frame to one space. A nil map item answers any other
                         message
  show N FIRST COUNT     lists the present pages of N's space among the COUNT
                         pages that start at page FIRST
  parent N PAGE          prints the parent of a page of N's space: the page from
                         which it was mapped. A granted page keeps its parent
  name NAME N            gives thread N a name: from the next line on, NAME stands
                         for N. A name that is given again stands for the new
                         thread. NAME is a letter and then letters, digits or
                         hyphens, at most 24 in all, and no word of the language.
                         A script has at most 64 names
  reply N                prints how the last call of N ended, or that it has not
                         ended
  timeout N              ends the wait of N, because its timeout has passed by a
                         clock outside the kernel (ErrorCode 2 or 3). If N does
                         not wait, the line is refused (K1)
  cancel N               cancels the wait of N (ErrorCode 6 or 7). If N does not
                         wait, the line is refused (K1)
  steps                  prints the number of steps so far: calls that started,
                         transfers, expiries and canceled waits
  unordered, finally, never ANSWER, always ANSWER
                         begin parts of a litmus test, and state its rules (see
                         l4 orders --help); they do nothing here

N, like every other thread in a line, is a thread number, below 262144, or a
name. Thread 1 is sigma0, in whose space page i has frame i. Thread 2 is root.
Numbers are decimal, or hexadecimal with a 0x prefix.

These tokens stand for the words of a message:

  tag:LABEL                   the tag, as the first token. It counts the words and
                              the items that follow it
  map:FIRST+COUNT>BASE:RIGHTS a map item: COUNT pages that start at page FIRST,
                              with the send base at page BASE. Items stand after
                              the words
  grant:FIRST+COUNT>BASE:RIGHTS
                              a grant item

COUNT is a power of two, and FIRST a multiple of it. +COUNT may be omitted for one
page, but not in WINDOW. RIGHTS are r, w and x in this order, with a hyphen for
each missing right.

In answers, TAG and WORD are hexadecimal without the prefix.

  N ipc TAG ERROR FROM WORD..      an ipc of N ended; ERROR is 0 if it succeeded
  N fault hit                      the page is present with the requested rights
  N fault answered                 the pager of N answered the fault
  N fault failed CODE              the pager does not exist, is N itself, or was
                                   deleted before it received the fault (4); it
                                   received the fault, but was deleted before it
                                   answered (5); a timeout (2, 3) or a cancel (6,
                                   7) ended the wait until the pager received it,
                                   or answered; the pages in its answer could not
                                   be delivered (9)
  N unmap ok                       an unmap of N ended
  N control ok                     root's call ended (N is 2)
  N gone                           N was deleted before its call ended
  transfer S R done                the message of S was delivered to R. Any other
                                   last word says why it was not: no-window (it
                                   has map or grant items, but R's window is
                                   nil), entangled (its items fill one page
                                   twice, move a granted page twice, or replace
                                   a page that they move or an ancestor of it)
                                   or no-memory
  expire N                         a zero timeout of N expired
  timeout N, cancel N              the line with these tokens ended the wait of N
  N waits                          the call blocks until a later line ends it
  N none                           no call of N has ended yet, and none waits (for
                                   reply N; l4_steps also prints none if it waits)
  page P frame F RIGHTS            a page that show lists. Then shown K gives the
                                   number of these pages
  parent SPACE PAGE                the parent of the page, with the number of its
                                   space (parent none: the page has no parent;
                                   absent: it is not present). sigma0's space is
                                   0, root's is 1, and each new one gets the next
                                   number
  region ok                        the region was added to the table
  named N                          the name now stands for thread N
  steps K                          K steps so far, including those of served
                                   threads
  line L refused CODE              the line was refused and changed nothing

With --explain, each answer is followed by lines that explain it and begin with
'# '. A received message is explained as by l4 decode, a refusal by the meaning
of its code. With --number, 'L: ' stands before each answer to line L. With
--moves, each transfer is followed by a line for each page that it moved:

  # moved SOURCE to TARGET RIGHTS  page SOURCE of the sender's space went to page
                                   TARGET of the receiver's, which has RIGHTS
                                   there after the transfer: absent if a grant of
                                   the same message removed the page again. The
                                   lines are in the order of the items, and then
                                   of the pages

Lines that begin with '# ' have no number. All of these options can be combined.

With --history-to, the history is written to SEGMENTS, which must be a new file,
while the script runs: after each line that leaves 100,000 steps or more, and at
the end. The program then keeps no more steps than these in memory, and no line is
refused with L1. If a write to the file fails, the run ends there. --history-to
can be combined with --strict and --explain.

These are the codes. Some carry a number; ITEM, WORD and PLACE count from 0.
l4 plan, l4 check, l4 decode and l4_steps print these codes too:

  M1         the tag counts more than 63 words, untyped and typed together
  M2         the tag counts an odd number of typed words, but every item has two
  M3 ITEM    this item has an unknown kind, or its fpage is invalid
  M4 ITEM    this item is a string or CtrlXfer item, which the kernel does not
             support
  M5         a flag is set in the tag, but the kernel supports no flags
  M6         the receive window is not a valid fpage
  M7         the tag is missing, or fewer words follow it than it counts
  H1         the caller is not in root's address space
  H2         the id is not a valid thread id
  H3         a thread with this number already exists
  H4         there is no thread with this id
  H5         there are already 64 threads, or all space numbers are used up
  H6         sigma0, root and the caller itself cannot be deleted
  U1 WORD    this word passed to Unmap is not a valid fpage
  U2         Unmap got fewer words than its control word requires
  L1         the history is full: no call can start once it has more than 999,871
             steps
  K1         the step is not enabled: this transfer or expiry cannot happen now, or
             the thread does not wait
  K2         there is no thread with this number
  K3         the thread's previous call has not ended yet (root's, for thread,
             setpager and delete)
  K4         a timeout is neither never (0) nor zero (0x400)
  K6         the number of frames must be from 1 to 4,096
  P1         the region overlaps another region in the table
  P2         no region in the table covers this page with the requested access: a
             served thread answers with a nil map item
  P3         the table is full: it has 64 regions
  P4         the region has no pages or no rights, or one of its pages or source
             pages is beyond the end of the space
  N1         the region has no pages
  N2         the source or target pages go beyond the end of a space: 1,048,576
             pages, or 4,194,304 of 1,024 bytes
  N3         the region has no rights: request at least one of r, w and x
  N4         the region needs more than 1,984 map items, the most that 64
             messages can hold
  N5 M       the plan has more than one message: it has M
  N6 M       the plan has no message with this number: it has M messages
  C1 ITEM    this item does not fit the region: it is a grant, has other rights,
             moves a page outside it, or moves a page to the wrong target
  C2 PAGE    no item of the plan moves this page
  C3 PLACE   the page at this position in the list is not in the region
  C4 PLACE   one map item could move the page at this position and an earlier
             one, so the pages do not prove that no plan is shorter
  C5         the plan has more than 1,984 items, or not one page per item; or a
             too-long claim does not list 1,985 pages
  C6         the region itself is refused with N1, N2 or N3
  S1         the command is unknown
  S2         the line has too few tokens, too many, or an invalid one
  S3         the line is longer than 4,096 bytes
  S4         the line does not end with a newline
  S5         the script already has 64 names
  NoMemory   there was not enough memory

Exit status: 0 at the end of the script, 1 if a refused line ended it (with
--strict), 2 if the command line is invalid or FILE cannot be opened, 3 if a read
or a write failed, or if SEGMENTS exists, 4 if there is not enough memory. With
--moves, 4 also if a step gets another answer when it is executed again, because
memory ran out.

docs/profile.md of the source lists how this kernel differs from the L4 X.2
manual.";
