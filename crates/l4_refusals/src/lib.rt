//! The printed codes of refusals, each with a line of text that says what it means.
#![tactic(auto)]

ghost use Rattle.std.specs.Prelude.{◌≡◌, ◌++◌, ℕ, List, MatchOption, map};
ghost use Rattle.l4_refusals.specs.Texts.{spelled, texts, text_in, kernel_texts, message_texts, control_texts, plan_texts, check_texts, table_texts, order_texts};
ghost use Rattle.l4_refusals.specs.Bytes.{bytes_of};

/// A printed code, and the line of text that says what it means.
#[derive(Clone, Copy)]
pub struct Text {
    pub code: &'static [u8],
    pub line: &'static [u8],
}

fn meaning(code: &'static [u8], line: &'static [u8]) -> Text
    ensures { bytes_of result ≡ (code.now, line.now) }
{
    Text { code, line }
}

/// Returns the refusals of the library and of the kernel, and a failed allocation.
fn kernel_texts() -> [Text; 13]
    ensures { map bytes_of result ≡ kernel_texts }
{
    [
        meaning(
            b"B1",
            b"the handle is empty: it was never created, or it was freed",
        ),
        meaning(
            b"B2",
            b"the handle is not empty: free it before you use it again",
        ),
        meaning(
            b"B3",
            b"the kind of call is unknown, or a reserved member is not 0",
        ),
        meaning(b"B4", b"the page size must be 4,096 or 1,024 bytes"),
        meaning(b"B5", b"the line is not a step or query of a step list"),
        meaning(b"B6", b"the bytes cannot be read as a checkpoint"),
        meaning(b"B7", b"a number of entries exceeds 2^63"),
        meaning(
            b"K1",
            b"the step is not enabled: this transfer or expiry cannot happen now, or the thread does not wait",
        ),
        meaning(b"K2", b"there is no thread with this number"),
        meaning(b"K3", b"the thread's previous call has not ended yet"),
        meaning(b"K4", b"a timeout is neither never (0) nor zero (0x400)"),
        meaning(b"K6", b"the number of frames must be from 1 to 4,096"),
        meaning(b"NoMemory", b"there was not enough memory"),
    ]
}

/// Returns the refusals of a message.
fn message_texts() -> [Text; 7]
    ensures { map bytes_of result ≡ message_texts }
{
    [
        meaning(
            b"M1",
            b"the tag counts more than 63 words, untyped and typed together",
        ),
        meaning(
            b"M2",
            b"the tag counts an odd number of typed words, but every item has two",
        ),
        meaning(
            b"M3",
            b"the item has an unknown kind, or its fpage is invalid",
        ),
        meaning(
            b"M4",
            b"the item is a string or CtrlXfer item, which the kernel does not support",
        ),
        meaning(
            b"M5",
            b"a flag is set in the tag, but the kernel supports no flags",
        ),
        meaning(b"M6", b"the receive window is not a valid fpage"),
        meaning(
            b"M7",
            b"the tag is missing, or fewer words follow it than it counts",
        ),
    ]
}

/// Returns the refusals of a control of threads, and of an Unmap.
fn control_texts() -> [Text; 8]
    ensures { map bytes_of result ≡ control_texts }
{
    [
        meaning(b"H1", b"the caller is not in root's address space"),
        meaning(b"H2", b"the id is not a valid thread id"),
        meaning(b"H3", b"a thread with this number already exists"),
        meaning(b"H4", b"there is no thread with this id"),
        meaning(
            b"H5",
            b"there are already 64 threads, or all space numbers are used up",
        ),
        meaning(
            b"H6",
            b"sigma0, root and the caller itself cannot be deleted",
        ),
        meaning(b"U1", b"a word passed to Unmap is not a valid fpage"),
        meaning(
            b"U2",
            b"Unmap got fewer words than its control word requires",
        ),
    ]
}

/// Returns the refusals of a plan, and of one of its messages.
fn plan_texts() -> [Text; 6]
    ensures { map bytes_of result ≡ plan_texts }
{
    [
        meaning(b"N1", b"the region has no pages"),
        meaning(
            b"N2",
            b"the source or target pages go beyond the end of a space: 1,048,576 pages, or 4,194,304 of 1,024 bytes",
        ),
        meaning(
            b"N3",
            b"the region has no rights: request at least one of r, w and x",
        ),
        meaning(
            b"N4",
            b"the region needs more than 1,984 map items, the most that 64 messages can hold",
        ),
        meaning(b"N5", b"the plan has more than one message"),
        meaning(b"N6", b"the plan has no message with this number"),
    ]
}

/// Returns the faults of a plan.
fn check_texts() -> [Text; 6]
    ensures { map bytes_of result ≡ check_texts }
{
    [
        meaning(
            b"C1",
            b"the item does not fit the region: it is a grant, has other rights, moves a page outside it, or moves a page to the wrong target",
        ),
        meaning(b"C2", b"no item of the plan moves the page"),
        meaning(
            b"C3",
            b"the page at this position in the list is not in the region",
        ),
        meaning(
            b"C4",
            b"one map item could move the page at this position and an earlier one, so the pages do not prove that no plan is shorter",
        ),
        meaning(
            b"C5",
            b"the plan has more than 1,984 items, or not one page per item; or a too-long claim does not list 1,985 pages",
        ),
        meaning(b"C6", b"the region itself is refused with N1, N2 or N3"),
    ]
}

/// Returns the refusals of a pager's table and of a locked kernel.
fn table_texts() -> [Text; 13]
    ensures { map bytes_of result ≡ table_texts }
{
    [
        meaning(b"P1", b"the region overlaps another region in the table"),
        meaning(
            b"P2",
            b"no region in the table covers this page with the requested access",
        ),
        meaning(b"P3", b"the table is full: it has 64 regions"),
        meaning(
            b"P4",
            b"the region has no pages or no rights, or one of its pages or source pages is beyond the end of the space",
        ),
        meaning(
            b"L1",
            b"the history is full: no call can start once it has more than 999,871 steps",
        ),
        meaning(
            b"L3",
            b"the reply to an earlier call of this seat has not been taken yet",
        ),
        meaning(b"L4", b"the seat of this number was already given out"),
        meaning(
            b"L6",
            b"a transfer that ran out of memory in the history succeeded when the history was replayed",
        ),
        meaning(
            b"L7",
            b"the given links do not match the way the page got there",
        ),
        meaning(
            b"L8",
            b"the entries or receipts that this needs were handed out",
        ),
        meaning(
            b"X1",
            b"the seat of this number was given out, but was not returned",
        ),
        meaning(
            b"X2",
            b"the seat of this number was never given out, or was returned twice",
        ),
        meaning(
            b"X3",
            b"the seat of this number does not match the lock's records",
        ),
    ]
}

/// Returns the refusals of a litmus test, by its lines.
fn order_texts() -> [Text; 13]
    ensures { map bytes_of result ≡ order_texts }
{
    [
        meaning(b"S1", b"the command is unknown"),
        meaning(
            b"S2",
            b"the line has too few tokens, too many, or an invalid one",
        ),
        meaning(b"S3", b"the line is longer than 4,096 bytes"),
        meaning(b"S4", b"the line does not end with a newline"),
        meaning(b"S5", b"the script already has 64 names"),
        meaning(
            b"O1",
            b"a litmus test has one unordered line, and after it at most one finally line",
        ),
        meaning(
            b"O2",
            b"a query or a rule is allowed only after the finally line, and a name only before the unordered line",
        ),
        meaning(
            b"O3",
            b"after the finally line, only show, parent, reply, never and always are allowed",
        ),
        meaning(
            b"O4",
            b"steps is not allowed, because its answer depends on the whole order",
        ),
        meaning(b"O5", b"no line creates the thread whose call this is"),
        meaning(b"O6", b"the litmus test has no unordered line"),
        meaning(b"O7", b"no outcome can have the line that the rule names"),
        meaning(
            b"O8",
            b"an expectation is not allowed in a litmus test: state a rule instead",
        ),
    ]
}

/// Returns the number of a code: its first two bytes, of which the first counts 256 times.
pub fn number_of(code: &[u8]) -> u32
    ensures { result ≡ spelled code.now }
{
    match code {
        [first, second, ..] => u32::from(*first) * 256 + u32::from(*second),
        [first] => u32::from(*first) * 256,
        [] => 0,
    }
}

/// Returns the first of these texts whose code is the refusal.
fn found_in(texts: &[Text], refusal: u32) -> Option<Text>
    ensures { (rest : List (List ℕ × List ℕ))
        → MatchOption result
        (text_in (map bytes_of texts.now ++ rest) refusal ≡ text_in rest refusal)
        (λ text. text_in (map bytes_of texts.now ++ rest) refusal ≡ bytes_of text) }
{
    for text in texts {
        if number_of(text.code) == refusal {
            return Some(*text);
        }
    }
    None
}

/// Returns the code and the text of a refusal, which is given by its number: the first two bytes of its code. Both are
/// empty if the number is not a refusal.
pub fn text_of(refusal: u32) -> Text
    ensures { bytes_of result ≡ text_in texts refusal }
{
    if let Some(text) = found_in(&kernel_texts(), refusal) {
        return text;
    }
    if let Some(text) = found_in(&message_texts(), refusal) {
        return text;
    }
    if let Some(text) = found_in(&control_texts(), refusal) {
        return text;
    }
    if let Some(text) = found_in(&plan_texts(), refusal) {
        return text;
    }
    if let Some(text) = found_in(&check_texts(), refusal) {
        return text;
    }
    if let Some(text) = found_in(&table_texts(), refusal) {
        return text;
    }
    if let Some(text) = found_in(&order_texts(), refusal) {
        return text;
    }
    meaning(b"", b"")
}
