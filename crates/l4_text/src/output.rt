//! The output: bytes that were added, and have not been written yet.
ghost use Rattle.std.specs.Prelude.{◌≡◌, ◌<◌, ◌≤◌, ◌+◌, ◌*◌, ◌==◌, [], ◌∷◌, ◌++◌, length, decimal, OnOk, IfErr};
ghost use Rattle.std.specs.Io.KnownBytes.{Appends};
ghost use Rattle.std.specs.Prelude.{ℕ, List, Option, true, false};
ghost use Rattle.l4_text.specs.Streams.{WentOut, HasTold, Tells, IsOutBeforeRead};
ghost use Rattle.l4_text.specs.Texts.{word_text, words_text};
ghost use Rattle.l4_text.specs.Sizes.{text_bytes, answer_bytes, held_bytes};

use crate::faults::RunFault;
use crate::kept::KeptBytes;
use crate::lines::LineReader;
use crate::texts::{MAX_TEXT, Text, two_digits, word_digits};
use itoa::Buffer;
use std::io::Write;
use std::marker::Model;

/// The most bytes that are held back.
const MAX_HELD: usize = 16_384;

/// The most bytes of an answer's line.
const MAX_ANSWER: usize = 704;

/// The most words that a text has room for, each after a space.
const WORDS_IN_TEXT: usize = MAX_TEXT / 9;

/// The bytes that are held back until there are many.
#[derive(Drop)]
struct Held {
    bytes: KeptBytes<MAX_HELD>,
}

impl Model for Held {
    ghost use Rattle.std.specs.Prelude.{ℕ, List};

    ghost Value = { List ℕ };

    ghost view = { λ a. a.bytes };
}

/// Writes all of the bytes. Returns `Write` if a write failed or took no byte; then the first bytes were written, or none.
pub fn write_out<W: Write>(writer: &mut W, bytes: &[u8]) -> Result<(), RunFault>
    ensures ok { OnOk result (Appends (W.contents writer.old) (W.contents writer.new) bytes.now) }
    ensures err { IfErr result (λ e. (e ≡ RunFault.Write)
        × WentOut (W.contents writer.old) (W.contents writer.new) bytes.now) }
{
    let mut at = 0;
    for turn in 0..bytes.len() {
        if at >= bytes.len() {
            break;
        }
        let Ok(count) = writer.write(&bytes[at..]) else {
            return Err(RunFault::Write);
        };
        if count == 0 {
            return Err(RunFault::Write);
        }
        at += count;
    }
    Ok(())
}

impl Held {
    fn new() -> Held
        ensures { result ≡ [] }
    {
        Held {
            bytes: KeptBytes::new(),
        }
    }

    fn is_empty(&self) -> bool
        ensures { result ≡ (length self.now == 0) }
    {
        self.bytes.is_empty()
    }

    /// Returns whether there is room for the line of an answer.
    fn has_room(&self) -> bool
        ensures yes { result ≡ true → length self.now + answer_bytes ≤ held_bytes }
        ensures no { result ≡ false → held_bytes < length self.now + answer_bytes }
    {
        if self.bytes.room() < MAX_ANSWER {
            return false;
        }
        true
    }

    fn clear(&mut self)
        ensures { self.new ≡ [] }
    {
        self.bytes.clear();
    }

    /// Holds a byte back too.
    fn push(&mut self, byte: u8)
        requires { length self.old + 1 ≤ held_bytes }
        ensures { self.new ≡ self.old ++ byte ∷ [] }
    {
        self.bytes.push(byte);
    }

    /// Holds these bytes back too.
    fn hold(&mut self, bytes: &[u8])
        requires { length self.old + length bytes.now ≤ held_bytes }
        ensures { self.new ≡ self.old ++ bytes.now }
    {
        self.bytes.extend(bytes);
    }

    /// Holds the bytes of an array back too.
    #[inline(always)]
    fn hold_array<const COUNT: usize>(&mut self, bytes: [u8; COUNT])
        requires { length self.old + COUNT ≤ held_bytes }
        ensures { self.new ≡ self.old ++ bytes.entry }
    {
        self.bytes.push_array(bytes);
    }

    /// Writes what is held back. After a write that failed it is dropped.
    fn send<W: Write>(&mut self, writer: &mut W) -> Result<(), RunFault>
        ensures none { self.new ≡ [] }
        ensures ok { OnOk result
            (Appends (W.contents writer.old) (W.contents writer.new) self.old) }
        ensures err { IfErr result (λ e. (e ≡ RunFault.Write)
            × WentOut (W.contents writer.old) (W.contents writer.new) self.old) }
    {
        let sent = write_out(writer, self.bytes.as_slice());
        self.bytes.clear();
        sent
    }

    /// Writes what is held, and has the writer pass on what it holds back itself.
    fn finish<W: Write>(&mut self, writer: &mut W) -> Result<(), RunFault>
        ensures none { self.new ≡ [] }
        ensures ok { OnOk result
            (Appends (W.contents writer.old) (W.contents writer.new) self.old) }
        ensures err { IfErr result (λ e. (e ≡ RunFault.Write)
            × WentOut (W.contents writer.old) (W.contents writer.new) self.old) }
    {
        self.send(writer)?;
        match writer.flush() {
            Ok(_) => Ok(()),
            Err(_) => Err(RunFault::Write),
        }
    }
}

/// A buffered output to a writer. After a failed write, it writes nothing more.
#[derive(Drop)]
pub struct Output {
    held: Held,
    failed: bool,
}

impl Model for Output {
    ghost use Rattle.std.specs.Prelude.{ℕ, List, Bool};

    ghost Value = { List ℕ × Bool };

    ghost view = { λ a. (a.held, a.failed) };
}

impl Output {
    /// Creates an output to which nothing was added.
    pub fn new() -> Output
        ensures { result ≡ ([], false) }
    {
        Output {
            held: Held::new(),
            failed: false,
        }
    }

    /// Returns whether a write failed.
    pub fn has_failed(&self) -> bool
        ensures { result ≡ self.now.1 }
    {
        self.failed
    }

    /// Writes what is held back.
    #[cold]
    #[inline(never)]
    fn send<W: Write>(&mut self, writer: &mut W)
        ensures none { self.new.0 ≡ [] }
        ensures told { Tells (W.contents writer.old) (W.contents writer.new) self.old self.new [] }
    {
        if self.failed {
            return self.held.clear();
        }
        match self.held.send(writer) {
            Ok(()) => {}
            Err(_) => self.failed = true,
        }
    }

    /// Makes room in the buffer for the line of an answer, which is then added in pieces.
    pub fn make_room<W: Write>(&mut self, writer: &mut W)
        ensures room { length self.new.0 + answer_bytes ≤ held_bytes }
        ensures told { Tells (W.contents writer.old) (W.contents writer.new) self.old self.new [] }
    {
        if !self.held.has_room() {
            self.send(writer);
        }
    }

    /// Adds a byte, for which there is room.
    pub fn push(&mut self, byte: u8)
        requires { length self.old.0 + 1 ≤ held_bytes }
        ensures value { self.new ≡ (self.old.0 ++ byte ∷ [], self.old.1) }
        ensures len { length self.new.0 ≡ length self.old.0 + 1 }
    {
        self.held.push(byte);
    }

    /// Adds these bytes, for which there is room.
    pub fn add(&mut self, bytes: &[u8])
        requires { length self.old.0 + length bytes.now ≤ held_bytes }
        ensures value { self.new ≡ (self.old.0 ++ bytes.now, self.old.1) }
        ensures len { length self.new.0 ≡ length self.old.0 + length bytes.now }
    {
        self.held.hold(bytes);
    }

    /// Adds the bytes of an array, for which there is room.
    #[inline(always)]
    pub fn add_array<const COUNT: usize>(&mut self, bytes: [u8; COUNT])
        requires { length self.old.0 + COUNT ≤ held_bytes }
        ensures value { self.new ≡ (self.old.0 ++ bytes.entry, self.old.1) }
        ensures len { length self.new.0 ≡ length self.old.0 + COUNT }
    {
        self.held.hold_array(bytes);
    }

    /// Adds a number in decimal, without leading zeros.
    #[inline(always)]
    pub fn add_number(&mut self, number: u64)
        requires { length self.old.0 + 20 ≤ held_bytes }
        ensures value { self.new ≡ (self.old.0 ++ decimal number, self.old.1) }
        ensures len { length self.new.0 ≤ length self.old.0 + 20 }
    {
        if number < 10 {
            return self.push(b'0' + number as u8);
        }
        if number < 100 {
            return self.add_array(two_digits(number as u8));
        }
        if number < 1000 {
            return self.add_hundreds(number as u16);
        }
        self.add_longer(number);
    }

    /// `add_number` for a number of three digits.
    #[inline(always)]
    fn add_hundreds(&mut self, number: u16)
        requires long { (100 ≤ number) × (number < 1000) }
        requires room { length self.old.0 + 3 ≤ held_bytes }
        ensures value { self.new ≡ (self.old.0 ++ decimal number, self.old.1) }
        ensures len { length self.new.0 ≡ length self.old.0 + 3 }
    {
        let [tens, ones] = two_digits((number % 100) as u8);
        self.add_array([b'0' + (number / 100) as u8, tens, ones]);
    }

    /// `add_number` for a number of four digits.
    fn add_thousands(&mut self, number: u16)
        requires long { (1000 ≤ number) × (number < 10_000) }
        requires room { length self.old.0 + 4 ≤ held_bytes }
        ensures value { self.new ≡ (self.old.0 ++ decimal number, self.old.1) }
        ensures len { length self.new.0 ≡ length self.old.0 + 4 }
    {
        let [thousands, hundreds] = two_digits((number / 100) as u8);
        let [tens, ones] = two_digits((number % 100) as u8);
        self.add_array([thousands, hundreds, tens, ones]);
    }

    /// `add_number` for a number of four digits or more.
    #[inline(never)]
    fn add_longer(&mut self, number: u64)
        requires long { 1000 ≤ number }
        requires room { length self.old.0 + 20 ≤ held_bytes }
        ensures value { self.new ≡ (self.old.0 ++ decimal number, self.old.1) }
        ensures len { length self.new.0 ≤ length self.old.0 + 20 }
    {
        if number < 10_000 {
            return self.add_thousands(number as u16);
        }
        let mut buffer = Buffer::new();
        self.add(buffer.format(number).as_bytes());
    }

    /// Adds a number in decimal after a space.
    #[inline(always)]
    pub fn add_spaced_number(&mut self, number: u64)
        requires { length self.old.0 + 21 ≤ held_bytes }
        ensures value { self.new ≡ (self.old.0 ++ 32 ∷ [] ++ decimal number, self.old.1) }
        ensures len { length self.new.0 ≤ length self.old.0 + 21 }
    {
        if number < 10 {
            return self.add_array([b' ', b'0' + number as u8]);
        }
        self.push(b' ');
        self.add_number(number);
    }

    /// Adds a word in eight hexadecimal digits of lower case.
    pub fn add_word(&mut self, word: u32)
        requires { length self.old.0 + 8 ≤ held_bytes }
        ensures value { self.new ≡ (self.old.0 ++ word_text word, self.old.1) }
        ensures len { length self.new.0 ≡ length self.old.0 + 8 }
    {
        self.held.hold_array(word_digits(word));
    }

    /// Adds a word in eight hexadecimal digits of lower case after a space.
    #[inline(always)]
    pub fn add_spaced_word(&mut self, word: u32)
        requires { length self.old.0 + 9 ≤ held_bytes }
        ensures value { self.new ≡ (self.old.0 ++ 32 ∷ [] ++ word_text word, self.old.1) }
        ensures len { length self.new.0 ≡ length self.old.0 + 9 }
    {
        let [a, b, c, d, e, f, g, h] = word_digits(word);
        self.add_array([b' ', a, b, c, d, e, f, g, h]);
    }

    /// Adds a text, and makes room for it.
    pub fn put<W: Write>(&mut self, writer: &mut W, text: &Text)
        ensures { Tells (W.contents writer.old) (W.contents writer.new) self.old self.new text.now }
    {
        self.make_room(writer);
        self.add(text.as_slice());
    }

    /// Adds a text after a mark of at most two bytes, and makes room for both.
    pub fn put_marked<W: Write>(&mut self, writer: &mut W, mark: &[u8], text: &Text)
        requires { length mark.now ≤ 2 }
        ensures { Tells (W.contents writer.old) (W.contents writer.new) self.old self.new
            (mark.now ++ text.now) }
    {
        self.make_room(writer);
        self.add(mark);
        self.add(text.as_slice());
    }

    /// Adds a newline, and makes room for it.
    pub fn end_line<W: Write>(&mut self, writer: &mut W)
        ensures { Tells (W.contents writer.old) (W.contents writer.new) self.old self.new
            (10 ∷ []) }
    {
        self.make_room(writer);
        self.push(b'\n');
    }

    /// Adds words in eight hexadecimal digits of lower case, each after a space, for which there is room.
    #[inline(always)]
    pub fn add_words(&mut self, row: &[u32])
        requires { length self.old.0 + 9 * length row.now ≤ held_bytes }
        ensures value { self.new ≡ (self.old.0 ++ words_text row.now, self.old.1) }
        ensures len { length self.new.0 ≡ length self.old.0 + 9 * length row.now }
    {
        for word in row {
            self.add_spaced_word(*word);
        }
    }

    /// Adds words as eight lower-case hexadecimal digits, each after a space, and makes room for them. They fit into one text.
    #[inline(always)]
    fn put_row<W: Write>(&mut self, writer: &mut W, row: &[u32])
        requires { 9 * length row.now ≤ text_bytes }
        ensures { Tells (W.contents writer.old) (W.contents writer.new) self.old self.new
            (words_text row.now) }
    {
        self.make_room(writer);
        self.add_words(row);
    }

    /// Adds words as eight lower-case hexadecimal digits, each after a space, and makes room for them.
    pub fn put_words<W: Write>(&mut self, writer: &mut W, words: &[u32])
        ensures { Tells (W.contents writer.old) (W.contents writer.new) self.old self.new
            (words_text words.now) }
    {
        for row in words.chunks(WORDS_IN_TEXT) {
            self.put_row(writer, row);
        }
    }

    /// Writes all buffered bytes, unless a write failed.
    #[cold]
    #[inline(never)]
    fn send_all<W: Write>(&mut self, writer: &mut W)
        ensures told { Tells (W.contents writer.old) (W.contents writer.new) self.old self.new [] }
        ensures sent { self.new.1 ≡ false → self.new.0 ≡ [] }
    {
        if self.failed {
            return;
        }
        if self.held.is_empty() {
            return;
        }
        match self.held.finish(writer) {
            Ok(()) => {}
            Err(_fault) => self.failed = true,
        }
    }

    /// Writes the buffered bytes if the next line of this reader has to be read first. So every line is answered before the next one is
    /// read, and a large input still leads to large writes, one for each read.
    pub fn send_before_line<W: Write>(&mut self, lines: &LineReader, writer: &mut W)
        ensures told { Tells (W.contents writer.old) (W.contents writer.new) self.old self.new [] }
        ensures sent { IsOutBeforeRead lines.now.0.0 self.new }
    {
        if lines.has_line() {
            return;
        }
        self.send_all(writer);
    }

    /// Writes the buffered bytes, and flushes the writer. Returns `Write` if this or an earlier write failed.
    pub fn finish<W: Write>(&mut self, writer: &mut W) -> Result<(), RunFault>
        ensures ok { OnOk result ((start : Option (List ℕ)) (told : List ℕ)
            → HasTold start (W.contents writer.old) self.old.0 self.old.1 told
            → Appends start (W.contents writer.new) told) }
        ensures open { OnOk result ((self.old.1 ≡ false) × (self.new.1 ≡ false)) }
        ensures err { IfErr result
            (λ e. (e ≡ RunFault.Write) × ((start : Option (List ℕ)) (told : List ℕ)
            → HasTold start (W.contents writer.old) self.old.0 self.old.1 told
            → WentOut start (W.contents writer.new) told)) }
        ensures failed { IfErr result (λ e. self.new.1 ≡ true) }
    {
        if self.failed {
            return Err(RunFault::Write);
        }
        match self.held.finish(writer) {
            Ok(()) => Ok(()),
            Err(fault) => {
                self.failed = true;
                Err(fault)
            }
        }
    }
}
