//! The names of threads.
ghost use Rattle.std.specs.Prelude.{◌≡◌, List, [], is_some, option_map};
ghost use Rattle.std.specs.List.{list_all, position};
ghost use Rattle.l4_names.specs.Names.{is_letter, is_name_byte, begins_with_letter, is_name, name_of, is_named, thread_named, given, after_giving};

use arrayvec::ArrayVec;
use std::marker::Model;

/// The most bytes of a name. An error message quotes up to this many bytes of a token, so it shows every name in full.
pub const MAX_NAME: usize = 24;

/// The most names of a script: as many as there can be threads.
pub const MAX_NAMES: usize = 64;

/// Returns whether a byte is an ASCII letter.
fn is_letter(byte: u8) -> bool
    ensures { result ≡ is_letter byte }
{
    match byte {
        b'a'..=b'z' => true,
        b'A'..=b'Z' => true,
        _ => false,
    }
}

/// Returns whether a byte may be part of a name.
fn is_name_byte(byte: u8) -> bool
    ensures { result ≡ is_name_byte byte }
{
    match byte {
        b'0'..=b'9' => true,
        b'-' => true,
        _ => is_letter(byte),
    }
}

/// Returns whether all bytes may be parts of a name.
fn are_name_bytes(bytes: &[u8]) -> bool
    ensures { result ≡ list_all is_name_byte bytes.now }
{
    bytes.iter().all(|byte| is_name_byte(*byte))
}

/// Returns whether the first byte is an ASCII letter.
fn begins_with_letter(token: &[u8]) -> bool
    ensures { result ≡ begins_with_letter token.now }
{
    !token.is_empty() && is_letter(token[0])
}

/// Returns whether a token has the form of a name: a letter, and then letters, digits and hyphens, at most `MAX_NAME` bytes in all.
#[tactic(auto, unfolding(crate::specs::Names::is_name))]
pub fn is_name(token: &[u8]) -> bool
    ensures { result ≡ is_name token.now }
{
    token.len() <= MAX_NAME && begins_with_letter(token) && are_name_bytes(token)
}

/// A name.
#[derive(Drop)]
pub struct Name {
    bytes: ArrayVec<u8, MAX_NAME>,
}

impl Model for Name {
    ghost use Rattle.std.specs.Prelude.{ℕ, List};

    ghost Value = { List ℕ };

    ghost view = { λ a. a.bytes.items };
}

impl Default for Name {
    ghost is_default = { λ a. a ≡ [] };

    /// Returns the empty name, which no token has.
    fn default() -> Name {
        Name {
            bytes: ArrayVec::new(),
        }
    }
}

impl Name {
    /// Returns the name that a token spells. Returns None if the token has not the form of a name.
    pub fn of(token: &[u8]) -> Option<Name>
        ensures { result ≡ name_of token.now }
    {
        if !is_name(token) {
            return None;
        }
        let mut bytes = ArrayVec::new();
        match bytes.try_extend_from_slice(token) {
            Ok(()) => Some(Name { bytes }),
            Err(_) => None,
        }
    }

    /// Returns a copy of the name.
    fn copy(&self) -> Name
        ensures { result ≡ self.now }
    {
        let mut bytes = ArrayVec::new();
        let _ = bytes.try_extend_from_slice(self.bytes.as_slice());
        Name { bytes }
    }

    /// Returns the bytes of the name.
    pub fn as_slice(&self) -> &[u8]
        ensures { result.now ≡ self.now }
    {
        self.bytes.as_slice()
    }
}

/// A name, and the number of the thread that has it.
#[derive(Drop)]
pub struct NamedThread {
    /// The name.
    pub name: Name,
    /// The thread's number.
    pub number: u32,
}

impl Default for NamedThread {
    ghost is_default = { λ e. e ≡ record { name = []; number = 0 } };

    /// Returns the empty name of thread 0.
    fn default() -> NamedThread {
        NamedThread {
            name: Name::default(),
            number: 0,
        }
    }
}

impl NamedThread {
    /// Returns a copy of both.
    fn copy(&self) -> NamedThread
        ensures { result ≡ self.now }
    {
        NamedThread {
            name: self.name.copy(),
            number: self.number,
        }
    }

    /// Returns whether this is its name.
    fn is_named(&self, name: &[u8]) -> bool
        ensures { result ≡ is_named name.now self.now }
    {
        self.name.as_slice() == name
    }
}

/// The names of a script's threads, at most `MAX_NAMES`.
#[derive(Drop)]
pub struct Names {
    entries: ArrayVec<NamedThread, MAX_NAMES>,
}

impl Model for Names {
    ghost use Rattle.std.specs.Coded.{coded_list};
    ghost use Rattle.l4_names.specs.contracts.names.NamedThread as entry;
    ghost use Rattle.l4_names.specs.Names.{Names as AllNames};

    ghost Value = { AllNames };

    ghost coded = { coded_list entry.the_row.coded };

    ghost view = { λ a. a.entries.items };
}

impl Names {
    /// Returns no names.
    pub fn new() -> Names
        ensures { result ≡ [] }
    {
        Names {
            entries: ArrayVec::new(),
        }
    }

    /// Returns a copy of the names.
    pub fn copy(&self) -> Names
        ensures { result ≡ self.now }
    {
        let all = self.entries.as_slice();
        let mut entries = ArrayVec::new();
        for entry in all {
            let _ = entries.try_push(entry.copy());
        }
        Names { entries }
    }

    /// Returns each name with the number of its thread, in the order in which the names were first given.
    pub fn entries(&self) -> &[NamedThread]
        ensures { result.now ≡ self.now }
    {
        self.entries.as_slice()
    }

    /// Returns the position of a name.
    fn place_of(&self, name: &[u8]) -> Option<usize>
        ensures { result ≡ position (is_named name.now) self.now }
    {
        self.entries
            .as_slice()
            .iter()
            .position(|entry| entry.is_named(name))
    }

    /// Returns the number of the thread with this name.
    #[cold]
    #[inline(never)]
    pub fn thread_named(&self, name: &[u8]) -> Option<u32>
        ensures { result ≡ thread_named self.now name.now }
    {
        match self.place_of(name) {
            Some(place) => Some(self.entries.as_slice()[place].number),
            None => None,
        }
    }

    /// Gives a name to a thread. A thread that had the name loses it. Returns false, and changes nothing, if the name is new and there are
    /// `MAX_NAMES` names.
    pub fn give(&mut self, name: Name, number: u32) -> bool
        ensures given { result ≡ is_some (given self.old name number) }
        ensures names { self.new ≡ after_giving self.old name number }
    {
        if let Some(place) = self.place_of(name.as_slice()) {
            self.entries.as_mut_slice()[place].number = number;
            return true;
        }
        if self.entries.len() >= MAX_NAMES {
            return false;
        }
        self.entries.push(NamedThread { name, number });
        true
    }
}
