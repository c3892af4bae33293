//! The texts of pages, of their rights and of their parents.
ghost use Rattle.std.specs.Prelude.{◌≡◌, ◌≤◌, ◌+◌, ◌++◌, length};
ghost use Rattle.l4_answers.specs.Pages.{rights_text, page_words, page_text, shown_text, place_or_none, parent_text};
ghost use Rattle.l4_text.specs.Streams.{Tells};
ghost use Rattle.l4_text.specs.Sizes.{text_bytes, held_bytes};

use l4_fpage::Rights;
use l4_mapdb::{Mapping, Place};
use l4_text::{Output, Text};
use std::io::Write;

/// Returns the letters of the rights, with a hyphen for each missing right.
fn letters(rights: Rights) -> [u8; 3]
    ensures { result ≡ rights_text rights }
{
    let bits = rights.bits();
    [
        if bits & 4 != 0 { b'r' } else { b'-' },
        if bits & 2 != 0 { b'w' } else { b'-' },
        if bits & 1 != 0 { b'x' } else { b'-' },
    ]
}

/// Adds the letters of rights, such as `r-x`.
pub fn add_rights(text: &mut Text, rights: Rights)
    requires { length text.old + 3 ≤ text_bytes }
    ensures value { text.new ≡ text.old ++ rights_text rights }
    ensures len { length text.new ≡ length text.old + 3 }
{
    text.add(letters(rights).as_slice());
}

/// Adds `page P frame F RIGHTS`.
pub fn add_page(text: &mut Text, page: u32, mapping: &Mapping)
    requires { length text.old + 60 ≤ text_bytes }
    ensures value { text.new ≡ text.old ++ page_words page mapping.now }
    ensures len { length text.new ≤ length text.old + 60 }
{
    text.add(b"page ");
    text.add_number(u64::from(page));
    text.add(b" frame ");
    text.add_number(u64::from(mapping.frame));
    text.push(b' ');
    let letters = letters(mapping.rights);
    text.add(letters.as_slice());
}

/// Adds `page P frame F RIGHTS` to what is held back, and ends the line.
#[inline(always)]
fn add_page_line(out: &mut Output, page: u32, mapping: &Mapping)
    requires { length out.old.0 + 61 ≤ held_bytes }
    ensures { out.new ≡ (out.old.0 ++ page_text page mapping.now, out.old.1) }
{
    out.add_array(*b"page ");
    out.add_number(u64::from(page));
    out.add_array(*b" frame ");
    out.add_number(u64::from(mapping.frame));
    let [read, write, execute] = letters(mapping.rights);
    out.add_array([b' ', read, write, execute, b'\n']);
}

/// Writes `page P frame F RIGHTS`. It is inlined into its callers, which then do not look up the page's parent.
#[inline(always)]
pub fn put_page<W: Write>(page: u32, mapping: &Mapping, out: &mut Output, writer: &mut W)
    ensures { Tells (W.contents writer.old) (W.contents writer.new) out.old out.new
        (page_text page mapping.now) }
{
    out.make_room(writer);
    add_page_line(out, page, mapping);
}

/// Adds `shown K`, and ends the line.
#[inline(always)]
fn add_shown(out: &mut Output, count: u32)
    requires { length out.old.0 + 40 ≤ held_bytes }
    ensures { out.new ≡ (out.old.0 ++ shown_text count, out.old.1) }
{
    out.add_array(*b"shown ");
    out.add_number(u64::from(count));
    out.push(b'\n');
}

/// Writes `shown K`.
pub fn put_shown<W: Write>(count: u32, out: &mut Output, writer: &mut W)
    ensures { Tells (W.contents writer.old) (W.contents writer.new) out.old out.new
        (shown_text count) }
{
    out.make_room(writer);
    add_shown(out, count);
}

/// Adds the space and the page of a place, or `none`.
pub fn add_place(text: &mut Text, place: Option<Place>)
    requires { length text.old + 41 ≤ text_bytes }
    ensures value { text.new ≡ text.old ++ place_or_none place }
    ensures len { length text.new ≤ length text.old + 41 }
{
    match place {
        Some(place) => {
            text.add_number(place.space);
            text.push(b' ');
            text.add_number(u64::from(place.page));
        }
        None => text.add(b"none"),
    }
}

/// Adds `parent SPACE PAGE`, `parent none` or `absent`, and ends the line.
fn add_parent(out: &mut Output, mapping: Option<Mapping>)
    requires { length out.old.0 + 80 ≤ held_bytes }
    ensures { out.new ≡ (out.old.0 ++ parent_text mapping, out.old.1) }
{
    let Some(mapping) = mapping else {
        return out.add_array(*b"absent\n");
    };
    match mapping.parent {
        Some(place) => {
            out.add_array(*b"parent ");
            out.add_number(place.space);
            out.add_spaced_number(u64::from(place.page));
            out.push(b'\n');
        }
        None => out.add_array(*b"parent none\n"),
    }
}

/// Writes `parent SPACE PAGE`, `parent none` or `absent`, for the mapping of a page.
pub fn put_parent<W: Write>(mapping: Option<Mapping>, out: &mut Output, writer: &mut W)
    ensures { Tells (W.contents writer.old) (W.contents writer.new) out.old out.new
        (parent_text mapping) }
{
    out.make_room(writer);
    add_parent(out, mapping);
}
