//! The words of names.
ghost use Rattle.std.specs.Prelude.{◌≡◌, ◌++◌, OnOk};
ghost use Rattle.l4_keys.specs.Words.{counted, name_words, names_words};

use crate::parts::put;
use l4_names::{NamedThread, Names};
use std::alloc::AllocError;

/// Appends the number of bytes, and the bytes.
fn put_bytes(bytes: &[u8], out: &mut Vec<u32>) -> Result<(), AllocError>
    ensures { OnOk result (out.new.items ≡ out.old.items ++ counted bytes.now) }
{
    let Ok(count) = u32::try_from(bytes.len()) else {
        return Err(AllocError);
    };
    put(out, &[count])?;
    for byte in bytes {
        put(out, &[u32::from(*byte)])?;
    }
    Ok(())
}

/// Appends the number of a thread, and its name.
fn put_name(one: &NamedThread, out: &mut Vec<u32>) -> Result<(), AllocError>
    ensures { OnOk result (out.new.items ≡ out.old.items ++ name_words one.now) }
{
    put(out, &[one.number])?;
    put_bytes(one.name.as_slice(), out)
}

/// Appends the words of names: how many there are, and each with the number of its thread. Returns `AllocError` if an allocation fails; the
/// words are then unspecified.
pub fn put_names(names: &Names, out: &mut Vec<u32>) -> Result<(), AllocError>
    ensures { OnOk result (out.new.items ≡ out.old.items ++ names_words names.now) }
{
    let entries = names.entries();
    let Ok(count) = u32::try_from(entries.len()) else {
        return Err(AllocError);
    };
    put(out, &[count])?;
    for entry in entries {
        put_name(entry, out)?;
    }
    Ok(())
}
