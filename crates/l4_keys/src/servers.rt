//! The words of servers.
ghost use Rattle.std.specs.Prelude.{◌≡◌, ◌++◌, List, ℕ, OnOk};
ghost use Rattle.l4_keys.specs.Listings.{Lists};
ghost use Rattle.l4_keys.specs.Keys.{AreOfServers, has_table, AreOfTable, has_owner, AreOfFrame};

use crate::parts::{high, low, put, put_counted, put_table, size_word};
use l4_servers::Servers;
use l4_sigma0::Sigma0;
use std::alloc::AllocError;

/// Appends the table of each thread that has one, in rising order of their numbers.
fn put_tables(servers: &Servers, out: &mut Vec<u32>) -> Result<(), AllocError>
    ensures { OnOk result
        ((words : List ℕ) × Lists (has_table servers.now) (AreOfTable servers.now) words
        × (out.new.items ≡ out.old.items ++ words)) }
{
    let mut from = 0u32;
    while let Some((thread, table)) = servers.next_table(from) {
        put(out, &[1, thread])?;
        put_table(table, out)?;
        let Some(next) = thread.checked_add(1) else {
            return Err(AllocError);
        };
        from = next;
    }
    put(out, &[0])
}

/// Appends the owner of each frame that has one, in rising order of the frames.
fn put_owners(owners: &Sigma0, out: &mut Vec<u32>) -> Result<(), AllocError>
    ensures { OnOk result
        ((words : List ℕ) × Lists (has_owner owners.now) (AreOfFrame owners.now) words
        × (out.new.items ≡ out.old.items ++ words)) }
{
    let mut from = 0u32;
    while let Some((frame, space)) = owners.next_owned(from) {
        put(out, &[1, frame, low(space), high(space)])?;
        let Some(next) = frame.checked_add(1) else {
            return Err(AllocError);
        };
        from = next;
    }
    put(out, &[0])
}

/// Appends the words of servers: the served threads, the table of each thread that has one, and the owner of each frame that has one.
/// Returns `AllocError` if an allocation fails; the words are then unspecified.
pub fn put_servers(servers: &Servers, out: &mut Vec<u32>) -> Result<(), AllocError>
    ensures { OnOk result
        ((words : List ℕ) × AreOfServers servers.now words
        × (out.new.items ≡ out.old.items ++ words)) }
{
    put_counted(out, servers.served())?;
    put_tables(servers, out)?;
    let owners = servers.owners();
    put(out, &[size_word(owners.page_size()), owners.frames()])?;
    put_owners(owners, out)
}
