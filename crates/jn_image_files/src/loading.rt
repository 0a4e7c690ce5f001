//! Images that are loaded.

ghost use Rattle.std.specs.Prelude.{◌≡◌, ◌≢◌, ◌≤◌, Err, IfOk};
ghost use Rattle.jn_host.specs.Outside.{found_bytes};
ghost use Rattle.jn_base.specs.Counts.{Rose};
ghost use Rattle.jn_host.specs.declared.KeepFailure.TheVariants.{Failed as CallFailed};
ghost use Rattle.jn_image_files.specs.Kept.{Has, image_name};
ghost use Rattle.jn_image_files.specs.Opened.{AreLoaded};

use crate::names::image_name;
use jn_base::ServerNo;
use jn_host::{KeepFailure, Keeper};
use std::alloc::Global;

/// What the keeper holds under the names of the images of so many servers, server 0 first: all of it is loaded before any of
/// it is looked at.
pub fn load_images<I: Keeper>(
    alloc: Global,
    keeper: &mut I,
    name: &str,
    servers: u8,
) -> Result<Vec<Option<Vec<u8>>>, KeepFailure>
    ensures loaded { IfOk result (λ found. AreLoaded (I.kept keeper.old) name.now servers found.items) }
    ensures same { I.kept keeper.new ≡ I.kept keeper.old }
    ensures count { I.faults keeper.old ≤ I.faults keeper.new }
    ensures rose { result ≡ Err CallFailed → Rose (I.faults keeper.old) (I.faults keeper.new) }
    ensures no_fault { result ≢ Err CallFailed → I.faults keeper.new ≡ I.faults keeper.old }
{
    let mut found = Vec::new(alloc);
    for server in 0..servers {
        found.push(load_image(alloc, keeper, name, ServerNo(server))?)?;
    }
    Ok(found)
}

/// What the keeper holds under the name of a server's image, which is the name of all of them with a dot and the server's number, or
/// `None` where it holds nothing. The bytes are those that are kept, and nobody has looked at them. Nothing that is kept changes. It
/// fails where the call to the keeper does, or for want of memory.
pub fn load_image<I: Keeper>(
    alloc: Global,
    keeper: &mut I,
    name: &str,
    server: ServerNo,
) -> Result<Option<Vec<u8>>, KeepFailure>
    ensures loaded { IfOk result (λ found. Has (I.kept keeper.old) (image_name name.now server.0) (found_bytes found)) }
    ensures same { I.kept keeper.new ≡ I.kept keeper.old }
    ensures count { I.faults keeper.old ≤ I.faults keeper.new }
    ensures rose { result ≡ Err CallFailed → Rose (I.faults keeper.old) (I.faults keeper.new) }
    ensures no_fault { result ≢ Err CallFailed → I.faults keeper.new ≡ I.faults keeper.old }
{
    let own = image_name(alloc, name, server)?;
    keeper.load(alloc, &own)
}
