//! The names of images.

ghost use Rattle.std.specs.Prelude.{◌≡◌, IfOk, string_bytes};
ghost use Rattle.jn_image_files.specs.Kept.{image_name};

use itoa::Buffer;
use jn_base::ServerNo;
use std::alloc::{AllocError, Global};

/// The name of a server's image.
pub fn image_name(alloc: Global, name: &str, server: ServerNo) -> Result<String, AllocError>
    ensures { IfOk result (λ s. string_bytes s ≡ image_name name.now server.0) }
{
    let mut text = String::from_str(alloc, name)?;
    text.push_str(".")?;
    let mut buffer = Buffer::new();
    text.push_str(buffer.format(server.0))?;
    Ok(text)
}
