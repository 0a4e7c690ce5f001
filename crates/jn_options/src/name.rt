//! The name of a run's images.
ghost use Rattle.std.specs.Prelude.{◌≡◌, IfOk};
ghost use Rattle.jn_options.specs.Names.{IsName, name_in};

use std::alloc::{AllocError, Global};
use std::marker::Model;

const MOST_BYTES: usize = 100;

/// The name of the images of a run, which has 1 to 100 bytes: contracts see the list of these.
#[derive(Drop)]
pub struct Name {
    text: String,
}

impl Model for Name {
    ghost use Rattle.std.specs.Prelude.{List, ℕ, string_bytes};
    ghost use Rattle.jn_options.specs.Names.{IsName};

    ghost Value = { List ℕ };

    ghost view = { λ n. string_bytes n.text };

    ghost invariant = { λ n. IsName (string_bytes n.text) };
}

impl Name {
    /// The name that is spelled so; `None` exactly where it is empty or has more than 100 bytes.
    pub fn new(alloc: Global, text: &str) -> Result<Option<Name>, AllocError>
        ensures { IfOk result (λ name. name ≡ name_in text.now) }
    {
        if text.is_empty() || text.len() > MOST_BYTES {
            return Ok(None);
        }
        let text = String::from_str(alloc, text)?;
        Ok(Some(Name { text }))
    }

    /// Its text.
    pub fn as_str(&self) -> &str
        ensures text { result.now ≡ self.now }
        ensures limits { IsName self.now }
    {
        self.text.as_str()
    }
}
