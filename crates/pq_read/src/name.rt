ghost use Rattle.std.specs.Prelude.{◌≡◌, true, IfOk};
ghost use Rattle.pq_text.specs.Name.{is_name};

use pq_list::OutOfMemory;
use std::alloc::Global;
use std::marker::Model;

/// A name. Contracts see its bytes.
#[derive(Drop)]
pub struct Name {
    text: String,
}

impl Model for Name {
    ghost use Rattle.std.specs.Prelude.{List, ℕ, string_bytes};

    ghost Value = { List ℕ };

    ghost view = { λ n. string_bytes n.text };
}

impl Name {
    /// The name with this text.
    pub fn of(alloc: Global, text: &str) -> Result<Name, OutOfMemory>
        ensures { IfOk result (λ name. name ≡ text.now) }
    {
        let text = String::from_str(alloc, text)?;
        Ok(Name { text })
    }

    /// Its text.
    pub fn as_str(&self) -> &str
        ensures { result.now ≡ self.now }
    {
        self.text.as_str()
    }
}

/// The name with these bytes.
pub fn name_of(alloc: Global, bytes: &[u8]) -> Result<Name, OutOfMemory>
    requires { is_name bytes.now ≡ true }
    ensures { IfOk result (λ name. name ≡ bytes.now) }
{
    match str::from_utf8(bytes) {
        Ok(text) => Name::of(alloc, text),
        Err(_) => unreachable!(),
    }
}
