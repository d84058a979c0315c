//! An article as far as it is counted: its keys and its length.
ghost use Rattle.std.specs.Prelude.{◌≡◌, None, length};
ghost use Rattle.std.specs.Option.{option_map};
ghost use Rattle.article_write_spec.specs.Lengths.{told_length as told_length_of};
ghost use Rattle.article_count.specs.Counts.{added, noted, told};
ghost use Rattle.article_lines.specs.Things.{thing_key, HasRoom};

use article_lines::keys::{Keys, Thing};
use article_lines::lengths::told_length;

/// What is counted: the keys that were given, and the length, up to the greatest number.
#[derive(Drop)]
pub(crate) struct Count {
    pub(crate) keys: Keys,
    pub(crate) length: u128,
}

impl Count {
    /// Adds so much.
    pub(crate) fn add(&mut self, length: u128)
        ensures { self.new ≡ added length self.old }
    {
        self.length = self.length.saturating_add(length);
    }

    /// Gives the next key to a thing that has none. It tells the length that this adds.
    pub(crate) fn note(&mut self, thing: Thing) -> u128
        requires room { HasRoom self.old.keys thing }
        requires new { thing_key self.old.keys thing ≡ None }
        ensures noted { self.new ≡ noted thing self.old }
        ensures length { result ≡ told_length_of (length self.old.keys.things) }
    {
        let length = told_length(self.keys.keep(thing));
        self.add(length);
        length
    }

    /// Adds what tells a thing by its key, if it has one. It tells the length that this adds.
    pub(crate) fn tell(&mut self, thing: Thing) -> Option<u128>
        requires { HasRoom self.old.keys thing }
        ensures told { self.new ≡ told result self.old }
        ensures length { result ≡ option_map told_length_of (thing_key self.old.keys thing) }
    {
        let Some(key) = self.keys.key(thing) else {
            return None;
        };
        let length = told_length(key);
        self.add(length);
        Some(length)
    }
}
