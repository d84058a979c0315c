//! A plan, and what it tells.
ghost use Rattle.std.specs.Prelude.{◌≡◌};

use article_lines::keys::Keys;
use article_reach::Reach;
use article_steps::Room;
use hol_spec::Version;
use std::marker::Model;

/// What is planned of an article: all that it needs beside the proof. Contracts see its version, what it tells, whether one article can
/// say it, how long it is, and the room that is taken for writing it.
#[derive(Drop)]
pub struct Plan {
    pub(crate) version: Version,
    pub(crate) reach: Reach,
    pub(crate) fits: bool,
    pub(crate) count: u128,
    pub(crate) keys: Keys,
    pub(crate) room: Room,
}

impl Model for Plan {
    ghost use Rattle.article_write.specs.Plans.{Planned};

    ghost Value = { Planned };

    ghost view = { λ p. record { version = p.version; reach = p.reach; fits = p.fits; count = p.count; keys = p.keys; room = p.room } };
}

impl Plan {
    /// Whether one article of the version can say it: no step that is told has an export of an earlier article as its premise, and no
    /// type definition that is told was made under the other version. It takes no memory.
    pub fn fits(&self) -> bool
        ensures { result ≡ self.now.fits }
    {
        self.fits
    }

    /// The length of the article in bytes, or the greatest number of the type if it is longer. It takes no memory.
    pub fn len(&self) -> u128
        ensures { result ≡ self.now.count }
    {
        self.count
    }
}
