//! Files in memory by name, and a place in the one begun.
ghost use Rattle.std.specs.Prelude.{◌≡◌, ◌≤◌, ◌++◌, [], Some, None, ℕ, drop, take, length, min, map, unwrap_or, is_some};
ghost use Rattle.std.specs.Map.{lookup};
ghost use Rattle.std.specs.Str.{bytes_eq};
ghost use Rattle.bridge_base.specs.Outside.{has};
ghost use Rattle.bridge_base.specs.Opened.{as_files, bytes_at, begun, closed, advanced};

use std::marker::Model;

/// Files by name, and a place in the one begun.
#[derive(Debug, Drop)]
pub(crate) struct Folder {
    entries: Vec<(String, Vec<u8>)>,
    begun: Option<usize>,
    at: usize,
}

impl Model for Folder {
    ghost use Rattle.std.specs.Prelude.{◌≤◌, [], drop, length, unwrap_or};
    ghost use Rattle.bridge_base.specs.Opened.{Opened, as_files, bytes_at};

    ghost Value = { Opened };

    ghost view = { λ folder. record {
      files = as_files folder.entries.items;
      left = drop folder.at (unwrap_or (bytes_at folder.entries.items folder.begun) []);
    } };

    ghost invariant = { λ folder. folder.at ≤ length (unwrap_or (bytes_at folder.entries.items folder.begun) []) };
}

impl Folder {
    /// The files, of which none is begun.
    pub(crate) fn new(entries: Vec<(String, Vec<u8>)>) -> Folder
        ensures { result ≡ record { files = as_files entries.items; left = [] } }
    {
        Folder {
            entries,
            begun: None,
            at: 0,
        }
    }

    /// Begins the file of that name, or an empty file, and says whether there is one.
    pub(crate) fn begin(&mut self, name: &str) -> bool
        ensures found { result ≡ has self.old.files name.now }
        ensures begun { self.new ≡ begun self.old name.now }
    {
        self.begun = place_of(&self.entries, name);
        self.at = 0;
        self.begun.is_some()
    }

    /// Leaves the file begun.
    pub(crate) fn close(&mut self)
        ensures { self.new ≡ closed self.old }
    {
        self.begun = None;
        self.at = 0;
    }

    /// Copies the next bytes of the file begun to the front of the buffer, as many as there are and as fit,
    /// but no more than `most`, and gives their count.
    pub(crate) fn read(&mut self, buf: &mut [u8], most: usize) -> usize
        ensures count { result ≡ min most (min (length buf.old) (length self.old.left)) }
        ensures bytes { buf.new ≡ take result self.old.left ++ drop result buf.old }
        ensures left { self.new ≡ advanced self.old result }
    {
        let rest = &bytes_of(&self.entries, self.begun)[self.at..];
        let count = most.min(buf.len()).min(rest.len());
        buf[..count].copy_from_slice(&rest[..count]);
        self.at += count;
        count
    }

    /// The files.
    pub(crate) fn entries(&self) -> &[(String, Vec<u8>)]
        ensures { as_files result.now ≡ self.now.files }
    {
        &self.entries
    }
}

// The place of the first file of that name.
fn place_of(entries: &[(String, Vec<u8>)], name: &str) -> Option<usize>
    ensures place { bytes_at entries.now result ≡ lookup (bytes_eq name.now) (as_files entries.now) }
    ensures found { is_some result ≡ has (as_files entries.now) name.now }
{
    for (place, (own, _)) in entries.iter().enumerate() {
        if name == own.as_str() {
            return Some(place);
        }
    }
    None
}

// The bytes of the file at that place, and none where there is no such file.
fn bytes_of(entries: &[(String, Vec<u8>)], place: Option<usize>) -> &[u8]
    ensures { result.now ≡ unwrap_or (bytes_at entries.now place) [] }
{
    match place.and_then(|place| entries.get(place)) {
        Some((_, bytes)) => bytes,
        None => &[],
    }
}
