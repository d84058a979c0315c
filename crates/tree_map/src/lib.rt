//! Maps and sets whose keys keep the order in which they came, and are found by a tree in the order of keys; and memos for walks.
//!
//! A [`TreeSet`] is seen as the list of its keys, each once, and a [`TreeMap`] as the list of its pairs of a key and its value. Two keys are one
//! where `==` says so. A key that comes again keeps its place, and in a map it takes the new value; a new one goes last. `truncate` gives up what
//! came last. A call that finds no memory changes nothing.
//!
//! To find a key among n costs log n comparisons, whichever keys they are: there is no hash at which an input could aim. Up to eight keys are
//! looked through in order, and need no tree.
//!
//! A [`Memo`] has what a walk found for its keys, so that each is found once. It is seen as the list of the pairs that were noted, whose first eight
//! are looked through in order, and the later ones found by a tree; of a key that was noted twice, either value may be found. A [`Key`] is one that
//! `==` tells from every other.
//!
//! ```
//! let mut names = TreeSet::new(alloc);
//! let (place, is_new) = names.insert_full(name)?;
//! let mut values = TreeMap::new(alloc);
//! values.insert(key, 7)?;
//! let seven = values.get(&other);
//! let mut made = Memo::new(alloc);
//! made.note(place, id)?;
//! let again = made.find(place);
//! ```
//!
//! A key stands in the tree and in the order, so a call that takes a new one may copy it, and asks that a copy is the same key. The tree is std's
//! `BTreeMap`, which asks that the keys' `cmp` is a total order, and that `==` holds exactly where it answers `Equal`.
#![tactic(auto)]

mod map;
mod notes;
mod set;

pub use map::TreeMap;
pub use notes::{Key, Memo};
pub use set::TreeSet;
