//! Reading files on demand: a `Library` is a map from names to files, in memory or on the disk.
//! `load_all` reads the roots and all files that they load.
//!
//! A `Library` records the names that it was asked for and what it returned. It counts its misses
//! and its read failures. `MemoryLibrary` declares its map of files to contracts: a file is found
//! exactly if the map has it, unless a read was ordered to fail. `DiskLibrary` declares nothing
//! about the disk, only what it returned, by notes that cost no bytes. What is loaded is stated
//! over the map of what was returned. `places_of_spots` returns lines and columns of what was
//! loaded.
//!
//! It sees no imports and no calls.
#![tactic(auto)]

mod answer;
mod asked_file;
mod asking;
mod disk_library;
mod fault;
mod laws;
mod library;
mod limits;
mod loaded;
mod loading;
mod memory_library;
mod next_wave;
mod note;
mod parsing;
mod reading;
mod sorted_out;
mod spots;

pub use disk_library::DiskLibrary;
pub use fault::Fault;
pub use laws::{asked_least, one_end};
pub use library::{Library, Read};
pub use limits::{MOST_FILES, MOST_TEXT};
pub use loaded::{LoadStop, Loaded};
pub use loading::load_all;
pub use memory_library::MemoryLibrary;
pub use note::{Note, note_absent, note_found};
pub use spots::places_of_spots;
