use crate::fault::Fault;
use module_table::FileFacts;
use prolog_tokens::Text;
use std::alloc::AllocError;

/// What was loaded, each list in ascending order of names:
///
/// - `files`: the facts of the files that are there;
/// - `absent`: the names of those that aren't;
/// - `roots`: the names of the roots;
/// - `texts`: the name and the bytes of each file that is there.
#[derive(Drop)]
pub struct Loaded {
    pub files: Vec<FileFacts>,
    pub absent: Vec<Text>,
    pub roots: Vec<Text>,
    pub texts: Vec<(Text, Vec<u8>)>,
}

/// Why nothing was loaded.
#[derive(Drop)]
pub enum LoadStop {
    /// The errors of the files, in order of file.
    Faults(Vec<Fault>),
    /// The file whose read failed.
    ReadFault(Text),
    /// More than 1,024 files are asked for.
    TooManyFiles,
    /// The file that has more than 8,388,608 bytes.
    FileTooLarge(Text),
    /// The files have more than 33,554,432 bytes together.
    TooMuchText,
    NoMemory,
}

impl From<AllocError> for LoadStop {
    ghost use Rattle.file_library.specs.declared.loaded.LoadStop.TheVariants.{NoMemory};
    ghost use Rattle.std.specs.Prelude.{◌≡◌};

    ghost from_gives = { λ _ stop. stop ≡ NoMemory };

    fn from(_error: AllocError) -> LoadStop {
        LoadStop::NoMemory
    }
}
