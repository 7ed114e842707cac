use clause_text::Cause;
use module_table::FileFacts;
use prolog_tokens::Text;

/// What a file turned out to be: its bytes with its facts, or with the cause and the byte offset of
/// its error.
#[derive(Drop)]
pub(crate) enum Content {
    Absent,
    Sound(Vec<u8>, FileFacts),
    Faulty(Vec<u8>, Cause, u32),
}

/// A file that was asked for.
#[derive(Drop)]
pub(crate) struct AskedFile {
    pub name: Text,
    pub content: Content,
}
