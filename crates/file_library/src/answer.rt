use prolog_tokens::Text;

/// What a library returned for a name: the bytes of the file, or that there is none.
#[derive(Drop)]
pub(crate) struct Answer {
    pub name: Text,
    pub bytes: Option<Vec<u8>>,
}
