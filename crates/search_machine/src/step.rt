/// What a place did: it made an event, or it claimed a node and waits until it is expanded.
#[derive(Clone, Copy)]
pub enum Step {
    Done,
    Open(u32),
}
