use effect_flow::kinds_of;

/// The names and numbers of arguments that have a kind of effect, with the kind's number.
const WITH_KINDS: [(&str, u32, u32); 41] = [
    ("write", 1, 0),
    ("write", 2, 0),
    ("writeq", 1, 0),
    ("writeq", 2, 0),
    ("print", 1, 0),
    ("write_canonical", 1, 0),
    ("write_canonical", 2, 0),
    ("write_term", 2, 0),
    ("write_term", 3, 0),
    ("nl", 0, 0),
    ("nl", 1, 0),
    ("put_char", 1, 0),
    ("put_char", 2, 0),
    ("format", 1, 0),
    ("format", 2, 0),
    ("format", 3, 0),
    ("read", 1, 1),
    ("read", 2, 1),
    ("read_term", 2, 1),
    ("read_term", 3, 1),
    ("get_char", 1, 1),
    ("get_char", 2, 1),
    ("peek_char", 1, 1),
    ("peek_char", 2, 1),
    ("assert", 1, 2),
    ("asserta", 1, 2),
    ("assertz", 1, 2),
    ("retract", 1, 2),
    ("retractall", 1, 2),
    ("abolish", 1, 2),
    ("open", 3, 3),
    ("open", 4, 3),
    ("close", 1, 3),
    ("close", 2, 3),
    ("set_input", 1, 3),
    ("set_output", 1, 3),
    ("throw", 1, 4),
    ("halt", 0, 5),
    ("halt", 1, 5),
    ("set_prolog_flag", 2, 6),
    ("op", 3, 6),
];

/// Some that have none.
const WITHOUT_KINDS: [(&str, u32); 14] = [
    ("write", 0),
    ("write", 3),
    ("print", 2),
    ("nl", 2),
    ("format", 0),
    ("format", 4),
    ("read", 0),
    ("assert", 2),
    ("open", 5),
    ("throw", 0),
    ("halt", 2),
    ("op", 2),
    ("Write", 1),
    ("", 1),
];

/// Whether each of them has the bit of its kind, and the others have none.
pub fn kinds_agree() -> bool {
    WITH_KINDS.iter().all(|&(name, arity, kind)| kinds_of(name, arity) == 1u64.wrapping_shl(kind))
        && WITHOUT_KINDS
            .iter()
            .all(|&(name, arity)| kinds_of(name, arity) == 0)
}
