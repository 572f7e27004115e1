// What a value holds; its type stands beside it in plan/src/values.rt: here for the definitions of plan/specs, which pass it on.
#[derive(Clone, Copy, Debug, PartialEq, Eq, Hash)]
pub enum Case {
    Null,
    Integer(i64),
    Truth(bool),
}
