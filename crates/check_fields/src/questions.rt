// What a search for fields asks for.
#[derive(Clone, Copy, Debug, PartialEq, Eq, Hash)]
pub enum Question {
    // The field with the qualifier and the name.
    Exact(usize, usize),
    // Those with the name, whatever their qualifiers.
    ByName(usize),
    // Every field.
    Every,
    // Those that clash with a field of the qualifier and the name.
    Clashing(usize, usize),
    // None.
    Nothing,
}
