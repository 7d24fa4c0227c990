/// What a syntax breaks of the rules on limits, names and types. Of several faults at one token the
/// first of these counts.
#[derive(Clone, Copy, Debug, PartialEq, Eq)]
pub enum ScopeKind {
    /// A limit is passed at this token.
    Limit,
    /// A value is defined while its name is in scope, or a function's name stands a second time.
    Twice,
    /// A value isn't in scope, or a callee isn't a function of the text.
    Unknown,
    /// Lists that belong together differ in length, a result number isn't below its count, or a
    /// region that must give results gives none.
    Arity,
    /// Types disagree, or a literal doesn't fit its type.
    WrongType,
}
