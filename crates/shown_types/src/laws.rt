//! Laws of the definitions. Each function does nothing: its contract is the law.
ghost use Rattle.shown_types.specs.Laws.{AnswerIsOne, LayoutIsOne, TextIsOne};

/// What is shown depends on the types, the width of pointers, the names and the style alone. So two
/// tables of the same types are shown by the same text or refused for the same reason, unless
/// memory runs out.
pub fn same_is_shown()
    ensures layout { LayoutIsOne }
    ensures text { TextIsOne }
    ensures answer { AnswerIsOne }
{}
