//! Laws of the grammar, each the contract of a function that does nothing.

ghost use Rattle.ss_sql_parse.specs.Laws.{HasOneTree, HasOneText, IsReadOrRefused, HasOneRefusal};
ghost use Rattle.ss_sql_parse.specs.Statements.{statement, query, condition};

/// A list of tokens has one tree at most: as a statement, as a query and as a condition.
pub fn a_list_has_one_tree()
    ensures statements { HasOneTree statement }
    ensures queries { HasOneTree query }
    ensures conditions { HasOneTree condition }
{}

/// A text has one answer: one tree at most, and a text that has one is refused only because
/// memory ran out. Memory aside, a text is refused in one way: with one lexical fault, or at one
/// offset.
pub fn a_text_has_one_answer()
    ensures statement { HasOneText statement }
    ensures query { HasOneText query }
    ensures condition { HasOneText condition }
    ensures statement_or_refusal { IsReadOrRefused statement }
    ensures query_or_refusal { IsReadOrRefused query }
    ensures condition_or_refusal { IsReadOrRefused condition }
    ensures statement_refusal { HasOneRefusal statement }
    ensures query_refusal { HasOneRefusal query }
    ensures condition_refusal { HasOneRefusal condition }
{}
