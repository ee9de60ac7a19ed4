//! The laws of typing of statements: the relation and the first fault tell the same.

ghost use Rattle.vx_statements.specs.Laws.{StatementsAgree, BlocksAgree, OtherBlocksAreFaulty};

/// A statement and a block are typed exactly where they have no first fault.
pub fn statements_are_told()
    ensures statements { StatementsAgree }
    ensures blocks { BlocksAgree }
    ensures others { OtherBlocksAreFaulty }
{}
