ghost use Rattle.dtml_expr.specs.Refusals.{OneExpression};
ghost use Rattle.dtml_expr.specs.Reading.{ReadsExpressions};

/// A text has at most one expression.
pub fn one_expression()
    ensures { OneExpression }
{}

/// Reading an expression by a fuel, which may be any number from the text's length on, gives the tree that the text is,
/// and none exactly where it is no expression.
pub fn reader_agrees()
    ensures { ReadsExpressions }
{}
