ghost use Rattle.dtml_parse.specs.Laws.{OneTree, RefusedIsNoTree, OneRefusal};
ghost use Rattle.dtml_parse.specs.PieceReading.{ReadsParts};
ghost use Rattle.dtml_parse.specs.TreeReading.{ReadsTrees, ReadsRefusals};

use dtml_expr::{one_expression, reader_agrees};
use dtml_lex::part_is_spelled;

/// A source is at most one template, and none where it has a refusal other than want of memory; and it has at most
/// one such refusal.
pub fn one_tree()
    ensures tree { OneTree }
    ensures refused { RefusedIsNoTree }
    ensures refusal { OneRefusal }
{
    one_expression();
}

/// Reading a part by a function of it gives what the part says by itself, and none where one of its expressions is none.
pub fn part_reader_agrees()
    ensures { ReadsParts }
{
    reader_agrees();
}

/// Reading a text by a fuel, which may be any number from its length on, gives the template that it is, or else its first
/// refusal, which is never want of memory: exactly what the grammar and the refusals say.
pub fn template_reader_agrees()
    ensures tree { ReadsTrees }
    ensures refusal { ReadsRefusals }
{
    part_is_spelled();
    part_reader_agrees();
    one_tree();
}
