ghost use Rattle.dtml_lex.specs.Laws.{ReadIsSpelled, SpelledIsRead, RefusedIsUnspelled, JoinedAreTheSource, OneListOfParts};

/// What is read at the front of a text is the part that is spelled there, and each part that is spelled there is
/// read. Nothing is read where a tag begins and none is spelled, and only there.
pub fn part_is_spelled()
    ensures read { ReadIsSpelled }
    ensures spelled { SpelledIsRead }
    ensures refused { RefusedIsUnspelled }
{}

/// The parts of a source joined are the source, and it has no other parts.
pub fn parts_make_the_source()
    ensures joined { JoinedAreTheSource }
    ensures one { OneListOfParts }
{}
