//! What a line is, in words that its definition does not use.
ghost use Rattle.chart_world.specs.Laws.{FirstLine, JoinedLines, RestLine};

/// The lines of any bytes: the first one ends at the first line feed; those of bytes that end in a
/// line feed join to these bytes; a rest behind the last line feed is a line too.
pub fn lines_join_back()
    ensures first { FirstLine }
    ensures joined { JoinedLines }
    ensures rest { RestLine }
{}
