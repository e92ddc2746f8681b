ghost use Rattle.mb_lex.specs.Slices.{TokensCover};

/// The tokens of a line are slices of it, in order, and cover all but blanks and a comment.
pub fn tokens_cover_the_line()
    ensures { TokensCover }
{}
