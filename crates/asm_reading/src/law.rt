ghost use Rattle.asm_reading.specs.Laws.{ItemsAreInOrder, LinesHaveALeast};

/// The first fault of a source's lines is the least of those of all its lines: by line, then by column, then by number.
pub fn lines_have_a_least()
    ensures { LinesHaveALeast }
{}

/// The items of a source stand in the order of their lines.
pub fn items_are_in_order()
    ensures { ItemsAreInOrder }
{}
