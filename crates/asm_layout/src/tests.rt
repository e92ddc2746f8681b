use crate::{Alignment, Piece, grow};

/// A branch by the distance to the label before a piece.
fn branch(label: usize) -> Piece {
    Piece::Labelled {
        label,
        relative: true,
    }
}

/// An instruction whose value is the address of the label before a piece.
fn address(label: usize) -> Piece {
    Piece::Labelled {
        label,
        relative: false,
    }
}

/// Expected: the marks and places that follow by hand from the rule on growing. A table's rows have five pieces; a row with
/// fewer ends with pieces of no bytes.
#[test]
#[rattlefmt::skip]
fn sources_grow_as_worked_out_by_hand(rt: HostRuntime) {
    let none = Piece::Bytes(0);
    let word = Piece::Bytes(4);
    for (name, pieces, marks, stand) in [
        ("near", [word, word, branch(3), word, none],
            [false, false, false, false, false], [0u64, 4, 8, 12, 16, 16]),
        ("farthest ahead", [branch(2), Piece::Bytes(32760), word, none, none],
            [false, false, false, false, false], [0, 4, 32764, 32768, 32768, 32768]),
        ("too far ahead", [branch(2), Piece::Bytes(32764), word, none, none],
            [true, false, false, false, false], [0, 8, 32772, 32776, 32776, 32776]),
        ("farthest back", [Piece::Bytes(32768), branch(0), none, none, none],
            [false, false, false, false, false], [0, 32768, 32772, 32772, 32772, 32772]),
        ("too far back", [Piece::Bytes(32772), branch(0), none, none, none],
            [false, true, false, false, false], [0, 32772, 32780, 32780, 32780, 32780]),
        ("greatest address", [address(2), Piece::Bytes(32763), none, none, none],
            [false, false, false, false, false], [0, 4, 32767, 32767, 32767, 32767]),
        ("greater address", [address(2), Piece::Bytes(32764), none, none, none],
            [true, false, false, false, false], [0, 8, 32772, 32772, 32772, 32772]),
        ("own address", [branch(0), address(0), none, none, none],
            [false, false, false, false, false], [0, 4, 8, 8, 8, 8]),
        ("a second turn", [branch(3), address(4), Piece::Bytes(32756), word, word],
            [true, true, false, false, false], [0, 8, 16, 32772, 32776, 32780]),
        ("both in one turn", [address(3), branch(3), Piece::Org(32772), word, none],
            [true, true, false, false, false], [0, 8, 16, 32772, 32776, 32776]),
        ("a label behind the end", [branch(9), Piece::Bytes(32760), none, none, none],
            [false, false, false, false, false], [0, 4, 32764, 32764, 32764, 32764]),
        ("padding behind a label", [Piece::Bytes(1), Piece::Align(Alignment::Four), branch(1), Piece::Align(Alignment::Sixteen), none],
            [false, false, false, false, false], [0, 1, 4, 8, 16, 16]),
    ] {
        let mut grown = [false; 5];
        let mut places = [0; 6];
        grow(&pieces, &mut grown, &mut places);
        assert!(rt; grown == marks, "{name}: {grown:?}");
        assert!(rt; places == stand, "{name}: {places:?}");
    }
}
