// The printed board of three nets, short buffers, and the largest board.
use crate::lengths::head_length;
use crate::ranking::Ranking;
use crate::{Buffer, ShortBuffer, formula, text};
use board::{OpenBoard, SealedBoard};
use std::test::Fail;

fn three_nets() -> Result<SealedBoard, Fail> {
    let mut board = OpenBoard::blank();
    board.make(3, 2, 1)?;
    board.add(1, 0b011)?;
    board.add(2, 0b110)?;
    board.add(3, 0b101)?;
    Ok(board.seal())
}

#[test]
fn writes_the_formula(rt: HostRuntime) -> Result<(), Fail> {
    let board = three_nets()?;
    let mut out = [7; 38];
    assert_eq!(rt; formula(&board, &mut out), Ok(36));
    assert!(rt;
        out == [
            1, 2, 0, 3, 4, 0, 5, 6, 0, -1, -2, 0, -3, -4, 0, -5, -6, 0, -1, -5, 0, -2, -6, 0, -1,
            -3, 0, -2, -4, 0, -3, -5, 0, -4, -6, 0, 7, 7,
        ]
    );
    Ok(())
}

#[test]
fn prints_the_text(rt: HostRuntime) -> Result<(), Fail> {
    let board = three_nets()?;
    let mut numbers = [0; 36];
    let mut out = [b'.'; 103];
    assert_eq!(rt; text(&board, &mut numbers, &mut out), Ok(101));
    assert!(rt;
        out == *b"p cnf 6 12\n1 2 0\n3 4 0\n5 6 0\n-1 -2 0\n-3 -4 0\n-5 -6 0\n-1 -5 0\n-2 -6 0\n-1 -3 0\n-2 -4 0\n-3 -5 0\n-4 -6 0\n.."
    );
    Ok(())
}

#[test]
fn names_the_short_buffer(rt: HostRuntime) -> Result<(), Fail> {
    let board = three_nets()?;
    let mut numbers = [0; 36];
    let mut out = [0; 100];
    let short = ShortBuffer {
        buffer: Buffer::Formula,
        needed: 36,
    };
    assert_eq!(rt; text(&board, &mut numbers[0..35], &mut out), Err(short));
    assert_eq!(rt;
        text(&board, &mut numbers, &mut out),
        Err(ShortBuffer {
            buffer: Buffer::Text,
            needed: 101,
        })
    );
    Ok(())
}

#[test]
fn measures_the_largest_board(rt: HostRuntime) -> Result<(), Fail> {
    let mut board = OpenBoard::blank();
    board.make(32, 8, 4)?;
    for n in 0..128u32 {
        board.add(n + 1, 255 << (8 * (n % 4)))?;
    }
    let board = board.seal();
    let mut none = [0; 0];
    assert_eq!(rt;
        formula(&board, &mut none),
        Err(ShortBuffer {
            buffer: Buffer::Formula,
            needed: 309325440,
        })
    );
    assert_eq!(rt;
        head_length(board.measure()) + Ranking::of(&board).lines_length(),
        1371064868
    );
    Ok(())
}
