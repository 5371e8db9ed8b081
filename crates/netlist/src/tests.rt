// Good and damaged netlists.
use crate::fault::Fault;
use crate::notice::Notice;
use crate::read;
use board::{OpenBoard, Refusal};
use std::test::Fail;

fn outcome(text: &[u8]) -> Result<(), Fault> {
    let mut board = OpenBoard::blank();
    read(&mut board, text)
}

fn good(text: &[u8]) -> bool {
    outcome(text).is_ok()
}

fn formless(text: &[u8], line: u32) -> bool {
    outcome(text) == Err(Fault::NoForm { line })
}

fn declined(text: &[u8], line: u32, cause: Refusal) -> bool {
    outcome(text) == Err(Fault::Declined { line, cause })
}

#[test]
fn numbers(rt: HostRuntime) {
    let sizes = Refusal::SizesOutsideLimits;
    assert!(rt;
        good(b"B 3 2 1\nN 1 1 2\nN 2 2 3\nN 3 1 3\nL 3 B\n")
            & formless(b"B 03 2 1\n", 1)
            & formless(b"B 3 2 1000\n", 1)
            & declined(b"B 3 2 999\n", 1, sizes)
            & declined(b"B 3 2 0\n", 1, sizes)
            & declined(b"B 3 2 1\nN 129 1 2\n", 2, Refusal::NetOutsideLimits)
    );
}

#[test]
fn lines(rt: HostRuntime) {
    assert!(rt;
        formless(b"", 1)
            & formless(b"B 3 2 1", 1)
            & formless(b"B 3  2 1\n", 1)
            & formless(b"N 1 1 2\n", 1)
            & formless(b"B 3 2 1\n\n", 2)
            & formless(b"B 3 2 1\nN 1 1 2\nB 3 2 1\n", 3)
            & formless(&[b'B'; 16384], 1)
            & (outcome(&[b'B'; 16385]) == Err(Fault::TooLong))
    );
}

#[test]
fn chips(rt: HostRuntime) {
    assert!(rt;
        good(b"B 32 8 4\nN 128 32 1 16\nL 128 H\n")
            & formless(b"B 3 2 1\nN 5\n", 2)
            & formless(b"B 3 2 1\nN 5 0 1\n", 2)
            & formless(b"B 3 2 1\nN 5 1 33\n", 2)
            & formless(b"B 3 2 1\nN 5 1 2 1\n", 2)
            & declined(b"B 3 2 1\nN 5 1\n", 2, Refusal::UnfitEnds)
            & declined(
                b"B 3 1 1\nN 5 1 2\nN 6 2 3\n",
                3,
                Refusal::ChipFull { chip: 2 },
            )
    );
}

#[test]
fn letters(rt: HostRuntime) {
    assert!(rt;
        formless(b"B 3 2 1\nN 1 1 2\nL 1 I\n", 3)
            & declined(b"B 3 2 1\nN 1 1 2\nL 1 H\n", 3, Refusal::NoSuchFpic)
            & declined(b"B 3 2 1\nL 1 A\n", 2, Refusal::NotHeld)
    );
}

#[test]
fn refused_board_stays(rt: HostRuntime) {
    let mut board = OpenBoard::blank();
    let first = read(&mut board, b"B 5 4 3\nN 7 1 2\n").is_ok();
    let second = read(&mut board, b"B 3 2 1\nN 1 1 2\nN 1 2 3\n").is_err();
    assert!(rt; first & second & (board.rack().chips() == 5) & (board.rack().count() == 1));
}

#[test]
fn notices(rt: HostRuntime) -> Result<(), Fail> {
    let cause = Refusal::ChipFull { chip: 2 };
    let text = Notice::from(Fault::Declined { line: 3, cause }).print(rt.alloc())?;
    assert!(rt; text.as_str() == "refused 14 line 3 cause 6\n");
    Ok(())
}
