// Examples of edits on boards with their expected answers.
#![tactic(auto)]

#[cfg(test)]
mod tests {
    use board::{Chips, Edit, Measure, OpenBoard, Refusal};
    use std::test::Fail;

    // Edits of one board, in order, each with the number of its refusal, if any.
    const EDITS: [(Edit, Option<u8>); 49] = [
        (
            Edit::Make {
                chips: 1,
                fpics: 1,
                pins: 1,
            },
            Some(1),
        ),
        (
            Edit::Make {
                chips: 33,
                fpics: 1,
                pins: 1,
            },
            Some(1),
        ),
        (
            Edit::Make {
                chips: 2,
                fpics: 0,
                pins: 1,
            },
            Some(1),
        ),
        (
            Edit::Make {
                chips: 2,
                fpics: 9,
                pins: 1,
            },
            Some(1),
        ),
        (
            Edit::Make {
                chips: 2,
                fpics: 1,
                pins: 0,
            },
            Some(1),
        ),
        (
            Edit::Make {
                chips: 2,
                fpics: 1,
                pins: 5,
            },
            Some(1),
        ),
        (
            Edit::Make {
                chips: 4_294_967_295,
                fpics: 256,
                pins: 65_536,
            },
            Some(1),
        ),
        (
            Edit::Make {
                chips: 32,
                fpics: 8,
                pins: 4,
            },
            None,
        ),
        (Edit::Add { net: 0, ends: 3 }, Some(2)),
        (Edit::Add { net: 129, ends: 3 }, Some(2)),
        (
            Edit::Add {
                net: 60_000,
                ends: 0,
            },
            Some(2),
        ),
        (
            Edit::Add {
                net: 128,
                ends: 0xffff_ffff,
            },
            None,
        ),
        (Edit::Add { net: 128, ends: 0 }, Some(3)),
        (Edit::Add { net: 1, ends: 0 }, Some(5)),
        (
            Edit::Add {
                net: 1,
                ends: 0x8000_0000,
            },
            Some(5),
        ),
        (
            Edit::Add {
                net: 1,
                ends: 0x8000_0001,
            },
            None,
        ),
        (Edit::Lock { net: 1, letter: 7 }, None),
        (Edit::Lock { net: 1, letter: 8 }, Some(7)),
        (
            Edit::Lock {
                net: 1,
                letter: 200,
            },
            Some(7),
        ),
        (
            Edit::Lock {
                net: 2,
                letter: 200,
            },
            Some(4),
        ),
        (
            Edit::Lock {
                net: 129,
                letter: 200,
            },
            Some(2),
        ),
        (Edit::Unlock { net: 129 }, Some(2)),
        (Edit::Unlock { net: 2 }, Some(4)),
        (Edit::Unlock { net: 128 }, Some(8)),
        (Edit::Unlock { net: 1 }, None),
        (Edit::Unlock { net: 1 }, Some(8)),
        (Edit::Lock { net: 1, letter: 0 }, None),
        (Edit::Drop { net: 1 }, None),
        (Edit::Drop { net: 1 }, Some(4)),
        (Edit::Drop { net: 0 }, Some(2)),
        (Edit::Add { net: 1, ends: 3 }, None),
        (Edit::Unlock { net: 1 }, Some(8)),
        (
            Edit::Make {
                chips: 3,
                fpics: 2,
                pins: 2,
            },
            None,
        ),
        (Edit::Drop { net: 1 }, Some(4)),
        (
            Edit::Add {
                net: 1,
                ends: 0b1001,
            },
            Some(5),
        ),
        (
            Edit::Add {
                net: 1,
                ends: 0b011,
            },
            None,
        ),
        (
            Edit::Add {
                net: 2,
                ends: 0b011,
            },
            None,
        ),
        (
            Edit::Add {
                net: 3,
                ends: 0b011,
            },
            None,
        ),
        (
            Edit::Add {
                net: 4,
                ends: 0b101,
            },
            None,
        ),
        (
            Edit::Add {
                net: 5,
                ends: 0b101,
            },
            Some(6),
        ),
        (
            Edit::Add {
                net: 5,
                ends: 0b110,
            },
            None,
        ),
        (
            Edit::Add {
                net: 6,
                ends: 0b110,
            },
            Some(6),
        ),
        (
            Edit::Add {
                net: 6,
                ends: 0b111,
            },
            Some(6),
        ),
        (
            Edit::Add {
                net: 5,
                ends: 0b111,
            },
            Some(3),
        ),
        (
            Edit::Add {
                net: 6,
                ends: 0b1111,
            },
            Some(5),
        ),
        (Edit::Drop { net: 1 }, None),
        (
            Edit::Add {
                net: 6,
                ends: 0b111,
            },
            None,
        ),
        (
            Edit::Make {
                chips: 2,
                fpics: 1,
                pins: 5,
            },
            Some(1),
        ),
        (Edit::Drop { net: 6 }, None),
    ];

    #[test]
    fn edits_are_answered_by_number(rt: HostRuntime) {
        let mut board = OpenBoard::blank();
        for (edit, expected) in EDITS {
            let refused = board.apply(edit).err().map(|refusal| refusal.number());
            assert_eq!(rt; refused, expected);
        }
    }

    #[test]
    fn the_lowest_full_chip_is_named(rt: HostRuntime) -> Result<(), Fail> {
        let mut board = OpenBoard::blank();
        board.make(5, 1, 1)?;
        board.add(1, 0b01010)?;
        assert_eq!(rt; board.add(2, 0b11011), Err(Refusal::ChipFull { chip: 2 }));
        assert_eq!(rt; board.add(2, 0b11001), Err(Refusal::ChipFull { chip: 4 }));
        Ok(())
    }

    #[test]
    fn the_six_net_board_is_measured(rt: HostRuntime) -> Result<(), Fail> {
        let mut board = OpenBoard::blank();
        board.make(3, 2, 2)?;
        for (net, ends) in [
            (1, 0b011),
            (2, 0b011),
            (3, 0b110),
            (4, 0b110),
            (5, 0b101),
            (6, 0b101),
        ] {
            board.add(net, ends)?;
        }
        assert_eq!(rt;
            board.seal().measure(),
            Measure {
                variables: 12,
                clauses: 36,
                literals: 96,
            }
        );
        Ok(())
    }

    #[test]
    fn a_board_without_nets_measures_nothing(rt: HostRuntime) {
        assert_eq!(rt;
            OpenBoard::blank().seal().measure(),
            Measure {
                variables: 0,
                clauses: 0,
                literals: 0,
            }
        );
    }

    #[test]
    fn the_chips_of_a_set_come_by_rising_number(rt: HostRuntime) {
        let mut chips = Chips::of(0x8000_0101);
        assert_eq!(rt; chips.next(), Some(1));
        assert_eq!(rt; chips.next(), Some(9));
        assert_eq!(rt; chips.next(), Some(32));
        assert_eq!(rt; chips.next(), None);
    }
}
