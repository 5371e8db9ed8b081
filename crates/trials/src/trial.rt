// The trials: each a question, with the number of bytes that is lent for its valuation.

use sat::Question;

#[derive(Clone, Copy)]
pub struct Trial {
    pub about: &'static str,
    pub question: Question<'static>,
    pub room: usize,
}

pub static TRIALS: [Trial; 35] = [
    Trial {
        about: "no clauses",
        question: Question {
            variables: 3,
            formula: &[],
            assumed: &[],
        },
        room: 3,
    },
    Trial {
        about: "no variables",
        question: Question {
            variables: 0,
            formula: &[],
            assumed: &[],
        },
        room: 0,
    },
    Trial {
        about: "an empty clause",
        question: Question {
            variables: 0,
            formula: &[0],
            assumed: &[],
        },
        room: 0,
    },
    Trial {
        about: "an empty clause among others",
        question: Question {
            variables: 2,
            formula: &[1, 0, 0, 2, 0],
            assumed: &[],
        },
        room: 2,
    },
    Trial {
        about: "an assumed literal",
        question: Question {
            variables: 1,
            formula: &[],
            assumed: &[-1],
        },
        room: 1,
    },
    Trial {
        about: "an assumed literal twice",
        question: Question {
            variables: 2,
            formula: &[1, 2, 0],
            assumed: &[-1, -1],
        },
        room: 2,
    },
    Trial {
        about: "an assumed literal that a clause denies",
        question: Question {
            variables: 2,
            formula: &[-2, 0],
            assumed: &[1, 2],
        },
        room: 2,
    },
    Trial {
        about: "opposed assumed literals",
        question: Question {
            variables: 1,
            formula: &[],
            assumed: &[1, -1],
        },
        room: 1,
    },
    Trial {
        about: "a repeated literal",
        question: Question {
            variables: 1,
            formula: &[1, 1, 0],
            assumed: &[],
        },
        room: 1,
    },
    Trial {
        about: "a repeated literal that is denied",
        question: Question {
            variables: 1,
            formula: &[1, 1, 0, -1, -1, 0],
            assumed: &[],
        },
        room: 1,
    },
    Trial {
        about: "a tautology",
        question: Question {
            variables: 1,
            formula: &[1, -1, 0],
            assumed: &[],
        },
        room: 1,
    },
    Trial {
        about: "two tautologies under assumed literals",
        question: Question {
            variables: 2,
            formula: &[1, -1, 0, 2, -2, 2, 0],
            assumed: &[-1, 2],
        },
        room: 2,
    },
    Trial {
        about: "a chain that forces every variable",
        question: Question {
            variables: 4,
            formula: &[1, 0, -1, 2, 0, -2, 3, 0, -3, 4, 0],
            assumed: &[],
        },
        room: 4,
    },
    Trial {
        about: "a chain that ends in a conflict",
        question: Question {
            variables: 4,
            formula: &[1, 0, -1, 2, 0, -2, 3, 0, -3, 4, 0, -4, 0],
            assumed: &[],
        },
        room: 4,
    },
    Trial {
        about: "a chain that is forced from its end",
        question: Question {
            variables: 4,
            formula: &[-1, 2, 0, -2, 3, 0, -3, 4, 0],
            assumed: &[-4],
        },
        room: 4,
    },
    Trial {
        about: "three of four signs of a pair",
        question: Question {
            variables: 2,
            formula: &[1, 2, 0, -1, 2, 0, 1, -2, 0],
            assumed: &[],
        },
        room: 2,
    },
    Trial {
        about: "all four signs of a pair",
        question: Question {
            variables: 2,
            formula: &[1, 2, 0, -1, 2, 0, 1, -2, 0, -1, -2, 0],
            assumed: &[],
        },
        room: 2,
    },
    Trial {
        about: "two pairs of three that differ",
        question: Question {
            variables: 3,
            formula: &[1, 2, 0, -1, -2, 0, 2, 3, 0, -2, -3, 0],
            assumed: &[],
        },
        room: 3,
    },
    Trial {
        about: "three pairs of three that differ",
        question: Question {
            variables: 3,
            formula: &[1, 2, 0, -1, -2, 0, 2, 3, 0, -2, -3, 0, 1, 3, 0, -1, -3, 0],
            assumed: &[],
        },
        room: 3,
    },
    Trial {
        about: "a literal equal to the variables",
        question: Question {
            variables: 2,
            formula: &[2, 0, -2, 1, 0],
            assumed: &[],
        },
        room: 2,
    },
    Trial {
        about: "a literal above the variables",
        question: Question {
            variables: 2,
            formula: &[3, 0],
            assumed: &[],
        },
        room: 2,
    },
    Trial {
        about: "an assumed literal above the variables",
        question: Question {
            variables: 2,
            formula: &[1, 0],
            assumed: &[-3],
        },
        room: 2,
    },
    Trial {
        about: "an assumed 0",
        question: Question {
            variables: 2,
            formula: &[1, 0],
            assumed: &[0],
        },
        room: 2,
    },
    Trial {
        about: "a formula that does not end in 0",
        question: Question {
            variables: 1,
            formula: &[1],
            assumed: &[],
        },
        room: 1,
    },
    Trial {
        about: "a second clause that does not end in 0",
        question: Question {
            variables: 1,
            formula: &[1, 0, 1],
            assumed: &[],
        },
        room: 1,
    },
    Trial {
        about: "-32768 in a formula",
        question: Question {
            variables: 3,
            formula: &[-32768, 0],
            assumed: &[],
        },
        room: 3,
    },
    Trial {
        about: "-32768 assumed",
        question: Question {
            variables: 3,
            formula: &[],
            assumed: &[-32768],
        },
        room: 3,
    },
    Trial {
        about: "sixteen variables",
        question: Question {
            variables: 16,
            formula: &[-15, 16, 0, 15, 16, 0, -16, 1, 0],
            assumed: &[-15],
        },
        room: 16,
    },
    Trial {
        about: "seventeen variables",
        question: Question {
            variables: 17,
            formula: &[17, 0],
            assumed: &[],
        },
        room: 17,
    },
    Trial {
        about: "1024 variables",
        question: Question {
            variables: 1024,
            formula: &[1024, 0, -1024, -1, 0],
            assumed: &[],
        },
        room: 1024,
    },
    Trial {
        about: "1025 variables",
        question: Question {
            variables: 1025,
            formula: &[1, 0],
            assumed: &[],
        },
        room: 1100,
    },
    Trial {
        about: "too many variables and an open clause",
        question: Question {
            variables: 1025,
            formula: &[1],
            assumed: &[],
        },
        room: 1100,
    },
    Trial {
        about: "an open clause and too few bytes",
        question: Question {
            variables: 2,
            formula: &[1],
            assumed: &[],
        },
        room: 1,
    },
    Trial {
        about: "too few bytes",
        question: Question {
            variables: 2,
            formula: &[1, 0],
            assumed: &[],
        },
        room: 1,
    },
    Trial {
        about: "more bytes than variables",
        question: Question {
            variables: 2,
            formula: &[1, 0],
            assumed: &[-2],
        },
        room: 9,
    },
];
