// A complete solver: it forces, chooses and backs until it ends.
#![tactic(auto)]

mod mood;
pub mod solver;
mod state;

pub use solver::Search;

#[cfg(test)]
mod tests {
    use crate::solver::Search;
    use sat::{Question, Refusal, Solver, Verdict};

    fn ask(variables: usize, formula: &[i16], assumed: &[i16]) -> Result<Verdict, Refusal> {
        let question = Question {
            variables,
            formula,
            assumed,
        };
        Search::new().solve(question, &mut [7u8; 4])
    }

    #[test]
    fn clauses_and_variables(rt: HostRuntime) {
        assert_eq!(rt; ask(0, &[], &[]), Ok(Verdict::Yes));
        assert_eq!(rt; ask(0, &[0], &[]), Ok(Verdict::No));
        assert_eq!(rt; ask(1, &[1], &[]), Err(Refusal::IllFormed));
        assert_eq!(rt;
            ask(2, &[1, 2, 0, -1, 2, 0, 1, -2, 0], &[]),
            Ok(Verdict::Yes)
        );
        assert_eq!(rt;
            ask(2, &[1, 2, 0, -1, 2, 0, 1, -2, 0, -1, -2, 0], &[]),
            Ok(Verdict::No)
        );
    }

    #[test]
    fn assumed_literals(rt: HostRuntime) {
        assert_eq!(rt; ask(1, &[], &[1, -1]), Ok(Verdict::No));
        assert_eq!(rt; ask(2, &[1, 2, 0], &[-1, -1]), Ok(Verdict::Yes));
        assert_eq!(rt; ask(2, &[1, 2, 0], &[-1, -2]), Ok(Verdict::No));
        assert_eq!(rt; ask(2, &[1, 2, 0], &[0]), Err(Refusal::IllFormed));
    }

    #[test]
    fn repeats_and_tautologies(rt: HostRuntime) {
        assert_eq!(rt; ask(2, &[-2, -2, 0, 1, -1, 0], &[]), Ok(Verdict::Yes));
        assert_eq!(rt; ask(1, &[1, 1, 0, -1, -1, 0], &[]), Ok(Verdict::No));
    }

    #[test]
    fn bytes_of_the_valuation(rt: HostRuntime) {
        let mut room = [7u8; 4];
        let mut solver = Search::new();
        let question = Question {
            variables: 3,
            formula: &[1, 0, -2, 0, 2, 3, 0],
            assumed: &[],
        };
        assert_eq!(rt; solver.solve(question, &mut room), Ok(Verdict::Yes));
        assert_eq!(rt; room, [1, 0, 1, 7]);
        let question = Question {
            variables: 5,
            formula: &[],
            assumed: &[],
        };
        assert_eq!(rt;
            solver.solve(question, &mut room),
            Err(Refusal::ShortValuation { needed: 5 })
        );
        assert_eq!(rt; room, [1, 0, 1, 7]);
        let question = Question {
            variables: 2,
            formula: &[0],
            assumed: &[],
        };
        assert_eq!(rt; solver.solve(question, &mut room), Ok(Verdict::No));
        assert_eq!(rt; room, [0, 0, 1, 7]);
        assert_eq!(rt; solver.tally(), 2);
    }
}
