// A formula taken clause by clause.
ghost use Rattle.std.specs.Prelude.{◌≡◌, ◌<◌, [], ◌∷◌, ◌++◌, length, position, pos, IfSome, IfNone};
ghost use Rattle.sat.specs.Formula.{is_zero, clauses_of};

// The place of the 0 that ends the first clause.
fn first_end(formula: &[i16]) -> Option<usize>
    ensures { result ≡ position is_zero formula.now }
{
    formula.iter().position(|z| *z == 0)
}

// The first clause, and the numbers behind its 0. Numbers without a 0 are no clause.
#[tactic(auto, using(crate::proofs::Clauses::clauses_first, crate::proofs::Clauses::clauses_none, crate::proofs::Clauses::whole, std::proofs::lemmas::Grind::common_steps))]
pub fn split_clause(formula: &[i16]) -> Option<(&[i16], &[i16])>
    ensures none { IfNone result (clauses_of formula.now ≡ []) }
    ensures first { IfSome result (λ parts. clauses_of formula.now ≡ parts.0.now ∷ clauses_of parts.1.now) }
    ensures whole { IfSome result (λ parts. formula.now ≡ parts.0.now ++ (pos 0 ∷ parts.1.now)) }
    ensures shorter { IfSome result (λ parts. length parts.1.now < length formula.now) }
{
    let end = first_end(formula)?;
    Some((&formula[..end], &formula[end + 1..]))
}
