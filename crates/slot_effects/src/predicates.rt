//! The predicates as a word (volume 3, chapter 2, `mov pr`).

ghost use Rattle.std.specs.Prelude.{◌≡◌, ◌<◌, ◌^◌, if◌then◌else◌};
ghost use Rattle.ia_meaning.specs.Moves.{predicate_word};

/// 2 to the n-th power where the bit is set, and else 0.
fn place_value(n: usize, is_set: bool) -> u64
    requires { n < 64 }
    ensures { result ≡ (if is_set then 2 ^ n else 0) }
{
    if is_set { 1 << n } else { 0 }
}

/// The predicates as a word: bit n is that of place n.
#[tactic(auto, using(crate::proofs::PredicateWords::whole))]
pub fn predicate_word(predicates: &[bool; 64]) -> u64
    ensures { result ≡ predicate_word predicates.now }
{
    let mut word = 0;
    for n in 0..64 {
        word += place_value(n, predicates[n]);
    }
    word
}
