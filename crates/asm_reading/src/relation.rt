//! The relation line.

ghost use Rattle.std.specs.Prelude.{◌≡◌};
ghost use Rattle.asm_reading.specs.Lines.{relation_of};

use crate::line::{Line, Predicates};
use asm_lexemes::{LineFault, Token};
use asm_matching::{agreed_relation, named_predicates, relation_fault};

/// A relation line: `"mutex"`, and 2 to 15 predicates of p1 to p15, each after a comma and none of them twice.
pub(crate) fn relation_of(tokens: &[Token]) -> Result<Line, LineFault>
    ensures { result ≡ relation_of tokens.now }
{
    let at = agreed_relation(tokens);
    let numbers = named_predicates(tokens);
    if at == tokens.len() && at % 2 == 1 && numbers.len() >= 2 {
        let predicates = Predicates::of_numbers(numbers);
        Ok(Line::Relation { predicates })
    } else {
        Err(relation_fault(at, tokens))
    }
}
