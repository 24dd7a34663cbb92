//! Compares (volume 3, chapter 2: `cmp` and `cmp4`).

ghost use Rattle.std.specs.Prelude.{◌≡◌};
ghost use Rattle.ia_meaning.specs.Arithmetic.{related, compared};

use ia_insn::Rel;

/// The relation of two words.
fn related(rel: Rel, a: u64, b: u64) -> bool
    ensures { result ≡ related 64 rel a b }
{
    match rel {
        Rel::Eq => a == b,
        Rel::Ne => a != b,
        Rel::Lt => a.cast_signed() < b.cast_signed(),
        Rel::Ltu => a < b,
        Rel::Gt => a.cast_signed() > b.cast_signed(),
        Rel::Ge => a.cast_signed() >= b.cast_signed(),
        Rel::Le => a.cast_signed() <= b.cast_signed(),
    }
}

/// The relation of two words or, where `four_bytes` is set, that of their low 32 bits: it is the same where
/// those are moved to the top of a word.
pub(crate) fn compared(four_bytes: bool, rel: Rel, a: u64, b: u64) -> bool
    ensures { result ≡ compared four_bytes rel a b }
{
    if four_bytes {
        related(rel, a << 32, b << 32)
    } else {
        related(rel, a, b)
    }
}
