//! Where the row of an opcode stands.

ghost use Rattle.std.specs.Prelude.{◌≡◌, ◌≤◌};
ghost use Rattle.formats_a.specs.RowIndexes.{row_index_of_compare, row_index_of_zero, row_index_of};

use ia_insn::{AluFn, CmpKind, LaneFn, Rel};
use insn_rows::Opcode;

/// The index of the row of a compare of two operands among those of its format.
fn row_index_of_compare(rel: Rel, kind: CmpKind, first: usize) -> Option<usize>
    requires { first ≤ 41 }
    ensures { result ≡ row_index_of_compare rel kind first }
{
    let row_index = match (rel, kind) {
        (Rel::Lt, CmpKind::Normal) => 0,
        (Rel::Ltu, CmpKind::Normal) => 1,
        (Rel::Eq, CmpKind::Normal) => 2,
        (Rel::Lt, CmpKind::Unc) => 3,
        (Rel::Ltu, CmpKind::Unc) => 4,
        (Rel::Eq, CmpKind::Unc) => 5,
        (Rel::Eq, CmpKind::And) => 6,
        (Rel::Ne, CmpKind::And) => 7,
        (Rel::Eq, CmpKind::Or) => 8,
        (Rel::Ne, CmpKind::Or) => 9,
        (Rel::Eq, CmpKind::OrAndcm) => 10,
        (Rel::Ne, CmpKind::OrAndcm) => 11,
        _ => return None,
    };
    Some(first + row_index)
}

/// The index of the row of a compare of r0 and a register.
fn row_index_of_zero(rel: Rel, kind: CmpKind) -> Option<usize>
    ensures { result ≡ row_index_of_zero rel kind }
{
    Some(match (rel, kind) {
        (Rel::Gt, CmpKind::And) => 29,
        (Rel::Le, CmpKind::And) => 30,
        (Rel::Ge, CmpKind::And) => 31,
        (Rel::Lt, CmpKind::And) => 32,
        (Rel::Gt, CmpKind::Or) => 33,
        (Rel::Le, CmpKind::Or) => 34,
        (Rel::Ge, CmpKind::Or) => 35,
        (Rel::Lt, CmpKind::Or) => 36,
        (Rel::Gt, CmpKind::OrAndcm) => 37,
        (Rel::Le, CmpKind::OrAndcm) => 38,
        (Rel::Ge, CmpKind::OrAndcm) => 39,
        (Rel::Lt, CmpKind::OrAndcm) => 40,
        _ => return None,
    })
}

/// The index of the row of an opcode, and None for one that no A instruction has.
pub(crate) fn row_index_of(opcode: Opcode) -> Option<usize>
    ensures { result ≡ row_index_of opcode }
{
    match opcode {
        Opcode::Alu(f) => Some(match f {
            AluFn::Add => 0,
            AluFn::Add1 => 1,
            AluFn::Sub => 2,
            AluFn::Sub1 => 3,
            AluFn::Addp4 => 4,
            AluFn::And => 5,
            AluFn::Andcm => 6,
            AluFn::Or => 7,
            AluFn::Xor => 8,
        }),
        Opcode::ShlAdd => Some(9),
        Opcode::AluImm8(f) => Some(match f {
            AluFn::Sub => 10,
            AluFn::And => 11,
            AluFn::Andcm => 12,
            AluFn::Or => 13,
            AluFn::Xor => 14,
            _ => return None,
        }),
        Opcode::AddImm14 => Some(15),
        Opcode::AddImm22 => Some(16),
        Opcode::Cmp(rel, kind) => row_index_of_compare(rel, kind, 17),
        Opcode::CmpZero(rel, kind) => row_index_of_zero(rel, kind),
        Opcode::CmpImm(rel, kind) => row_index_of_compare(rel, kind, 41),
        Opcode::Lane(f) => Some(match f {
            LaneFn::Padd => 53,
            LaneFn::Psub => 54,
            LaneFn::PcmpEq => 55,
            LaneFn::PcmpGt => 56,
        }),
        _ => None,
    }
}
