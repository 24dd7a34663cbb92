//! The bundles of the programs.

ghost use Rattle.std.specs.Prelude.{◌≡◌};
ghost use Rattle.ia_program.specs.Templates.{units_of};
ghost use Rattle.ia_program.specs.Bundles.{FitUnits};
ghost use Rattle.ia_program.specs.declared.bundle.Slots.TheVariants.{Three};
ghost use Rattle.trial_maker.specs.Trials.{changed_register, filled_register, operation_of, always, nop, compare, addition, operation, mii, bundle_of, last_bundle};

use crate::draws::Trio;
use ia_insn::{AluFn, CmpKind, Gr, Insn, Op, Pr, Rel, Unit};
use ia_program::{BundleOf, Slots, Template};

/// The operations, which draws name.
const OPERATIONS: [AluFn; 9] = [
    AluFn::Add,
    AluFn::Add1,
    AluFn::Sub,
    AluFn::Sub1,
    AluFn::Addp4,
    AluFn::And,
    AluFn::Andcm,
    AluFn::Or,
    AluFn::Xor,
];

/// One of r8 to r15.
fn changed_register(n: u32) -> Gr
    ensures { result ≡ changed_register n }
{
    Gr::of_field(u64::from(8 + n % 8))
}

/// One of r16 to r23.
fn filled_register(n: u32) -> Gr
    ensures { result ≡ filled_register n }
{
    Gr::of_field(u64::from(16 + n % 8))
}

/// The operation that a draw names.
fn operation_of(draw: u32) -> AluFn
    ensures { result ≡ operation_of draw }
{
    OPERATIONS[(draw / 64 % 9) as usize]
}

/// An instruction under p0.
fn always(op: Op) -> Insn
    ensures { result ≡ always op }
{
    Insn {
        qp: Pr::default(),
        op,
    }
}

/// A `nop` of a unit.
fn nop(unit: Unit) -> Insn
    ensures { result ≡ nop unit }
{
    always(Op::Nop { unit, imm: 0 })
}

/// `cmp.lt p6,p7` of the registers that a draw names.
fn compare(draw: u32) -> Insn
    ensures { result ≡ compare draw }
{
    always(Op::Cmp {
        four_bytes: false,
        rel: Rel::Lt,
        kind: CmpKind::Normal,
        p1: Pr::of_field(6),
        p2: Pr::of_field(7),
        r2: changed_register(draw),
        r3: changed_register(draw / 8),
    })
}

/// `adds` of a constant and a register that a draw names, in bundle `number`.
fn addition(number: u32, draw: u32) -> Insn
    ensures { result ≡ addition number draw }
{
    always(Op::AddImm14 {
        p4: false,
        r1: filled_register(number / 4),
        imm: i64::from(draw / 8 % 8192),
        r3: changed_register(draw),
    })
}

/// An operation on two registers under a predicate, 0 to 63: one draw names its target, another the
/// operation and its operands.
fn operation(qp: Pr, target: u32, draw: u32) -> Insn
    ensures { result ≡ operation qp target draw }
{
    let op = Op::Alu {
        f: operation_of(draw),
        r1: changed_register(target),
        r2: changed_register(draw),
        r3: filled_register(draw / 8),
    };
    Insn { qp, op }
}

/// A bundle of the units M, I and I with a stop at its end, of instructions that fit there.
fn mii(a: Insn, b: Insn, c: Insn) -> BundleOf
    requires { FitUnits (units_of 0x01) (Three a b c) }
    ensures { result ≡ mii a b c }
{
    BundleOf::of_fitting(Template::of(0x01).unwrap(), Slots::Three { a, b, c })
}

/// Bundle `number` from its draws, before the last.
pub(crate) fn bundle(number: u32, draws: Trio) -> BundleOf
    ensures { result ≡ bundle_of number draws }
{
    if number % 4 == 0 {
        mii(
            compare(draws.first),
            addition(number, draws.second),
            nop(Unit::I),
        )
    } else {
        mii(
            nop(Unit::M),
            operation(Pr::of_field(6), draws.first, draws.second),
            operation(Pr::of_field(7), draws.first, draws.third),
        )
    }
}

/// The last bundle, which ends the run.
pub(crate) fn last_bundle() -> BundleOf
    ensures { result ≡ last_bundle }
{
    let end = always(Op::Break {
        unit: Unit::I,
        imm: 0,
    });
    mii(nop(Unit::M), nop(Unit::I), end)
}
