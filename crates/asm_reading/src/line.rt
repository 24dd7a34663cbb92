//! What a line says.

ghost use Rattle.std.specs.Prelude.{◌≡◌, ℕ, ◌≤◌, List, length};
ghost use Rattle.asm_lexemes.specs.declared.limits.TheConstants.{NUMBER_LIMIT};
ghost use Rattle.asm_matching.specs.Related.{ArePredicates};

use arrayvec::ArrayVec;
use asm_lexemes::Name;
use asm_lexemes::limits::NUMBER_LIMIT;
use ia_insn::{Insn, Op, Pr};
use std::marker::Model;

/// What a line says.
#[derive(Drop)]
pub enum Line {
    /// Nothing: a blank line.
    Empty,
    /// `name:`, the label of the next bundle or of the next data byte.
    Label {
        /// The name.
        name: Name,
    },
    /// `.text`: bundles follow.
    Text,
    /// `.data`: data follow.
    Data,
    /// `.entry name`: the bundle of that label is a declared entry.
    Entry {
        /// The name of the label.
        name: Name,
    },
    /// `.pred.rel "mutex",p1,p2..`: whoever lands on the next bundle promises that of these predicates no two
    /// are both 1.
    Relation {
        /// The predicates.
        predicates: Predicates,
    },
    /// `.global`, `.proc` or `.endp` and a name, which have no effect.
    Ignored,
    /// `data1`, `data2`, `data4` or `data8` and numbers.
    Numbers {
        /// How many bytes each number has: 1, 2, 4 or 8.
        size: u8,
        /// The numbers, each modulo 256 to the power of the size.
        values: Values,
    },
    /// `.skip n`: n zero bytes.
    Skip {
        /// How many, 0 to the limit of data.
        count: u32,
    },
    /// `{` and a template name, which open a bundle.
    Open {
        /// The template name.
        name: TemplateName,
    },
    /// An instruction.
    Slot {
        /// The instruction, and what is still to be put into it.
        draft: Draft,
        /// Whether a stop follows.
        stop: bool,
    },
    /// `;;` alone: a stop after the slot before it.
    Stop,
    /// `}`, which closes a bundle.
    Close,
}

/// The name of a template without its stops (volume 3, chapter 4, bundle formats).
#[derive(Clone, Copy, Debug, PartialEq, Eq)]
pub enum TemplateName {
    /// `.mii`
    Mii,
    /// `.mlx`
    Mlx,
    /// `.mmi`
    Mmi,
    /// `.mfi`
    Mfi,
    /// `.mmf`
    Mmf,
    /// `.mib`
    Mib,
    /// `.mbb`
    Mbb,
    /// `.bbb`
    Bbb,
    /// `.mmb`
    Mmb,
    /// `.mfb`
    Mfb,
}

/// 1 to [`NUMBER_LIMIT`] numbers. Contracts see their list.
#[derive(Debug, Drop)]
pub struct Values {
    numbers: ArrayVec<u64, NUMBER_LIMIT>,
}

impl Model for Values {
    ghost Value = { List ℕ };

    ghost view = { λ v. v.numbers.items };

    ghost invariant = { λ v. (1 ≤ length v.numbers.items) × (length v.numbers.items ≤ NUMBER_LIMIT) };

    ghost inverse = { λ numbers. record { numbers = record { items = numbers } } };
}

impl Values {
    /// The values with these numbers.
    pub(crate) fn of_numbers(numbers: ArrayVec<u64, NUMBER_LIMIT>) -> Self
        requires { (1 ≤ length numbers.items) × (length numbers.items ≤ NUMBER_LIMIT) }
        ensures { result ≡ numbers.items }
    {
        Values { numbers }
    }

    /// Its numbers, of which there are 1 to [`NUMBER_LIMIT`].
    pub fn numbers(&self) -> &[u64]
        ensures value { result.now ≡ self.now }
        ensures within { (1 ≤ length self.now) × (length self.now ≤ NUMBER_LIMIT) }
    {
        self.numbers.as_slice()
    }
}

/// 2 to 15 of p1 to p15, in rising order. Contracts see the list of their numbers.
#[derive(Clone, Debug, Drop)]
pub struct Predicates {
    numbers: ArrayVec<u8, 15>,
}

impl Model for Predicates {
    ghost Value = { List ℕ };

    ghost view = { λ p. p.numbers.items };

    ghost invariant = { λ p. ArePredicates p.numbers.items };

    ghost inverse = { λ numbers. record { numbers = record { items = numbers } } };
}

impl Predicates {
    /// The predicates with these numbers.
    pub(crate) fn of_numbers(numbers: ArrayVec<u8, 15>) -> Self
        requires { ArePredicates numbers.items }
        ensures { result ≡ numbers.items }
    {
        Predicates { numbers }
    }

    /// Their numbers, of which there are 2 to 15, each from 1 to 15 and above the one before it.
    pub fn numbers(&self) -> &[u8]
        ensures value { result.now ≡ self.now }
        ensures within { ArePredicates self.now }
    {
        self.numbers.as_slice()
    }
}

/// An instruction as a line has it.
#[derive(Drop)]
pub struct Draft {
    /// The instruction. Where the line names a target, its displacement, or the number of a `movl`, is
    /// 0 until the name is put in.
    pub insn: Insn,
    /// The name of the target.
    pub target: Option<Name>,
    /// Whether the unit letter is missing. The unit is then X for a break or a nop and I for a hint or a
    /// check, until that of the slot is put in.
    pub bare: bool,
}

impl Draft {
    /// Room for one.
    pub(crate) fn blank() -> Self {
        Draft {
            insn: Insn {
                qp: Pr::default(),
                op: Op::Mf,
            },
            target: None,
            bare: false,
        }
    }
}
