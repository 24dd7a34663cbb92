//! The registers that an instruction names.

ghost use Rattle.std.specs.Prelude.{◌≡◌, ℕ, ◌<◌, ◌^◌, ◌↔◌, IsTrue, Some, Option};
ghost use Rattle.std.specs.Option.{SomeIff};
ghost use Rattle.ia_insn.specs.RegisterTexts.{gr_text, pr_text, br_text};

use std::fmt;
use std::marker::Model;

/// A general register, r0 to r127 (volume 1, chapter 3, general registers). Contracts see its
/// number.
#[derive(Clone, Copy, Debug, PartialEq, Eq)]
pub struct Gr {
    number: u8,
}

impl Model for Gr {
    ghost Value = { ℕ };

    ghost view = { λ r. r.number };

    ghost invariant = { λ r. r.number < 128 };

    ghost inverse = { λ n. record { number = n } };
}

impl Gr {
    /// The register with this number, and None exactly for a number above 127.
    pub fn new(n: u8) -> Option<Self>
        ensures { SomeIff result (n < 128) n }
    {
        if n < 128 {
            Some(Gr { number: n })
        } else {
            None
        }
    }

    /// The register whose number a field of seven bits holds.
    pub fn of_field(n: u64) -> Self
        requires { n < 128 }
        ensures { result ≡ n }
    {
        Gr { number: n as u8 }
    }

    /// Its number, 0 to 127.
    pub fn number(&self) -> u8
        ensures value { result ≡ self.now }
        ensures within { result < 128 }
    {
        self.number
    }

    /// Whether it is r0, which reads 0 and is no target.
    pub fn is_zero(&self) -> bool
        ensures exact { IsTrue result ↔ (self.now ≡ 0) }
        ensures within { self.now < 128 }
    {
        self.number == 0
    }
}

impl Default for Gr {
    ghost is_default = { λ r. r ≡ 0 };

    /// r0.
    fn default() -> Self {
        Gr { number: 0 }
    }
}

impl fmt::Display for Gr {
    ghost output = { λ r. Some (gr_text r) };

    /// `r` and the number in decimal.
    fn fmt<W: fmt::Write>(&self, f: &mut fmt::Formatter<W>) -> fmt::Result {
        let number = self.number;
        write!(f, "r{number}")
    }
}

/// A predicate register, p0 to p63 (volume 1, chapter 3, predicate registers). Contracts see its
/// number.
#[derive(Clone, Copy, Debug, PartialEq, Eq)]
pub struct Pr {
    number: u8,
}

impl Model for Pr {
    ghost Value = { ℕ };

    ghost view = { λ r. r.number };

    ghost invariant = { λ r. r.number < 64 };

    ghost inverse = { λ n. record { number = n } };
}

impl Pr {
    /// The register with this number, and None exactly for a number above 63.
    pub fn new(n: u8) -> Option<Self>
        ensures { SomeIff result (n < 64) n }
    {
        if n < 64 { Some(Pr { number: n }) } else { None }
    }

    /// The register whose number a field of six bits holds.
    pub fn of_field(n: u64) -> Self
        requires { n < 64 }
        ensures { result ≡ n }
    {
        Pr { number: n as u8 }
    }

    /// Its number, 0 to 63.
    pub fn number(&self) -> u8
        ensures value { result ≡ self.now }
        ensures within { result < 64 }
    {
        self.number
    }

    /// Whether it is p0, which is always 1.
    pub fn is_zero(&self) -> bool
        ensures exact { IsTrue result ↔ (self.now ≡ 0) }
        ensures within { self.now < 64 }
    {
        self.number == 0
    }
}

impl Default for Pr {
    ghost is_default = { λ r. r ≡ 0 };

    /// p0.
    fn default() -> Self {
        Pr { number: 0 }
    }
}

impl fmt::Display for Pr {
    ghost output = { λ r. Some (pr_text r) };

    /// `p` and the number in decimal.
    fn fmt<W: fmt::Write>(&self, f: &mut fmt::Formatter<W>) -> fmt::Result {
        let number = self.number;
        write!(f, "p{number}")
    }
}

/// A branch register, b0 to b7 (volume 1, chapter 3, branch registers). Contracts see its number.
#[derive(Clone, Copy, Debug, PartialEq, Eq)]
pub struct Br {
    number: u8,
}

impl Model for Br {
    ghost Value = { ℕ };

    ghost view = { λ r. r.number };

    ghost invariant = { λ r. r.number < 8 };

    ghost inverse = { λ n. record { number = n } };
}

impl Br {
    /// The register with this number, and None exactly for a number above 7.
    pub fn new(n: u8) -> Option<Self>
        ensures { SomeIff result (n < 8) n }
    {
        if n < 8 { Some(Br { number: n }) } else { None }
    }

    /// The register whose number a field of three bits holds.
    pub fn of_field(n: u64) -> Self
        requires { n < 8 }
        ensures { result ≡ n }
    {
        Br { number: n as u8 }
    }

    /// Its number, 0 to 7.
    pub fn number(&self) -> u8
        ensures value { result ≡ self.now }
        ensures within { result < 8 }
    {
        self.number
    }

    /// The law that its number has three bits. It does nothing.
    pub fn has_three_bits(self)
        ensures { self < 2 ^ 3 }
    {}
}

impl Default for Br {
    ghost is_default = { λ r. r ≡ 0 };

    /// b0.
    fn default() -> Self {
        Br { number: 0 }
    }
}

impl fmt::Display for Br {
    ghost output = { λ r. Some (br_text r) };

    /// `b` and the number in decimal.
    fn fmt<W: fmt::Write>(&self, f: &mut fmt::Formatter<W>) -> fmt::Result {
        let number = self.number;
        write!(f, "b{number}")
    }
}

/// An application register that a move reaches (volume 1, chapter 3, application registers): the
/// user NaT collection register, the previous function state, the loop count and the epilog
/// count.
#[derive(Clone, Copy, Debug, PartialEq, Eq)]
pub enum Ar {
    /// `ar.unat`, register 36, which M slots move.
    Unat,
    /// `ar.pfs`, register 64, which I slots move.
    Pfs,
    /// `ar.lc`, register 65, which I slots move.
    Lc,
    /// `ar.ec`, register 66, which I slots move.
    Ec,
}
