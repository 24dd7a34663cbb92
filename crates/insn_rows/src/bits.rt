//! Where the bits of a code stand in a word.

ghost use Rattle.std.specs.Prelude.{◌≡◌, ◌+◌, ◌*◌, ◌/◌, ◌%◌, ◌<◌, ◌≤◌, ◌^◌, IsTrue};
ghost use Rattle.bundle_bits.specs.Words.{word_of, bits};
ghost use Rattle.insn_rows.specs.Scattered.{list_of, width_of, scattered};
ghost use Rattle.insn_rows.specs.Reading.{gathered};
ghost use Rattle.insn_rows.specs.WellMade.{are_apart_fields};

/// Some bits of a word of 41 bits, of which bit 0 is the lowest.
#[derive(Clone, Copy)]
pub struct BitField {
    /// The lowest bit.
    pub low: u32,
    /// How many bits.
    pub width: u32,
}

impl BitField {
    /// What a word has here.
    #[inline]
    #[tactic(auto, using(crate::proofs::Masks::got, crate::proofs::Masks::below))]
    fn get(self, word: u64) -> u64
        requires { self.low + self.width ≤ 41 }
        ensures value { result ≡ bits self.low self.width word }
        ensures within { result < 2 ^ self.width }
    {
        (word >> self.low) & ((1 << self.width) - 1)
    }

    /// The low bits of a number, here.
    #[inline]
    #[tactic(auto, using(crate::proofs::Masks::set, crate::proofs::Masks::set_below))]
    fn put(self, number: u64) -> u64
        requires { self.low + self.width ≤ 41 }
        ensures value { result ≡ number % 2 ^ self.width * 2 ^ self.low }
        ensures within { result < 2 ^ 41 }
    {
        (number & ((1 << self.width) - 1)) << self.low
    }
}

/// A number with another one below it.
#[inline]
#[tactic(auto, using(crate::proofs::Masks::joined, crate::proofs::Masks::joined_below))]
fn join(high: u64, high_width: u32, low: u64, width: u32) -> u64
    requires room { high_width + width ≤ 41 }
    requires high_fits { high < 2 ^ high_width }
    requires low_fits { low < 2 ^ width }
    ensures value { result ≡ high * 2 ^ width + low }
    ensures within { result < 2 ^ (high_width + width) }
{
    (high << width) + low
}

/// The bits of a code: up to four fields of a word, the one of the top bits first.
#[derive(Clone, Copy)]
pub enum Bits {
    /// The code has no bits: it is 0.
    None,
    /// One field.
    One(BitField),
    /// Two fields.
    Two(BitField, BitField),
    /// Three fields.
    Three(BitField, BitField, BitField),
    /// Four fields.
    Four(BitField, BitField, BitField, BitField),
}

impl Bits {
    /// How many bits there are.
    #[inline]
    pub(crate) fn width(self) -> u32
        requires { width_of (list_of self) ≤ 41 }
        ensures { result ≡ width_of (list_of self) }
    {
        match self {
            Bits::None => 0,
            Bits::One(a) => a.width,
            Bits::Two(a, b) => a.width + b.width,
            Bits::Three(a, b, c) => a.width + b.width + c.width,
            Bits::Four(a, b, c, d) => a.width + b.width + c.width + d.width,
        }
    }

    /// The word that has a number here, and zeros elsewhere.
    #[inline]
    #[tactic(auto, using(crate::proofs::Masks::put_two, crate::proofs::Masks::put_three, crate::proofs::Masks::put_four, crate::proofs::Masks::put_one, crate::proofs::Masks::put_below))]
    pub(crate) fn put(self, number: u64) -> u64
        requires width { width_of (list_of self) ≤ 41 }
        requires apart { IsTrue (are_apart_fields (list_of self)) }
        ensures value { result ≡ word_of (scattered (list_of self) number) }
        ensures within { result < 2 ^ 41 }
    {
        match self {
            Bits::None => 0,
            Bits::One(a) => a.put(number),
            Bits::Two(a, b) => a.put(number >> b.width) + b.put(number),
            Bits::Three(a, b, c) => {
                a.put(number >> (b.width + c.width)) + (b.put(number >> c.width) + c.put(number))
            }
            Bits::Four(a, b, c, d) => {
                let third = d.width;
                let second = c.width + third;
                let first = b.width + second;
                a.put(number >> first)
                    + (b.put(number >> second) + (c.put(number >> third) + d.put(number)))
            }
        }
    }

    /// The number that a word has here.
    #[inline]
    #[tactic(auto, using(crate::proofs::Masks::get_one, crate::proofs::Masks::get_two, crate::proofs::Masks::get_three, crate::proofs::Masks::get_four, crate::proofs::Masks::below_two, crate::proofs::Masks::below_three, crate::proofs::Masks::below_four))]
    pub(crate) fn get(self, word: u64) -> u64
        requires width { width_of (list_of self) ≤ 41 }
        requires apart { IsTrue (are_apart_fields (list_of self)) }
        ensures value { result ≡ gathered (list_of self) word }
        ensures within { result < 2 ^ width_of (list_of self) }
    {
        match self {
            Bits::None => 0,
            Bits::One(a) => a.get(word),
            Bits::Two(a, b) => join(a.get(word), a.width, b.get(word), b.width),
            Bits::Three(a, b, c) => {
                let low = join(b.get(word), b.width, c.get(word), c.width);
                join(a.get(word), a.width, low, b.width + c.width)
            }
            Bits::Four(a, b, c, d) => {
                let third = d.width;
                let second = c.width + third;
                let first = b.width + second;
                let low = join(c.get(word), c.width, d.get(word), third);
                let middle = join(b.get(word), b.width, low, second);
                join(a.get(word), a.width, middle, first)
            }
        }
    }
}
