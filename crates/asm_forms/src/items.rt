//! What a form wants at one position of its operands.

ghost use Rattle.std.specs.Prelude.{◌≡◌};
ghost use Rattle.std.specs.Cmp.Lexicographic.{pointwise};
ghost use Rattle.asm_forms.specs.Items.{fixed_token, is_fixed, takes, accepts, has_room, within, is_label, is_register, is_number, is_label_item, begins_with_letter, is_long_name, is_stop};

use asm_lexemes::Token;
use ia_insn::{Ar, Gr};
use ia_program::limits::DATA_LIMIT;

/// A field for a number.
#[derive(Clone, Copy)]
pub enum NumberField {
    /// -128 to 127.
    Imm8,
    /// -127 to 128: a number that is lowered by one.
    Less8,
    /// -256 to 255.
    Imm9,
    /// -8192 to 8191.
    Imm14,
    /// -2097152 to 2097151.
    Imm22,
    /// 0 to 2097151.
    Imm21,
    /// 0 to 4611686018427387903.
    Imm62,
    /// -9223372036854775808 to 18446744073709551615.
    Imm64,
    /// 1 to 4.
    Count,
    /// 0 to 63.
    Position,
    /// 1 to 64.
    Length,
    /// 1 to 16.
    Length16,
    /// -1 to 0.
    ZeroOrMinusOne,
    /// 0 to 96.
    Frame,
    /// 0 to 96 in eights.
    Rotating,
    /// -256 to 255, in bundles.
    Tag,
    /// -65536 to 131071.
    Mask,
    /// 44 bits, signed, in multiples of 65536.
    RotatingMask,
    /// 1, 4, 8 or 16, or one of these with a minus sign.
    Increment,
    /// 0 to the limit of data.
    Skip,
    /// -128 to 255.
    Data1,
    /// -32768 to 65535.
    Data2,
    /// -2147483648 to 4294967295.
    Data4,
}

/// What stands at one position and is the same in each line.
#[derive(Clone, Copy)]
pub enum Fixed {
    /// `=`
    Equals,
    /// `,`
    Comma,
    /// `[`
    OpenBracket,
    /// `]`
    CloseBracket,
    /// `ar.unat`
    Unat,
    /// `ar.pfs`
    Pfs,
    /// `r0`
    R0,
    /// `pr`
    Predicates,
    /// `pr.rot`
    RotatingPredicates,
    /// `ip`
    Ip,
    /// `1`
    One,
}

/// A kind of operand.
#[derive(Clone, Copy)]
pub enum Kind {
    /// A general register.
    Gr,
    /// A predicate register.
    Pr,
    /// A branch register.
    Br,
    /// An application register.
    Ar,
    /// A number of this field.
    Number(NumberField),
    /// A label.
    Label,
}

/// What a form wants at one position.
#[derive(Clone, Copy)]
pub enum FormItem {
    /// This token.
    Is(Fixed),
    /// An operand of this kind, with the number of its value, 0 for none.
    Takes(Kind, u8),
}

/// Whether a number from `-below` to `above` has this sign and magnitude.
fn within(negative: bool, magnitude: u64, below: u64, above: u64) -> bool
    ensures { result ≡ within negative magnitude below above }
{
    if negative {
        magnitude <= below
    } else {
        magnitude <= above
    }
}

/// Whether the field has room for the number of this sign and magnitude.
pub fn has_room(field: NumberField, negative: bool, magnitude: u64) -> bool
    ensures { result ≡ has_room field negative magnitude }
{
    match field {
        NumberField::Imm8 => within(negative, magnitude, 128, 127),
        NumberField::Less8 => within(negative, magnitude, 127, 128),
        NumberField::Imm9 => within(negative, magnitude, 256, 255),
        NumberField::Imm14 => within(negative, magnitude, 8_192, 8_191),
        NumberField::Imm22 => within(negative, magnitude, 2_097_152, 2_097_151),
        NumberField::Imm21 => within(negative, magnitude, 0, 2_097_151),
        NumberField::Imm62 => within(negative, magnitude, 0, 4_611_686_018_427_387_903),
        NumberField::Imm64 => within(
            negative,
            magnitude,
            9_223_372_036_854_775_808,
            18_446_744_073_709_551_615,
        ),
        NumberField::Count => within(negative, magnitude, 0, 4) && magnitude >= 1,
        NumberField::Position => within(negative, magnitude, 0, 63),
        NumberField::Length => within(negative, magnitude, 0, 64) && magnitude >= 1,
        NumberField::Length16 => within(negative, magnitude, 0, 16) && magnitude >= 1,
        NumberField::ZeroOrMinusOne => within(negative, magnitude, 1, 0),
        NumberField::Frame => within(negative, magnitude, 0, 96),
        NumberField::Rotating => within(negative, magnitude, 0, 96) && magnitude % 8 == 0,
        NumberField::Tag => within(negative, magnitude, 256, 255),
        NumberField::Mask => within(negative, magnitude, 65_536, 131_071),
        NumberField::RotatingMask => {
            within(negative, magnitude, 8_796_093_022_208, 8_796_093_022_207)
                && magnitude % 65_536 == 0
        }
        NumberField::Increment => matches!(magnitude, 1 | 4 | 8 | 16),
        NumberField::Skip => within(negative, magnitude, 0, DATA_LIMIT as u64),
        NumberField::Data1 => within(negative, magnitude, 128, 255),
        NumberField::Data2 => within(negative, magnitude, 32_768, 65_535),
        NumberField::Data4 => within(negative, magnitude, 2_147_483_648, 4_294_967_295),
    }
}

/// Whether the token is a name of at most 63 bytes: a label has any spelling.
fn is_label(token: Token) -> bool
    ensures { result ≡ is_label token }
{
    matches!(
        token,
        Token::Gr(_)
            | Token::Pr(_)
            | Token::Br(_)
            | Token::Ar(_)
            | Token::Predicates
            | Token::RotatingPredicates
            | Token::Ip
            | Token::Name
            | Token::Symbol
    )
}

/// The token that is fixed.
pub fn fixed_token(fixed: Fixed) -> Token
    ensures { result ≡ fixed_token fixed }
{
    match fixed {
        Fixed::Equals => Token::Equals,
        Fixed::Comma => Token::Comma,
        Fixed::OpenBracket => Token::OpenBracket,
        Fixed::CloseBracket => Token::CloseBracket,
        Fixed::Unat => Token::Ar(Ar::Unat),
        Fixed::Pfs => Token::Ar(Ar::Pfs),
        Fixed::R0 => Token::Gr(Gr::default()),
        Fixed::Predicates => Token::Predicates,
        Fixed::RotatingPredicates => Token::RotatingPredicates,
        Fixed::Ip => Token::Ip,
        Fixed::One => Token::Number {
            negative: false,
            magnitude: 1,
        },
    }
}

/// Whether the token is the fixed one.
#[inline(always)]
fn is_fixed(fixed: Fixed, token: Token) -> bool
    ensures { result ≡ is_fixed fixed token }
{
    match fixed {
        Fixed::Equals => matches!(token, Token::Equals),
        Fixed::Comma => matches!(token, Token::Comma),
        Fixed::OpenBracket => matches!(token, Token::OpenBracket),
        Fixed::CloseBracket => matches!(token, Token::CloseBracket),
        Fixed::Unat => matches!(token, Token::Ar(Ar::Unat)),
        Fixed::Pfs => matches!(token, Token::Ar(Ar::Pfs)),
        Fixed::R0 => match token {
            Token::Gr(register) => register.is_zero(),
            _ => false,
        },
        Fixed::Predicates => matches!(token, Token::Predicates),
        Fixed::RotatingPredicates => matches!(token, Token::RotatingPredicates),
        Fixed::Ip => matches!(token, Token::Ip),
        Fixed::One => matches!(
            token,
            Token::Number {
                negative: false,
                magnitude: 1
            }
        ),
    }
}

/// Whether an operand of the kind is read from the token.
#[inline(always)]
fn takes(kind: Kind, token: Token) -> bool
    ensures { result ≡ takes kind token }
{
    match kind {
        Kind::Gr => matches!(token, Token::Gr(_)),
        Kind::Pr => matches!(token, Token::Pr(_)),
        Kind::Br => matches!(token, Token::Br(_)),
        Kind::Ar => matches!(token, Token::Ar(_)),
        Kind::Number(field) => match token {
            Token::Number {
                negative,
                magnitude,
            } => has_room(field, negative, magnitude),
            _ => false,
        },
        Kind::Label => is_label(token),
    }
}

/// Whether the item is read from the token.
#[inline(always)]
pub fn accepts(item: FormItem, token: Token) -> bool
    ensures { result ≡ accepts item token }
{
    match item {
        FormItem::Is(fixed) => is_fixed(fixed, token),
        FormItem::Takes(kind, _) => takes(kind, token),
    }
}

/// Whether the operands are the items, one by one.
pub fn are_accepted(items: &[FormItem], operands: &[Token]) -> bool
    ensures { result ≡ pointwise accepts items.now operands.now }
{
    if items.len() != operands.len() {
        return false;
    }
    for at in 0..items.len() {
        if !accepts(items[at], operands[at]) {
            return false;
        }
    }
    true
}

/// Whether the item is a register.
pub fn is_register(item: FormItem) -> bool
    ensures { result ≡ is_register item }
{
    matches!(
        item,
        FormItem::Takes(Kind::Gr | Kind::Pr | Kind::Br | Kind::Ar, _)
            | FormItem::Is(
                Fixed::Unat
                    | Fixed::Pfs
                    | Fixed::R0
                    | Fixed::Predicates
                    | Fixed::RotatingPredicates
                    | Fixed::Ip
            )
    )
}

/// Whether the item is a number.
pub fn is_number(item: FormItem) -> bool
    ensures { result ≡ is_number item }
{
    matches!(
        item,
        FormItem::Takes(Kind::Number(_), _) | FormItem::Is(Fixed::One)
    )
}

/// Whether the item is a label.
pub fn is_label_item(item: FormItem) -> bool
    ensures { result ≡ is_label_item item }
{
    matches!(item, FormItem::Takes(Kind::Label, _))
}

/// Whether the token is a name that begins with a letter.
pub fn begins_with_letter(token: &Token) -> bool
    ensures { result ≡ begins_with_letter token.now }
{
    matches!(
        token,
        Token::Gr(_)
            | Token::Pr(_)
            | Token::Br(_)
            | Token::Ar(_)
            | Token::Predicates
            | Token::RotatingPredicates
            | Token::Ip
            | Token::Name
            | Token::LongName
    )
}

/// Whether the token is a name of 64 bytes or more.
pub fn is_long_name(token: &Token) -> bool
    ensures { result ≡ is_long_name token.now }
{
    matches!(token, Token::LongName | Token::LongSymbol)
}

/// Whether the token is a stop.
pub fn is_stop(token: &Token) -> bool
    ensures { result ≡ is_stop token.now }
{
    matches!(token, Token::Stop)
}
