//! The numbers of registers and predicates behind rotation.

ghost use Rattle.std.specs.Prelude.{◌≡◌, ◌+◌, ◌*◌, ◌<◌, ◌≤◌, ◌⊎◌};
ghost use Rattle.ia_meaning.specs.declared.state.FrameShape.{FrameShape};
ghost use Rattle.ia_meaning.specs.Names.{frame_index, predicate_index};

/// The number in the frame, 0 to 95, of register 32 + `k`, with `k` from 0 to 95, in a frame whose
/// rotating part has `sor` times 8 registers, 0 to 96, and whose rename base of the general registers is
/// `rrb`. A register past the rotating part stands at its own number.
#[tactic(auto, unfolding(ia_meaning::specs::Names::frame_index))]
pub fn general_index(k: u8, sor: u8, rrb: u8) -> u8
    requires register { k < 96 }
    requires rotating { sor ≤ 12 }
    requires base { (rrb < 8 * sor) ⊎ (rrb ≡ 0) }
    ensures value { (f : FrameShape) → f.sor ≡ sor → f.rrbs.gr ≡ rrb → result ≡ frame_index f k }
    ensures within { result < 96 }
{
    if k < 8 * sor {
        (k + rrb) % (8 * sor)
    } else {
        k
    }
}

/// The number, 0 to 63, of predicate `p`, 0 to 63, without rotation, where the rename base of the predicates is `rrb`, 0 to
/// 47. The first 16 predicates don't rotate.
#[tactic(auto, unfolding(ia_meaning::specs::Names::predicate_index))]
pub fn predicate_index_of(p: u8, rrb: u8) -> u8
    requires predicate { p < 64 }
    requires base { rrb < 48 }
    ensures value { (f : FrameShape) → f.rrbs.pr ≡ rrb → result ≡ predicate_index f p }
    ensures within { result < 64 }
{
    if p < 16 { p } else { 16 + (p - 16 + rrb) % 48 }
}
