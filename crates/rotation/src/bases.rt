//! What a rotation makes of the rename bases.

ghost use Rattle.std.specs.Prelude.{◌≡◌, ◌+◌, ◌-◌, ◌*◌, ◌%◌, ◌<◌, ◌≤◌, ◌⊎◌, ◌==◌, if◌then◌else◌};
ghost use Rattle.ia_meaning.specs.declared.state.FrameShape.{FrameShape};
ghost use Rattle.ia_meaning.specs.Frames.{rotated};

use ia_meaning::Rrbs;

/// The rename base of the general registers after a rotation, in a frame whose rotating part has `sor`
/// times 8 registers, 0 to 96.
fn rotate_general(rrb: u8, sor: u8) -> u8
    requires rotating { sor ≤ 12 }
    requires base { (rrb < 8 * sor) ⊎ (rrb ≡ 0) }
    ensures value { result ≡ (if sor == 0 then 0 else (rrb + 8 * sor - 1) % (8 * sor)) }
    ensures base { (result < 8 * sor) ⊎ (result ≡ 0) }
{
    if sor == 0 {
        0
    } else {
        (rrb + 8 * sor - 1) % (8 * sor)
    }
}

/// The register rename bases after a rotation, in a frame whose rotating part has `sor` times 8
/// registers, 0 to 96: each is one less, and one that was 0 becomes the highest that there may be. In a
/// frame that has no rotating part that of the general registers is 0.
#[tactic(auto, unfolding(ia_meaning::specs::Frames::rotated))]
pub fn rotate(rrbs: Rrbs, sor: u8) -> Rrbs
    requires rotating { sor ≤ 12 }
    requires general { (rrbs.gr < 8 * sor) ⊎ (rrbs.gr ≡ 0) }
    requires floating { rrbs.fr < 96 }
    requires predicates { rrbs.pr < 48 }
    ensures value { (f : FrameShape) → f.sor ≡ sor → f.rrbs ≡ rrbs → result ≡ (rotated f).rrbs }
    ensures general { (result.gr < 8 * sor) ⊎ (result.gr ≡ 0) }
    ensures floating { result.fr < 96 }
    ensures predicates { result.pr < 48 }
{
    Rrbs {
        gr: rotate_general(rrbs.gr, sor),
        fr: (rrbs.fr + 95) % 96,
        pr: (rrbs.pr + 47) % 48,
    }
}
