//! What a slot sees.

ghost use Rattle.std.specs.Prelude.{◌≡◌, ◌≤◌, ◌*◌, ℕ, get_or, take};
ghost use Rattle.ia_meaning.specs.State.{Registers, Memory};
ghost use Rattle.ia_meaning.specs.Names.{spot, look, holds};
ghost use Rattle.ia_meaning.specs.Moves.{predicate_word, application};
ghost use Rattle.ia_meaning.specs.Frames.{with_sizes, marked_frame, return_fault};
ghost use Rattle.frame_shapes.specs.Faults.{alloc_fault};

use ia_insn::{Ar, Br, Gr, Pr};
use ia_meaning::{Cell, Spot};
use ia_program::FaultKind;
use nat_alat::{Alat, DataMem};

/// What a slot sees: registers, the memory, and the UNAT that fills use. Where slots run one by one, these are
/// the parts of one state, and that UNAT is the register.
pub trait StateView {
    /// The registers.
    ghost registers: { Self → Registers };

    /// The memory: the data and the ALAT.
    ghost memory: { Self → Memory };

    /// The UNAT that fills use.
    ghost unat: { Self → ℕ };

    /// The place of a general register; None outside the frame.
    fn spot(&self, r: Gr) -> Option<Spot>
        ensures { result ≡ spot (registers self.now).frame r };

    /// What a general register holds; None outside the frame.
    fn general(&self, r: Gr) -> Option<Cell>
        ensures { result ≡ look (registers self.now) r };

    /// Whether a predicate is 1.
    fn holds(&self, p: Pr) -> bool
        ensures { result ≡ holds (registers self.now) p };

    /// The predicates as a word: bit n is that of place n.
    fn predicate_word(&self) -> u64
        ensures { result ≡ predicate_word (registers self.now).predicates };

    /// The static predicates, p0 to p15, which stand at their own places in every frame.
    fn static_predicates(&self) -> &[bool]
        ensures { result.now ≡ take 16 (registers self.now).predicates };

    /// What a branch register holds.
    fn branch(&self, b: Br) -> u64
        ensures { result ≡ get_or (registers self.now).branches b 0 };

    /// What an application register holds.
    fn application(&self, ar: Ar) -> u64
        ensures { result ≡ application (registers self.now) ar };

    /// The UNAT that fills use.
    fn fill_unat(&self) -> u64
        ensures { result ≡ unat self.now };

    /// Why `alloc` gives no frame of these sizes, where it gives none: that it would change the rotating part
    /// while a rename base isn't 0, or that there would be too many cells.
    fn alloc_fault(&self, sof: u8, sol: u8, sor: u8) -> Option<FaultKind>
        requires size { sof ≤ 96 }
        requires locals { sol ≤ sof }
        requires rotating { 8 * sor ≤ sof }
        ensures { result ≡ alloc_fault (registers self.now).frame (with_sizes (registers self.now).frame sof sol sor) };

    /// Why a return by the previous function state is refused, where it is: that it is no frame, that its
    /// locals reach below the first cell, or that there are too many cells.
    fn return_fault(&self) -> Option<FaultKind>
        ensures { result ≡ return_fault (registers self.now).frame.base (marked_frame (registers self.now).frame.base (registers self.now).pfs) };

    /// The data.
    fn data(&self) -> &DataMem
        ensures { result.now ≡ (memory self.now).bytes };

    /// The ALAT.
    fn alat(&self) -> &Alat
        ensures { result.now ≡ (memory self.now).alat };
}
