//! What a slot writes.

use ia_insn::{Ar, Br, BranchKind, Gr, Pr, Update};
use ia_meaning::Cell;

/// What a slot writes. A register is named in the frame before the slot, but the target of `alloc` in the
/// frame after it. r0 and p0 may be named, and are not written.
///
/// It holds what the slot read and computed, and no value that is found again where the change is made: no new
/// base, no entry of the ALAT, no turn of a loop. So it is small, as the speed of a run wants it; the small
/// fields of a variant come first, since fields lie in their order.
#[derive(Clone, Copy)]
pub enum Change {
    /// Nothing.
    Nothing,
    /// A general register.
    General {
        /// The register.
        r1: Gr,
        /// What it gets.
        cell: Cell,
    },
    /// Two predicates, the second after the first.
    Predicates {
        /// The first.
        p1: Pr,
        /// What it gets.
        first: bool,
        /// The second.
        p2: Pr,
        /// What it gets.
        second: bool,
    },
    /// The predicates under a mask.
    PredicateWord {
        /// Bit n for place n from 1 to 15, and bit 16 for places 16 to 63.
        mask: u64,
        /// Bit n is what place n gets.
        word: u64,
    },
    /// A branch register.
    Branch {
        /// The register.
        b1: Br,
        /// What it gets.
        value: u64,
    },
    /// An application register.
    Application {
        /// The register.
        ar: Ar,
        /// What it gets.
        value: u64,
    },
    /// A load.
    Loaded {
        /// The target.
        r1: Gr,
        /// The base.
        r3: Gr,
        /// Whether the target's entry leaves the ALAT.
        invalidates: bool,
        /// What is added to the base, after the target is written.
        update: Update,
        /// What the target gets.
        cell: Cell,
    },
    /// A load whose target enters the ALAT.
    Entered {
        /// The target.
        r1: Gr,
        /// The base, which holds the address.
        r3: Gr,
        /// How many bytes are loaded.
        size: u8,
        /// What is added to the base, after the target is written.
        update: Update,
        /// What the target gets.
        cell: Cell,
    },
    /// A load whose target is in the ALAT, and isn't written.
    Hit {
        /// The target.
        r1: Gr,
        /// The base.
        r3: Gr,
        /// Whether the target's entry leaves the ALAT.
        invalidates: bool,
        /// What is added to the base.
        update: Update,
    },
    /// A store.
    Stored {
        /// The base, which holds the address.
        r3: Gr,
        /// How many bytes are stored.
        size: u8,
        /// Whether the register's NaT bit goes to UNAT.
        spills: bool,
        /// What is added to the base; no store adds a register.
        update: Update,
        /// What the register holds that is stored.
        cell: Cell,
    },
    /// An exchange.
    Exchanged {
        /// The target.
        r1: Gr,
        /// The base, which holds the address.
        r3: Gr,
        /// How many bytes are exchanged.
        size: u8,
        /// What was there, which the target gets.
        old: u64,
        /// What is stored.
        value: u64,
    },
    /// The entry of a register leaves the ALAT.
    Invalidated {
        /// The register.
        r1: Gr,
    },
    /// All entries leave the ALAT.
    AllInvalidated,
    /// A new frame, and the previous function state into a register.
    Allocated {
        /// The register.
        r1: Gr,
        /// The size of the frame.
        sof: u8,
        /// The size of its locals.
        sol: u8,
        /// The size of its rotating part in eights.
        sor: u8,
    },
    /// The turn of a loop.
    Turned {
        /// The loop branch.
        kind: BranchKind,
        /// Its qualifying predicate.
        qp: bool,
    },
    /// The frame of a call, its return address and the previous function state.
    Called {
        /// The register for the return address.
        b1: Br,
        /// The return address.
        address: u64,
    },
    /// The frame and the epilog count of the previous function state.
    Returned,
    /// The register rename bases become 0.
    Cleared {
        /// Whether that of the predicates alone does.
        pred_only: bool,
    },
}
