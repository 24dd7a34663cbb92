//! Loads, stores, exchanges and checks (volume 1, chapter 4, control and data speculation, and volume 3, chapter 2,
//! `ld`, `st`, `xchg`, `fetchadd`, `chk` and `invala`).

ghost use Rattle.std.specs.Prelude.{◌≡◌, ◌<◌, ◌||◌, ◌&&◌, not, Some, None, IfOk, IfErr, ◌^◌};
ghost use Rattle.ia_insn.specs.Ranges.{IsAccessSize, IsLoadSize, IsStoreSize};
ghost use Rattle.ia_meaning.specs.declared.state.AlatEntry.{AlatEntry};
ghost use Rattle.ia_meaning.specs.Names.{spot, look};
ghost use Rattle.ia_meaning.specs.Landings.{target_of};
ghost use Rattle.ia_meaning.specs.Loads.{access_fault, loaded, update_register, is_speculative, is_check, takes_nat, load_nat, load_made, load_hit, load_failed, load_tried, load_checked, from_memory, to_memory, exchange, check_nat, check_alat, invalidate};
ghost use Rattle.nat_alat.specs.Faults.{fault_of};
ghost use Rattle.slot_effects.specs.Changes.{load_update, MayMake};
ghost use Rattle.slot_effects.specs.Outcomes.{outcome_of_effect, IsLoadOf};

use crate::change::Change;
use crate::operands::operands;
use crate::slot_effect::SlotEffect;
use crate::state_view::StateView;
use ia_insn::{Gr, LoadKind, StoreKind, Update};
use ia_meaning::{AlatEntry, Cell, target_of, update_register};
use ia_program::FaultKind;
use nat_alat::MemFault;
use sem_ops::exchanged;

/// A load whose registers are in the frame.
#[derive(Clone, Copy)]
struct FoundLoad {
    /// The load type.
    kind: LoadKind,
    /// The target.
    r1: Gr,
    /// The base.
    r3: Gr,
    /// What is added to the base.
    update: Update,
    /// What it loads, as an entry of the ALAT: the place of the target, the address and how many bytes.
    entry: AlatEntry,
}

/// The fault of a slot for one of an access.
fn fault_of(fault: MemFault) -> FaultKind
    ensures { result ≡ fault_of fault }
{
    match fault {
        MemFault::Unaligned => FaultKind::Unaligned,
        MemFault::BadAddress => FaultKind::BadAddress,
    }
}

/// Whether the load defers faults.
fn is_speculative(kind: LoadKind) -> bool
    ensures { result ≡ is_speculative kind }
{
    matches!(kind, LoadKind::S | LoadKind::Sa)
}

/// Whether the load looks for a hit first.
fn is_check(kind: LoadKind) -> bool
    ensures { result ≡ is_check kind }
{
    matches!(kind, LoadKind::CClr | LoadKind::CNc | LoadKind::CClrAcq)
}

/// A load that fails: where it is speculative the fault is deferred.
#[inline(always)]
fn load_failed<S: StateView>(seen: &S, fault: FaultKind, load: &FoundLoad) -> SlotEffect
    requires { IsLoadOf (S.registers seen.now) load.now }
    ensures value { outcome_of_effect (S.registers seen.now) (S.memory seen.now) result ≡ load_failed fault load.now.kind load.now.entry.key (S.memory seen.now) (load_update (S.registers seen.now) load.now.r3 load.now.update) }
    ensures may { MayMake (S.registers seen.now) (S.memory seen.now) result.change }
{
    if !is_speculative(load.kind) {
        return SlotEffect::faults(fault);
    }
    SlotEffect::falls(Change::Loaded {
        r1: load.r1,
        r3: load.r3,
        invalidates: load.kind == LoadKind::Sa,
        update: load.update,
        cell: Cell {
            value: 0,
            nat: true,
        },
    })
}

/// A check that hits: the target isn't written.
#[inline(always)]
fn load_hit<S: StateView>(seen: &S, load: &FoundLoad) -> SlotEffect
    requires { IsLoadOf (S.registers seen.now) load.now }
    ensures value { outcome_of_effect (S.registers seen.now) (S.memory seen.now) result ≡ load_hit load.now.kind load.now.entry.key (S.memory seen.now) (load_update (S.registers seen.now) load.now.r3 load.now.update) }
    ensures may { MayMake (S.registers seen.now) (S.memory seen.now) result.change }
{
    SlotEffect::falls(Change::Hit {
        r1: load.r1,
        r3: load.r3,
        invalidates: load.kind != LoadKind::CNc,
        update: load.update,
    })
}

/// A load that is made.
#[inline(always)]
fn load_made<S: StateView>(seen: &S, load: &FoundLoad, cell: Cell) -> SlotEffect
    requires made { IsLoadOf (S.registers seen.now) load.now }
    requires cell { cell ≡ record { value = loaded (S.memory seen.now).bytes load.now.entry.address load.now.entry.size; nat = load_nat load.now.kind load.now.entry.address (S.unat seen.now) } }
    ensures value { outcome_of_effect (S.registers seen.now) (S.memory seen.now) result ≡ load_made load.now.kind load.now.entry (S.memory seen.now) (S.unat seen.now) (load_update (S.registers seen.now) load.now.r3 load.now.update) }
    ensures may { MayMake (S.registers seen.now) (S.memory seen.now) result.change }
{
    SlotEffect::falls(match load.kind {
        LoadKind::A | LoadKind::Sa | LoadKind::CNc => Change::Entered {
            r1: load.r1,
            r3: load.r3,
            size: load.entry.size,
            update: load.update,
            cell,
        },
        kind => Change::Loaded {
            r1: load.r1,
            r3: load.r3,
            invalidates: matches!(kind, LoadKind::CClr | LoadKind::CClrAcq),
            update: load.update,
            cell,
        },
    })
}

/// What a load or a fill reads.
#[inline(always)]
fn read<S: StateView>(seen: &S, kind: LoadKind, address: u64, size: u8) -> Result<Cell, MemFault>
    requires { IsLoadSize kind size }
    ensures ok { IfOk result (λ c. (access_fault (S.memory seen.now).bytes address size ≡ None) × (c ≡ record { value = loaded (S.memory seen.now).bytes address size; nat = load_nat kind address (S.unat seen.now) })) }
    ensures err { IfErr result (λ e. access_fault (S.memory seen.now).bytes address size ≡ Some (fault_of e)) }
{
    if kind == LoadKind::Fill {
        return seen.data().fill(address, seen.fill_unat());
    }
    match seen.data().load(address, size) {
        Ok(value) => Ok(Cell { value, nat: false }),
        Err(fault) => Err(fault),
    }
}

/// A load that isn't found in the ALAT.
#[inline(always)]
fn load_tried<S: StateView>(seen: &S, load: &FoundLoad) -> SlotEffect
    requires size { IsLoadSize load.now.kind load.now.entry.size }
    requires made { IsLoadOf (S.registers seen.now) load.now }
    ensures value { outcome_of_effect (S.registers seen.now) (S.memory seen.now) result ≡ load_tried (access_fault (S.memory seen.now).bytes load.now.entry.address load.now.entry.size) load.now.kind load.now.entry (S.memory seen.now) (S.unat seen.now) (load_update (S.registers seen.now) load.now.r3 load.now.update) }
    ensures may { MayMake (S.registers seen.now) (S.memory seen.now) result.change }
{
    match read(seen, load.kind, load.entry.address, load.entry.size) {
        Err(fault) => load_failed(seen, fault_of(fault), load),
        Ok(cell) => load_made(seen, load, cell),
    }
}

/// A load whose base has no NaT; a check looks for a hit first.
#[inline(always)]
fn load_checked<S: StateView>(seen: &S, load: &FoundLoad) -> SlotEffect
    requires size { IsLoadSize load.now.kind load.now.entry.size }
    requires made { IsLoadOf (S.registers seen.now) load.now }
    ensures value { outcome_of_effect (S.registers seen.now) (S.memory seen.now) result ≡ load_checked load.now.kind load.now.entry (S.memory seen.now) (S.unat seen.now) (load_update (S.registers seen.now) load.now.r3 load.now.update) }
    ensures may { MayMake (S.registers seen.now) (S.memory seen.now) result.change }
{
    if is_check(load.kind) && seen.alat().hit(load.entry) {
        load_hit(seen, load)
    } else {
        load_tried(seen, load)
    }
}

/// A load.
#[inline(always)]
#[tactic(auto, using(crate::proofs::Named::from_memory_missing))]
pub fn load<S: StateView>(
    seen: &S,
    size: u8,
    kind: LoadKind,
    r1: Gr,
    r3: Gr,
    update: Update,
) -> SlotEffect
    requires { IsLoadSize kind size }
    ensures value { outcome_of_effect (S.registers seen.now) (S.memory seen.now) result ≡ from_memory size kind update (spot (S.registers seen.now).frame r1) (spot (S.registers seen.now).frame r3) (look (S.registers seen.now) r3) (look (S.registers seen.now) (update_register update)) (S.memory seen.now) (S.unat seen.now) }
    ensures may { MayMake (S.registers seen.now) (S.memory seen.now) result.change }
{
    let Some(found) = operands(seen, r1, r3, update_register(&update)) else {
        return SlotEffect::faults(FaultKind::OutOfFrame);
    };
    let base = found.first;
    let load = FoundLoad {
        kind,
        r1,
        r3,
        update,
        entry: AlatEntry {
            key: found.place,
            address: base.value,
            size,
        },
    };
    if base.nat {
        load_failed(seen, FaultKind::NatConsumed, &load)
    } else {
        load_checked(seen, &load)
    }
}

/// Whether the store takes a NaT.
fn takes_nat(kind: StoreKind) -> bool
    ensures { result ≡ takes_nat kind }
{
    kind == StoreKind::Spill
}

/// Whether a NaT forbids a store: that of the base, or that of the register, unless the store takes it.
fn is_forbidden(kind: StoreKind, base: Cell, cell: Cell) -> bool
    ensures { result ≡ (base.nat || (cell.nat && not (takes_nat kind))) }
{
    base.nat || cell.nat && !takes_nat(kind)
}

/// A store.
#[inline(always)]
#[tactic(auto, using(crate::proofs::Named::to_memory_missing))]
pub fn store<S: StateView>(
    seen: &S,
    size: u8,
    kind: StoreKind,
    r3: Gr,
    r2: Gr,
    update: Update,
) -> SlotEffect
    requires { IsStoreSize kind size }
    ensures value { outcome_of_effect (S.registers seen.now) (S.memory seen.now) result ≡ to_memory size kind update (spot (S.registers seen.now).frame r3) (look (S.registers seen.now) r3) (look (S.registers seen.now) r2) (S.memory seen.now) }
    ensures may { MayMake (S.registers seen.now) (S.memory seen.now) result.change }
{
    let Some(found) = operands(seen, r3, r3, r2) else {
        return SlotEffect::faults(FaultKind::OutOfFrame);
    };
    if is_forbidden(kind, found.first, found.second) {
        return SlotEffect::faults(FaultKind::NatConsumed);
    }
    if let Some(fault) = seen.data().fault(found.first.value, size) {
        return SlotEffect::faults(fault_of(fault));
    }
    SlotEffect::falls(Change::Stored {
        r3,
        size,
        spills: takes_nat(kind),
        update,
        cell: found.second,
    })
}

/// An exchange with a register, or a sum with an increment.
#[tactic(auto, using(crate::proofs::Named::exchange_missing))]
pub(crate) fn exchange<S: StateView>(
    seen: &S,
    size: u8,
    r1: Gr,
    r3: Gr,
    r2: Gr,
    inc: Option<i16>,
) -> SlotEffect
    requires { IsAccessSize size }
    ensures value { outcome_of_effect (S.registers seen.now) (S.memory seen.now) result ≡ exchange size inc (spot (S.registers seen.now).frame r1) (look (S.registers seen.now) r3) (look (S.registers seen.now) r2) (S.memory seen.now) }
    ensures may { MayMake (S.registers seen.now) (S.memory seen.now) result.change }
{
    let Some(found) = operands(seen, r1, r3, r2) else {
        return SlotEffect::faults(FaultKind::OutOfFrame);
    };
    if found.first.nat || found.second.nat {
        return SlotEffect::faults(FaultKind::NatConsumed);
    }
    match seen.data().load(found.first.value, size) {
        Err(fault) => SlotEffect::faults(fault_of(fault)),
        Ok(old) => SlotEffect::falls(Change::Exchanged {
            r1,
            r3,
            size,
            old,
            value: exchanged(size, inc, old, found.second.value),
        }),
    }
}

/// `chk.s`: a branch where the register has NaT.
pub(crate) fn check_nat<S: StateView>(seen: &S, bundle: u32, r2: Gr, disp: i32) -> SlotEffect
    requires { bundle < 2 ^ 31 }
    ensures value { outcome_of_effect (S.registers seen.now) (S.memory seen.now) result ≡ check_nat (target_of bundle disp) (look (S.registers seen.now) r2) (S.memory seen.now) }
    ensures may { MayMake (S.registers seen.now) (S.memory seen.now) result.change }
{
    match seen.general(r2) {
        None => SlotEffect::faults(FaultKind::OutOfFrame),
        Some(a) if a.nat => SlotEffect::goes(Change::Nothing, target_of(bundle, disp)),
        Some(_) => SlotEffect::falls(Change::Nothing),
    }
}

/// `chk.a`: a branch where the ALAT has no entry of the register.
pub(crate) fn check_alat<S: StateView>(
    seen: &S,
    bundle: u32,
    clear: bool,
    r1: Gr,
    disp: i32,
) -> SlotEffect
    requires { bundle < 2 ^ 31 }
    ensures value { outcome_of_effect (S.registers seen.now) (S.memory seen.now) result ≡ check_alat clear (target_of bundle disp) (spot (S.registers seen.now).frame r1) (S.memory seen.now) }
    ensures may { MayMake (S.registers seen.now) (S.memory seen.now) result.change }
{
    let Some(key) = seen.spot(r1) else {
        return SlotEffect::faults(FaultKind::OutOfFrame);
    };
    if !seen.alat().has(key) {
        return SlotEffect::goes(Change::Nothing, target_of(bundle, disp));
    }
    SlotEffect::falls(if clear {
        Change::Invalidated { r1 }
    } else {
        Change::Nothing
    })
}

/// `invala.e`: the entry of the register leaves the ALAT.
pub(crate) fn invalidate<S: StateView>(seen: &S, r1: Gr) -> SlotEffect
    ensures value { outcome_of_effect (S.registers seen.now) (S.memory seen.now) result ≡ invalidate (spot (S.registers seen.now).frame r1) (S.memory seen.now) }
    ensures may { MayMake (S.registers seen.now) (S.memory seen.now) result.change }
{
    match seen.spot(r1) {
        None => SlotEffect::faults(FaultKind::OutOfFrame),
        Some(_) => SlotEffect::falls(Change::Invalidated { r1 }),
    }
}
