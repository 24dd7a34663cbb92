//! The accesses of an instruction.

ghost use Rattle.std.specs.Prelude.{◌≡◌, ◌+◌, ◌-◌, ◌≤◌, ◌<◌, ◌++◌, ◌∷◌, true, length};
ghost use Rattle.arrayvec.specs.ArrayVec.{array_vec_len};
ghost use Rattle.ia_meaning.specs.Actions.{action_of};
ghost use Rattle.resource_sets.specs.Rows.{gr, always};
ghost use Rattle.resource_sets.specs.Ranges.{AreNumbersInRange};
ghost use Rattle.resource_sets.specs.declared.access.Resource.TheVariants as spec;
ghost use Rattle.resource_sets.specs.declared.access.Kind.TheVariants.{Read, Write};
ghost use Rattle.resource_sets.specs.Accesses.{test_rows, base_row, own_rows, other_name, application, source_rows, unat_row, loop_rows, call_rows, place_rows, mask_rows, placed_rows, reads_plainly, reads_as_branch, qp_rows, is_framed, any_framed, frame_row, accesses_of, accesses};

use crate::access::{ACCESS_LIMIT, Access, Kind, Resource};
use crate::row::{AccessRow, always, gr, pr, push, push_all};
use arrayvec::ArrayVec;
use ia_insn::{Ar, Br, BranchKind, CmpKind, Gr, Insn, LoadKind, Pr, StoreKind, Unit, Update};
use ia_meaning::{Action, CallTarget, FetchSource, action_of, update_register};
use integer_ops::bit;

/// At most eight rows.
pub(crate) type Rows = ArrayVec<AccessRow, 8>;

/// The rows of a slice.
fn list(rows: &[AccessRow]) -> Rows
    requires few { length rows.now ≤ 8 }
    requires within { AreNumbersInRange rows.now }
    ensures rows { result.items ≡ rows.now }
    ensures within { AreNumbersInRange result.items }
{
    let mut out = ArrayVec::new();
    if out.try_extend_from_slice(rows).is_err() {
        unreachable!();
    }
    out
}

/// The two targets of a test.
fn test_rows(kind: CmpKind, p1: Pr, p2: Pr) -> [AccessRow; 2]
    ensures rows { result ≡ test_rows kind p1 p2 }
    ensures within { AreNumbersInRange result }
{
    match kind {
        CmpKind::Normal => [pr(true, p1, Kind::Write), pr(true, p2, Kind::Write)],
        CmpKind::Unc => [pr(false, p1, Kind::Write), pr(false, p2, Kind::Write)],
        CmpKind::Or => [pr(true, p1, Kind::OrWrite), pr(true, p2, Kind::OrWrite)],
        CmpKind::And => [pr(true, p1, Kind::AndWrite), pr(true, p2, Kind::AndWrite)],
        CmpKind::OrAndcm => [pr(true, p1, Kind::OrWrite), pr(true, p2, Kind::AndWrite)],
    }
}

/// The base of a load or a store, which may be updated.
fn base_row(update: &Update, r3: Gr) -> AccessRow
    ensures row { result ≡ base_row update.now r3 }
    ensures within { r3 < 128 }
{
    let mut row = gr(r3, Kind::Write);
    if *update == Update::None {
        row.there = false;
    }
    row
}

/// The register that an instruction names and neither reads nor writes, or r0.
fn other_name(action: &Action) -> Gr
    ensures { result ≡ other_name action.now }
{
    match *action {
        Action::CheckAlat { r1, .. } | Action::Invalidate { r1 } => r1,
        _ => Gr::of_field(0),
    }
}

/// An application register.
fn application(ar: Ar) -> Resource
    ensures { result ≡ application ar }
{
    match ar {
        Ar::Unat => Resource::Unat,
        Ar::Pfs => Resource::Pfs,
        Ar::Lc => Resource::Lc,
        Ar::Ec => Resource::Ec,
    }
}

/// A branch register under the qualifying predicate.
fn br(b: Br, kind: Kind) -> AccessRow
    ensures row { result ≡ always true (spec.Br b) kind }
    ensures within { b < 8 }
{
    always(true, Resource::Br(b.number()), kind)
}

/// A copy into a general register.
fn fetch_rows(r1: Gr, source: FetchSource) -> Rows
    ensures rows { result.items ≡ gr r1 Write ∷ source_rows source }
    ensures within { AreNumbersInRange result.items }
{
    let target = gr(r1, Kind::Write);
    match source {
        FetchSource::Branch(b) => list(&[target, br(b, Kind::Read)]),
        FetchSource::Application(ar) => list(&[target, always(true, application(ar), Kind::Read)]),
        _ => list(&[target]),
    }
}

/// What a fill or a spill accesses besides.
fn unat_row(there: bool, kind: Kind) -> AccessRow
    ensures { result ≡ unat_row there kind }
{
    let mut row = always(true, Resource::Unat, kind);
    row.there = there;
    row
}

/// What a loop branch accesses.
fn loop_rows(kind: BranchKind) -> Rows
    ensures rows { result.items ≡ loop_rows kind }
    ensures within { AreNumbersInRange result.items }
{
    let fixed = |resource, kind| always(false, resource, kind);
    match kind {
        BranchKind::Cond => list(&[]),
        BranchKind::Cloop => list(&[
            fixed(Resource::Lc, Kind::Read),
            fixed(Resource::Lc, Kind::Write),
        ]),
        BranchKind::Ctop | BranchKind::Cexit => list(&[
            fixed(Resource::Lc, Kind::Read),
            fixed(Resource::Lc, Kind::Write),
            fixed(Resource::Ec, Kind::Read),
            fixed(Resource::Ec, Kind::Write),
            fixed(Resource::Cfm, Kind::Read),
            fixed(Resource::Cfm, Kind::Write),
            fixed(Resource::Pr(63), Kind::LoopWrite),
        ]),
        BranchKind::Wtop | BranchKind::Wexit => list(&[
            fixed(Resource::Ec, Kind::Read),
            fixed(Resource::Ec, Kind::Write),
            fixed(Resource::Cfm, Kind::Read),
            fixed(Resource::Cfm, Kind::Write),
            fixed(Resource::Pr(63), Kind::LoopWrite),
        ]),
    }
}

/// What a call accesses.
fn call_rows(b1: Br, callee: CallTarget) -> Rows
    ensures rows { result.items ≡ call_rows b1 callee }
    ensures within { AreNumbersInRange result.items }
{
    let own = |resource, kind| always(true, resource, kind);
    let b2 = match callee {
        CallTarget::Direct(_) => AccessRow::default(),
        CallTarget::Indirect(b2) => br(b2, Kind::BranchRead),
    };
    list(&[
        own(Resource::Cfm, Kind::Read),
        own(Resource::Cfm, Kind::Write),
        own(Resource::Pfs, Kind::Write),
        own(Resource::Ec, Kind::Read),
        br(b1, Kind::Write),
        b2,
    ])
}

/// The rows of an instruction, but for those of its qualifying predicate and of predicates by place.
pub(crate) fn own_rows(action: &Action) -> Rows
    ensures rows { result.items ≡ own_rows action.now }
    ensures within { AreNumbersInRange result.items }
{
    let own = |resource, kind| always(true, resource, kind);
    match *action {
        Action::Compute { r1, r2, r3, .. } => list(&[
            gr(r2, Kind::Read),
            gr(r3, Kind::Read),
            gr(r1, Kind::Write),
        ]),
        Action::Fetch { r1, source } => fetch_rows(r1, source),
        Action::Test {
            kind,
            p1,
            p2,
            r2,
            r3,
            ..
        } => {
            let targets = test_rows(kind, p1, p2);
            list(&[
                gr(r2, Kind::Read),
                gr(r3, Kind::Read),
                targets[0],
                targets[1],
            ])
        }
        Action::ToPredicates { r2, .. } | Action::CheckNat { r2, .. } => list(&[gr(
            r2,
            Kind::Read,
        )]),
        Action::ToBranch { b1, r2 } => list(&[gr(r2, Kind::Read), br(b1, Kind::Write)]),
        Action::ToApplication { ar, r2, .. } => list(&[
            gr(r2, Kind::Read),
            own(application(ar), Kind::Write),
        ]),
        Action::FromMemory {
            kind,
            r1,
            r3,
            update,
            ..
        } => list(&[
            gr(r3, Kind::Read),
            gr(update_register(&update), Kind::Read),
            gr(r1, Kind::Write),
            base_row(&update, r3),
            unat_row(kind == LoadKind::Fill, Kind::Fill),
        ]),
        Action::ToMemory {
            kind,
            r3,
            r2,
            update,
            ..
        } => list(&[
            gr(r3, Kind::Read),
            gr(r2, Kind::Read),
            base_row(&update, r3),
            unat_row(kind == StoreKind::Spill, Kind::Spill),
        ]),
        Action::Exchange { r1, r3, r2, .. } => list(&[
            gr(r3, Kind::Read),
            gr(r2, Kind::Read),
            gr(r1, Kind::Write),
        ]),
        Action::Allocate { r1, .. } => list(&[
            gr(r1, Kind::Write),
            own(Resource::Pfs, Kind::Read),
            own(Resource::Cfm, Kind::Read),
            own(Resource::Cfm, Kind::AllocWrite),
        ]),
        Action::JumpIndirect { b2 } => list(&[br(b2, Kind::BranchRead)]),
        Action::Loop { kind, .. } => loop_rows(kind),
        Action::Call { b1, callee } => call_rows(b1, callee),
        Action::Return { b2 } => list(&[
            br(b2, Kind::BranchRead),
            own(Resource::Pfs, Kind::BranchRead),
            own(Resource::Cfm, Kind::Write),
            own(Resource::Ec, Kind::Write),
        ]),
        Action::ClearBases { .. } => list(&[own(Resource::Cfm, Kind::Write)]),
        _ => list(&[]),
    }
}

/// Whether the qualifying predicate is read as registers are.
fn reads_plainly(action: &Action) -> bool
    ensures { result ≡ reads_plainly action.now }
{
    !matches!(
        action,
        Action::Jump { .. }
            | Action::JumpIndirect { .. }
            | Action::Loop { .. }
            | Action::Call { .. }
            | Action::Return { .. }
    )
}

/// Whether the qualifying predicate is read as branches read it.
fn reads_as_branch(action: &Action) -> bool
    ensures { result ≡ reads_as_branch action.now }
{
    match *action {
        Action::Stop { unit, .. } | Action::Idle { unit } => unit == Unit::B,
        _ => !reads_plainly(action),
    }
}

/// The reads of the qualifying predicate.
pub(crate) fn qp_rows(qp: Pr, action: &Action) -> [AccessRow; 2]
    ensures rows { result ≡ qp_rows qp action.now }
    ensures within { AreNumbersInRange result }
{
    let mut plain = pr(false, qp, Kind::Read);
    plain.there = plain.there && reads_plainly(action);
    let mut branch = pr(false, qp, Kind::BranchRead);
    branch.there = branch.there && reads_as_branch(action);
    [plain, branch]
}

/// Whether what a name stands for depends on the frame.
fn is_framed(resource: Resource) -> bool
    ensures { result ≡ is_framed resource }
{
    match resource {
        Resource::Gr(r) => r >= 32,
        Resource::Pr(p) => p >= 16,
        _ => false,
    }
}

/// Whether one of the rows names the frame.
fn any_framed(rows: &[AccessRow]) -> bool
    ensures { result ≡ any_framed rows.now }
{
    rows.iter().any(|row| is_framed(row.resource))
}

/// The read of the frame by names that depend on it.
pub(crate) fn frame_row(qp: Pr, action: &Action, own: &[AccessRow]) -> AccessRow
    requires { own.now ≡ own_rows action.now }
    ensures { result ≡ frame_row qp action.now }
{
    let mut row = always(false, Resource::Cfm, Kind::Read);
    row.there = qp.number() >= 16 || other_name(action).number() >= 32 || any_framed(own);
    row
}

/// The rows of predicates by place, at most 63.
type PlacedRows = ArrayVec<AccessRow, 63>;

/// Appends the row of the n-th predicate, which is there where a mask has it.
fn push_place(out: &mut PlacedRows, mask: u64, kind: Kind, n: u64)
    requires some { 1 ≤ n }
    requires most { n < 64 }
    requires len { array_vec_len out.old + 1 ≡ n }
    ensures items { out.old.items ++ place_rows (64 - n) n mask kind ≡ out.new.items ++ place_rows (64 - (n + 1)) (n + 1) mask kind }
    ensures len { array_vec_len out.new ≡ n }
{
    let mut row = pr(true, Pr::of_field(n), kind);
    row.there = bit(mask, n.min(16) as u8);
    out.push(row);
}

/// The rows of the predicates p1 to p63, where a mask has them.
#[tactic(auto, unfolding(crate::specs::Accesses::mask_rows))]
fn mask_rows(mask: u64, kind: Kind) -> PlacedRows
    ensures { result.items ≡ mask_rows mask kind }
{
    let mut out = ArrayVec::new();
    for n in 1..64 {
        push_place(&mut out, mask, kind, n);
    }
    out
}

/// The rows of predicates by place. A move from them reads all: the mask has all bits. An indirect branch reads p1 to
/// p15.
pub(crate) fn placed_rows(action: &Action) -> PlacedRows
    ensures { result.items ≡ placed_rows action.now }
{
    match *action {
        Action::Fetch {
            source: FetchSource::Predicates,
            ..
        } => mask_rows(0x1ffff, Kind::Read),
        Action::ToPredicates { mask, .. } => mask_rows(u64::from(mask), Kind::Write),
        Action::JumpIndirect { .. }
        | Action::Call {
            callee: CallTarget::Indirect(_),
            ..
        }
        | Action::Return { .. } => mask_rows(0xfffe, Kind::BranchRead),
        _ => ArrayVec::new(),
    }
}

/// The accesses of an instruction by its qualifying predicate and its action: what it reads and writes, and under
/// which guard.
#[tactic(auto, using(crate::proofs::Listing::in_parts))]
pub fn accesses_of(qp: Pr, action: &Action) -> ArrayVec<Access, ACCESS_LIMIT>
    ensures { result.items ≡ accesses_of qp action.now }
{
    let own = own_rows(action);
    let mut out = ArrayVec::new();
    push(&mut out, qp, frame_row(qp, action, own.as_slice()));
    push_all(&mut out, qp, &qp_rows(qp, action));
    push_all(&mut out, qp, own.as_slice());
    push_all(&mut out, qp, placed_rows(action).as_slice());
    out
}

/// The accesses of an instruction.
pub fn accesses(insn: &Insn) -> ArrayVec<Access, ACCESS_LIMIT>
    ensures { result.items ≡ accesses insn.now }
{
    accesses_of(insn.qp, &action_of(&insn.op))
}
