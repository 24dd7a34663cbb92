//! What slots do, as a run takes them.

ghost use Rattle.std.specs.Prelude.{◌≡◌, ◌<◌, ◌^◌};
ghost use Rattle.emulator.specs.Works.{action_of, HasTarget};

use ia_insn::{AluFn, BranchKind, Gr, LoadKind, StoreKind, Update};
use ia_meaning::{Action, Function, target_of};

/// What a slot does. The actions of most loops stand apart, each with what a run would else have to find out anew.
#[derive(Clone, Copy)]
pub(crate) enum Work {
    /// The sum of `r2` and `r3` goes into `r1`.
    Sum {
        r1: Gr,
        r2: Gr,
        r3: Gr,
    },
    /// The sum of an immediate and `r3` goes into `r1`.
    SumImmediate {
        r1: Gr,
        r3: Gr,
        imm: i64,
    },
    /// A plain load.
    Load {
        size: u8,
        r1: Gr,
        r3: Gr,
        update: Update,
    },
    /// A plain store.
    Store {
        size: u8,
        r3: Gr,
        r2: Gr,
        update: Update,
    },
    /// A loop branch to a bundle.
    Loop {
        kind: BranchKind,
        disp: i32,
        bundle: u32,
    },
    /// A direct branch to a bundle.
    Jump {
        disp: i32,
        bundle: u32,
    },
    /// Any action.
    Act(Action),
}

impl Work {
    /// What an instruction of this action in a bundle does.
    pub fn of(bundle: u32, action: &Action) -> Work
        requires { bundle < 2 ^ 31 }
        ensures action { action_of result ≡ action.now }
        ensures target { HasTarget bundle result }
    {
        match *action {
            Action::Compute {
                r1,
                r2,
                r3,
                function: Function::Alu(AluFn::Add),
            } => Work::Sum { r1, r2, r3 },
            Action::Compute {
                r1,
                r2,
                r3,
                function: Function::AluImmediate { f: AluFn::Add, imm },
            } if r2.is_zero() => Work::SumImmediate { r1, r3, imm },
            Action::FromMemory {
                size,
                kind: LoadKind::Plain,
                r1,
                r3,
                update,
            } => Work::Load {
                size,
                r1,
                r3,
                update,
            },
            Action::ToMemory {
                size,
                kind: StoreKind::Plain,
                r3,
                r2,
                update,
            } => Work::Store {
                size,
                r3,
                r2,
                update,
            },
            Action::Loop { kind, disp } => Work::Loop {
                kind,
                disp,
                bundle: target_of(bundle, disp),
            },
            Action::Jump { disp } => Work::Jump {
                disp,
                bundle: target_of(bundle, disp),
            },
            action => Work::Act(action),
        }
    }

    /// The action of the instruction.
    pub fn action(&self) -> Action
        ensures { result ≡ action_of self.now }
    {
        match *self {
            Work::Sum { r1, r2, r3 } => Action::Compute {
                r1,
                r2,
                r3,
                function: Function::Alu(AluFn::Add),
            },
            Work::SumImmediate { r1, r3, imm } => Action::Compute {
                r1,
                r2: Gr::of_field(0),
                r3,
                function: Function::AluImmediate { f: AluFn::Add, imm },
            },
            Work::Load {
                size,
                r1,
                r3,
                update,
            } => Action::FromMemory {
                size,
                kind: LoadKind::Plain,
                r1,
                r3,
                update,
            },
            Work::Store {
                size,
                r3,
                r2,
                update,
            } => Action::ToMemory {
                size,
                kind: StoreKind::Plain,
                r3,
                r2,
                update,
            },
            Work::Loop { kind, disp, .. } => Action::Loop { kind, disp },
            Work::Jump { disp, .. } => Action::Jump { disp },
            Work::Act(action) => action,
        }
    }
}
