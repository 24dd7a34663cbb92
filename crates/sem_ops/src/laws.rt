//! A law of the words of exchanges and fetch-and-adds. It does nothing.

ghost use Rattle.insn_rows.specs.Laws.{OneInstruction};
ghost use Rattle.sem_ops.specs.Semaphores.{CodeOfSemaphore};

/// The law that a word is that of at most one exchange or fetch-and-add. It does nothing.
pub fn one_instruction()
    ensures { OneInstruction CodeOfSemaphore }
{}
