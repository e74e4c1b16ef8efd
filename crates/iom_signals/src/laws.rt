//! Laws of interrupts by message.

ghost use Rattle.std.specs.Prelude.{ℕ, ◌≡◌, true, None, IfSome};
ghost use Rattle.iom_bits.specs.Features.{has_messages};
ghost use Rattle.iom_regs.specs.Interrupts.{freed, pending_left};
ghost use Rattle.iom_regs.specs.Table.{Registers, after_write, with_pending};
ghost use Rattle.iom_signals.specs.Reach.{MaySignal};
ghost use Rattle.iom_signals.specs.Rises.{Act, ActsOf, IsChanged, RaisesFip, TellsOnce, done, has_risen, let_go_first, told_in_order};
ghost use Rattle.iom_signals.specs.Signals.{Outside, signalled};
ghost use Rattle.iom_signals.specs.declared.signalling.Noted.{Noted};

/// A law of what is signalled: it may change the four bytes at each msi_addr, the fault queue's next two records and its registers, the pending
/// interrupts and what the vectors owe, and send at most two messages, each of a vector; and nothing where interrupts go by wire alone.
#[tactic(auto, using(crate::proofs::Signals::signals_reach))]
pub fn signals_reach()
    ensures { (noted : Noted) (o : Outside) → MaySignal (has_messages o.registers.features) o.registers (signalled noted o).registers
        o.memory (signalled noted o).memory o.messages (signalled noted o).messages }
{}

/// A law of what is signalled: a step that raises no interrupt, and lets no message go, signals nothing.
#[tactic(auto, using(crate::proofs::Signals::quiet))]
pub fn quiet_steps_signal_nothing()
    ensures { (before : ℕ) (o : Outside) → before ≡ o.registers.ipsr → signalled (record { freed = None; before = before }) o ≡ o }
{}

/// A law of what is signalled: a message that a change lets go, and then those of interrupts whose bits of ipsr were 0 before it and are 1 in the
/// end, cip's first, each once. Where interrupts are messages, and an enabled one is pending while one of its causes is set, these are all that
/// have risen. A write that lets a message go raises none.
#[tactic(auto, using(crate::proofs::Rises::tells_once, crate::proofs::Rises::tells_all, crate::proofs::Freed::freed_alone))]
pub fn each_rise_is_told_once()
    ensures once { (noted : Noted) (o : Outside) → has_messages o.registers.features ≡ true → TellsOnce noted o (signalled noted o) }
    ensures all { (noted : Noted) (o : Outside) → IsChanged noted o.registers →
        signalled noted o ≡ told_in_order (has_risen noted.before (signalled noted o).registers.ipsr) (let_go_first noted.freed o) }
    ensures freed { (r : Registers) (off size value : ℕ) → with_pending r ≡ r →
        IfSome (freed r off size value) (λ _. (after_write r off size value).ipsr ≡ pending_left r off size value) }
{}

/// A law of what is signalled: it is at most two acts, each a message that is written, one that is owed, or the record of cause 273 of one that is
/// refused. Of ipsr an act raises fip at most, where that was 0: so where fip is set nothing rises, and signals end.
#[tactic(auto, using(crate::proofs::Rises::two_acts, crate::proofs::Rises::act_raises, crate::proofs::Rises::act_settled))]
pub fn refusals_raise_fip_at_most()
    ensures two { (noted : Noted) (o : Outside) → ActsOf 2 o (signalled noted o) }
    ensures rise { (act : Act) (o : Outside) → with_pending o.registers ≡ o.registers → RaisesFip o.registers.ipsr (done act o).registers.ipsr }
    ensures settled { (act : Act) (o : Outside) → with_pending o.registers ≡ o.registers →
        with_pending (done act o).registers ≡ (done act o).registers }
{}
