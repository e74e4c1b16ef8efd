ghost use Rattle.std.specs.Prelude.{◌≡◌, IfOk, length};
ghost use Rattle.iom_core.specs.Table.{next};
ghost use Rattle.iom_c.specs.Handles.{Begins, copied, count_of, IsReset, loan_of, number_after, state_in};
ghost use Rattle.iom_c.specs.Keeping.{GoesOn};

use crate::held::Held;
use crate::kept::{Kept, MOST};
use crate::settling::Settling;
use crate::told::Told;
use iom_core::{Answer, Step};
use iom_tool::Trace;
use std::alloc::{AllocError, Global};

/// What an open handle leads to.
#[derive(Drop)]
pub struct Owned {
    /// The platform, with its memory or in front of memory that is lent.
    pub held: Held,
    /// The last 32 steps that it was given, with their answers.
    pub trace: Trace,
    /// The account of its steps. They are numbered from 1 on.
    pub told: Told,
    /// The number of the last step; 0 if there was none. It ends at 2^64 - 1.
    pub count: u64,
}

/// A platform put on the heap, with a trace that has no step and a history that begins here. What any IOMMU may hold isn't kept.
pub fn begun(alloc: Global, held: Held) -> Result<Box<Owned>, AllocError>
    ensures { IfOk result (λ own. Begins held own.value) }
{
    let trace = Trace::new(alloc)?;
    let kept = Kept::new(alloc, MOST, false)?;
    let history = held.history();
    Ok(Box::new(
        alloc,
        Owned {
            held,
            trace,
            told: Told {
                history,
                kept,
                settling: Settling::NotKept,
            },
            count: 0,
        },
    )?)
}

/// An equal platform put on the heap, with a trace that has no step, no reason yet and an equal history, whose next step has the same
/// number.
pub fn copied(alloc: Global, own: &Owned) -> Result<Box<Owned>, AllocError>
    ensures { IfOk result (λ copy. copy.value ≡ copied own.now) }
{
    let held = own.held.try_clone(alloc)?;
    let trace = Trace::new(alloc)?;
    let told = own.told.copied(alloc)?;
    Ok(Box::new(
        alloc,
        Owned {
            held,
            trace,
            told,
            count: own.count,
        },
    )?)
}

/// Carries out the next step in front of these words, under its number; the trace doesn't keep it yet.
pub fn carry_out(own: &mut Owned, words: &mut [u64], step: &Step) -> Answer
    requires { length words.old ≡ count_of own.old.held }
    ensures answer { result ≡ (next (state_in own.old.held words.old) step.now).answer }
    ensures state { state_in own.new.held words.new ≡ (next (state_in own.old.held words.old) step.now).state }
    ensures loan { loan_of own.new.held ≡ loan_of own.old.held }
    ensures trace { own.new.trace ≡ own.old.trace }
    ensures count { own.new.count ≡ number_after own.old.count }
    ensures told { GoesOn own.old.told (state_in own.old.held words.old) step.now (number_after own.old.count)
        own.new.told (state_in own.new.held words.new) }
{
    own.count = own.count.saturating_add(1);
    let mut answer = Answer::Done;
    own.held
        .step(&mut own.told, words, step, own.count, &mut answer);
    answer
}

/// Resets the registers and the caches. The history begins anew, and so does what any IOMMU may hold, where that is kept; the number of
/// steps, the trace and the reasons that are kept stay.
pub fn reset(alloc: Global, own: &mut Owned)
    ensures { IsReset own.old own.new }
{
    own.held.reset();
    own.told.history = own.held.history();
    own.told.settling.begin_anew(alloc);
}
