//! Which steps filled the caches.

ghost use Rattle.std.specs.Prelude.{ℕ, ◌≡◌, ◌++◌, List, OnOk, IfSome, IsSomeAnd};
ghost use Rattle.iom_account.specs.Following.{HistoryView};
ghost use Rattle.iom_saved.specs.Histories.{history_words, number_words};
ghost use Rattle.iom_saved.specs.Kept.{IsHistory};

use crate::words::SavedWords;
use iom_account::History;
use std::alloc::AllocError;

fn put_numbers(out: &mut Vec<u64>, numbers: &[u64]) -> Result<(), AllocError>
    ensures { OnOk result (out.new.items ≡ out.old.items ++ number_words numbers.now) }
{
    out.push(numbers.len() as u64)?;
    out.extend_from_slice(numbers)
}

/// Appends the words of a history. The fault is a refused allocation.
pub fn put_history(out: &mut Vec<u64>, history: &History) -> Result<(), AllocError>
    ensures words { OnOk result (out.new.items ≡ out.old.items ++ history_words history.now) }
    ensures kept { OnOk result (IsHistory history.now) }
{
    put_numbers(out, history.contexts())?;
    put_numbers(out, history.walks())?;
    put_numbers(out, history.walk_contexts())
}

/// The history that the next words are; None if they are none.
pub fn take_history(words: &mut SavedWords<'_>) -> Option<History>
    ensures words { IfSome result (λ history. words.old ≡ history_words history ++ words.new) }

    // What was put is taken.
    ensures taken { (h : HistoryView) (rest : List ℕ) → words.old ≡ history_words h ++ rest → IsHistory h →
        IsSomeAnd result (λ taken. (taken ≡ h) × (words.new ≡ rest)) }
{
    let contexts = words.list()?;
    let walks = words.list()?;
    let walk_contexts = words.list()?;
    let history = History::of(contexts, walks, walk_contexts)?;
    Some(history)
}
