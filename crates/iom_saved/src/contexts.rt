//! The context cache.

ghost use Rattle.std.specs.Prelude.{ℕ, ◌≡◌, ◌<◌, ◌^◌, ◌++◌, ◌∷◌, List, [], length, Option, OnOk, IfOk, IfSome, IsSomeAnd, MatchResult};
ghost use Rattle.iom_ddt.specs.Contexts.{IsWellFormed};
ghost use Rattle.iom_ddt.specs.declared.context.Context.{Context as TheContext};
ghost use Rattle.iom_ddt.specs.declared.context.MsiTable.{MsiTable as TheTable};
ghost use Rattle.iom_saved.specs.Caches.{context_place_words, context_words, contexts_words, msi_words};
ghost use Rattle.iom_saved.specs.Kept.{AreContexts, IsContextPlace};
ghost use Rattle.iom_saved.specs.Seen.{IsContextSeen, context_seen_words};
ghost use Rattle.iom_saved.specs.declared.words.SavedFault.TheVariants as fault;

use crate::words::{SavedFault, SavedWords};
use iom_bits::flag;
use iom_cache::{ContextCache, Place};
use iom_ddt::{Context, ContextFields, MsiTable};
use std::alloc::{AllocError, Global};

/// Appends the words of a context cache: each place, live or empty. The fault is a refused allocation.
pub fn put_contexts(out: &mut Vec<u64>, cache: &ContextCache) -> Result<(), AllocError>
    ensures words { OnOk result (out.new.items ≡ out.old.items ++ contexts_words cache.now) }
    ensures kept { OnOk result (AreContexts cache.now) }
{
    out.push(cache.len() as u64)?;
    for i in 0..cache.len() {
        put_place(out, &cache.place(i as u64))?;
    }
    Ok(())
}

/// The context cache that the next words are.
pub fn take_contexts(alloc: Global, words: &mut SavedWords<'_>) -> Result<ContextCache, SavedFault>
    ensures words { IfOk result (λ cache. words.old ≡ contexts_words cache ++ words.new) }
    ensures taken { (places : List (Option (ℕ × TheContext))) (rest : List ℕ) → words.old ≡ contexts_words places ++ rest → AreContexts places →
        MatchResult result (λ taken. (taken ≡ places) × (words.new ≡ rest)) (λ why. why ≡ fault.OutOfMemory) }
{
    let Some(count) = words.next() else {
        return Err(SavedFault::Bad);
    };
    let mut cache = ContextCache::new(alloc)?;
    for _ in 0..count {
        let Some(place) = take_place(words) else {
            return Err(SavedFault::Bad);
        };
        if !cache.append(place) {
            return Err(SavedFault::Bad);
        }
    }
    Ok(cache)
}

fn put_place(out: &mut Vec<u64>, place: &Place<u32, Context>) -> Result<(), AllocError>
    ensures words { OnOk result (out.new.items ≡ out.old.items ++ context_seen_words place.now) }
    ensures kept { OnOk result (IsContextSeen place.now) }
{
    match place {
        Place::Live(did, context) => {
            out.extend_from_slice(&[1, u64::from(*did)])?;
            put_context(out, &context.fields)
        }
        Place::Empty => out.extend_from_slice(&[0]),
        Place::Beyond => Ok(()),
    }
}

fn take_place(words: &mut SavedWords<'_>) -> Option<Option<(u32, Context)>>
    ensures words { IfSome result (λ place. words.old ≡ context_place_words place ++ words.new) }
    ensures taken { (place : Option (ℕ × TheContext)) (rest : List ℕ) → words.old ≡ context_place_words place ++ rest → IsContextPlace place →
        IsSomeAnd result (λ taken. (taken ≡ place) × (words.new ≡ rest)) }
{
    if !words.flag()? {
        return Some(None);
    }
    let did = words.next_u32()?;
    let context = take_context(words)?;
    Some(Some((did, context)))
}

fn put_context(out: &mut Vec<u64>, fields: &ContextFields) -> Result<(), AllocError>
    ensures { OnOk result (out.new.items ≡ out.old.items ++ context_words fields.now) }
{
    out.extend_from_slice(&[
        fields.gppn,
        fields.ppn,
        u64::from(fields.pscid),
        u64::from(fields.gscid),
        u64::from(fields.gmode),
        u64::from(fields.mode),
        u64::from(fields.custom),
        flag(fields.dtf),
        flag(fields.tav),
        fields.msi.ppn,
        fields.msi.mask,
        fields.msi.pattern,
        flag(fields.msi.flat),
    ])
}

fn take_context(words: &mut SavedWords<'_>) -> Option<Context>
    ensures words { IfSome result (λ context. words.old ≡ context_words context ++ words.new) }
    ensures taken { (context : TheContext) (rest : List ℕ) → words.old ≡ context_words context ++ rest → IsWellFormed context →
        IsSomeAnd result (λ taken. (taken ≡ context) × (words.new ≡ rest)) }
{
    let (gppn, ppn) = words.two()?;
    let (pscid, gscid) = take_ids(words)?;
    let (gmode, mode, custom) = take_modes(words)?;
    let (dtf, tav) = words.flags()?;
    let msi = take_msi(words)?;
    let context = Context::new(ContextFields {
        gppn,
        ppn,
        pscid,
        gscid,
        gmode,
        mode,
        custom,
        dtf,
        tav,
        msi,
    })?;
    Some(context)
}

// The MSI page table.
fn take_msi(words: &mut SavedWords<'_>) -> Option<MsiTable>
    ensures words { IfSome result (λ msi. words.old ≡ msi_words msi ++ words.new) }
    ensures taken { (msi : TheTable) (rest : List ℕ) → words.old ≡ msi_words msi ++ rest → IsSomeAnd result (λ taken. (taken ≡ msi) × (words.new ≡ rest)) }
{
    let (ppn, mask) = words.two()?;
    let pattern = words.next()?;
    let flat = words.flag()?;
    Some(MsiTable {
        ppn,
        mask,
        pattern,
        flat,
    })
}

// PSCID and GSCID.
fn take_ids(words: &mut SavedWords<'_>) -> Option<(u32, u16)>
    ensures words { IfSome result (λ ids. words.old ≡ ids.0 ∷ ids.1 ∷ words.new) }
    ensures taken { (a b : ℕ) (rest : List ℕ) → words.old ≡ a ∷ b ∷ rest → a < 2 ^ 32 → b < 2 ^ 16 →
        IsSomeAnd result (λ taken. (taken.0 ≡ a) × (taken.1 ≡ b) × (words.new ≡ rest)) }
{
    let pscid = words.next_u32()?;
    let gscid = words.next_u16()?;
    Some((pscid, gscid))
}

// The modes of both stages, and the bits for custom use.
fn take_modes(words: &mut SavedWords<'_>) -> Option<(u8, u8, u8)>
    ensures words { IfSome result (λ modes. words.old ≡ modes.0 ∷ modes.1 ∷ modes.2 ∷ words.new) }
    ensures taken { (a b c : ℕ) (rest : List ℕ) → words.old ≡ a ∷ b ∷ c ∷ rest → a < 2 ^ 8 → b < 2 ^ 8 → c < 2 ^ 8 →
        IsSomeAnd result (λ taken. (taken.0 ≡ a) × (taken.1 ≡ b) × (taken.2 ≡ c) × (words.new ≡ rest)) }
{
    let gmode = words.next_u8()?;
    let mode = words.next_u8()?;
    let custom = words.next_u8()?;
    Some((gmode, mode, custom))
}
