//! The translation cache.

ghost use Rattle.std.specs.Prelude.{ℕ, ◌≡◌, ◌^◌, ◌++◌, ◌∷◌, List, [], length, Option, OnOk, IfOk, IfSome, IsSomeAnd, MatchResult};
ghost use Rattle.iom_bits.specs.declared.causes.Kind.{Kind as TheKind};
ghost use Rattle.iom_nested.specs.declared.translation.Hit.{Hit as TheHit};
ghost use Rattle.iom_cache.specs.declared.key.Key.{Key as TheKey};
ghost use Rattle.iom_saved.specs.Caches.{hit_words, id_words, key_words, kind_word, page_place_words, pages_words};
ghost use Rattle.iom_saved.specs.Kept.{ArePages, IsHit, IsIdBelow, IsKey, IsPagePlace};
ghost use Rattle.iom_saved.specs.Seen.{IsPageSeen, page_seen_words};
ghost use Rattle.iom_saved.specs.declared.words.SavedFault.TheVariants as fault;

use crate::words::{SavedFault, SavedWords};
use iom_bits::{Kind, flag};
use iom_cache::{Key, Place, TransCache};
use iom_nested::Hit;
use std::alloc::{AllocError, Global};

/// Appends the words of a translation cache: each place, live or empty. The fault is a refused allocation.
pub fn put_pages(out: &mut Vec<u64>, cache: &TransCache) -> Result<(), AllocError>
    ensures words { OnOk result (out.new.items ≡ out.old.items ++ pages_words cache.now) }
    ensures kept { OnOk result (ArePages cache.now) }
{
    out.push(cache.len() as u64)?;
    for i in 0..cache.len() {
        put_place(out, &cache.place(i as u64))?;
    }
    Ok(())
}

/// The translation cache that the next words are.
pub fn take_pages(alloc: Global, words: &mut SavedWords<'_>) -> Result<TransCache, SavedFault>
    ensures words { IfOk result (λ cache. words.old ≡ pages_words cache ++ words.new) }
    ensures taken { (places : List (Option (TheKey × TheHit))) (rest : List ℕ) → words.old ≡ pages_words places ++ rest → ArePages places →
        MatchResult result (λ taken. (taken ≡ places) × (words.new ≡ rest)) (λ why. why ≡ fault.OutOfMemory) }
{
    let Some(count) = words.next() else {
        return Err(SavedFault::Bad);
    };
    let mut cache = TransCache::new(alloc)?;
    for _ in 0..count {
        let Some(place) = take_place(words) else {
            return Err(SavedFault::Bad);
        };
        if !cache.append(place) {
            return Err(SavedFault::Bad);
        }
    }
    Ok(cache)
}

fn put_place(out: &mut Vec<u64>, place: &Place<Key, Hit>) -> Result<(), AllocError>
    ensures words { OnOk result (out.new.items ≡ out.old.items ++ page_seen_words place.now) }
    ensures kept { OnOk result (IsPageSeen place.now) }
{
    match place {
        Place::Live(key, hit) => {
            out.push(1)?;
            put_key(out, key)?;
            put_hit(out, hit)
        }
        Place::Empty => out.extend_from_slice(&[0]),
        Place::Beyond => Ok(()),
    }
}

fn take_place(words: &mut SavedWords<'_>) -> Option<Option<(Key, Hit)>>
    ensures words { IfSome result (λ place. words.old ≡ page_place_words place ++ words.new) }
    ensures taken { (place : Option (TheKey × TheHit)) (rest : List ℕ) → words.old ≡ page_place_words place ++ rest → IsPagePlace place →
        IsSomeAnd result (λ taken. (taken ≡ place) × (words.new ≡ rest)) }
{
    if !words.flag()? {
        return Some(None);
    }
    let key = take_key(words)?;
    let hit = take_hit(words)?;
    Some(Some((key, hit)))
}

fn put_key(out: &mut Vec<u64>, key: &Key) -> Result<(), AllocError>
    ensures words { OnOk result (out.new.items ≡ out.old.items ++ key_words key.now) }
    ensures kept { OnOk result (IsKey key.now) }
{
    out.extend_from_slice(&[u64::from(key.did), key.page, kind_word(key.kind)])?;
    put_id(out, key.pscid)?;
    put_id(out, wide(key.gscid))
}

fn take_key(words: &mut SavedWords<'_>) -> Option<Key>
    ensures words { IfSome result (λ key. words.old ≡ key_words key ++ words.new) }
    ensures taken { (key : TheKey) (rest : List ℕ) → words.old ≡ key_words key ++ rest → IsKey key →
        IsSomeAnd result (λ taken. (taken ≡ key) × (words.new ≡ rest)) }
{
    let did = words.next_u32()?;
    let page = words.next()?;
    let kind = take_kind(words)?;
    let pscid = take_id(words)?;
    let gscid = take_short_id(words)?;
    Some(Key {
        did,
        pscid,
        gscid,
        page,
        kind,
    })
}

fn put_hit(out: &mut Vec<u64>, hit: &Hit) -> Result<(), AllocError>
    ensures words { OnOk result (out.new.items ≡ out.old.items ++ hit_words hit.now) }
    ensures kept { OnOk result (IsHit hit.now) }
{
    out.extend_from_slice(&[
        hit.frame,
        u64::from(hit.level),
        flag(hit.global),
        flag(hit.napot),
    ])
}

fn take_hit(words: &mut SavedWords<'_>) -> Option<Hit>
    ensures words { IfSome result (λ hit. words.old ≡ hit_words hit ++ words.new) }
    ensures taken { (hit : TheHit) (rest : List ℕ) → words.old ≡ hit_words hit ++ rest → IsHit hit →
        IsSomeAnd result (λ taken. (taken ≡ hit) × (words.new ≡ rest)) }
{
    let frame = words.next()?;
    let level = words.next_u8()?;
    let (global, napot) = words.flags()?;
    if frame >= 1 << 52 || level >= 5 {
        return None;
    }
    Some(Hit {
        frame,
        level,
        global,
        napot,
    })
}

fn kind_word(kind: Kind) -> u64
    ensures { result ≡ kind_word kind }
{
    match kind {
        Kind::Read => 0,
        Kind::Write => 1,
    }
}

fn take_kind(words: &mut SavedWords<'_>) -> Option<Kind>
    ensures words { IfSome result (λ kind. words.old ≡ kind_word kind ∷ words.new) }
    ensures taken { (kind : TheKind) (rest : List ℕ) → words.old ≡ kind_word kind ∷ rest →
        IsSomeAnd result (λ taken. (taken ≡ kind) × (words.new ≡ rest)) }
{
    match words.next()? {
        0 => Some(Kind::Read),
        1 => Some(Kind::Write),
        _ => None,
    }
}

// An id of 16 bits as one of 32.
fn wide(id: Option<u16>) -> Option<u32>
    ensures same { result ≡ id }
    ensures below { IsIdBelow (2 ^ 16) result }
{
    match id {
        Some(id) => Some(u32::from(id)),
        None => None,
    }
}

fn put_id(out: &mut Vec<u64>, id: Option<u32>) -> Result<(), AllocError>
    ensures words { OnOk result (out.new.items ≡ out.old.items ++ id_words id) }
    ensures below { IsIdBelow (2 ^ 32) id }
{
    match id {
        Some(id) => out.extend_from_slice(&[1, u64::from(id)]),
        None => out.extend_from_slice(&[0, 0]),
    }
}

fn take_id(words: &mut SavedWords<'_>) -> Option<Option<u32>>
    ensures words { IfSome result (λ id. words.old ≡ id_words id ++ words.new) }
    ensures taken { (id : Option ℕ) (rest : List ℕ) → words.old ≡ id_words id ++ rest → IsIdBelow (2 ^ 32) id →
        IsSomeAnd result (λ taken. (taken ≡ id) × (words.new ≡ rest)) }
{
    let has_id = words.flag()?;
    let id = words.next_u32()?;
    match (has_id, id) {
        (true, id) => Some(Some(id)),
        (false, 0) => Some(None),
        (false, _) => None,
    }
}

fn take_short_id(words: &mut SavedWords<'_>) -> Option<Option<u16>>
    ensures words { IfSome result (λ id. words.old ≡ id_words id ++ words.new) }
    ensures taken { (id : Option ℕ) (rest : List ℕ) → words.old ≡ id_words id ++ rest → IsIdBelow (2 ^ 16) id →
        IsSomeAnd result (λ taken. (taken ≡ id) × (words.new ≡ rest)) }
{
    let has_id = words.flag()?;
    let id = words.next_u16()?;
    match (has_id, id) {
        (true, id) => Some(Some(id)),
        (false, 0) => Some(None),
        (false, _) => None,
    }
}
